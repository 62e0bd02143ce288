//! The sums of the texts from which a page is made.

ghost use Rattle.std.specs.Prelude.{◌≡◌, ◌++◌, [], ◌∷◌, IfOk, OnOk, option_map};
ghost use Rattle.std.specs.Option.{option_copied};
ghost use Rattle.hex.specs.Hex.{encode_lower};
ghost use Rattle.sha2.specs.Sha256.{sha256};
ghost use Rattle.page_views.specs.Sums.{read_if, read_text, read_texts, roster_name, sums_of};

use crate::rows::copied;
use model_rosters::{List, Memory};
use page_text::ReadText;
use sha2::{Digest, Sha256};
use std::alloc::Global;
use text_lines::put;

/// The SHA-256 of each text from which a page is made.
#[derive(Clone, Copy, Debug, Drop)]
pub struct Sums {
    /// That of the rules text.
    pub rules: [u8; 32],
    /// That of the demand text.
    pub demand: [u8; 32],
    /// That of the proof text or the report.
    pub proof: [u8; 32],
    /// That of the labels text, where there is one.
    pub labels: Option<[u8; 32]>,
    /// That of the old text, where there is one.
    pub old: Option<[u8; 32]>,
}

// Returns the sum of a text.
fn sum_of(text: &[u8]) -> [u8; 32]
    ensures { result ≡ sha256 text.now }
{
    let mut hasher = Sha256::new();
    hasher.update(text);
    hasher.finalize()
}

// Returns the sum of a text, where there is one.
fn sum_if(text: Option<&[u8]>) -> Option<[u8; 32]>
    ensures { result ≡ option_map sha256 (option_copied text.entry) }
{
    match text {
        None => None,
        Some(text) => Some(sum_of(text)),
    }
}

/// Returns the sums of a rules text, a demand text, a proof text or a report, and of a labels text and an old
/// text where there is one.
pub fn sums_of(
    rules: &[u8],
    demand: &[u8],
    proof: &[u8],
    labels: Option<&[u8]>,
    old: Option<&[u8]>,
) -> Sums
    ensures { result
        ≡ sums_of rules.now demand.now proof.now (option_copied labels.entry) (option_copied old.entry) }
{
    Sums {
        rules: sum_of(rules),
        demand: sum_of(demand),
        proof: sum_of(proof),
        labels: sum_if(labels),
        old: sum_if(old),
    }
}

// Returns a sum in hexadecimal digits.
fn digits_of(alloc: Global, sum: &[u8]) -> Result<List<u8>, Memory>
    ensures { IfOk result (λ digits. digits ≡ encode_lower sum.now) }
{
    match hex::encode(alloc, sum) {
        Ok(digits) => copied(alloc, digits.as_bytes()),
        Err(_) => Err(Memory),
    }
}

// Appends what a text is, and its sum.
fn add_text(alloc: Global, read: &mut List<ReadText>, name: &[u8], sum: &[u8]) -> Result<(), Memory>
    ensures { OnOk result (read.new ≡ read.old ++ read_text name.now sum.now ∷ []) }
{
    let text = ReadText {
        name: copied(alloc, name)?,
        sum: digits_of(alloc, sum)?,
    };
    read.push(text)
}

// Appends the same, where there is such a text.
#[tactic(auto, unfolding(crate::specs::Sums::read_if))]
fn add_if(
    alloc: Global,
    read: &mut List<ReadText>,
    name: &[u8],
    sum: Option<[u8; 32]>,
) -> Result<(), Memory>
    ensures { OnOk result (read.new ≡ read.old ++ read_if name.now sum) }
{
    match sum {
        None => Ok(()),
        Some(sum) => add_text(alloc, read, name, &sum),
    }
}

// Returns what the text is that tells the roster.
#[tactic(auto, unfolding(crate::specs::Sums::roster_name))]
fn roster_name(stated: bool) -> &'static [u8]
    ensures { result.now ≡ roster_name stated }
{
    if stated { b"REPORT" } else { b"PROOF" }
}

/// Returns the texts from which a page is made, with their sums: the rules text, the demand text, the proof
/// text or the report, and the labels text and the old text where there is one.
///
/// # Errors
///
/// `Memory` where memory runs out; nothing is kept then.
#[tactic(auto, unfolding(crate::specs::Sums::read_texts))]
pub(crate) fn read_texts(alloc: Global, stated: bool, sums: &Sums) -> Result<List<ReadText>, Memory>
    ensures { IfOk result (λ read. read ≡ read_texts stated sums.now) }
{
    let mut read = List::new(alloc);
    add_text(alloc, &mut read, b"RULES", &sums.rules)?;
    add_text(alloc, &mut read, b"DEMAND", &sums.demand)?;
    add_text(alloc, &mut read, roster_name(stated), &sums.proof)?;
    add_if(alloc, &mut read, b"LABELS", sums.labels)?;
    add_if(alloc, &mut read, b"OLD", sums.old)?;
    Ok(read)
}
