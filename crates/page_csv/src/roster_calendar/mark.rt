//! The mark of a title, a group and a word.

ghost use Rattle.std.specs.Prelude.{ℕ, List as Items, ◌≡◌, ◌++◌, OnOk};
ghost use Rattle.hex.specs.Hex.{encode_lower};
ghost use Rattle.sha2.specs.Hashers.{Holds256};
ghost use Rattle.page_csv.specs.roster_calendar.Marks.{counted, digest_of, mark_of};

use model_rosters::{List, Memory};
use sha2::{Digest, Sha256};
use std::alloc::Global;
use text_lines::put;

// Adds a text behind its length.
fn add_text(hasher: &mut Sha256, text: &[u8])
    ensures { (m : Items ℕ) → Holds256 hasher.old m → Holds256 hasher.new (m ++ counted text.now) }
{
    hasher.update((text.len() as u64).to_be_bytes());
    hasher.update(text);
}

// Returns the digest of a title, the name of a group and a word.
fn digest_of(title: &[u8], group: &[u8], word: &[u8]) -> [u8; 32]
    ensures { result ≡ digest_of title.now group.now word.now }
{
    let mut hasher = Sha256::new();
    add_text(&mut hasher, title);
    add_text(&mut hasher, group);
    add_text(&mut hasher, word);
    hasher.finalize()
}

/// Appends bytes by two hexadecimal digits each.
///
/// # Errors
///
/// `Memory` where memory runs out; `out` is as it was before then.
pub(crate) fn put_hexadecimal(alloc: Global, out: &mut List<u8>, bytes: &[u8]) -> Result<(), Memory>
    ensures { OnOk result (out.new ≡ out.old ++ encode_lower bytes.now) }
{
    match hex::encode(alloc, bytes) {
        Ok(digits) => put(out, digits.as_bytes()),
        Err(_) => Err(Memory),
    }
}

/// Returns what tells events apart: the first 16 bytes of the SHA-256 over a title, the name of a group and
/// a word, each behind its length in 8 bytes, big end first.
pub(crate) fn mark_of(title: &[u8], group: &[u8], word: &[u8]) -> [u8; 16]
    ensures { result ≡ mark_of title.now group.now word.now }
{
    let digest = digest_of(title, group, word);
    let mut mark = [0; 16];
    mark.copy_from_slice(&digest[..16]);
    mark
}
