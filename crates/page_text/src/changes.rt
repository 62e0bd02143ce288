//! How much differs from an old roster.

ghost use Rattle.std.specs.Prelude.{◌≡◌, ◌++◌, OnOk};
ghost use Rattle.page_parts.specs.Elements.{written};
ghost use Rattle.page_text.specs.Changes.{changes_part, differ, none_differ, plural, some_differ};

use model_rosters::{List, Memory};
use page_parts::{labelled, marks};

/// How much differs from an old roster.
#[derive(Clone, Copy, Debug, PartialEq, Eq, Drop)]
pub struct Changes {
    /// How many shifts differ, new and old ones.
    pub shifts: u32,
    /// In how many periods they differ.
    pub periods: u32,
}

// Returns what stands behind a word for so many.
fn plural(count: u32) -> &'static [u8]
    ensures { result.now ≡ plural count }
{
    if count == 1 { b"" } else { b"s" }
}

// Writes the sentence of how many shifts and periods differ.
#[tactic(auto, unfolding(crate::specs::Changes::some_differ))]
fn some_differ(out: &mut List<u8>, changes: Changes) -> Result<(), Memory>
    ensures { OnOk result (out.new ≡ out.old ++ written (some_differ changes)) }
{
    labelled(out, b"<p>", changes.shifts as u64)?;
    marks(out, b" shift")?;
    marks(out, plural(changes.shifts))?;
    labelled(out, b" and ", changes.periods as u64)?;
    marks(out, b" period")?;
    marks(out, plural(changes.periods))?;
    marks(
        out,
        b" differ from the old roster. Letters that differ are underlined.</p>\n",
    )
}

// Writes the sentence where no shift differs.
#[tactic(auto, unfolding(crate::specs::Changes::none_differ))]
fn none_differ(out: &mut List<u8>) -> Result<(), Memory>
    ensures { OnOk result (out.new ≡ out.old ++ written none_differ) }
{
    marks(out, b"<p>Nothing differs from the old roster.</p>\n")
}

// Writes the sentence of how much differs.
#[tactic(auto, unfolding(crate::specs::Changes::differ))]
fn differ(out: &mut List<u8>, changes: Changes) -> Result<(), Memory>
    ensures { OnOk result (out.new ≡ out.old ++ written (differ changes)) }
{
    if changes.shifts == 0 {
        return none_differ(out);
    }
    some_differ(out, changes)
}

/// Appends the sentence of how much differs from an old roster, where there is one.
///
/// # Errors
///
/// `Memory` where memory runs out; a part of it may stand there then.
#[tactic(auto, unfolding(crate::specs::Changes::changes_part))]
pub(crate) fn changes_part(out: &mut List<u8>, changes: Option<Changes>) -> Result<(), Memory>
    ensures { OnOk result (out.new ≡ out.old ++ written (changes_part changes)) }
{
    match changes {
        None => Ok(()),
        Some(changes) => differ(out, changes),
    }
}
