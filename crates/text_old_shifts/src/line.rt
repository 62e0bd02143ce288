//! A line behind the first.

ghost use Rattle.std.specs.Prelude.{◌≡◌, ◌+◌, ◌≤◌, [], ◌∷◌, length};
ghost use Rattle.text_old_shifts.specs.ShiftsOf.{is_node, line_at, other_at};
ghost use Rattle.text_old_shifts.specs.Steps.{Reads};
ghost use Rattle.text_old_shifts.specs.declared.said.SaidShifts.{SaidShifts as Said};

use crate::fault::OldFault;
use crate::header::{Header, is_pair};
use crate::said::SaidShifts;
use crate::shift::shift;
use model_rosters::Instance;
use std::alloc::Global;
use text_lines::Line;

// Whether a word begins the line of a node.
fn begins_node(word: &[u8]) -> bool
    ensures { result ≡ is_node (word.now ∷ []) }
{
    word == b"split".as_slice()
        || word == b"priced".as_slice()
        || word == b"pinned".as_slice()
        || word == b"bare".as_slice()
}

/// Whether a line is that of a node.
pub(crate) fn is_node(line: &Line<'_>) -> bool
    ensures { result ≡ is_node line.now.words }
{
    match line.words().next() {
        Some(word) => begins_node(word),
        None => false,
    }
}

// Reads a line that is none of a shift.
#[tactic(auto, unfolding(crate::specs::ShiftsOf::other_at))]
fn other_line(header: Header, line: &Line<'_>) -> Result<(), OldFault>
    ensures { (s : Said) → Reads (λ _. s) result (other_at line.now.number header s line.now.words) }
{
    if header.report && is_pair(&mut line.words(), b"cost", b"none") {
        return Err(OldFault::NoRoster {
            line: line.number(),
        });
    }
    Ok(())
}

/// Reads a line behind the first, and adds what it says of a shift to what the lines before say.
///
/// # Errors
///
/// The first fault of the line; `Memory` where memory runs out.
#[tactic(auto, unfolding(crate::specs::ShiftsOf::line_at))]
pub(crate) fn line(
    alloc: Global,
    instance: &Instance,
    header: Header,
    said: &mut SaidShifts,
    line: &Line<'_>,
) -> Result<(), OldFault>
    requires groups { length instance.now.groups ≤ 8 }
    requires few { length said.old.shifts + said.old.passed ≤ 64 }
    ensures { Reads (λ _. (said.new)) result
        (line_at line.now.number instance.now header said.old line.now.words) }
{
    let mut words = line.words();
    let Some(first) = words.next() else {
        return Ok(());
    };
    if first == b"shift".as_slice() {
        shift(
            alloc,
            instance,
            header.named,
            said,
            line.number(),
            &mut words,
        )
    } else {
        other_line(header, line)
    }
}
