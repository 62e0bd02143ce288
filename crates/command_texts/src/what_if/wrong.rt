//! What is noted of a roster text.

ghost use Rattle.model_rosters.specs.SoundInstance.{IsSoundInstance};

use check_values::{RosterFault, read_roster};
use model_rosters::Instance;
use std::alloc::Global;
use text_fault_notes::{RosterWrong, comment_note, roster_note};

// Returns the line of a fault, 0 where it has none, and what is wrong there; nothing for want of memory.
fn wrong_of(fault: RosterFault) -> Option<(u32, RosterWrong)> {
    match fault {
        RosterFault::BadByte { line } => Some((line, RosterWrong::Byte)),
        RosterFault::UnknownLine { line } => Some((line, RosterWrong::Line)),
        RosterFault::BadNumber { line } => Some((line, RosterWrong::Number)),
        RosterFault::OutOfRange { line } => Some((line, RosterWrong::Length)),
        RosterFault::NoName { line } => Some((line, RosterWrong::Name)),
        RosterFault::TooManyShifts { line } => Some((line, RosterWrong::Many)),
        RosterFault::NoRoster { line } => Some((line, RosterWrong::None)),
        RosterFault::TooLong => Some((0, RosterWrong::Long)),
        RosterFault::Memory => None,
    }
}

/// Returns what is noted of a roster text that is refused.
pub fn fault_remark(alloc: Global, instance: &Instance, text: &[u8]) -> Option<String>
    requires { IsSoundInstance instance.now }
{
    match read_roster(alloc, instance, text) {
        Ok(_) => None,
        Err(fault) => {
            let (line, wrong) = wrong_of(fault)?;
            roster_note(alloc, text, !instance.groups.is_empty(), line, wrong)
        }
    }
}

/// Returns a note with another one on lines of its own behind it; after want of memory the first one.
pub fn both(first: Option<String>, second: Option<String>) -> Option<String> {
    match (first, second) {
        (Some(first), Some(second)) => {
            let mut text = first;
            if text.push('\n').is_ok() {
                let _ = text.push_str(second.as_str());
            }
            Some(text)
        }
        (None, second) => second,
        (first, None) => first,
    }
}

/// Returns what is noted of a roster text to which an answer has this status: where it refuses the text, with
/// 5, what stands there and what is wanted, and where a `#` stands in the word of a shift, that what follows
/// is a comment.
pub(crate) fn roster_remark(
    alloc: Global,
    instance: &Instance,
    text: &[u8],
    status: u8,
) -> Option<String>
    requires { IsSoundInstance instance.now }
{
    let comment = comment_note(alloc, text);
    match status {
        5 => both(fault_remark(alloc, instance, text), comment),
        _ => comment,
    }
}
