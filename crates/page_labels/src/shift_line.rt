//! The lines of shifts.

ghost use Rattle.std.specs.Prelude.{◌≡◌, ◌≤◌, length, IfOk};
ghost use Rattle.page_labels.specs.LabelLines.{grouped_at, shift_at, worded_at};
ghost use Rattle.page_labels.specs.Steps.{Reads};
ghost use Rattle.page_labels.specs.declared.fault.LabelFault.TheVariants.{BadNumber, OutOfRange};
ghost use Rattle.text_lines.specs.Fields.{number_at};

use crate::fault::LabelFault;
use crate::field::{group, words_of};
use crate::labels::{Labels, ShiftLabel, has_shift};
use model_rosters::{Instance, List, Memory};
use std::alloc::Global;
use text_lines::{Words, put, read_within};

// Copies a word.
fn copied(alloc: Global, word: &[u8]) -> Result<List<u8>, Memory>
    ensures { IfOk result (λ bytes. bytes ≡ word.now) }
{
    let mut bytes = List::new(alloc);
    put(&mut bytes, word)?;
    Ok(bytes)
}

// Reads the word and the name of a shift.
#[tactic(auto, unfolding(crate::specs::LabelLines::worded_at))]
fn worded(
    alloc: Global,
    labels: &mut Labels,
    line: u32,
    number: u32,
    group: u8,
    words: &mut Words<'_>,
) -> Result<(), LabelFault>
    ensures { Reads (λ _. (labels.new)) result (worded_at line labels.old number group words.old) }
{
    let Some(word) = words.next() else {
        return Err(LabelFault::UnknownLine { line });
    };
    let name = words_of(alloc, line, words)?;
    if has_shift(labels.shifts.as_slice(), number) {
        return Err(LabelFault::Twice { line });
    }
    let word = copied(alloc, word)?;
    labels.shifts.push(ShiftLabel {
        line,
        number,
        group,
        word,
        name,
    })?;
    Ok(())
}

// Reads the group of a shift, its word and its name.
#[tactic(auto, unfolding(crate::specs::LabelLines::grouped_at))]
fn grouped(
    alloc: Global,
    instance: &Instance,
    labels: &mut Labels,
    line: u32,
    number: u32,
    words: &mut Words<'_>,
) -> Result<(), LabelFault>
    requires { length instance.now.groups ≤ 8 }
    ensures { Reads (λ _. (labels.new)) result
        (grouped_at line instance.now labels.old number words.old) }
{
    let Some(word) = words.next() else {
        return Err(LabelFault::UnknownLine { line });
    };
    let names = instance.grammar.names.as_slice();
    let group = group(line, names, instance.groups.as_slice(), word)?;
    worded(alloc, labels, line, number, group, words)
}

// Reads the number of a shift.
fn number(line: u32, word: &[u8]) -> Result<u32, LabelFault>
    ensures { result ≡ number_at (BadNumber line) (OutOfRange line) 1 4294967295 word.now }
{
    let none = LabelFault::BadNumber { line };
    let outside = LabelFault::OutOfRange { line };
    match read_within(1, 4_294_967_295, none, outside, word) {
        Ok(n) => Ok(n as u32),
        Err(fault) => Err(fault),
    }
}

/// Reads a shift line, behind its first word.
///
/// # Errors
///
/// The first fault of the line; `Memory` where memory runs out.
#[tactic(auto, unfolding(crate::specs::LabelLines::shift_at))]
pub(crate) fn shift_line(
    alloc: Global,
    instance: &Instance,
    labels: &mut Labels,
    line: u32,
    words: &mut Words<'_>,
) -> Result<(), LabelFault>
    requires { length instance.now.groups ≤ 8 }
    ensures { Reads (λ _. (labels.new)) result (shift_at line instance.now labels.old words.old) }
{
    let Some(word) = words.next() else {
        return Err(LabelFault::UnknownLine { line });
    };
    let number = number(line, word)?;
    if instance.groups.len() == 0 {
        worded(alloc, labels, line, number, 0, words)
    } else {
        grouped(alloc, instance, labels, line, number, words)
    }
}
