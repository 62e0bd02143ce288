//! One line of a rules text.

ghost use Rattle.std.specs.Prelude.{◌≡◌};
ghost use Rattle.text_rules.specs.Lines.{declare_at, codes_at, periods_at, start_at, line_at};
ghost use Rattle.text_rules.specs.Steps.{Reads, each};

use crate::codes::Codes;
use crate::copy::copy;
use crate::draft::{Draft, Start};
use crate::fault::RulesFault;
use crate::field::number;
use crate::rule::rule;
use model_rosters::is_name;
use std::alloc::Global;
use text_lines::{Line, Words};

// Declares a code for each word.
fn declare_all(
    codes: &mut Codes,
    line: u32,
    work: bool,
    words: &mut Words<'_>,
) -> Result<(), RulesFault>
    ensures value { Reads (λ _. (codes.new)) result (each (declare_at line work) codes.old words.old) }
{
    while let Some(word) = words.next() {
        codes.declare(line, work, word)?;
    }
    Ok(())
}

// Reads a `work` or an `idle` line, behind its first word.
#[tactic(auto, unfolding(crate::specs::Lines::codes_at))]
fn codes(draft: &mut Draft, line: u32, work: bool, words: &mut Words<'_>) -> Result<(), RulesFault>
    ensures value { Reads (λ _. (draft.new)) result (codes_at line work draft.old words.old) }
{
    if words.again().next().is_none() {
        return Err(RulesFault::UnknownLine { line });
    }
    declare_all(&mut draft.codes, line, work, words)
}

// Reads a `periods` line, behind its first word.
#[tactic(auto, unfolding(crate::specs::Lines::periods_at))]
fn periods(draft: &mut Draft, line: u32, words: &mut Words<'_>) -> Result<(), RulesFault>
    ensures value { Reads (λ _. (draft.new)) result (periods_at line draft.old words.old) }
{
    let Some(word) = words.next() else {
        return Err(RulesFault::UnknownLine { line });
    };
    if let Some(_) = words.next() {
        return Err(RulesFault::UnknownLine { line });
    }
    let count = number(line, 1, 96, word)?;
    if draft.periods.is_some() {
        return Err(RulesFault::Twice { line });
    }
    draft.periods = Some(count as u8);
    Ok(())
}

// Reads a `start` line, behind its first word.
#[tactic(auto, unfolding(crate::specs::Lines::start_at))]
fn start(
    alloc: Global,
    draft: &mut Draft,
    line: u32,
    words: &mut Words<'_>,
) -> Result<(), RulesFault>
    ensures value { Reads (λ _. (draft.new)) result (start_at line draft.old words.old) }
{
    let Some(word) = words.next() else {
        return Err(RulesFault::UnknownLine { line });
    };
    if let Some(_) = words.next() {
        return Err(RulesFault::UnknownLine { line });
    }
    if !is_name(word) {
        return Err(RulesFault::BadName { line });
    }
    if draft.start.is_some() {
        return Err(RulesFault::Twice { line });
    }
    let name = copy(alloc, word)?;
    draft.start = Some(Start { line, name });
    Ok(())
}

/// Reads a line.
///
/// # Errors
///
/// The line's first fault, as `line_at` says it, with the line's number. `Memory` may come at any time.
/// Nothing is said of the draft then.
#[tactic(auto, unfolding(crate::specs::Lines::line_at))]
pub fn line(alloc: Global, draft: &mut Draft, line: &Line<'_>) -> Result<(), RulesFault>
    ensures value { Reads (λ _. (draft.new)) result (line_at line.now.number draft.old line.now.words) }
{
    let number = line.number();
    let mut words = line.words();
    let Some(first) = words.next() else {
        return Err(RulesFault::UnknownLine { line: number });
    };
    if first == b"periods".as_slice() {
        periods(draft, number, &mut words)
    } else if first == b"work".as_slice() {
        codes(draft, number, true, &mut words)
    } else if first == b"idle".as_slice() {
        codes(draft, number, false, &mut words)
    } else if first == b"start".as_slice() {
        start(alloc, draft, number, &mut words)
    } else if first == b"rule".as_slice() {
        rule(
            alloc,
            draft.codes.as_slice(),
            &mut draft.rules,
            number,
            &mut words,
        )
    } else {
        Err(RulesFault::UnknownLine { line: number })
    }
}
