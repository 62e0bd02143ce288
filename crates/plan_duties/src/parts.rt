//! The parts.

ghost use Rattle.std.specs.Prelude.{◌≡◌, ◌≢◌, ◌≤◌, IfOk, IsTrue, length, nat_eq};
ghost use Rattle.std.specs.List.{list_any};
ghost use Rattle.std.specs.Option.{option_copied};
ghost use Rattle.plan_faults.specs.declared.fault.LineFault.TheVariants.{Memory as out_of_memory, Part as part_fault};
ghost use Rattle.plan_faults.specs.declared.fault.PartFault.TheVariants.{Codes};
ghost use Rattle.plan_duties.specs.PartWords.{
  all_work,
  begins_set,
  clock_word,
  code_in,
  pause_at,
  pause_code,
  part_at,
  set_at,
  set_of,
  set_step,
  times_behind,
  two_times,
  work_codes,
  work_set,
};
ghost use Rattle.plan_duties.specs.Tails.{may_pause, work_part};
ghost use Rattle.plan_fields.specs.Codes.{coded};
ghost use Rattle.plan_fields.specs.Steps.{Reads};

use crate::tail::{Side, Tail};
use model_rosters::{List, Memory};
use plan_faults::{CodeFault, LineFault, PartFault};
use plan_fields::{begins, coded, copy, known};
use plan_meaning::{Part, PlanCode, Times};
use plan_words::Day;
use std::alloc::Global;
use text_lines::Words;

// Returns the codes of work in the order of their lines.
fn work_codes(alloc: Global, lines: &[PlanCode]) -> Result<List<u8>, Memory>
    ensures { IfOk result (λ codes. codes ≡ work_codes lines.now) }
{
    let mut codes = List::new(alloc);
    for line in lines {
        if line.work {
            codes.push(line.code)?;
        }
    }
    Ok(codes)
}

// Appends a stretch of work over these codes.
#[tactic(auto, unfolding(crate::specs::Tails::work_part))]
fn work_part(tail: &mut Tail, codes: List<u8>) -> Result<(), LineFault>
    ensures { Reads (λ _. (tail.new)) result (work_part tail.old codes tail.old.side) }
{
    if let Side::Work = tail.side {
        return Err(LineFault::Part {
            fault: PartFault::TwoStretches,
        });
    }
    tail.parts.push(Part::Work(codes))?;
    tail.side = Side::Work;
    Ok(())
}

/// Appends a stretch of work over all codes of work.
///
/// # Errors
///
/// `TwoStretches` where a stretch stands beside it; `Memory` where memory runs out.
pub(crate) fn all_work(alloc: Global, lines: &[PlanCode], tail: &mut Tail) -> Result<(), LineFault>
    ensures { Reads (λ _. (tail.new)) result (all_work lines.now tail.old) }
{
    let codes = work_codes(alloc, lines)?;
    work_part(tail, codes)
}

// Returns the fault of a word whose codes are twice there, or none.
fn no_set(alloc: Global, word: &[u8]) -> LineFault
    ensures { result ≢ out_of_memory → result ≡ part_fault (Codes word.now) }
{
    match copy(alloc, word) {
        Ok(word) => LineFault::Part {
            fault: PartFault::Codes { word },
        },
        Err(Memory) => LineFault::Memory,
    }
}

// Takes a code of a line of work above.
#[tactic(auto, unfolding(crate::specs::PartWords::code_in))]
fn code_in(lines: &[PlanCode], code: u8) -> Result<u8, LineFault>
    ensures { result ≡ code_in code (coded lines.now code) }
{
    match coded(lines, code) {
        Some(line) if line.work => Ok(code),
        Some(_) => Err(LineFault::Code {
            code,
            fault: CodeFault::Pause,
        }),
        None => Err(LineFault::Code {
            code,
            fault: CodeFault::Unknown,
        }),
    }
}

// Whether a code is in a set.
fn is_in(set: &[u8], code: u8) -> bool
    ensures { result ≡ list_any (λ other. nat_eq other code) set.now }
{
    set.iter().any(|other| *other == code)
}

// Takes a further code of work into a set.
#[tactic(auto, unfolding(crate::specs::PartWords::set_step))]
fn set_step(
    alloc: Global,
    lines: &[PlanCode],
    word: &[u8],
    set: &mut List<u8>,
    code: u8,
) -> Result<(), LineFault>
    ensures { Reads (λ _. (set.new)) result (set_step lines.now word.now set.old code) }
{
    if is_in(set.as_slice(), code) {
        return Err(no_set(alloc, word));
    }
    let code = code_in(lines, code)?;
    set.push(code)?;
    Ok(())
}

// Reads codes of work, none of them twice.
fn set_of(
    alloc: Global,
    lines: &[PlanCode],
    word: &[u8],
    codes: &[u8],
) -> Result<List<u8>, LineFault>
    ensures { Reads (λ s. s) result (set_of lines.now word.now codes.now) }
{
    let mut set = List::new(alloc);
    for code in codes {
        set_step(alloc, lines, word, &mut set, *code)?;
    }
    Ok(set)
}

// Whether a word begins as `work:` does.
fn begins_set(word: &[u8]) -> bool
    ensures value { result ≡ begins_set word.now }
    ensures bound { IsTrue result → 5 ≤ length word.now }
{
    word.starts_with(b"work:")
}

// Reads the codes of `work:CODES`.
#[tactic(auto, unfolding(crate::specs::PartWords::set_at))]
fn set_at(alloc: Global, lines: &[PlanCode], word: &[u8]) -> Result<List<u8>, LineFault>
    requires { 5 ≤ length word.now }
    ensures { Reads (λ s. s) result (set_at lines.now word.now) }
{
    let codes = &word[5..];
    if codes.is_empty() {
        return Err(no_set(alloc, word));
    }
    set_of(alloc, lines, word, codes)
}

// Appends a stretch of work over some codes.
fn work_set(
    alloc: Global,
    lines: &[PlanCode],
    tail: &mut Tail,
    word: &[u8],
) -> Result<(), LineFault>
    requires { 5 ≤ length word.now }
    ensures { Reads (λ _. (tail.new)) result (work_set lines.now tail.old word.now) }
{
    let codes = set_at(alloc, lines, word)?;
    work_part(tail, codes)
}

// Whether a word is meant as a time, since no code has its first two bytes.
fn clock_word(word: &[u8]) -> bool
    ensures { result ≡ clock_word word.now }
{
    1 < word.len() && b'0' <= word[0] && word[0] <= b'9'
}

// Reads the two times behind a pause, of which the first stands there.
#[tactic(auto, unfolding(crate::specs::PartWords::two_times))]
fn two_times(
    alloc: Global,
    day: &Day,
    code: u8,
    first: &[u8],
    second: Option<&[u8]>,
) -> Result<Times, LineFault>
    ensures { Reads (λ t. t) result (two_times day.now code first.now (option_copied second.entry)) }
{
    match second {
        Some(second) if clock_word(second) => begins(alloc, day, first, second),
        _ => Err(LineFault::Part {
            fault: PartFault::OneTime { code },
        }),
    }
}

// Reads the times behind a pause, where they stand there, and tells how many words they are.
#[tactic(auto, unfolding(crate::specs::PartWords::times_behind))]
fn times_behind(
    alloc: Global,
    day: &Day,
    code: u8,
    words: &Words<'_>,
) -> Result<(Option<Times>, usize), LineFault>
    ensures { Reads (λ x. x) result (times_behind day.now code words.now) }
{
    let mut ahead = words.again();
    match ahead.next() {
        Some(first) if clock_word(first) => {
            let times = two_times(alloc, day, code, first, ahead.next())?;
            Ok((Some(times), 2))
        }
        _ => Ok((None, 0)),
    }
}

// Reads the code of a pause.
#[tactic(auto, unfolding(crate::specs::PartWords::pause_code))]
fn pause_code(alloc: Global, lines: &[PlanCode], word: &[u8]) -> Result<u8, LineFault>
    ensures { Reads (λ n. n) result (pause_code lines.now word.now) }
{
    let line = known(alloc, lines, word)?;
    if line.work {
        return Err(LineFault::Code {
            code: line.code,
            fault: CodeFault::Work,
        });
    }
    Ok(line.code)
}

// Takes a pause that can stand beside the last part.
#[tactic(auto, unfolding(crate::specs::Tails::may_pause))]
fn may_pause(code: u8, side: Side) -> Result<u8, LineFault>
    ensures { result ≡ may_pause code side }
{
    match side {
        Side::Pause { code: other } if code == other => Err(LineFault::Part {
            fault: PartFault::TwoPauses { code },
        }),
        _ => Ok(code),
    }
}

// Appends a rest of a pause, and tells how many words behind its code are its.
#[tactic(auto, unfolding(crate::specs::PartWords::pause_at))]
fn pause_at(
    alloc: Global,
    day: &Day,
    lines: &[PlanCode],
    tail: &mut Tail,
    word: &[u8],
    words: &Words<'_>,
) -> Result<usize, LineFault>
    ensures { Reads (λ n. (tail.new, n)) result (pause_at day.now lines.now tail.old word.now words.now) }
{
    let code = pause_code(alloc, lines, word)?;
    let code = may_pause(code, tail.side)?;
    let (times, skip) = times_behind(alloc, day, code, words)?;
    tail.parts.push(Part::Pause(code, times))?;
    tail.side = Side::Pause { code };
    Ok(skip)
}

/// Appends the part that a word says, and tells how many words behind it are its.
///
/// # Errors
///
/// The first fault of the part; `Memory` where memory runs out.
#[tactic(auto, unfolding(crate::specs::PartWords::part_at))]
pub(crate) fn part_at(
    alloc: Global,
    day: &Day,
    lines: &[PlanCode],
    tail: &mut Tail,
    word: &[u8],
    words: &Words<'_>,
) -> Result<usize, LineFault>
    ensures { Reads (λ n. (tail.new, n)) result (part_at day.now lines.now tail.old word.now words.now) }
{
    if word == b"work".as_slice() {
        all_work(alloc, lines, tail)?;
        return Ok(0);
    }
    if begins_set(word) {
        work_set(alloc, lines, tail, word)?;
        return Ok(0);
    }
    pause_at(alloc, day, lines, tail, word, words)
}
