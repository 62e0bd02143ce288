//! Blocks and stretches.

ghost use Rattle.std.specs.Prelude.{◌≡◌, ◌≢◌, ◌/◌, [], ◌∷◌, IfOk, drop, take};
ghost use Rattle.std.specs.List.{list_any};
ghost use Rattle.plan_duties.specs.Pluses.{all_pass};
ghost use Rattle.plan_duties.specs.Stretches.{
  block_fits,
  ends_of,
  has_other,
  is_block,
  is_length,
  is_stretch,
  lasts_of,
  make_one,
  may_change,
  may_end,
  part_fits,
  parts_fit,
  rows_to,
  stretch_fits,
};
ghost use Rattle.plan_faults.specs.declared.fault.DutyFault.TheVariants as fault;
ghost use Rattle.plan_faults.specs.declared.fault.LineFault.TheVariants.{Duty, Memory as out_of_memory};
ghost use Rattle.plan_fields.specs.Steps.{Reads};

use model_rosters::{List, Memory};
use plan_faults::{DutyFault, LineFault};
use plan_fields::{Draft, coded, copy};
use plan_meaning::{Lengths, Part, PlanCode};
use plan_words::Day;
use std::alloc::Global;

/// How long a block of a code lasts that no line has.
const NOTHING: Lengths = Lengths {
    least: 0,
    greatest: 0,
};

/// Returns the least and the greatest block of a code, or of nothing where no line has the code.
pub(crate) fn lasts_of(lines: &[PlanCode], code: u8) -> Lengths
    ensures { result ≡ lasts_of lines.now code }
{
    match coded(lines, code) {
        Some(line) => line.lasts,
        None => NOTHING,
    }
}

// Whether activities may change within a stretch, as long as no line says that they may not.
fn may_change(change: Option<Option<u32>>) -> bool
    ensures { result ≡ may_change change }
{
    match change {
        Some(None) => false,
        _ => true,
    }
}

/// Whether a stretch over these codes is one block.
pub(crate) fn is_block(change: Option<Option<u32>>, codes: &[u8]) -> bool
    ensures { result ≡ is_block change codes.now }
{
    codes.len() < 2 || !may_change(change)
}

// Whether a stretch may be as long as a block of the code.
fn is_length(lines: &[PlanCode], range: Lengths, code: u8) -> bool
    ensures { result ≡ is_length lines.now range code }
{
    let lasts = lasts_of(lines, code);
    lasts.least <= range.greatest && range.least <= lasts.greatest
}

// Whether a stretch may be as long as a block of one of these codes.
fn is_any_length(lines: &[PlanCode], range: Lengths, codes: &[u8]) -> bool
    ensures { result ≡ list_any (is_length lines.now range) codes.now }
{
    codes.iter().any(|code| is_length(lines, range, *code))
}

// Whether one of these codes is another.
fn has_other(code: u8, ends: &[u8]) -> bool
    ensures { result ≡ has_other code ends.now }
{
    ends.iter().any(|other| *other != code)
}

// Whether one of the stretches that end so many to so many periods earlier may end with another code.
fn any_other(rows: &[List<u8>], code: u8) -> bool
    ensures { result ≡ list_any (has_other code) rows.now }
{
    rows.iter().any(|ends| has_other(code, ends.as_slice()))
}

// Returns all but the first rows, or none where they are no more.
fn behind(rows: &[List<u8>], count: usize) -> &[List<u8>]
    ensures { result.now ≡ drop count rows.now }
{
    if count <= rows.len() {
        &rows[count..]
    } else {
        &[]
    }
}

// Returns the first rows, or all where they are no more.
fn upto(rows: &[List<u8>], count: usize) -> &[List<u8>]
    ensures { result.now ≡ take count rows.now }
{
    if count <= rows.len() {
        &rows[..count]
    } else {
        rows
    }
}

// Whether a stretch of as many periods as there are rows may end with a block of a code.
fn may_end(rows: &[List<u8>], code: u8, least: usize, greatest: usize) -> bool
    ensures { result ≡ may_end rows.now code least greatest }
{
    let count = rows.len();
    let early = upto(rows, (count + 1).saturating_sub(least));
    any_other(behind(early, count.saturating_sub(greatest)), code)
}

// Returns how many whole periods so many minutes have.
fn periods_of(day: &Day, minutes: u32) -> u32
    ensures { result ≡ minutes / day.now.minutes }
{
    minutes / day.minutes()
}

// Returns the codes with which a stretch of as many periods as there are rows may end.
fn ends_of(
    alloc: Global,
    day: &Day,
    lines: &[PlanCode],
    rows: &[List<u8>],
    codes: &[u8],
) -> Result<List<u8>, Memory>
    ensures { IfOk result (λ ends. ends ≡ ends_of day.now lines.now rows.now codes.now) }
{
    let mut ends = List::new(alloc);
    for code in codes {
        let lasts = lasts_of(lines, *code);
        let least = periods_of(day, lasts.least) as usize;
        let greatest = periods_of(day, lasts.greatest) as usize;
        if may_end(rows, *code, least, greatest) {
            ends.push(*code)?;
        }
    }
    Ok(ends)
}

// Returns with which codes a stretch of nothing may end.
fn first_rows(alloc: Global) -> Result<List<List<u8>>, Memory>
    ensures { IfOk result (λ rows. rows ≡ (0 ∷ []) ∷ []) }
{
    let mut none = List::new(alloc);
    none.push(0)?;
    let mut rows = List::new(alloc);
    rows.push(none)?;
    Ok(rows)
}

// Returns with which codes stretches of 0 to so many periods may end.
fn rows_to(
    alloc: Global,
    day: &Day,
    lines: &[PlanCode],
    codes: &[u8],
    periods: u32,
) -> Result<List<List<u8>>, Memory>
    ensures { IfOk result (λ rows. rows ≡ rows_to day.now lines.now codes.now periods) }
{
    let mut rows = first_rows(alloc)?;
    for _done in 0..periods {
        let ends = ends_of(alloc, day, lines, rows.as_slice(), codes)?;
        rows.push(ends)?;
    }
    Ok(rows)
}

// Whether blocks of these codes, of which neighbours differ, make a stretch.
fn make_one(
    alloc: Global,
    day: &Day,
    lines: &[PlanCode],
    range: Lengths,
    codes: &[u8],
) -> Result<bool, Memory>
    ensures { IfOk result (λ b. b ≡ make_one day.now lines.now range codes.now) }
{
    let rows = rows_to(alloc, day, lines, codes, periods_of(day, range.greatest))?;
    let long = behind(rows.as_slice(), periods_of(day, range.least) as usize);
    Ok(long.iter().any(|ends| ends.len() != 0))
}

// Whether blocks of these codes make a stretch.
fn is_stretch(
    alloc: Global,
    day: &Day,
    draft: &Draft,
    range: Lengths,
    codes: &[u8],
) -> Result<bool, Memory>
    ensures { IfOk result (λ b. b ≡ is_stretch day.now draft.now range codes.now) }
{
    let lines = draft.codes.as_slice();
    if is_block(draft.change, codes) {
        return Ok(is_any_length(lines, range, codes));
    }
    make_one(alloc, day, lines, range, codes)
}

// Returns the fault of a block that is longer than a stretch.
fn long_block(alloc: Global, line: &PlanCode, most: u32) -> LineFault
    ensures { result ≢ out_of_memory → result ≡ Duty (fault.Block line.now.words line.now.lasts.least most) }
{
    match copy(alloc, line.words.as_slice()) {
        Ok(name) => LineFault::Duty {
            fault: DutyFault::Block {
                name,
                least: line.lasts.least,
                most,
            },
        },
        Err(Memory) => LineFault::Memory,
    }
}

// Checks that a block of the code is no longer than a stretch.
#[tactic(auto, unfolding(crate::specs::Stretches::block_fits))]
fn block_fits(alloc: Global, draft: &Draft, range: Lengths, code: u8) -> Result<(), LineFault>
    ensures { Reads (λ u. u) result (block_fits draft.now range code) }
{
    match coded(draft.codes.as_slice(), code) {
        Some(line) if range.greatest < line.lasts.least => {
            Err(long_block(alloc, line, range.greatest))
        }
        _ => Ok(()),
    }
}

// Checks that a block of each code is no longer than a stretch.
fn blocks_fit(alloc: Global, draft: &Draft, range: Lengths, codes: &[u8]) -> Result<(), LineFault>
    ensures { Reads (λ u. u) result (all_pass (block_fits draft.now range) codes.now) }
{
    for code in codes {
        block_fits(alloc, draft, range, *code)?;
    }
    Ok(())
}

// Returns the fault of codes whose blocks make no stretch.
fn no_blocks(alloc: Global, range: Lengths, codes: &[u8]) -> LineFault
    ensures { result ≢ out_of_memory → result ≡ Duty (fault.NoBlocks range codes.now) }
{
    match copy(alloc, codes) {
        Ok(codes) => LineFault::Duty {
            fault: DutyFault::NoBlocks {
                stretch: range,
                codes,
            },
        },
        Err(Memory) => LineFault::Memory,
    }
}

// Checks that blocks of these codes make a stretch, where there are codes.
#[tactic(auto, unfolding(crate::specs::Stretches::stretch_fits))]
fn stretch_fits(
    alloc: Global,
    day: &Day,
    draft: &Draft,
    range: Lengths,
    codes: &[u8],
) -> Result<(), LineFault>
    ensures { Reads (λ u. u) result (stretch_fits day.now draft.now range codes.now) }
{
    if codes.is_empty() {
        return Ok(());
    }
    if !is_stretch(alloc, day, draft, range, codes)? {
        return Err(no_blocks(alloc, range, codes));
    }
    Ok(())
}

// Checks a part for itself.
#[tactic(auto, unfolding(crate::specs::Stretches::part_fits))]
fn part_fits(
    alloc: Global,
    day: &Day,
    draft: &Draft,
    range: Lengths,
    part: &Part,
) -> Result<(), LineFault>
    ensures { Reads (λ u. u) result (part_fits day.now draft.now range part.now) }
{
    match part {
        Part::Work(codes) => {
            blocks_fit(alloc, draft, range, codes.as_slice())?;
            stretch_fits(alloc, day, draft, range, codes.as_slice())
        }
        Part::Pause(_, _) => Ok(()),
    }
}

/// Checks the parts one by one: that no least block is longer than a stretch, and that blocks make one.
///
/// # Errors
///
/// The first fault from the left; `Memory` where memory runs out.
pub(crate) fn parts_fit(
    alloc: Global,
    day: &Day,
    draft: &Draft,
    range: Lengths,
    parts: &[Part],
) -> Result<(), LineFault>
    ensures { Reads (λ u. u) result (parts_fit day.now draft.now range parts.now) }
{
    for part in parts {
        part_fits(alloc, day, draft, range, part)?;
    }
    Ok(())
}
