//! Lines of codes, of what they cost more at times, and of needs.

ghost use Rattle.std.specs.Prelude.{◌≡◌};
ghost use Rattle.plan_faults.specs.declared.fault.LineFault.TheVariants as line;
ghost use Rattle.plan_fields.specs.Steps.{Reads};
ghost use Rattle.plan_lines.specs.CodeLines.{
  code_line,
  code_words,
  extra_line,
  extra_words,
  has_name,
  has_need,
  need_line,
  need_words,
  new_code,
  new_extra,
  new_name,
  new_need,
  pause_count,
  room_for,
  room_for_pause,
  room_for_work,
  with_extra,
  work_count,
};

use crate::day::miscounted;
use crate::money::late;
use model_rosters::List;
use plan_faults::{Kind, LineFault, NameFault, StandFault};
use plan_fields as fields;
use plan_fields::{
    Draft, costly_period, count, decimals_of, hour, known, lengths, name_of, span, told, work_code,
};
use plan_meaning::{Extra, Need, PlanCode};
use plan_words::Day;
use std::alloc::Global;
use text_lines::Words;

/// The name of a code has at most so many bytes.
const MOST_BYTES: usize = 60;

/// There are at most so many codes of work.
const MOST_WORK: usize = 8;

/// There are at most so many pauses.
const MOST_PAUSES: usize = 23;

// Returns how many codes of work there are.
fn work_count(codes: &[PlanCode]) -> usize
    ensures { result ≡ work_count codes.now }
{
    codes.iter().filter(|line| line.work).count()
}

// Returns how many pauses there are.
fn pause_count(codes: &[PlanCode]) -> usize
    ensures { result ≡ pause_count codes.now }
{
    codes.iter().filter(|line| !line.work).count()
}

// The fault of a line of which as many as can be stand above.
fn too_many(fault: StandFault) -> LineFault
    ensures { result ≡ line.Stand fault }
{
    LineFault::Stand { fault }
}

// Checks that a further code of work can stand.
#[tactic(auto, unfolding(crate::specs::CodeLines::room_for_work))]
fn room_for_work(draft: &Draft) -> Result<(), LineFault>
    ensures { result ≡ room_for_work draft.now }
{
    if 0 < draft.duties.len() {
        return Err(late(Kind::Work));
    }
    if MOST_WORK <= work_count(draft.codes.as_slice()) {
        return Err(too_many(StandFault::ManyWork));
    }
    Ok(())
}

// Checks that a further pause can stand.
#[tactic(auto, unfolding(crate::specs::CodeLines::room_for_pause))]
fn room_for_pause(draft: &Draft) -> Result<(), LineFault>
    ensures { result ≡ room_for_pause draft.now }
{
    if 0 < draft.duties.len() {
        return Err(late(Kind::Pause));
    }
    if MOST_PAUSES <= pause_count(draft.codes.as_slice()) {
        return Err(too_many(StandFault::ManyPauses));
    }
    Ok(())
}

// Checks that a further code of work, or a further pause, can stand.
#[tactic(auto, unfolding(crate::specs::CodeLines::room_for))]
fn room_for(draft: &Draft, work: bool) -> Result<(), LineFault>
    ensures { result ≡ room_for draft.now work }
{
    if work {
        room_for_work(draft)
    } else {
        room_for_pause(draft)
    }
}

// Whether a code has the name.
fn has_name(codes: &[PlanCode], name: &[u8]) -> bool
    ensures { result ≡ has_name name.now codes.now }
{
    codes.iter().any(|line| line.words.as_slice() == name)
}

// Reads the words that a code is called, which no other has.
#[tactic(auto, unfolding(crate::specs::CodeLines::new_name))]
fn new_name(alloc: Global, codes: &[PlanCode], words: &mut Words<'_>) -> Result<List<u8>, LineFault>
    ensures { Reads (λ n. n) result (new_name codes.now words.old) }
{
    let name = name_of(alloc, MOST_BYTES, words)?;
    if has_name(codes, name.as_slice()) {
        return Err(LineFault::Name {
            name,
            fault: NameFault::Stands,
        });
    }
    Ok(name)
}

// Reads a code, how long it lasts, what an hour costs, and what it is called.
#[tactic(auto, unfolding(crate::specs::CodeLines::code_words))]
fn code_words(
    alloc: Global,
    day: &Day,
    draft: &Draft,
    work: bool,
    code: &[u8],
    least: &[u8],
    greatest: &[u8],
    amount: &[u8],
    words: &mut Words<'_>,
) -> Result<PlanCode, LineFault>
    ensures { Reads (λ x. x) result
        (code_words day.now draft.now work code.now least.now greatest.now amount.now words.old) }
{
    let codes = draft.codes.as_slice();
    let code = fields::new_code(alloc, codes, code)?;
    let lasts = lengths(alloc, day, least, greatest)?;
    let hour = hour(alloc, day, decimals_of(draft), amount)?;
    let words = new_name(alloc, codes, words)?;
    Ok(PlanCode {
        code,
        work,
        lasts,
        hour,
        words,
    })
}

// Reads the words of a code's line.
#[tactic(auto, unfolding(crate::specs::CodeLines::new_code))]
fn new_code(
    alloc: Global,
    day: &Day,
    draft: &Draft,
    work: bool,
    words: &mut Words<'_>,
) -> Result<PlanCode, LineFault>
    ensures { Reads (λ x. x) result (new_code day.now draft.now work words.old) }
{
    let found = count(words);
    let Some(code) = words.next() else {
        return Err(miscounted(found, 5, None));
    };
    let Some(least) = words.next() else {
        return Err(miscounted(found, 5, None));
    };
    let Some(greatest) = words.next() else {
        return Err(miscounted(found, 5, None));
    };
    let Some(amount) = words.next() else {
        return Err(miscounted(found, 5, None));
    };
    if words.again().next().is_none() {
        return Err(miscounted(found, 5, None));
    }
    code_words(
        alloc, day, draft, work, code, least, greatest, amount, words,
    )
}

/// Reads the line of a code of work, or of a pause, behind its first word.
///
/// # Errors
///
/// That duties stand above, then that as many codes as can be do, then the first fault of the words.
pub(crate) fn code_line(
    alloc: Global,
    day: &Day,
    draft: &mut Draft,
    work: bool,
    words: &mut Words<'_>,
) -> Result<(), LineFault>
    ensures { Reads (λ _. (draft.new)) result (code_line day.now draft.old work words.old) }
{
    room_for(draft, work)?;
    let code = new_code(alloc, day, draft, work, words)?;
    draft.codes.push(code)?;
    Ok(())
}

// Adds a line by which a code costs more, where no period costs too much with it.
#[tactic(auto, unfolding(crate::specs::CodeLines::with_extra))]
fn with_extra(day: &Day, extras: &mut List<Extra>, hour: u32, extra: Extra) -> Result<(), LineFault>
    ensures { Reads (λ _. (extras.new)) result (with_extra day.now extras.old hour extra) }
{
    extras.push(extra)?;
    match costly_period(day, extras.as_slice(), extra.code, hour as u64) {
        Some(units) => Err(LineFault::Period {
            code: extra.code,
            units: told(units),
        }),
        None => Ok(()),
    }
}

// Reads a code, in which time of the day it costs more, and how much.
#[tactic(auto, unfolding(crate::specs::CodeLines::extra_words))]
fn extra_words(
    alloc: Global,
    day: &Day,
    draft: &mut Draft,
    code: &[u8],
    from: &[u8],
    to: &[u8],
    amount: &[u8],
) -> Result<(), LineFault>
    ensures { Reads (λ _. (draft.new)) result
        (extra_words day.now draft.old code.now from.now to.now amount.now) }
{
    let line = known(alloc, draft.codes.as_slice(), code)?;
    let code = line.code;
    let plain = line.hour;
    let times = span(alloc, day, from, to)?;
    let hour = hour(alloc, day, decimals_of(draft), amount)?;
    let extra = Extra { code, times, hour };
    with_extra(day, &mut draft.extras, plain, extra)
}

// Reads the words of a line by which a code costs more.
#[tactic(auto, unfolding(crate::specs::CodeLines::new_extra))]
fn new_extra(
    alloc: Global,
    day: &Day,
    draft: &mut Draft,
    words: &mut Words<'_>,
) -> Result<(), LineFault>
    ensures { Reads (λ _. (draft.new)) result (new_extra day.now draft.old words.old) }
{
    let found = count(words);
    let Some(code) = words.next() else {
        return Err(miscounted(found, 4, Some(4)));
    };
    let Some(from) = words.next() else {
        return Err(miscounted(found, 4, Some(4)));
    };
    let Some(to) = words.next() else {
        return Err(miscounted(found, 4, Some(4)));
    };
    let Some(amount) = words.next() else {
        return Err(miscounted(found, 4, Some(4)));
    };
    if let Some(_) = words.next() {
        return Err(miscounted(found, 4, Some(4)));
    }
    extra_words(alloc, day, draft, code, from, to, amount)
}

/// Reads a line by which a code costs more, behind its first word.
///
/// # Errors
///
/// That duties stand above, then the first fault of the words, then that a period costs too much with it.
#[tactic(auto, unfolding(crate::specs::CodeLines::extra_line))]
pub(crate) fn extra_line(
    alloc: Global,
    day: &Day,
    draft: &mut Draft,
    words: &mut Words<'_>,
) -> Result<(), LineFault>
    ensures { Reads (λ _. (draft.new)) result (extra_line day.now draft.old words.old) }
{
    if 0 < draft.duties.len() {
        return Err(late(Kind::Extra));
    }
    new_extra(alloc, day, draft, words)
}

// Whether a need line of the code stands above.
fn has_need(needs: &[Need], code: u8) -> bool
    ensures { result ≡ has_need needs.now code }
{
    needs.iter().any(|need| need.code == code)
}

// Reads a code of work, and what an hour of a missing and of a needless employee costs.
#[tactic(auto, unfolding(crate::specs::CodeLines::need_words))]
fn need_words(
    alloc: Global,
    day: &Day,
    draft: &Draft,
    code: &[u8],
    missing: &[u8],
    needless: &[u8],
) -> Result<Need, LineFault>
    ensures { Reads (λ x. x) result
        (need_words day.now draft.now code.now missing.now needless.now) }
{
    let code = work_code(alloc, draft.codes.as_slice(), code)?;
    if has_need(draft.needs.as_slice(), code) {
        return Err(too_many(StandFault::SecondNeed { code }));
    }
    let missing = hour(alloc, day, decimals_of(draft), missing)?;
    let needless = hour(alloc, day, decimals_of(draft), needless)?;
    Ok(Need {
        code,
        missing,
        needless,
    })
}

// Reads the words of a need line.
#[tactic(auto, unfolding(crate::specs::CodeLines::new_need))]
fn new_need(
    alloc: Global,
    day: &Day,
    draft: &Draft,
    words: &mut Words<'_>,
) -> Result<Need, LineFault>
    ensures { Reads (λ x. x) result (new_need day.now draft.now words.old) }
{
    let found = count(words);
    let Some(code) = words.next() else {
        return Err(miscounted(found, 3, Some(3)));
    };
    let Some(missing) = words.next() else {
        return Err(miscounted(found, 3, Some(3)));
    };
    let Some(needless) = words.next() else {
        return Err(miscounted(found, 3, Some(3)));
    };
    if let Some(_) = words.next() {
        return Err(miscounted(found, 3, Some(3)));
    }
    need_words(alloc, day, draft, code, missing, needless)
}

/// Reads a need line, behind its first word.
///
/// # Errors
///
/// The first fault of the words, also that a need line of the code stands above.
#[tactic(auto, unfolding(crate::specs::CodeLines::need_line))]
pub(crate) fn need_line(
    alloc: Global,
    day: &Day,
    draft: &mut Draft,
    words: &mut Words<'_>,
) -> Result<(), LineFault>
    ensures { Reads (λ _. (draft.new)) result (need_line day.now draft.old words.old) }
{
    let need = new_need(alloc, day, draft, words)?;
    draft.needs.push(need)?;
    Ok(())
}
