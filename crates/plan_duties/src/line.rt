//! A duty line.

ghost use Rattle.std.specs.Prelude.{◌≡◌, ◌≢◌, ◌≤◌, IfOk, None, length};
ghost use Rattle.plan_duties.specs.DutyLines.{
  amount_word,
  duty_at,
  duty_of,
  duty_tail,
  step_at,
  tail_at,
};
ghost use Rattle.plan_duties.specs.Tails.{no_tail};
ghost use Rattle.plan_faults.specs.declared.fault.LineFault.TheVariants.{Count, Memory as out_of_memory, Part};
ghost use Rattle.plan_faults.specs.declared.fault.PartFault.TheVariants.{NoEqual};
ghost use Rattle.plan_fields.specs.Steps.{Reads};

use crate::behind::{behind_at, cannot_stand, is_behind};
use crate::parts::part_at;
use crate::tail::{Tail, no_tail, parts_done};
use model_rosters::{List, Memory};
use plan_faults::{LineFault, PartFault};
use plan_fields::{copy, cost, count, lengths, plan_name};
use plan_meaning::{Duty, Lengths, PlanCode};
use plan_words::Day;
use std::alloc::Global;
use text_lines::Words;

// Reads what a word behind the `=` begins, and tells how many words behind it are its.
#[tactic(auto, unfolding(crate::specs::DutyLines::step_at))]
fn step_at(
    alloc: Global,
    day: &Day,
    decimals: u8,
    codes: &[PlanCode],
    tail: &mut Tail,
    word: &[u8],
    words: &Words<'_>,
) -> Result<usize, LineFault>
    ensures { Reads (λ n. (tail.new, n)) result
        (step_at day.now decimals codes.now tail.old word.now words.now) }
{
    if is_behind(word) {
        return behind_at(alloc, day, decimals, tail, word, words);
    }
    if tail.closed {
        return Err(cannot_stand(alloc, word));
    }
    part_at(alloc, day, codes, tail, word, words)
}

// Reads what stands behind the `=`.
fn tail_of(
    alloc: Global,
    day: &Day,
    decimals: u8,
    codes: &[PlanCode],
    words: &mut Words<'_>,
) -> Result<Tail, LineFault>
    ensures { Reads (λ t. t) result (tail_at day.now decimals codes.now no_tail 0 words.old) }
{
    let mut tail = no_tail(alloc);
    while let Some(word) = words.next() {
        let skip = step_at(alloc, day, decimals, codes, &mut tail, word, words)?;
        words.skip(skip);
    }
    Ok(tail)
}

// Reads what stands behind the `=`, whose parts are 1 to 8.
fn duty_tail(
    alloc: Global,
    day: &Day,
    decimals: u8,
    codes: &[PlanCode],
    words: &mut Words<'_>,
) -> Result<Tail, LineFault>
    ensures value { Reads (λ t. t) result (duty_tail day.now decimals codes.now words.old) }
    ensures few { IfOk result (λ t. length t.parts ≤ 8) }
{
    let mut tail = tail_of(alloc, day, decimals, codes, words)?;
    parts_done(&mut tail)?;
    Ok(tail)
}

// Returns the fault of a word where the `=` is due.
fn no_equal(alloc: Global, word: &[u8]) -> LineFault
    ensures { result ≢ out_of_memory → result ≡ Part (NoEqual word.now) }
{
    match copy(alloc, word) {
        Ok(word) => LineFault::Part {
            fault: PartFault::NoEqual { word },
        },
        Err(Memory) => LineFault::Memory,
    }
}

// Reads the cost of a duty and the `=` behind it.
#[tactic(auto, unfolding(crate::specs::DutyLines::amount_word))]
fn amount_word(alloc: Global, decimals: u8, amount: &[u8], equal: &[u8]) -> Result<u32, LineFault>
    ensures { Reads (λ n. n) result (amount_word decimals amount.now equal.now) }
{
    let units = cost(alloc, decimals, amount)?;
    if equal != b"=".as_slice() {
        return Err(no_equal(alloc, equal));
    }
    Ok(units)
}

// Returns the duty of its name, its lengths, its cost and what stands behind the `=`.
fn duty_of(line: u32, name: List<u8>, lasts: Lengths, cost: u32, tail: Tail) -> Duty
    ensures { result ≡ duty_of line name lasts cost tail }
{
    let Tail {
        parts,
        begins,
        ends,
        stretch,
        plus,
        ..
    } = tail;
    Duty {
        line,
        name,
        lasts,
        cost,
        parts,
        begins,
        ends,
        stretch,
        plus: match plus {
            Some(plus) => plus,
            None => 0,
        },
    }
}

// Returns the fault of so many words, where five or more are due.
fn few_words(found: u64) -> LineFault
    ensures { result ≡ Count found 5 None }
{
    LineFault::Count {
        found,
        least: 5,
        most: None,
    }
}

/// Reads a duty line of the number `line`, behind its first word.
///
/// # Errors
///
/// `Count` where fewer than five words stand there, then the first fault of the words from the left; `Memory`
/// where memory runs out.
#[tactic(auto, unfolding(crate::specs::DutyLines::duty_at))]
pub fn read_duty(
    alloc: Global,
    day: &Day,
    decimals: u8,
    codes: &[PlanCode],
    line: u32,
    words: &mut Words<'_>,
) -> Result<Duty, LineFault>
    ensures value { Reads (λ x. x) result (duty_at line day.now decimals codes.now words.old) }
    ensures few { IfOk result (λ x. length x.parts ≤ 8) }
{
    let found = count(words);
    let Some(name) = words.next() else {
        return Err(few_words(found));
    };
    let Some(least) = words.next() else {
        return Err(few_words(found));
    };
    let Some(greatest) = words.next() else {
        return Err(few_words(found));
    };
    let Some(amount) = words.next() else {
        return Err(few_words(found));
    };
    let Some(equal) = words.next() else {
        return Err(few_words(found));
    };
    let name = plan_name(alloc, name)?;
    let lasts = lengths(alloc, day, least, greatest)?;
    let cost = amount_word(alloc, decimals, amount, equal)?;
    let tail = duty_tail(alloc, day, decimals, codes, words)?;
    Ok(duty_of(line, name, lasts, cost, tail))
}
