//! The line that tells a fault.

ghost use Rattle.std.specs.Prelude.{◌≡◌, ◌++◌, [], ◌∷◌, IfOk, OnOk};
ghost use Rattle.plan_faults.specs.FaultLine.{
  text_phrase,
  fault_line,
  fault_text,
  line_of,
  line_text,
  missing_line,
  much_text,
  over_text,
  parted,
  word_text,
};

use crate::counts::{put_counted, put_number};
use crate::duties::{put_duty, put_part, put_period, put_staff, put_starts};
use crate::fault::{Kind, LineFault, PlanFault};
use crate::lines::{
    first_word, put_bytes, put_code, put_count, put_day, put_name, put_pair, put_signs, put_stand,
};
use crate::phrases::say;
use crate::words::put_word_fault;
use model_rosters::{List, Memory};
use plan_words::WordFault;
use std::alloc::Global;
use text_lines::{put, put_place};

/// Fixed words of what is said.
#[derive(Clone, Copy, Drop)]
enum TextPhrase {
    Fewer,
    TooLong,
}

// Returns fixed words of what is said.
#[tactic(auto, unfolding(crate::specs::FaultLine::text_phrase))]
fn text_phrase(phrase: TextPhrase) -> &'static str
    ensures { result.now ≡ text_phrase phrase }
{
    match phrase {
        TextPhrase::Fewer =>
            ": fewer sets of codes in work:.., fewer plus, or greatest blocks as long as the stretch",
        TextPhrase::TooLong => "the text is too long",
    }
}

/// A plan has at most so many rules.
const MOST_RULES: u64 = 64;

/// A plan has at most so many names.
const MOST_NAMES: u64 = 32;

// Appends a word and why it cannot stand.
fn put_word(out: &mut List<u8>, word: &[u8], fault: WordFault) -> Result<(), Memory>
    ensures { OnOk result (out.new ≡ out.old ++ word_text word.now fault) }
{
    put(out, word)?;
    put_word_fault(out, fault)
}

// Appends why a line cannot stand.
#[tactic(auto, unfolding(crate::specs::FaultLine::line_text))]
fn put_line(out: &mut List<u8>, fault: &LineFault) -> Result<(), Memory>
    ensures { OnOk result (out.new ≡ out.old ++ line_text fault.now) }
{
    match fault {
        LineFault::Signs { signs } => put_signs(out, *signs),
        LineFault::Stand { fault } => put_stand(out, fault),
        LineFault::Count { found, least, most } => put_count(out, *found, *least, *most),
        LineFault::Word { word, fault } => put_word(out, word.as_slice(), *fault),
        LineFault::Pair {
            first,
            second,
            fault,
        } => put_pair(out, first.as_slice(), second.as_slice(), *fault),
        LineFault::Day { begin, end, fault } => {
            put_day(out, begin.as_slice(), end.as_slice(), *fault)
        }
        LineFault::Code { code, fault } => put_code(out, *code, *fault),
        LineFault::Name { name, fault } => put_name(out, name.as_slice(), *fault),
        LineFault::Bytes { found, most } => put_bytes(out, *found, *most),
        LineFault::Period { code, units } => put_period(out, b"this", *code, *units),
        LineFault::Plus { code, units } => put_period(out, b"plus", *code, *units),
        LineFault::Starts { word, fault } => put_starts(out, word.as_slice(), *fault),
        LineFault::Part { fault } => put_part(out, fault),
        LineFault::Duty { fault } => put_duty(out, fault),
        LineFault::Staff { fault } => put_staff(out, fault),
        LineFault::Memory => say(out, b"out of memory"),
    }
}

// Appends that no such line stands.
fn put_missing_line(out: &mut List<u8>, kind: Kind) -> Result<(), Memory>
    ensures { OnOk result (out.new ≡ out.old ++ missing_line kind) }
{
    say(out, b"no ")?;
    put(out, first_word(kind).as_bytes())?;
    say(out, b" line")
}

// Appends a number that is too great, where it is.
#[tactic(auto, unfolding(crate::specs::FaultLine::over_text))]
fn put_over(out: &mut List<u8>, found: u64, noun: &[u8], most: u64) -> Result<(), Memory>
    ensures { OnOk result (out.new ≡ out.old ++ over_text found noun.now most) }
{
    if found <= most {
        return Ok(());
    }
    put_counted(out, found, noun)?;
    say(out, b", at most ")?;
    put_number(out, most)
}

// Appends what parts two numbers that are both too great.
#[tactic(auto, unfolding(crate::specs::FaultLine::parted))]
fn put_parted(out: &mut List<u8>, rules: u64, names: u64) -> Result<(), Memory>
    ensures { OnOk result (out.new ≡ out.old ++ parted rules names) }
{
    if MOST_RULES < rules && MOST_NAMES < names {
        return say(out, b"; ");
    }
    Ok(())
}

// Appends that a plan takes too many rules or names.
fn put_much(out: &mut List<u8>, rules: u64, names: u64) -> Result<(), Memory>
    ensures { OnOk result (out.new ≡ out.old ++ much_text rules names) }
{
    put_over(out, rules, b"rule", MOST_RULES)?;
    put_parted(out, rules, names)?;
    put_over(out, names, b"name", MOST_NAMES)?;
    put(out, text_phrase(TextPhrase::Fewer).as_bytes())
}

// Returns the line that a fault carries.
fn line_of(fault: &PlanFault) -> Option<u32>
    ensures { result ≡ line_of fault.now }
{
    match fault {
        PlanFault::Line { line, .. } => Some(*line),
        _ => None,
    }
}

// Appends what is said of a fault.
#[tactic(auto, unfolding(crate::specs::FaultLine::fault_text))]
fn put_fault(out: &mut List<u8>, fault: &PlanFault) -> Result<(), Memory>
    ensures { OnOk result (out.new ≡ out.old ++ fault_text fault.now) }
{
    match fault {
        PlanFault::TooLong => put(out, text_phrase(TextPhrase::TooLong).as_bytes()),
        PlanFault::Line { fault, .. } => put_line(out, fault),
        PlanFault::NoLine { kind } => put_missing_line(out, *kind),
        PlanFault::TooMuch { rules, names } => put_much(out, *rules, *names),
        PlanFault::Memory => say(out, b"out of memory"),
    }
}

/// Returns the line that tells a fault, as `plan: line 9: no line above has the code x` with a line feed. A
/// fault that carries no line has none in the text either.
///
/// # Errors
///
/// `Memory` where memory runs out; there is no line then.
pub fn fault_line(alloc: Global, fault: &PlanFault) -> Result<List<u8>, Memory>
    ensures { IfOk result (λ text. text ≡ fault_line fault.now) }
{
    let mut out = List::new(alloc);
    say(&mut out, b"plan: ")?;
    put_place(&mut out, line_of(fault))?;
    put_fault(&mut out, fault)?;
    out.push(b'\n')?;
    Ok(out)
}
