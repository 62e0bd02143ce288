//! The lines of a labels text.

ghost use Rattle.std.specs.Prelude.{◌≡◌, ◌≤◌, length};
ghost use Rattle.page_labels.specs.LabelLines.{
  clock_at,
  code_byte,
  code_line_at,
  decimals_at,
  flag_at,
  further_at,
  group_line_at,
  is_time_off,
  line_at,
  money_at,
  off_at,
  other_at,
  paid_at,
  said_paid,
  title_at,
  works,
};
ghost use Rattle.page_labels.specs.Steps.{Reads};
ghost use Rattle.page_labels.specs.declared.fault.LabelFault.TheVariants.{BadNumber, OutOfRange};
ghost use Rattle.text_lines.specs.Fields.{number_at};

use crate::clock::clock_from;
use crate::fault::LabelFault;
use crate::field::{code, group, words_of};
use crate::labels::{
    CodeLabel, GroupLabel, Labels, PaidCode, has_code, has_group, has_paid, is_paid,
};
use crate::shift_line::shift_line;
use crate::text_line::Line;
use model_rosters::{CodeDef, Instance};
use std::alloc::Global;
use text_lines::{Words, read_within};

// Reads a title line, behind its first word.
#[tactic(auto, unfolding(crate::specs::LabelLines::title_at))]
fn title(
    alloc: Global,
    labels: &mut Labels,
    line: u32,
    words: &mut Words<'_>,
) -> Result<(), LabelFault>
    ensures { Reads (λ _. (labels.new)) result (title_at line labels.old words.old) }
{
    let text = words_of(alloc, line, words)?;
    if labels.title.len() > 0 {
        return Err(LabelFault::Twice { line });
    }
    labels.title = text;
    Ok(())
}

// Reads a money line, behind its first word.
#[tactic(auto, unfolding(crate::specs::LabelLines::money_at))]
fn money(
    alloc: Global,
    labels: &mut Labels,
    line: u32,
    words: &mut Words<'_>,
) -> Result<(), LabelFault>
    ensures { Reads (λ _. (labels.new)) result (money_at line labels.old words.old) }
{
    let text = words_of(alloc, line, words)?;
    if labels.money.len() > 0 {
        return Err(LabelFault::Twice { line });
    }
    labels.money = text;
    Ok(())
}

// Reads a clock line, behind its first word. Takes no memory.
#[tactic(auto, unfolding(crate::specs::LabelLines::clock_at))]
fn clock_line(labels: &mut Labels, line: u32, words: &mut Words<'_>) -> Result<(), LabelFault>
    ensures { Reads (λ _. (labels.new)) result (clock_at line labels.old words.old) }
{
    let Some(begin) = words.next() else {
        return Err(LabelFault::UnknownLine { line });
    };
    let Some(minutes) = words.next() else {
        return Err(LabelFault::UnknownLine { line });
    };
    if let Some(_) = words.next() {
        return Err(LabelFault::UnknownLine { line });
    }
    let clock = clock_from(line, begin, minutes)?;
    if labels.clock.is_some() {
        return Err(LabelFault::Twice { line });
    }
    labels.clock = Some(clock);
    Ok(())
}

// Reads a code line, behind its first word.
#[tactic(auto, unfolding(crate::specs::LabelLines::code_line_at))]
fn code_line(
    alloc: Global,
    codes: &[CodeDef],
    labels: &mut Labels,
    line: u32,
    words: &mut Words<'_>,
) -> Result<(), LabelFault>
    requires { length codes.now ≤ 32 }
    ensures { Reads (λ _. (labels.new)) result (code_line_at line codes.now labels.old words.old) }
{
    let Some(word) = words.next() else {
        return Err(LabelFault::UnknownLine { line });
    };
    let code = code(line, codes, word)?;
    let words = words_of(alloc, line, words)?;
    if has_code(labels.codes.as_slice(), code) {
        return Err(LabelFault::Twice { line });
    }
    labels.codes.push(CodeLabel { code, words })?;
    Ok(())
}

// Reads a group line, behind its first word.
#[tactic(auto, unfolding(crate::specs::LabelLines::group_line_at))]
fn group_line(
    alloc: Global,
    instance: &Instance,
    labels: &mut Labels,
    line: u32,
    words: &mut Words<'_>,
) -> Result<(), LabelFault>
    requires { length instance.now.groups ≤ 8 }
    ensures { Reads (λ _. (labels.new)) result (group_line_at line instance.now labels.old words.old) }
{
    let Some(word) = words.next() else {
        return Err(LabelFault::UnknownLine { line });
    };
    let names = instance.grammar.names.as_slice();
    let group = group(line, names, instance.groups.as_slice(), word)?;
    let words = words_of(alloc, line, words)?;
    if has_group(labels.groups.as_slice(), group) {
        return Err(LabelFault::Twice { line });
    }
    labels.groups.push(GroupLabel { group, words })?;
    Ok(())
}

// Reads `yes` or `no`.
#[tactic(auto, unfolding(crate::specs::LabelLines::flag_at))]
fn flag(line: u32, word: &[u8]) -> Result<bool, LabelFault>
    ensures { result ≡ flag_at line word.now }
{
    if word == b"yes".as_slice() {
        return Ok(true);
    }
    if word == b"no".as_slice() {
        return Ok(false);
    }
    Err(LabelFault::UnknownLine { line })
}

// Whether the code at a place is one of work.
fn works(codes: &[CodeDef], code: u8) -> bool
    ensures { result ≡ works codes.now code }
{
    match codes.get(code as usize) {
        Some(def) => def.work,
        None => false,
    }
}

// Returns the byte of the code at a place.
fn code_byte(codes: &[CodeDef], code: u8) -> u8
    ensures { result ≡ code_byte codes.now code }
{
    match codes.get(code as usize) {
        Some(def) => def.byte,
        None => 0,
    }
}

// Whether the code with a byte is time off.
fn is_time_off(off: Option<u8>, byte: u8) -> bool
    ensures { result ≡ is_time_off off byte }
{
    match off {
        Some(code) => code == byte,
        None => false,
    }
}

// Adds whether the periods of a code count as paid, where its byte is this.
#[tactic(auto, unfolding(crate::specs::LabelLines::said_paid))]
fn said_paid(
    labels: &mut Labels,
    line: u32,
    code: u8,
    byte: u8,
    paid: bool,
) -> Result<(), LabelFault>
    ensures { Reads (λ _. (labels.new)) result (said_paid line labels.old code byte paid) }
{
    if paid && is_time_off(labels.off, byte) {
        return Err(LabelFault::BadName { line });
    }
    if has_paid(labels.paid.as_slice(), code) {
        return Err(LabelFault::Twice { line });
    }
    labels.paid.push(PaidCode { code, paid })?;
    Ok(())
}

// Reads a paid line, behind its first word.
#[tactic(auto, unfolding(crate::specs::LabelLines::paid_at))]
fn paid_line(
    codes: &[CodeDef],
    labels: &mut Labels,
    line: u32,
    words: &mut Words<'_>,
) -> Result<(), LabelFault>
    requires { length codes.now ≤ 32 }
    ensures { Reads (λ _. (labels.new)) result (paid_at line codes.now labels.old words.old) }
{
    let Some(word) = words.next() else {
        return Err(LabelFault::UnknownLine { line });
    };
    let Some(said) = words.next() else {
        return Err(LabelFault::UnknownLine { line });
    };
    if let Some(_) = words.next() {
        return Err(LabelFault::UnknownLine { line });
    }
    let code = code(line, codes, word)?;
    if works(codes, code) {
        return Err(LabelFault::BadName { line });
    }
    let paid = flag(line, said)?;
    said_paid(labels, line, code, code_byte(codes, code), paid)
}

// Reads an off line, behind its first word. Takes no memory.
#[tactic(auto, unfolding(crate::specs::LabelLines::off_at))]
fn off_line(
    codes: &[CodeDef],
    labels: &mut Labels,
    line: u32,
    words: &mut Words<'_>,
) -> Result<(), LabelFault>
    requires { length codes.now ≤ 32 }
    ensures { Reads (λ _. (labels.new)) result (off_at line codes.now labels.old words.old) }
{
    let Some(word) = words.next() else {
        return Err(LabelFault::UnknownLine { line });
    };
    if let Some(_) = words.next() {
        return Err(LabelFault::UnknownLine { line });
    }
    let code = code(line, codes, word)?;
    if works(codes, code) || is_paid(labels.paid.as_slice(), code) {
        return Err(LabelFault::BadName { line });
    }
    if labels.off.is_some() {
        return Err(LabelFault::Twice { line });
    }
    labels.off = Some(code_byte(codes, code));
    Ok(())
}

// Reads how many decimals amounts have.
fn decimals(line: u32, word: &[u8]) -> Result<u8, LabelFault>
    ensures { result ≡ number_at (BadNumber line) (OutOfRange line) 0 4 word.now }
{
    let none = LabelFault::BadNumber { line };
    let outside = LabelFault::OutOfRange { line };
    match read_within(0, 4, none, outside, word) {
        Ok(n) => Ok(n as u8),
        Err(fault) => Err(fault),
    }
}

// Reads a decimals line, behind its first word. Takes no memory.
#[tactic(auto, unfolding(crate::specs::LabelLines::decimals_at))]
fn decimals_line(labels: &mut Labels, line: u32, words: &mut Words<'_>) -> Result<(), LabelFault>
    ensures { Reads (λ _. (labels.new)) result (decimals_at line labels.old words.old) }
{
    let Some(word) = words.next() else {
        return Err(LabelFault::UnknownLine { line });
    };
    if let Some(_) = words.next() {
        return Err(LabelFault::UnknownLine { line });
    }
    let decimals = decimals(line, word)?;
    if labels.decimals.is_some() {
        return Err(LabelFault::Twice { line });
    }
    labels.decimals = Some(decimals);
    Ok(())
}

// Reads a line of what is paid, of time off, of a shift or of decimals, by its first word.
#[tactic(auto, unfolding(crate::specs::LabelLines::further_at))]
fn further_line(
    alloc: Global,
    instance: &Instance,
    labels: &mut Labels,
    line: u32,
    first: &[u8],
    words: &mut Words<'_>,
) -> Result<(), LabelFault>
    requires codes { length instance.now.grammar.codes ≤ 32 }
    requires groups { length instance.now.groups ≤ 8 }
    ensures { Reads (λ _. (labels.new)) result
        (further_at line instance.now labels.old first.now words.old) }
{
    let codes = instance.grammar.codes.as_slice();
    if first == b"paid".as_slice() {
        return paid_line(codes, labels, line, words);
    }
    if first == b"off".as_slice() {
        return off_line(codes, labels, line, words);
    }
    if first == b"shift".as_slice() {
        return shift_line(alloc, instance, labels, line, words);
    }
    if first == b"decimals".as_slice() {
        return decimals_line(labels, line, words);
    }
    Err(LabelFault::UnknownLine { line })
}

// Reads a line of a code or of a group, or a further one, by its first word.
#[tactic(auto, unfolding(crate::specs::LabelLines::other_at))]
fn other_line(
    alloc: Global,
    instance: &Instance,
    labels: &mut Labels,
    line: u32,
    first: &[u8],
    words: &mut Words<'_>,
) -> Result<(), LabelFault>
    requires codes { length instance.now.grammar.codes ≤ 32 }
    requires groups { length instance.now.groups ≤ 8 }
    ensures { Reads (λ _. (labels.new)) result
        (other_at line instance.now labels.old first.now words.old) }
{
    let codes = instance.grammar.codes.as_slice();
    if first == b"code".as_slice() {
        return code_line(alloc, codes, labels, line, words);
    }
    if first == b"group".as_slice() {
        return group_line(alloc, instance, labels, line, words);
    }
    further_line(alloc, instance, labels, line, first, words)
}

// Reads a line by its first word.
#[tactic(auto, unfolding(crate::specs::LabelLines::line_at))]
fn first_line(
    alloc: Global,
    instance: &Instance,
    labels: &mut Labels,
    line: u32,
    words: &mut Words<'_>,
) -> Result<(), LabelFault>
    requires codes { length instance.now.grammar.codes ≤ 32 }
    requires groups { length instance.now.groups ≤ 8 }
    ensures { Reads (λ _. (labels.new)) result (line_at line instance.now labels.old words.old) }
{
    let Some(first) = words.next() else {
        return Err(LabelFault::UnknownLine { line });
    };
    if first == b"title".as_slice() {
        return title(alloc, labels, line, words);
    }
    if first == b"clock".as_slice() {
        return clock_line(labels, line, words);
    }
    if first == b"money".as_slice() {
        return money(alloc, labels, line, words);
    }
    other_line(alloc, instance, labels, line, first, words)
}

/// Reads a line, and adds what it says.
///
/// # Errors
///
/// The first fault of the line; `Memory` where memory runs out.
pub fn line(
    alloc: Global,
    instance: &Instance,
    labels: &mut Labels,
    line: &Line<'_>,
) -> Result<(), LabelFault>
    requires codes { length instance.now.grammar.codes ≤ 32 }
    requires groups { length instance.now.groups ≤ 8 }
    ensures { Reads (λ _. (labels.new)) result
        (line_at line.now.number instance.now labels.old line.now.words) }
{
    first_line(alloc, instance, labels, line.number(), &mut line.words())
}
