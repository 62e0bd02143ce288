//! What names are called.

ghost use Rattle.std.specs.Prelude.{◌≡◌, ◌<◌, ◌≤◌, ◌++◌, [], ◌∷◌, codes, length, map, IfOk, OnOk};
ghost use Rattle.plan_names.specs.Views.{kind_of};
ghost use Rattle.plan_rules.specs.NameTexts.{
  day_text,
  digits,
  name_or,
  name_text,
  name_texts,
  numbered,
  set_codes,
  with_code,
  with_codes,
};

use model_rosters::{List, Memory};
use plan_laws::{Activity, NamedLines};
use plan_names::RuleName;
use std::alloc::Global;

// Appends a number below 100 in digits.
fn add_digits(text: &mut List<u8>, number: u8) -> Result<(), Memory>
    requires { number < 100 }
    ensures { OnOk result (text.new ≡ text.old ++ digits number) }
{
    if number < 10 {
        return text.push(b'0' + number);
    }
    text.push(b'0' + number / 10)?;
    text.push(b'0' + number % 10)
}

// Returns a text with `_` and a number behind it.
fn numbered(text: List<u8>, number: u8) -> Result<List<u8>, Memory>
    requires { number < 100 }
    ensures { IfOk result (λ whole. whole ≡ numbered text number) }
{
    let mut text = text;
    text.push(b'_')?;
    add_digits(&mut text, number)?;
    Ok(text)
}

// Returns the list of bytes.
fn word(alloc: Global, bytes: &[u8]) -> Result<List<u8>, Memory>
    ensures { IfOk result (λ text. text ≡ bytes.now) }
{
    let mut text = List::new(alloc);
    text.extend_from_slice(bytes)?;
    Ok(text)
}

// Returns a word with `_` and the code of an activity behind it.
fn with_code(alloc: Global, bytes: &[u8], activity: Activity) -> Result<List<u8>, Memory>
    ensures { IfOk result (λ text. text ≡ with_code bytes.now activity) }
{
    let mut text = word(alloc, bytes)?;
    text.push(b'_')?;
    text.push(activity.code)?;
    Ok(text)
}

// Appends the codes of activities.
fn add_set(text: &mut List<u8>, set: &[Activity]) -> Result<(), Memory>
    ensures { OnOk result (text.new ≡ text.old ++ set_codes set.now) }
{
    for activity in set {
        text.push(activity.code)?;
    }
    Ok(())
}

// Returns a word with `_` and the codes of activities behind it.
fn with_codes(alloc: Global, bytes: &[u8], set: &[Activity]) -> Result<List<u8>, Memory>
    ensures { IfOk result (λ text. text ≡ with_codes bytes.now set.now) }
{
    let mut text = word(alloc, bytes)?;
    text.push(b'_')?;
    add_set(&mut text, set)?;
    Ok(text)
}

// Returns a duty name, or a word where there is none.
fn name_or(alloc: Global, bytes: &[u8], named: &NamedLines) -> Result<List<u8>, Memory>
    ensures { IfOk result (λ text. text ≡ name_or bytes.now named.now.name) }
{
    if named.name.is_empty() {
        return word(alloc, bytes);
    }
    word(alloc, named.name.as_slice())
}

// Returns what a duty of some lines is called, before its number.
fn duty_word(alloc: Global, named: &NamedLines) -> Result<List<u8>, Memory>
    ensures { IfOk result (λ text. text ≡ name_or (codes "Any") named.now.name ++ codes "_duty") }
{
    let mut text = name_or(alloc, b"Any", named)?;
    text.extend_from_slice(b"_duty")?;
    Ok(text)
}

// Returns what a day of some lines is called: as the duty name.
fn day_text(alloc: Global, named: &NamedLines, number: u8) -> Result<List<u8>, Memory>
    requires { number < 100 }
    ensures { IfOk result (λ text. text ≡ day_text named.now.name number) }
{
    if named.name.is_empty() {
        return numbered(word(alloc, b"Day")?, number);
    }
    word(alloc, named.name.as_slice())
}

// Returns what a name is called that stands at a place.
fn name_text(alloc: Global, number: u8, name: RuleName<'_>) -> Result<List<u8>, Memory>
    requires { number < 100 }
    ensures { IfOk result (λ text. text ≡ name_text number (kind_of name.entry)) }
{
    match name {
        RuleName::Letter(_, one) => numbered(with_code(alloc, b"At", one)?, number),
        RuleName::Run(_, one) => numbered(with_code(alloc, b"Run", one)?, number),
        RuleName::Block(_, one) => numbered(with_code(alloc, b"Block", one)?, number),
        RuleName::FreeBlock(_, set) => numbered(with_codes(alloc, b"One", set)?, number),
        RuleName::AnyList(_, set) => numbered(with_codes(alloc, b"Some", set)?, number),
        RuleName::OpenList(_, set) => numbered(with_codes(alloc, b"Open", set)?, number),
        RuleName::ListFrom(_, _, one) => numbered(with_code(alloc, b"From", one)?, number),
        RuleName::OtherList(_, _, one) => numbered(with_code(alloc, b"Not", one)?, number),
        RuleName::Stretch(_, set, _) => numbered(with_codes(alloc, b"Work", set)?, number),
        RuleName::Rest(_, one, _) => numbered(with_code(alloc, b"Pause", one)?, number),
        RuleName::Off => numbered(word(alloc, b"Off")?, number),
        RuleName::Step => numbered(word(alloc, b"Step")?, number),
        RuleName::Steps => numbered(word(alloc, b"Steps")?, number),
        RuleName::Lead => numbered(word(alloc, b"Lead")?, number),
        RuleName::Duty(named) => numbered(duty_word(alloc, named)?, number),
        RuleName::Day(named) => day_text(alloc, named, number),
        RuleName::AnyDay(_) => numbered(word(alloc, b"Day")?, number),
    }
}

// Appends what a name is called that stands at a place.
fn add_text(
    alloc: Global,
    number: u8,
    name: RuleName<'_>,
    texts: &mut List<List<u8>>,
) -> Result<(), Memory>
    requires { number < 100 }
    ensures { OnOk result (texts.new ≡ texts.old ++ name_text number (kind_of name.entry) ∷ []) }
{
    let text = name_text(alloc, number, name)?;
    texts.push(text)
}

/// Returns what names are called, in order.
pub(crate) fn name_texts(alloc: Global, names: &[RuleName<'_>]) -> Result<List<List<u8>>, Memory>
    requires { length names.now ≤ 100 }
    ensures { IfOk result (λ texts. texts ≡ name_texts 0 (map kind_of names.now)) }
{
    let mut texts = List::new(alloc);
    let mut number = 0_u8;
    for name in names {
        add_text(alloc, number, *name, &mut texts)?;
        number += 1;
    }
    Ok(texts)
}
