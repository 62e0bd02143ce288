//! The fields of a record.

ghost use Rattle.std.specs.Prelude.{◌≡◌, ◌-◌, ◌++◌, [], ◌∷◌, ◌≤◌, IfOk, OnOk, length, if◌then◌else◌};
ghost use Rattle.std.specs.Fmt.{decimal};
ghost use Rattle.page_csv.specs.Rows.{amount_of, name_of, place_of, price_of, with_place};
ghost use Rattle.page_csv.specs.Sheets.{amount_text, guarded, is_formula_byte, letter_at, time_of};

use crate::piece::Piece;
use model_rosters::{CodeDef, List, Memory, Shift};
use page_labels::{Clock, Labels, code_words, put_time};
use page_parts::units;
use std::alloc::Global;
use text_lines::{put, write_number};

// Whether a spreadsheet reads what begins with the byte as a formula.
fn is_formula_byte(byte: u8) -> bool
    ensures { result ≡ is_formula_byte byte }
{
    byte == b'=' || byte == b'+' || byte == b'-' || byte == b'@'
}

// Appends an apostrophe where a text would be read as a formula.
fn guard(out: &mut List<u8>, first: u8) -> Result<(), Memory>
    ensures { OnOk result (out.new ≡ out.old ++ (if is_formula_byte first then 39 ∷ [] else [])) }
{
    if is_formula_byte(first) {
        out.push(b'\'')
    } else {
        Ok(())
    }
}

// Returns a text, with an apostrophe before it where it would be read as a formula.
#[tactic(auto, unfolding(crate::specs::Sheets::guarded))]
fn guarded(alloc: Global, text: &[u8]) -> Result<List<u8>, Memory>
    ensures { IfOk result (λ field. field ≡ guarded text.now) }
{
    let mut field = List::new(alloc);
    match text {
        [] => Ok(field),
        [first, ..] => {
            guard(&mut field, *first)?;
            put(&mut field, text)?;
            Ok(field)
        }
    }
}

/// Appends a field of a text.
///
/// # Errors
///
/// `Memory` where memory runs out; the fields are as before then.
pub(crate) fn add_text(
    alloc: Global,
    fields: &mut List<List<u8>>,
    text: &[u8],
) -> Result<(), Memory>
    ensures { OnOk result (fields.new ≡ fields.old ++ guarded text.now ∷ []) }
{
    fields.push(guarded(alloc, text)?)
}

/// Appends a field of the letter of the code at a place.
///
/// # Errors
///
/// `Memory` where memory runs out; the fields are as before then.
pub(crate) fn add_letter(
    alloc: Global,
    fields: &mut List<List<u8>>,
    codes: &[CodeDef],
    place: u8,
) -> Result<(), Memory>
    ensures { OnOk result (fields.new ≡ fields.old ++ guarded (letter_at codes.now place) ∷ []) }
{
    match codes.get(place as usize) {
        None => add_text(alloc, fields, b""),
        Some(code) => add_text(alloc, fields, &[code.byte]),
    }
}

// Returns the digits of a number.
fn digits(alloc: Global, value: u64) -> Result<List<u8>, Memory>
    ensures { IfOk result (λ field. field ≡ decimal value) }
{
    let mut field = List::new(alloc);
    write_number(&mut field, value as i128)?;
    Ok(field)
}

/// Appends a field of a number.
///
/// # Errors
///
/// `Memory` where memory runs out; the fields are as before then.
pub(crate) fn add_number(
    alloc: Global,
    fields: &mut List<List<u8>>,
    value: u64,
) -> Result<(), Memory>
    ensures { OnOk result (fields.new ≡ fields.old ++ decimal value ∷ []) }
{
    fields.push(digits(alloc, value)?)
}

// Returns an amount with so many decimals.
fn amount_text(alloc: Global, decimals: u8, value: u64) -> Result<List<u8>, Memory>
    ensures { IfOk result (λ field. field ≡ amount_text decimals value) }
{
    let mut field = List::new(alloc);
    units(&mut field, decimals, value)?;
    Ok(field)
}

/// Appends a field of an amount with so many decimals.
///
/// # Errors
///
/// `Memory` where memory runs out; the fields are as before then.
pub(crate) fn add_amount(
    alloc: Global,
    fields: &mut List<List<u8>>,
    decimals: u8,
    value: u64,
) -> Result<(), Memory>
    ensures { OnOk result (fields.new ≡ fields.old ++ amount_text decimals value ∷ []) }
{
    fields.push(amount_text(alloc, decimals, value)?)
}

// Returns the time behind so many periods, or nothing without a clock.
fn time_of(alloc: Global, clock: Option<Clock>, passed: u8) -> Result<List<u8>, Memory>
    ensures { IfOk result (λ field. field ≡ time_of clock passed) }
{
    let mut field = List::new(alloc);
    if let Some(clock) = clock {
        put_time(&mut field, clock, passed)?;
    }
    Ok(field)
}

/// Appends a field of the time behind so many periods, empty without a clock.
///
/// # Errors
///
/// `Memory` where memory runs out; the fields are as before then.
pub(crate) fn add_time(
    alloc: Global,
    fields: &mut List<List<u8>>,
    clock: Option<Clock>,
    passed: u8,
) -> Result<(), Memory>
    ensures { OnOk result (fields.new ≡ fields.old ++ time_of clock passed ∷ []) }
{
    fields.push(time_of(alloc, clock, passed)?)
}

// Returns the place of a further code, where it has the byte.
#[tactic(auto, unfolding(crate::specs::Rows::with_place))]
fn with_place(byte: u8, found: Option<u8>, place: u8, code: &CodeDef) -> Option<u8>
    ensures { result ≡ with_place byte found place code.now }
{
    if code.byte == byte {
        Some(place)
    } else {
        found
    }
}

// Returns the place of the code with the byte.
fn place_of(codes: &[CodeDef], byte: u8) -> Option<u8>
    requires { length codes.now ≤ 32 }
    ensures { result ≡ place_of codes.now byte }
{
    let mut found: Option<u8> = None;
    let mut place: u8 = 0;
    for code in codes {
        found = with_place(byte, found, place, code);
        place += 1;
    }
    found
}

/// Returns what the code with the byte is called, or nothing.
pub fn name_of<'a>(codes: &[CodeDef], labels: &'a Labels, byte: u8) -> &'a [u8]
    requires { length codes.now ≤ 32 }
    ensures { result.now ≡ name_of codes.now labels.now byte }
{
    match place_of(codes, byte) {
        None => b"",
        Some(place) => code_words(labels.codes.as_slice(), place),
    }
}

// Returns the price of a shift, in its first record.
#[tactic(auto, unfolding(crate::specs::Rows::price_of))]
fn price_of(alloc: Global, shift: &Shift, piece: Piece) -> Result<List<u8>, Memory>
    ensures { IfOk result (λ field. field ≡ price_of shift.now piece) }
{
    if piece.first == 1 {
        digits(alloc, shift.price)
    } else {
        Ok(List::new(alloc))
    }
}

/// Appends a field of the price of a shift, empty but in its first record.
///
/// # Errors
///
/// `Memory` where memory runs out; the fields are as before then.
pub(crate) fn add_price(
    alloc: Global,
    fields: &mut List<List<u8>>,
    shift: &Shift,
    piece: Piece,
) -> Result<(), Memory>
    ensures { OnOk result (fields.new ≡ fields.old ++ price_of shift.now piece ∷ []) }
{
    fields.push(price_of(alloc, shift, piece)?)
}

// Returns the price of a shift as an amount with so many decimals, in its first record.
#[tactic(auto, unfolding(crate::specs::Rows::amount_of))]
fn amount_of(alloc: Global, decimals: u8, shift: &Shift, piece: Piece) -> Result<List<u8>, Memory>
    ensures { IfOk result (λ field. field ≡ amount_of decimals shift.now piece) }
{
    if piece.first != 1 {
        return Ok(List::new(alloc));
    }
    amount_text(alloc, decimals, shift.price)
}

/// Appends a field of the price of a shift as an amount with so many decimals, empty but in its first record.
///
/// # Errors
///
/// `Memory` where memory runs out; the fields are as before then.
pub(crate) fn add_price_amount(
    alloc: Global,
    fields: &mut List<List<u8>>,
    decimals: u8,
    shift: &Shift,
    piece: Piece,
) -> Result<(), Memory>
    ensures { OnOk result (fields.new ≡ fields.old ++ amount_of decimals shift.now piece ∷ []) }
{
    fields.push(amount_of(alloc, decimals, shift, piece)?)
}
