//! The table of shifts.

ghost use Rattle.std.specs.Prelude.{◌≡◌, ◌≤◌, ◌-◌, ◌+◌, ◌++◌, [], ◌∷◌, All, IfOk, OnOk, length};
ghost use Rattle.std.specs.Fmt.{decimal};
ghost use Rattle.model_rosters.specs.SoundInstance.{IsSoundInstance};
ghost use Rattle.page_rosters.specs.Called.{group_called};
ghost use Rattle.page_labels.specs.Labels as words;
ghost use Rattle.page_csv.specs.Rows.{
  amount_of,
  fields_of,
  name_of,
  piece_row,
  price_of,
  rows_from,
  shift_rows,
  table_of,
};
ghost use Rattle.page_csv.specs.Sheets.{guarded, time_of};

use crate::field::{add_number, add_price, add_price_amount, add_text, add_time, name_of};
use crate::piece::{Piece, pieces_of};
use crate::row::{add_record, add_row};
use crate::sheet::marked;
use model_rosters::{Instance, List, Memory, Shift};
use page_labels::{Clock, Labels, decimals_of, shift_name};
use page_rosters::group_called;
use std::alloc::Global;

// What stands above the records.
const HEAD: [&[u8]; 11] = [
    b"shift",
    b"group",
    b"code",
    b"name",
    b"first",
    b"last",
    b"begin",
    b"end",
    b"price",
    b"employee",
    b"amount",
];

// Appends the fields that tell a shift: its number and its group.
fn add_shift_fields(
    alloc: Global,
    fields: &mut List<List<u8>>,
    instance: &Instance,
    labels: &Labels,
    place: usize,
    shift: &Shift,
) -> Result<(), Memory>
    requires { place ≤ 64 }
    ensures { OnOk result (fields.new ≡ fields.old ++ decimal (place + 1)
        ∷ guarded (group_called instance.now labels.now shift.now.group) ∷ []) }
{
    add_number(alloc, fields, place as u64 + 1)?;
    let group = group_called(alloc, instance, labels, shift.group)?;
    add_text(alloc, fields, group.as_slice())
}

// Appends the fields that tell a code.
fn add_code_fields(
    alloc: Global,
    fields: &mut List<List<u8>>,
    instance: &Instance,
    labels: &Labels,
    byte: u8,
) -> Result<(), Memory>
    requires { length instance.now.grammar.codes ≤ 32 }
    ensures { OnOk result (fields.new ≡ fields.old ++ guarded (byte ∷ [])
        ∷ guarded (name_of instance.now.grammar.codes labels.now byte) ∷ []) }
{
    add_text(alloc, fields, &[byte])?;
    let codes = instance.grammar.codes.as_slice();
    add_text(alloc, fields, name_of(codes, labels, byte))
}

// Appends the fields that tell periods, and their times.
fn add_period_fields(
    alloc: Global,
    fields: &mut List<List<u8>>,
    clock: Option<Clock>,
    piece: Piece,
) -> Result<(), Memory>
    ensures { OnOk result (fields.new ≡ fields.old ++ decimal piece.first ∷ decimal piece.last
        ∷ time_of clock (piece.first - 1) ∷ time_of clock piece.last ∷ []) }
{
    add_number(alloc, fields, piece.first as u64)?;
    add_number(alloc, fields, piece.last as u64)?;
    add_time(alloc, fields, clock, piece.first.saturating_sub(1))?;
    add_time(alloc, fields, clock, piece.last)
}

// Appends the fields of what a shift costs, and of who works it.
fn add_cost_fields(
    alloc: Global,
    fields: &mut List<List<u8>>,
    labels: &Labels,
    place: usize,
    shift: &Shift,
    piece: Piece,
) -> Result<(), Memory>
    requires { place ≤ 64 }
    ensures { OnOk result (fields.new ≡ fields.old ++ price_of shift.now piece
        ∷ guarded (words.shift_name labels.now.shifts (place + 1))
        ∷ amount_of (words.decimals_of labels.now) shift.now piece ∷ []) }
{
    add_price(alloc, fields, shift, piece)?;
    let employee = shift_name(labels.shifts.as_slice(), place as u32 + 1);
    add_text(alloc, fields, employee)?;
    add_price_amount(alloc, fields, decimals_of(labels), shift, piece)
}

// Returns the fields of the record of a stretch, of the shift behind so many.
fn fields_of(
    alloc: Global,
    instance: &Instance,
    labels: &Labels,
    place: usize,
    shift: &Shift,
    piece: Piece,
) -> Result<List<List<u8>>, Memory>
    requires place { place ≤ 64 }
    requires codes { length instance.now.grammar.codes ≤ 32 }
    ensures { IfOk result (λ fields. fields ≡ fields_of instance.now labels.now place shift.now piece) }
{
    let mut fields = List::new(alloc);
    add_shift_fields(alloc, &mut fields, instance, labels, place, shift)?;
    add_code_fields(alloc, &mut fields, instance, labels, piece.byte)?;
    add_period_fields(alloc, &mut fields, labels.clock, piece)?;
    add_cost_fields(alloc, &mut fields, labels, place, shift, piece)?;
    Ok(fields)
}

// Appends the record of a stretch.
fn add_piece(
    alloc: Global,
    out: &mut List<u8>,
    instance: &Instance,
    labels: &Labels,
    place: usize,
    shift: &Shift,
    piece: Piece,
) -> Result<(), Memory>
    requires place { place ≤ 64 }
    requires codes { length instance.now.grammar.codes ≤ 32 }
    ensures { OnOk result (out.new ≡ out.old ++ piece_row instance.now labels.now place shift.now piece) }
{
    let fields = fields_of(alloc, instance, labels, place, shift, piece)?;
    add_record(alloc, out, fields.as_slice())
}

// Appends the records of the shift behind so many.
fn add_shift(
    alloc: Global,
    out: &mut List<u8>,
    instance: &Instance,
    labels: &Labels,
    place: usize,
    shift: &Shift,
) -> Result<(), Memory>
    requires place { place ≤ 64 }
    requires codes { length instance.now.grammar.codes ≤ 32 }
    requires short { length shift.now.word ≤ 96 }
    ensures { OnOk result (out.new ≡ out.old ++ shift_rows instance.now labels.now place shift.now) }
{
    let pieces = pieces_of(alloc, shift.word.as_slice())?;
    for piece in pieces.as_slice() {
        add_piece(alloc, out, instance, labels, place, shift, *piece)?;
    }
    Ok(())
}

// Appends the records of all shifts.
fn add_shifts(
    alloc: Global,
    out: &mut List<u8>,
    instance: &Instance,
    labels: &Labels,
    shifts: &[Shift],
) -> Result<(), Memory>
    requires codes { length instance.now.grammar.codes ≤ 32 }
    requires few { length shifts.now ≤ 64 }
    requires short { All (λ s. length s.word ≤ 96) shifts.now }
    ensures { OnOk result (out.new ≡ out.old ++ rows_from instance.now labels.now 0 shifts.now) }
{
    let mut place: usize = 0;
    for shift in shifts {
        add_shift(alloc, out, instance, labels, place, shift)?;
        place += 1;
    }
    Ok(())
}

/// Returns the table of at most 64 shifts as comma-separated values, under labels: a record for each greatest
/// stretch of one code, idle ones too, by the numbers of the shifts. Its fields are the number of the shift,
/// its group, the code, what it is called, the first and the last period, when it begins and ends, in the
/// shift's first record the price, who works the shift, and in its first record the price as an amount.
/// Fields that are not known are empty; a field that a spreadsheet would read as a formula has an apostrophe
/// before it. Before a table that is not all ASCII stands a byte order mark.
///
/// # Errors
///
/// `Memory` where memory runs out; nothing is kept then.
pub fn table_of(
    alloc: Global,
    instance: &Instance,
    labels: &Labels,
    shifts: &[Shift],
) -> Result<List<u8>, Memory>
    requires sound { IsSoundInstance instance.now }
    requires few { length shifts.now ≤ 64 }
    requires short { All (λ s. length s.word ≤ 96) shifts.now }
    ensures { IfOk result (λ text. text ≡ table_of instance.now labels.now shifts.now) }
{
    let mut out = List::new(alloc);
    add_row(alloc, &mut out, &HEAD)?;
    add_shifts(alloc, &mut out, instance, labels, shifts)?;
    marked(alloc, out)
}
