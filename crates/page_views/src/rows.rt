//! The rows of a roster.

ghost use Rattle.std.specs.Prelude.{
  ◌≡◌,
  ◌≤◌,
  ◌+◌,
  ◌++◌,
  [],
  ◌∷◌,
  All,
  length,
  take,
  count_by,
  IfOk,
  OnOk,
  OnErr,
};
ghost use Rattle.std.specs.List.{flat_map, list_any};
ghost use Rattle.page_views.specs.Rows.{
  are_many,
  count_of,
  has_row,
  is_same,
  marks_at,
  own_row,
  row_of,
  rows_at,
  rows_of,
};

use crate::compare::Comparison;
use model_rosters::{Instance, List, Memory, Shift};
use model_shift_figures::drawn_order;
use page_labels::Labels;
use page_rosters::row_called;
use page_text::Row;
use std::alloc::Global;
use text_lines::put;

/// Up to so many shifts have a row each; where there are more, equal ones have one row, unless one is named
/// or an old roster stands beside them.
const MOST_OWN_ROWS: usize = 40;

// Whether two employees of one group have one word.
fn is_same(a: &Shift, b: &Shift) -> bool
    ensures { result ≡ is_same a.now b.now }
{
    a.group == b.group && a.word.as_slice() == b.word.as_slice()
}

// How many of the shifts are equal to this one.
fn count_same(shifts: &[Shift], shift: &Shift) -> usize
    ensures count { result ≡ count_by (λ t. is_same t shift.now) shifts.now }
    ensures few { result ≤ length shifts.now }
{
    shifts.iter().filter(|other| is_same(other, shift)).count()
}

// Whether one of the shifts is equal to this one.
fn has_same(shifts: &[Shift], shift: &Shift) -> bool
    ensures { result ≡ list_any (λ t. is_same t shift.now) shifts.now }
{
    shifts.iter().any(|other| is_same(other, shift))
}

// Whether equal shifts have one row.
fn are_many(labels: &Labels, comparison: &Comparison, shifts: &[Shift]) -> bool
    ensures { result ≡ are_many labels.now comparison.now shifts.now }
{
    comparison.changes.is_none() && !(labels.shifts.len() > 0) && shifts.len() > MOST_OWN_ROWS
}

// How many employees a row stands for.
fn count_of(labels: &Labels, comparison: &Comparison, shifts: &[Shift], shift: &Shift) -> u32
    requires { length shifts.now ≤ 64 }
    ensures { result ≡ count_of labels.now comparison.now shifts.now shift.now }
{
    if are_many(labels, comparison, shifts) {
        count_same(shifts, shift) as u32
    } else {
        1
    }
}

/// Returns a copy of bytes.
///
/// # Errors
///
/// `Memory` where memory runs out; nothing is kept then.
pub fn copied(alloc: Global, bytes: &[u8]) -> Result<List<u8>, Memory>
    ensures { IfOk result (λ copy. copy ≡ bytes.now) }
{
    let mut copy = List::new(alloc);
    put(&mut copy, bytes)?;
    Ok(copy)
}

// Returns a copy of marks.
fn copied_marks(alloc: Global, marks: &[bool]) -> Result<List<bool>, Memory>
    ensures { IfOk result (λ copy. copy ≡ marks.now) }
{
    let mut copy = List::new(alloc);
    copy.extend_from_slice(marks)?;
    Ok(copy)
}

// Returns the periods in which the shift at a place differs from its old one.
fn marks_at(alloc: Global, marks: &[List<bool>], place: usize) -> Result<List<bool>, Memory>
    ensures { IfOk result (λ copy. copy ≡ marks_at marks.now place) }
{
    match marks.get(place) {
        None => Ok(List::new(alloc)),
        Some(it) => copied_marks(alloc, it.as_slice()),
    }
}

// Returns the row of a shift behind so many.
fn row_of(
    alloc: Global,
    instance: &Instance,
    labels: &Labels,
    comparison: &Comparison,
    shifts: &[Shift],
    place: usize,
    shift: &Shift,
) -> Result<Row, Memory>
    requires few { length shifts.now ≤ 64 }
    requires within { place ≤ length shifts.now }
    ensures { IfOk result
        (λ row. row ≡ row_of instance.now labels.now comparison.now shifts.now place shift.now) }
{
    Ok(Row {
        number: place as u32 + 1,
        group: shift.group,
        name: row_called(alloc, instance, labels, place as u32 + 1, shift.group)?,
        word: copied(alloc, shift.word.as_slice())?,
        price: shift.price,
        count: count_of(labels, comparison, shifts, shift),
        differs: marks_at(alloc, comparison.marks.as_slice(), place)?,
    })
}

// Whether a shift has the row of one before it.
fn has_row(
    labels: &Labels,
    comparison: &Comparison,
    shifts: &[Shift],
    place: usize,
    shift: &Shift,
) -> bool
    requires { place ≤ length shifts.now }
    ensures { result ≡ has_row labels.now comparison.now shifts.now place shift.now }
{
    are_many(labels, comparison, shifts) && has_same(&shifts[..place], shift)
}

// Appends the row of a shift behind so many, if it has one of its own.
#[tactic(auto, unfolding(crate::specs::Rows::own_row))]
fn add_own_row(
    alloc: Global,
    rows: &mut List<Row>,
    instance: &Instance,
    labels: &Labels,
    comparison: &Comparison,
    shifts: &[Shift],
    place: usize,
    shift: &Shift,
) -> Result<(), Memory>
    requires few { length shifts.now ≤ 64 }
    requires within { place ≤ length shifts.now }
    ensures rows { OnOk result (rows.new
        ≡ rows.old ++ own_row instance.now labels.now comparison.now shifts.now place shift.now) }
    ensures few { OnOk result (length rows.new ≤ length rows.old + 1) }
{
    if has_row(labels, comparison, shifts, place, shift) {
        return Ok(());
    }
    let row = row_of(alloc, instance, labels, comparison, shifts, place, shift)?;
    rows.push(row)
}

// Appends the row of the shift behind so many, if it has one of its own.
fn add_row(
    alloc: Global,
    rows: &mut List<Row>,
    instance: &Instance,
    labels: &Labels,
    comparison: &Comparison,
    shifts: &[Shift],
    place: usize,
) -> Result<(), Memory>
    requires { length shifts.now ≤ 64 }
    ensures rows { OnOk result
        (rows.new ≡ rows.old ++ rows_at instance.now labels.now comparison.now shifts.now place) }
    ensures few { OnOk result (length rows.new ≤ length rows.old + 1) }
{
    match shifts.get(place) {
        None => Ok(()),
        Some(shift) => add_own_row(
            alloc, rows, instance, labels, comparison, shifts, place, shift,
        ),
    }
}

// Returns the rows of the shifts at places, of those that have one of their own.
fn rows_in(
    alloc: Global,
    instance: &Instance,
    labels: &Labels,
    comparison: &Comparison,
    shifts: &[Shift],
    places: &[u8],
) -> Result<List<Row>, Memory>
    requires { length shifts.now ≤ 64 }
    ensures rows { IfOk result
        (λ rows. rows ≡ flat_map (rows_at instance.now labels.now comparison.now shifts.now) places.now) }
    ensures few { IfOk result (λ rows. length rows ≤ length places.now) }
{
    let mut rows = List::new(alloc);
    for place in places {
        let at = *place as usize;
        add_row(alloc, &mut rows, instance, labels, comparison, shifts, at)?;
    }
    Ok(rows)
}

/// Returns a row for each shift, or, where there are more than 40, none has a name and there is no old
/// roster, one for all that are equal: by group, first period of work, last period of work and number, those
/// without work last in their group.
///
/// # Errors
///
/// `Memory` where memory runs out; nothing is kept then.
pub fn rows_of(
    alloc: Global,
    instance: &Instance,
    labels: &Labels,
    comparison: &Comparison,
    shifts: &[Shift],
) -> Result<List<Row>, Memory>
    requires few { length shifts.now ≤ 64 }
    requires short { All (λ s. length s.word ≤ 96) shifts.now }
    ensures rows { IfOk result (λ rows. rows ≡ rows_of instance.now labels.now comparison.now shifts.now) }
    ensures few { IfOk result (λ rows. length rows ≤ 64) }
{
    let order = drawn_order(alloc, instance.grammar.codes.as_slice(), shifts)?;
    rows_in(
        alloc,
        instance,
        labels,
        comparison,
        shifts,
        order.as_slice(),
    )
}
