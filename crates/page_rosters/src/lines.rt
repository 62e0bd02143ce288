//! The lines of shifts and stretches.

ghost use Rattle.std.specs.Prelude.{◌≡◌, ◌≤◌, ◌++◌, [], ◌∷◌, All, IfOk, OnOk, count_by, length, true};
ghost use Rattle.std.specs.List.{flat_map};
ghost use Rattle.model_shift_figures.specs.Stretches.{is_paid, is_work};
ghost use Rattle.page_rosters.specs.ShiftLines.{
  letters_of,
  line_at,
  line_of,
  lines_by,
  lines_of,
  marked_byte,
  marked_bytes,
  part_of,
  parts_of,
  shift_lines,
  spans_of,
};

use crate::called::{copied, group_called};
use crate::moments::{begin_text, duration, end_text, stretch_begin, stretch_end};
use model_rosters::{CodeDef, Instance, List, Memory, Shift};
use model_shift_figures::{
    Stretch, drawn_order, paid_periods, stretch_of, stretches_of, work_periods,
};
use page_labels::{Labels, PaidCode, shift_name};
use page_tables::ShiftLine;
use std::alloc::Global;

// Appends the byte of a code that counts as paid.
fn add_marked(out: &mut List<u8>, codes: &[CodeDef], said: PaidCode) -> Result<(), Memory>
    ensures { OnOk result (out.new ≡ out.old ++ marked_byte codes.now said) }
{
    if !said.paid {
        return Ok(());
    }
    match codes.get(said.code as usize) {
        None => Ok(()),
        Some(code) => out.push(code.byte),
    }
}

// Returns the bytes of the codes that count as paid.
fn marked_bytes(alloc: Global, codes: &[CodeDef], said: &[PaidCode]) -> Result<List<u8>, Memory>
    ensures { IfOk result (λ bytes. bytes ≡ marked_bytes codes.now said.now) }
{
    let mut bytes = List::new(alloc);
    for code in said {
        add_marked(&mut bytes, codes, *code)?;
    }
    Ok(bytes)
}

// How many periods of a word are paid.
fn paid_of(codes: &[CodeDef], marked: &[u8], word: &[u8]) -> u8
    requires { length word.now ≤ 96 }
    ensures { result ≡ count_by (is_paid codes.now marked.now) word.now }
{
    paid_periods(codes, marked, word) as u8
}

// Returns the line of a shift behind so many.
fn line_of(
    alloc: Global,
    instance: &Instance,
    labels: &Labels,
    marked: &[u8],
    place: usize,
    shift: &Shift,
) -> Result<ShiftLine, Memory>
    requires place { place ≤ 64 }
    requires short { length shift.now.word ≤ 96 }
    ensures { IfOk result (λ l. l ≡ line_of instance.now labels.now marked.now place shift.now) }
{
    let codes = instance.grammar.codes.as_slice();
    let word = shift.word.as_slice();
    let stretch = stretch_of(codes, word);
    let number = place as u32 + 1;
    Ok(ShiftLine {
        number,
        group: group_called(alloc, instance, labels, shift.group)?,
        who: copied(alloc, shift_name(labels.shifts.as_slice(), number))?,
        begin: stretch_begin(alloc, labels.clock, stretch)?,
        end: stretch_end(alloc, labels.clock, stretch)?,
        work: work_periods(codes, word) as u64,
        first: true,
        paid: duration(alloc, labels.clock, paid_of(codes, marked, word))?,
        price: shift.price,
        word: copied(alloc, word)?,
    })
}

// Returns the letters of a stretch of a word.
fn letters_of(word: &[u8], stretch: Stretch) -> &[u8]
    ensures { result.now ≡ letters_of word.now stretch }
{
    let end = (stretch.last as usize).min(word.len());
    let begin = (stretch.first as usize).saturating_sub(1).min(end);
    &word[begin..end]
}

// Returns the line of a stretch of a shift, which may be the first one.
fn part_of(
    alloc: Global,
    instance: &Instance,
    labels: &Labels,
    marked: &[u8],
    place: usize,
    shift: &Shift,
    first: bool,
    stretch: Stretch,
) -> Result<ShiftLine, Memory>
    requires place { place ≤ 64 }
    requires short { length shift.now.word ≤ 96 }
    ensures { IfOk result
        (λ l. l ≡ part_of instance.now labels.now marked.now place shift.now first stretch) }
{
    let codes = instance.grammar.codes.as_slice();
    let word = shift.word.as_slice();
    let number = place as u32 + 1;
    Ok(ShiftLine {
        number,
        group: group_called(alloc, instance, labels, shift.group)?,
        who: copied(alloc, shift_name(labels.shifts.as_slice(), number))?,
        begin: begin_text(alloc, labels.clock, stretch.first)?,
        end: end_text(alloc, labels.clock, stretch.last)?,
        work: work_periods(codes, letters_of(word, stretch)) as u64,
        first,
        paid: duration(alloc, labels.clock, paid_of(codes, marked, word))?,
        price: shift.price,
        word: copied(alloc, word)?,
    })
}

// Appends the lines of stretches of a shift.
fn add_parts(
    alloc: Global,
    lines: &mut List<ShiftLine>,
    instance: &Instance,
    labels: &Labels,
    marked: &[u8],
    place: usize,
    shift: &Shift,
    stretches: &[Stretch],
) -> Result<(), Memory>
    requires place { place ≤ 64 }
    requires short { length shift.now.word ≤ 96 }
    ensures { OnOk result (lines.new ≡ lines.old
        ++ parts_of instance.now labels.now marked.now place shift.now true stretches.now) }
{
    let mut first = true;
    for stretch in stretches {
        let line = part_of(
            alloc, instance, labels, marked, place, shift, first, *stretch,
        )?;
        lines.push(line)?;
        first = false;
    }
    Ok(())
}

// Appends a line for each of these stretches of a shift, or one for the shift where there is none.
#[tactic(auto, unfolding(crate::specs::ShiftLines::lines_by))]
fn add_by(
    alloc: Global,
    lines: &mut List<ShiftLine>,
    instance: &Instance,
    labels: &Labels,
    marked: &[u8],
    place: usize,
    shift: &Shift,
    stretches: &[Stretch],
) -> Result<(), Memory>
    requires place { place ≤ 64 }
    requires short { length shift.now.word ≤ 96 }
    ensures { OnOk result (lines.new ≡ lines.old
        ++ lines_by instance.now labels.now marked.now place shift.now stretches.now) }
{
    if stretches.len() > 0 {
        return add_parts(
            alloc, lines, instance, labels, marked, place, shift, stretches,
        );
    }
    lines.push(line_of(alloc, instance, labels, marked, place, shift)?)
}

// Returns the stretches of a word that stand in lines of their own: all, where time off is named.
fn spans_of(alloc: Global, off: Option<u8>, word: &[u8]) -> Result<List<Stretch>, Memory>
    requires { length word.now ≤ 96 }
    ensures { IfOk result (λ ts. ts ≡ spans_of off word.now) }
{
    match off {
        None => Ok(List::new(alloc)),
        Some(code) => stretches_of(alloc, Some(code), word),
    }
}

// Appends the lines of a shift behind so many.
fn add_shift(
    alloc: Global,
    lines: &mut List<ShiftLine>,
    instance: &Instance,
    labels: &Labels,
    marked: &[u8],
    place: usize,
    shift: &Shift,
) -> Result<(), Memory>
    requires place { place ≤ 64 }
    requires short { length shift.now.word ≤ 96 }
    ensures { OnOk result
        (lines.new ≡ lines.old ++ shift_lines instance.now labels.now marked.now place shift.now) }
{
    let stretches = spans_of(alloc, labels.off, shift.word.as_slice())?;
    add_by(
        alloc,
        lines,
        instance,
        labels,
        marked,
        place,
        shift,
        stretches.as_slice(),
    )
}

// Appends the lines of the shift behind so many, if there is one.
fn add_line(
    alloc: Global,
    lines: &mut List<ShiftLine>,
    instance: &Instance,
    labels: &Labels,
    marked: &[u8],
    shifts: &[Shift],
    place: usize,
) -> Result<(), Memory>
    requires few { length shifts.now ≤ 64 }
    requires short { All (λ s. length s.word ≤ 96) shifts.now }
    ensures { OnOk result
        (lines.new ≡ lines.old ++ line_at instance.now labels.now marked.now shifts.now place) }
{
    match shifts.get(place) {
        None => Ok(()),
        Some(shift) => add_shift(alloc, lines, instance, labels, marked, place, shift),
    }
}

// Returns the lines of the shifts at places.
fn lines_in(
    alloc: Global,
    instance: &Instance,
    labels: &Labels,
    marked: &[u8],
    shifts: &[Shift],
    places: &[u8],
) -> Result<List<ShiftLine>, Memory>
    requires few { length shifts.now ≤ 64 }
    requires short { All (λ s. length s.word ≤ 96) shifts.now }
    ensures { IfOk result (λ lines. lines
        ≡ flat_map (line_at instance.now labels.now marked.now shifts.now) places.now) }
{
    let mut lines = List::new(alloc);
    for place in places {
        add_line(
            alloc,
            &mut lines,
            instance,
            labels,
            marked,
            shifts,
            *place as usize,
        )?;
    }
    Ok(lines)
}

/// Returns a line for each of at most 64 shifts, in the order in which they are drawn. Where time off is
/// named, each stretch of a shift has a line, and those of one shift stand together.
///
/// # Errors
///
/// `Memory` where memory runs out; nothing is kept then.
pub fn lines_of(
    alloc: Global,
    instance: &Instance,
    labels: &Labels,
    shifts: &[Shift],
) -> Result<List<ShiftLine>, Memory>
    requires few { length shifts.now ≤ 64 }
    requires short { All (λ s. length s.word ≤ 96) shifts.now }
    ensures { IfOk result (λ lines. lines ≡ lines_of instance.now labels.now shifts.now) }
{
    let codes = instance.grammar.codes.as_slice();
    let marked = marked_bytes(alloc, codes, labels.paid.as_slice())?;
    let order = drawn_order(alloc, codes, shifts)?;
    lines_in(
        alloc,
        instance,
        labels,
        marked.as_slice(),
        shifts,
        order.as_slice(),
    )
}
