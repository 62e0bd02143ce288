//! The chart of shifts.

ghost use Rattle.std.specs.Prelude.{◌≡◌, ◌≤◌, ◌<◌, ◌++◌, length, OnOk};
ghost use Rattle.page_parts.specs.Elements.{written};
ghost use Rattle.page_text.specs.RosterChart.{
  all_ticks,
  cell,
  cells,
  change_at,
  change_if,
  change_line,
  gap,
  letter,
  letter_bar,
  letter_text,
  many,
  marked_cell,
  number_tick,
  one,
  price_text,
  row_elements,
  row_frame,
  row_head,
  row_words,
  rows_elements,
  step_of,
  tick,
  ticks,
  time_at,
  time_tick,
  times,
  times_of,
  who,
};
ghost use Rattle.model_shift_figures.specs.Stretches.{is_off};

use crate::row::Row;
use model_rosters::{CodeDef, List, Memory};
use page_parts::{
    Area, Money, PeriodAxis, bar, caption, chart_width, figure, given, labelled, labelled_amount,
    left_of, marks, middle_of, name_caption, number, paint_of, top_of,
};

// Whether a byte is the one of time off.
fn is_off(off: Option<u8>, byte: u8) -> bool
    ensures { result ≡ is_off off byte }
{
    match off {
        None => false,
        Some(code) => code == byte,
    }
}

// Writes the bar of a letter of a row, at the period behind so many.
#[tactic(auto, unfolding(crate::specs::RosterChart::letter_bar))]
fn letter_bar(
    out: &mut List<u8>,
    sheet: PeriodAxis,
    codes: &[CodeDef],
    row: u8,
    place: u8,
    byte: u8,
) -> Result<(), Memory>
    ensures { OnOk result (out.new ≡ out.old ++ written (letter_bar sheet codes.now row place byte)) }
{
    let area = Area {
        left: left_of(sheet, place),
        top: top_of(row),
        width: sheet.cell.saturating_sub(1) as u64,
        height: 22,
    };
    bar(out, &paint_of(codes, byte), area)
}

// Writes the letter itself, but for time off.
#[tactic(auto, unfolding(crate::specs::RosterChart::letter_text))]
fn letter_text(
    out: &mut List<u8>,
    sheet: PeriodAxis,
    codes: &[CodeDef],
    off: Option<u8>,
    row: u8,
    place: u8,
    byte: u8,
) -> Result<(), Memory>
    ensures { OnOk result
        (out.new ≡ out.old ++ written (letter_text sheet codes.now off row place byte)) }
{
    if is_off(off, byte) {
        return Ok(());
    }
    let paint = paint_of(codes, byte);
    caption(
        out,
        &paint,
        middle_of(sheet, place),
        top_of(row) + 15,
        &[byte],
    )
}

// Writes a letter in its bar.
fn letter(
    out: &mut List<u8>,
    sheet: PeriodAxis,
    codes: &[CodeDef],
    off: Option<u8>,
    row: u8,
    place: u8,
    byte: u8,
) -> Result<(), Memory>
    ensures { OnOk result
        (out.new ≡ out.old ++ written (letter sheet codes.now off row place byte)) }
{
    letter_bar(out, sheet, codes, row, place, byte)?;
    letter_text(out, sheet, codes, off, row, place, byte)
}

// Writes the letter that a word has there, if any.
#[tactic(auto, unfolding(crate::specs::RosterChart::cell))]
fn cell(
    out: &mut List<u8>,
    sheet: PeriodAxis,
    codes: &[CodeDef],
    off: Option<u8>,
    row: u8,
    word: &[u8],
    place: u8,
) -> Result<(), Memory>
    ensures { OnOk result
        (out.new ≡ out.old ++ written (cell sheet codes.now off row word.now place)) }
{
    match word.get(place as usize) {
        None => Ok(()),
        Some(byte) => letter(out, sheet, codes, off, row, place, *byte),
    }
}

// Writes a line under a letter that differs from an old roster.
#[tactic(auto, unfolding(crate::specs::RosterChart::change_line))]
fn change_line(out: &mut List<u8>, sheet: PeriodAxis, row: u8, place: u8) -> Result<(), Memory>
    ensures { OnOk result (out.new ≡ out.old ++ written (change_line sheet row place)) }
{
    let left = left_of(sheet, place);
    let width = sheet.cell.saturating_sub(1) as u64;
    labelled(out, b"<path class='changed' d='M", left)?;
    labelled(out, b" ", top_of(row) + 23)?;
    labelled(out, b"H", left + width)?;
    marks(out, b"'/>")
}

// Writes the same, where the letter differs.
#[tactic(auto, unfolding(crate::specs::RosterChart::change_if))]
fn change_if(
    out: &mut List<u8>,
    sheet: PeriodAxis,
    row: u8,
    place: u8,
    differs: bool,
) -> Result<(), Memory>
    ensures { OnOk result (out.new ≡ out.old ++ written (change_if sheet row place differs)) }
{
    if differs {
        change_line(out, sheet, row, place)?;
    }
    Ok(())
}

// Writes the same for the period behind so many.
#[tactic(auto, unfolding(crate::specs::RosterChart::change_at))]
fn change_at(
    out: &mut List<u8>,
    sheet: PeriodAxis,
    row: u8,
    differs: &[bool],
    place: u8,
) -> Result<(), Memory>
    ensures { OnOk result (out.new ≡ out.old ++ written (change_at sheet row differs.now place)) }
{
    match differs.get(place as usize) {
        None => Ok(()),
        Some(it) => change_if(out, sheet, row, place, *it),
    }
}

// Writes what stands at a period of a row.
fn marked_cell(
    out: &mut List<u8>,
    sheet: PeriodAxis,
    codes: &[CodeDef],
    off: Option<u8>,
    top: u8,
    row: &Row,
    place: u8,
) -> Result<(), Memory>
    ensures { OnOk result
        (out.new ≡ out.old ++ written (marked_cell sheet codes.now off top row.now place)) }
{
    cell(out, sheet, codes, off, top, row.word.as_slice(), place)?;
    change_at(out, sheet, top, row.differs.as_slice(), place)
}

// Writes the letters of a word, each at its period, and lines under those that differ.
fn cells(
    out: &mut List<u8>,
    sheet: PeriodAxis,
    codes: &[CodeDef],
    off: Option<u8>,
    top: u8,
    row: &Row,
) -> Result<(), Memory>
    ensures { OnOk result (out.new ≡ out.old ++ written (cells sheet codes.now off top row.now)) }
{
    for place in 0..sheet.periods {
        marked_cell(out, sheet, codes, off, top, row, place)?;
    }
    Ok(())
}

// Writes beside a row how many employees have its shift.
#[tactic(auto, unfolding(crate::specs::RosterChart::times_of))]
fn times_of(out: &mut List<u8>, row: u8, count: u32) -> Result<(), Memory>
    ensures { OnOk result (out.new ≡ out.old ++ written (times_of row count)) }
{
    labelled(out, b"<text class='times' x='40' y='", top_of(row) + 15)?;
    labelled(out, b"'>", count as u64)?;
    marks(out, b"&#215;</text>")
}

// Writes beside a row the number of the shift, or, where several employees have it, how many.
#[tactic(auto, unfolding(crate::specs::RosterChart::times))]
fn times(out: &mut List<u8>, row: u8, shift: u32, count: u32) -> Result<(), Memory>
    ensures { OnOk result (out.new ≡ out.old ++ written (times row shift count)) }
{
    if count > 1 {
        return times_of(out, row, count);
    }
    figure(out, b"times", 40, top_of(row) + 15, shift as u64)
}

// Writes of how many shifts a row is.
#[tactic(auto, unfolding(crate::specs::RosterChart::many))]
fn many(out: &mut List<u8>, count: u32) -> Result<(), Memory>
    ensures { OnOk result (out.new ≡ out.old ++ written (many count)) }
{
    number(out, count as u64)?;
    marks(out, b" shifts: ")
}

// Writes of which shift a row is.
#[tactic(auto, unfolding(crate::specs::RosterChart::one))]
fn one(out: &mut List<u8>, shift: u32) -> Result<(), Memory>
    ensures { OnOk result (out.new ≡ out.old ++ written (one shift)) }
{
    labelled(out, b"Shift ", shift as u64)?;
    marks(out, b": ")
}

// Writes whose shift it is: the one of a number, or of several employees.
#[tactic(auto, unfolding(crate::specs::RosterChart::who))]
fn who(out: &mut List<u8>, shift: u32, count: u32) -> Result<(), Memory>
    ensures { OnOk result (out.new ≡ out.old ++ written (who shift count)) }
{
    if count > 1 {
        return many(out, count);
    }
    one(out, shift)
}

// What stands between the name of a group and a word.
fn gap(name: &[u8]) -> &'static [u8]
    ensures { result.now ≡ gap name.now }
{
    if name.is_empty() { b"" } else { b" " }
}

/// Writes a row in words, with its price in the words that amounts are counted in.
///
/// # Errors
///
/// `Memory` where memory runs out; a part may stand in `out` then.
#[tactic(auto, unfolding(crate::specs::RosterChart::row_words))]
pub(crate) fn row_words(out: &mut List<u8>, money: &Money, row: &Row) -> Result<(), Memory>
    ensures { OnOk result (out.new ≡ out.old ++ written (row_words money.now row.now)) }
{
    who(out, row.number, row.count)?;
    given(out, row.name.as_slice())?;
    given(out, gap(row.name.as_slice()))?;
    given(out, row.word.as_slice())?;
    labelled_amount(out, b", price ", money, row.price)
}

// Writes the beginning of a row.
#[tactic(auto, unfolding(crate::specs::RosterChart::row_head))]
fn row_head(out: &mut List<u8>, money: &Money, place: u8, row: &Row) -> Result<(), Memory>
    ensures { OnOk result (out.new ≡ out.old ++ written (row_head money.now place row.now)) }
{
    labelled(
        out,
        b"<g class='row' tabindex='0' role='img' id='r",
        place as u64,
    )?;
    labelled(out, b"' aria-describedby='d", place as u64)?;
    marks(out, b"' aria-label='")?;
    row_words(out, money, row)?;
    marks(out, b"'>")
}

// Writes the price of a row.
#[tactic(auto, unfolding(crate::specs::RosterChart::price_text))]
fn price_text(
    out: &mut List<u8>,
    money: &Money,
    sheet: PeriodAxis,
    place: u8,
    price: u64,
) -> Result<(), Memory>
    ensures { OnOk result (out.new ≡ out.old ++ written (price_text money.now sheet place price)) }
{
    let left = chart_width(sheet).saturating_sub(14);
    labelled(out, b"<text class='price' x='", left)?;
    labelled(out, b"' y='", top_of(place) + 15)?;
    labelled_amount(out, b"'>", money, price)?;
    marks(out, b"</text>")
}

// Writes what stands beside the letters of a row.
#[tactic(auto, unfolding(crate::specs::RosterChart::row_frame))]
fn row_frame(
    out: &mut List<u8>,
    money: &Money,
    sheet: PeriodAxis,
    place: u8,
    row: &Row,
) -> Result<(), Memory>
    ensures { OnOk result (out.new ≡ out.old ++ written (row_frame money.now sheet place row.now)) }
{
    let area = Area {
        left: 4,
        top: top_of(place).saturating_sub(2),
        width: chart_width(sheet).saturating_sub(8),
        height: 26,
    };
    bar(out, b"hit", area)?;
    let left = (sheet.left as u64).saturating_sub(10);
    let name = row.name.as_slice();
    name_caption(out, b"name", left, top_of(place) + 15, name)?;
    price_text(out, money, sheet, place, row.price)
}

// Writes a row.
#[tactic(auto, unfolding(crate::specs::RosterChart::row_elements))]
fn row(
    out: &mut List<u8>,
    money: &Money,
    sheet: PeriodAxis,
    codes: &[CodeDef],
    off: Option<u8>,
    place: u8,
    row: &Row,
) -> Result<(), Memory>
    ensures { OnOk result
        (out.new ≡ out.old ++ written (row_elements money.now sheet codes.now off place row.now)) }
{
    row_head(out, money, place, row)?;
    row_frame(out, money, sheet, place, row)?;
    times(out, place, row.number, row.count)?;
    cells(out, sheet, codes, off, place, row)?;
    marks(out, b"</g>\n")
}

/// Writes the rows of a chart, one a shift, with prices in the words that amounts are counted in.
///
/// # Errors
///
/// `Memory` where memory runs out; a part may stand in `out` then.
pub(crate) fn rows(
    out: &mut List<u8>,
    money: &Money,
    sheet: PeriodAxis,
    codes: &[CodeDef],
    off: Option<u8>,
    rows: &[Row],
) -> Result<(), Memory>
    requires { length rows.now ≤ 64 }
    ensures { OnOk result
        (out.new ≡ out.old ++ written (rows_elements money.now sheet codes.now off rows.now)) }
{
    let mut place: u8 = 0;
    for shift in rows {
        row(out, money, sheet, codes, off, place, shift)?;
        place += 1;
    }
    Ok(())
}

/// Returns at every how many of so many periods there is room for a number or a time below a chart.
pub fn step_of(periods: u8) -> u8
    ensures value { result ≡ step_of periods }
    ensures some { 1 ≤ result }
{
    if periods < 25 {
        1
    } else if periods < 49 {
        2
    } else {
        4
    }
}

// Writes the number of a period over its middle.
#[tactic(auto, unfolding(crate::specs::RosterChart::number_tick))]
fn number_tick(out: &mut List<u8>, sheet: PeriodAxis, top: u64, place: u8) -> Result<(), Memory>
    ensures { OnOk result (out.new ≡ out.old ++ written (number_tick sheet top place)) }
{
    if place % step_of(sheet.periods) == 0 {
        figure(out, b"tick", middle_of(sheet, place), top, place as u64 + 1)?;
    }
    Ok(())
}

// Writes a time where the period behind so many begins.
#[tactic(auto, unfolding(crate::specs::RosterChart::time_at))]
fn time_at(
    out: &mut List<u8>,
    sheet: PeriodAxis,
    top: u64,
    place: u8,
    text: &[u8],
) -> Result<(), Memory>
    ensures { OnOk result (out.new ≡ out.old ++ written (time_at sheet top place text.now)) }
{
    if text.len() > 0 {
        caption(out, b"tick", left_of(sheet, place), top, text)?;
    }
    Ok(())
}

// Writes the time of the period behind so many, where there is one for it.
#[tactic(auto, unfolding(crate::specs::RosterChart::time_tick))]
fn time_tick(
    out: &mut List<u8>,
    sheet: PeriodAxis,
    top: u64,
    moments: &[List<u8>],
    place: u8,
) -> Result<(), Memory>
    ensures { OnOk result (out.new ≡ out.old ++ written (time_tick sheet top moments.now place)) }
{
    match moments.get(place as usize) {
        None => Ok(()),
        Some(text) => time_at(out, sheet, top, place, text.as_slice()),
    }
}

// Writes the time of the period behind so many, or, where there are no times, its number.
#[tactic(auto, unfolding(crate::specs::RosterChart::tick))]
fn tick(
    out: &mut List<u8>,
    sheet: PeriodAxis,
    top: u64,
    moments: &[List<u8>],
    place: u8,
) -> Result<(), Memory>
    ensures { OnOk result (out.new ≡ out.old ++ written (tick sheet top moments.now place)) }
{
    if moments.len() > 0 {
        return time_tick(out, sheet, top, moments, place);
    }
    number_tick(out, sheet, top, place)
}

// Writes the times of the periods, or, where there are none, their numbers.
fn all_ticks(
    out: &mut List<u8>,
    sheet: PeriodAxis,
    top: u64,
    moments: &[List<u8>],
) -> Result<(), Memory>
    ensures { OnOk result (out.new ≡ out.old ++ written (all_ticks sheet top moments.now)) }
{
    for place in 0..sheet.periods {
        tick(out, sheet, top, moments, place)?;
    }
    Ok(())
}

/// Writes the times of the periods, or, where there are none, their numbers; behind the last period stands
/// the time of its end.
///
/// # Errors
///
/// `Memory` where memory runs out; a part may stand in `out` then.
pub(crate) fn ticks(
    out: &mut List<u8>,
    sheet: PeriodAxis,
    top: u64,
    moments: &[List<u8>],
) -> Result<(), Memory>
    ensures { OnOk result (out.new ≡ out.old ++ written (ticks sheet top moments.now)) }
{
    all_ticks(out, sheet, top, moments)?;
    time_tick(out, sheet, top, moments, sheet.periods)
}
