//! The chart of one code.

ghost use Rattle.std.specs.Prelude.{◌≡◌, ◌≤◌, ◌+◌, ◌*◌, ◌^◌, ◌++◌, ◌∷◌, OnOk};
ghost use Rattle.page_parts.specs.Elements as page;
ghost use Rattle.page_parts.specs.Elements.{written};
ghost use Rattle.page_text.specs.Charts.{
  axis_line,
  axis_lines,
  axis_step,
  ceiling_line,
  ceiling_of,
  code_ink,
  column_bar,
  column_bars,
  counted,
  ends,
  floor_line,
  frame,
  from_of,
  grid,
  higher,
  in_words,
  ink_elements,
  inked,
  is_axis_count,
  level,
  limit_lines,
  lines,
  need_line,
  need_step,
  peak,
  segment,
  top_count,
  unit_of,
};

use crate::CellCover;
use crate::ink::Ink;
use model_rosters::{List, Memory};
use page_parts::{Area, PeriodAxis, bar, figure, labelled, left_of, marks, right_of};

/// Where a chart ends at its bottom.
const BASE: u64 = 112;

// The ceiling of a column that a chart shows, or 0 where there is none.
fn ceiling_of(column: &CellCover) -> u32
    ensures { result ≡ ceiling_of column.now }
{
    if column.ceiling < 64 {
        column.ceiling
    } else {
        0
    }
}

// The greatest count that a chart shows of a column.
fn peak(column: &CellCover) -> u32
    ensures { result ≡ peak column.now }
{
    let ceiling = ceiling_of(column);
    column.need.max(column.have).max(column.floor.max(ceiling))
}

// The greater of a count and of what the chart of a code shows of a column.
#[tactic(auto, unfolding(crate::specs::Charts::higher))]
fn higher(code: u8, most: u32, column: &CellCover) -> u32
    ensures { result ≡ higher code most column.now }
{
    if column.code == code {
        most.max(peak(column))
    } else {
        most
    }
}

/// Returns the greatest count that the chart of a code shows, at least 1.
pub(crate) fn top_count(code: u8, columns: &[CellCover]) -> u32
    ensures { result ≡ top_count code columns.now 1 }
{
    let mut most: u32 = 1;
    for column in columns {
        most = higher(code, most, column);
    }
    most
}

/// Returns how high one employee is.
pub(crate) fn unit_of(top: u32) -> u8
    ensures { result ≡ unit_of top }
{
    (96 / top.max(1)).min(48) as u8
}

// How high so many employees are.
fn height_of(unit: u8, count: u32) -> u64
    ensures { result ≡ unit * count }
{
    u64::from(unit as u32) * u64::from(count)
}

// Where so many employees end above the bottom.
fn level(unit: u8, count: u32) -> u64
    ensures value { result ≡ level unit count }
    ensures small { result ≤ 112 }
{
    BASE.saturating_sub(height_of(unit, count))
}

// Where the period of a column begins.
fn from_of(sheet: PeriodAxis, column: &CellCover) -> u64
    ensures value { result ≡ from_of sheet column.now }
    ensures small { result ≤ 2 ^ 33 }
{
    left_of(sheet, column.period.saturating_sub(1))
}

// Writes a bar of a column from a count down.
#[tactic(auto, unfolding(crate::specs::Charts::column_bar))]
fn column_bar(
    out: &mut List<u8>,
    class: &[u8],
    sheet: PeriodAxis,
    unit: u8,
    column: &CellCover,
    top: u32,
    count: u32,
) -> Result<(), Memory>
    ensures { OnOk result
        (out.new ≡ out.old ++ written (column_bar class.now sheet unit column.now top count)) }
{
    let area = Area {
        left: from_of(sheet, column),
        top: level(unit, top),
        width: sheet.cell as u64,
        height: height_of(unit, count),
    };
    bar(out, class, area)
}

// Writes the bars of a column.
#[tactic(auto, unfolding(crate::specs::Charts::column_bars))]
fn column_bars(
    out: &mut List<u8>,
    sheet: PeriodAxis,
    unit: u8,
    column: &CellCover,
) -> Result<(), Memory>
    ensures { OnOk result (out.new ≡ out.old ++ written (column_bars sheet unit column.now)) }
{
    let both = column.need.min(column.have);
    column_bar(out, b"have", sheet, unit, column, both, both)?;
    column_bar(
        out,
        b"short",
        sheet,
        unit,
        column,
        column.need,
        column.short,
    )?;
    column_bar(out, b"over", sheet, unit, column, column.have, column.over)
}

// Writes a step of the line of the need.
#[tactic(auto, unfolding(crate::specs::Charts::need_step))]
fn need_step(
    out: &mut List<u8>,
    sheet: PeriodAxis,
    unit: u8,
    column: &CellCover,
) -> Result<(), Memory>
    ensures { OnOk result (out.new ≡ out.old ++ written (need_step sheet unit column.now)) }
{
    labelled(out, b"V", level(unit, column.need))?;
    labelled(out, b"H", from_of(sheet, column) + sheet.cell as u64)
}

// Writes a line over one period at a count.
#[tactic(auto, unfolding(crate::specs::Charts::segment))]
fn segment(
    out: &mut List<u8>,
    sheet: PeriodAxis,
    unit: u8,
    column: &CellCover,
    count: u32,
) -> Result<(), Memory>
    ensures { OnOk result (out.new ≡ out.old ++ written (segment sheet unit column.now count)) }
{
    labelled(out, b"M", from_of(sheet, column))?;
    labelled(out, b" ", level(unit, count))?;
    labelled(out, b"H", from_of(sheet, column) + sheet.cell as u64)
}

// Writes the line of a floor, where it is above 0.
#[tactic(auto, unfolding(crate::specs::Charts::floor_line))]
fn floor_line(
    out: &mut List<u8>,
    sheet: PeriodAxis,
    unit: u8,
    column: &CellCover,
) -> Result<(), Memory>
    ensures { OnOk result (out.new ≡ out.old ++ written (floor_line sheet unit column.now)) }
{
    if column.floor > 0 {
        segment(out, sheet, unit, column, column.floor)?;
    }
    Ok(())
}

// Writes the line of a ceiling, where there is one; it may be 0.
#[tactic(auto, unfolding(crate::specs::Charts::ceiling_line))]
fn ceiling_line(
    out: &mut List<u8>,
    sheet: PeriodAxis,
    unit: u8,
    column: &CellCover,
) -> Result<(), Memory>
    ensures { OnOk result (out.new ≡ out.old ++ written (ceiling_line sheet unit column.now)) }
{
    if column.ceiling < 64 {
        segment(out, sheet, unit, column, column.ceiling)?;
    }
    Ok(())
}

// Writes a count in words.
#[tactic(auto, unfolding(crate::specs::Charts::counted))]
fn counted(out: &mut List<u8>, count: u32) -> Result<(), Memory>
    ensures { OnOk result (out.new ≡ out.old ++ written (counted count)) }
{
    labelled(out, b" ", count as u64)
}

// Writes what a column brings to a chart.
fn ink_elements(
    out: &mut List<u8>,
    ink: Ink,
    sheet: PeriodAxis,
    unit: u8,
    column: &CellCover,
) -> Result<(), Memory>
    ensures { OnOk result (out.new ≡ out.old ++ written (ink_elements ink sheet unit column.now)) }
{
    match ink {
        Ink::Bars => column_bars(out, sheet, unit, column),
        Ink::Need => need_step(out, sheet, unit, column),
        Ink::Floor => floor_line(out, sheet, unit, column),
        Ink::Ceiling => ceiling_line(out, sheet, unit, column),
        Ink::Needed => counted(out, column.need),
        Ink::Had => counted(out, column.have),
        Ink::Short => counted(out, column.short),
        Ink::Over => counted(out, column.over),
    }
}

// Writes what a column brings to a chart, where it is of the code.
#[tactic(auto, unfolding(crate::specs::Charts::code_ink))]
fn code_ink(
    out: &mut List<u8>,
    ink: Ink,
    sheet: PeriodAxis,
    unit: u8,
    code: u8,
    column: &CellCover,
) -> Result<(), Memory>
    ensures { OnOk result (out.new ≡ out.old ++ written (code_ink ink sheet unit code column.now)) }
{
    if column.code == code {
        ink_elements(out, ink, sheet, unit, column)?;
    }
    Ok(())
}

/// Writes what the columns of a code bring to a chart.
///
/// # Errors
///
/// `Memory` where memory runs out; a part may stand in `out` then.
pub(crate) fn inked(
    out: &mut List<u8>,
    ink: Ink,
    sheet: PeriodAxis,
    unit: u8,
    code: u8,
    columns: &[CellCover],
) -> Result<(), Memory>
    ensures { OnOk result (out.new ≡ out.old ++ written (inked ink sheet unit code columns.now)) }
{
    for column in columns {
        code_ink(out, ink, sheet, unit, code, column)?;
    }
    Ok(())
}

// Writes marks, and a count of each column of a code behind them.
fn labelled_counts(
    out: &mut List<u8>,
    label: &[u8],
    ink: Ink,
    sheet: PeriodAxis,
    code: u8,
    columns: &[CellCover],
) -> Result<(), Memory>
    ensures { OnOk result
        (out.new ≡ out.old ++ written (page.marks label.now ∷ inked ink sheet 0 code columns.now)) }
{
    marks(out, label)?;
    inked(out, ink, sheet, 0, code, columns)
}

/// Writes the counts of a code in words, period by period.
///
/// # Errors
///
/// `Memory` where memory runs out; a part may stand in `out` then.
#[tactic(auto, unfolding(crate::specs::Charts::in_words))]
pub(crate) fn in_words(
    out: &mut List<u8>,
    sheet: PeriodAxis,
    code: u8,
    columns: &[CellCover],
) -> Result<(), Memory>
    ensures { OnOk result (out.new ≡ out.old ++ written (in_words sheet code columns.now)) }
{
    labelled_counts(out, b"Needed by period:", Ink::Needed, sheet, code, columns)?;
    labelled_counts(out, b". At work:", Ink::Had, sheet, code, columns)?;
    labelled_counts(out, b". Short:", Ink::Short, sheet, code, columns)?;
    labelled_counts(out, b". Surplus:", Ink::Over, sheet, code, columns)?;
    marks(out, b".")
}

// Writes a line over the whole day.
#[tactic(auto, unfolding(crate::specs::Charts::grid))]
fn grid(out: &mut List<u8>, sheet: PeriodAxis, top: u64) -> Result<(), Memory>
    ensures { OnOk result (out.new ≡ out.old ++ written (grid sheet top)) }
{
    let area = Area {
        left: sheet.left as u64,
        top,
        width: right_of(sheet).saturating_sub(sheet.left as u64),
        height: 1,
    };
    bar(out, b"grid", area)
}

// Writes the lines at the bottom and at the greatest count, with their numbers.
#[tactic(auto, unfolding(crate::specs::Charts::ends))]
fn ends(out: &mut List<u8>, sheet: PeriodAxis, unit: u8, top: u32) -> Result<(), Memory>
    ensures { OnOk result (out.new ≡ out.old ++ written (ends sheet unit top)) }
{
    let beside = (sheet.left as u64).saturating_sub(8);
    grid(out, sheet, level(unit, top))?;
    grid(out, sheet, BASE)?;
    figure(out, b"price", beside, level(unit, top) + 4, top as u64)?;
    figure(out, b"price", beside, BASE + 4, 0)
}

// Returns how many counts lie between two lines of the axis.
fn axis_step(top: u32) -> u32
    ensures value { result ≡ axis_step top }
    ensures some { 1 ≤ result }
{
    if top < 5 {
        1
    } else if top < 11 {
        2
    } else if top < 25 {
        5
    } else if top < 49 {
        10
    } else {
        20
    }
}

// Whether the axis has a line at a count below the greatest, whose number has room below that of the
// greatest.
fn is_axis_count(unit: u8, top: u32, count: u32) -> bool
    ensures { result ≡ is_axis_count unit top count }
{
    count > 0 && count % axis_step(top) == 0 && 12 <= height_of(unit, top.saturating_sub(count))
}

// Writes the line of the axis at a count, with its number, where there is one.
#[tactic(auto, unfolding(crate::specs::Charts::axis_line))]
fn axis_line(
    out: &mut List<u8>,
    sheet: PeriodAxis,
    unit: u8,
    top: u32,
    count: u32,
) -> Result<(), Memory>
    ensures { OnOk result (out.new ≡ out.old ++ written (axis_line sheet unit top count)) }
{
    if is_axis_count(unit, top, count) {
        let beside = (sheet.left as u64).saturating_sub(8);
        grid(out, sheet, level(unit, count))?;
        figure(out, b"price", beside, level(unit, count) + 4, count as u64)?;
    }
    Ok(())
}

// Writes the lines of the axis between 0 and the greatest count.
fn axis_lines(out: &mut List<u8>, sheet: PeriodAxis, unit: u8, top: u32) -> Result<(), Memory>
    ensures { OnOk result (out.new ≡ out.old ++ written (axis_lines sheet unit top)) }
{
    let end = top.min(64);
    for count in 0..end {
        axis_line(out, sheet, unit, top, count)?;
    }
    Ok(())
}

/// Writes the lines of the axis, at 0, at the greatest count and between them, with their numbers.
///
/// # Errors
///
/// `Memory` where memory runs out; a part may stand in `out` then.
pub(crate) fn frame(out: &mut List<u8>, sheet: PeriodAxis, unit: u8, top: u32) -> Result<(), Memory>
    ensures { OnOk result (out.new ≡ out.old ++ written (frame sheet unit top)) }
{
    ends(out, sheet, unit, top)?;
    axis_lines(out, sheet, unit, top)
}

// Writes the line of the need.
#[tactic(auto, unfolding(crate::specs::Charts::need_line))]
fn need_line(
    out: &mut List<u8>,
    sheet: PeriodAxis,
    unit: u8,
    code: u8,
    columns: &[CellCover],
) -> Result<(), Memory>
    ensures { OnOk result (out.new ≡ out.old ++ written (need_line sheet unit code columns.now)) }
{
    labelled(out, b"<path class='need' d='M", sheet.left as u64)?;
    labelled(out, b" ", BASE)?;
    inked(out, Ink::Need, sheet, unit, code, columns)?;
    labelled(out, b"V", BASE)?;
    marks(out, b"'/>")
}

// Writes the lines of the floors and of the ceilings.
#[tactic(auto, unfolding(crate::specs::Charts::limit_lines))]
fn limit_lines(
    out: &mut List<u8>,
    sheet: PeriodAxis,
    unit: u8,
    code: u8,
    columns: &[CellCover],
) -> Result<(), Memory>
    ensures { OnOk result (out.new ≡ out.old ++ written (limit_lines sheet unit code columns.now)) }
{
    marks(out, b"<path class='floor' d='")?;
    inked(out, Ink::Floor, sheet, unit, code, columns)?;
    marks(out, b"'/><path class='ceiling' d='")?;
    inked(out, Ink::Ceiling, sheet, unit, code, columns)?;
    marks(out, b"'/>")
}

/// Writes the lines of the need, of the floors and of the ceilings.
///
/// # Errors
///
/// `Memory` where memory runs out; a part may stand in `out` then.
pub(crate) fn lines(
    out: &mut List<u8>,
    sheet: PeriodAxis,
    unit: u8,
    code: u8,
    columns: &[CellCover],
) -> Result<(), Memory>
    ensures { OnOk result (out.new ≡ out.old ++ written (lines sheet unit code columns.now)) }
{
    need_line(out, sheet, unit, code, columns)?;
    limit_lines(out, sheet, unit, code, columns)
}
