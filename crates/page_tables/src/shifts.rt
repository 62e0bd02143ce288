//! The table of the shifts.

ghost use Rattle.std.specs.Prelude.{◌≡◌, ◌++◌, codes as text, length, OnOk};
ghost use Rattle.page_parts.specs.Elements.{written};
ghost use Rattle.page_tables.specs.ShiftTable.{first_cells, group_head, last_cells, line_end, line_front, shift_line, shift_lines, shift_table, text_cell, text_cell_if, who_head};

use crate::line::ShiftLine;
use model_rosters::{List, Memory};
use page_parts::{Money, labelled, labelled_amount, labelled_text, marks};

// Writes a cell.
#[tactic(auto, unfolding(crate::specs::ShiftTable::text_cell))]
fn text_cell(out: &mut List<u8>, text: &[u8]) -> Result<(), Memory>
    ensures { OnOk result (out.new ≡ out.old ++ written (text_cell text.now)) }
{
    labelled_text(out, b"<td>", text)?;
    marks(out, b"</td>")
}

// Writes a cell of a column that not each table has.
#[tactic(auto, unfolding(crate::specs::ShiftTable::text_cell_if))]
fn text_cell_if(out: &mut List<u8>, shown: bool, text: &[u8]) -> Result<(), Memory>
    ensures { OnOk result (out.new ≡ out.old ++ written (text_cell_if shown text.now)) }
{
    if shown {
        text_cell(out, text)?;
    }
    Ok(())
}

// Writes what stands before the periods of work.
#[tactic(auto, unfolding(crate::specs::ShiftTable::line_front))]
fn line_front(
    out: &mut List<u8>,
    grouped: bool,
    named: bool,
    line: &ShiftLine,
) -> Result<(), Memory>
    ensures { OnOk result (out.new ≡ out.old ++ written (line_front grouped named line.now)) }
{
    labelled(out, b"<tr><td>", line.number as u64)?;
    marks(out, b"</td>")?;
    text_cell_if(out, grouped, line.group.as_slice())?;
    text_cell_if(out, named, line.who.as_slice())?;
    labelled_text(out, b"<td>", line.begin.as_slice())?;
    labelled_text(out, b"</td><td>", line.end.as_slice())
}

// Writes paid time, price and codes of a shift.
#[tactic(auto, unfolding(crate::specs::ShiftTable::first_cells))]
fn first_cells(out: &mut List<u8>, money: &Money, line: &ShiftLine) -> Result<(), Memory>
    ensures { OnOk result (out.new ≡ out.old ++ written (first_cells money.now line.now)) }
{
    labelled_text(out, b"<td>", line.paid.as_slice())?;
    labelled_amount(out, b"</td><td>", money, line.price)?;
    labelled_text(out, b"</td><td class='word'>", line.word.as_slice())?;
    marks(out, b"</td>")
}

// Writes the same in the first line of a shift, and nothing in a further one.
#[tactic(auto, unfolding(crate::specs::ShiftTable::last_cells))]
fn last_cells(out: &mut List<u8>, money: &Money, line: &ShiftLine) -> Result<(), Memory>
    ensures { OnOk result (out.new ≡ out.old ++ written (last_cells money.now line.now)) }
{
    if line.first {
        return first_cells(out, money, line);
    }
    marks(out, b"<td></td><td></td><td></td>")
}

// Writes the rest of the line.
#[tactic(auto, unfolding(crate::specs::ShiftTable::line_end))]
fn line_end(out: &mut List<u8>, money: &Money, line: &ShiftLine) -> Result<(), Memory>
    ensures { OnOk result (out.new ≡ out.old ++ written (line_end money.now line.now)) }
{
    labelled(out, b"</td><td>", line.work)?;
    marks(out, b"</td>")?;
    last_cells(out, money, line)?;
    marks(out, b"</tr>\n")
}

// Writes a line.
fn shift_line(
    out: &mut List<u8>,
    money: &Money,
    grouped: bool,
    named: bool,
    line: &ShiftLine,
) -> Result<(), Memory>
    ensures { OnOk result
        (out.new ≡ out.old ++ written (shift_line money.now grouped named line.now)) }
{
    line_front(out, grouped, named, line)?;
    line_end(out, money, line)
}

// Writes the lines.
fn shift_lines(
    out: &mut List<u8>,
    money: &Money,
    grouped: bool,
    named: bool,
    lines: &[ShiftLine],
) -> Result<(), Memory>
    ensures { OnOk result
        (out.new ≡ out.old ++ written (shift_lines money.now grouped named lines.now)) }
{
    for line in lines {
        shift_line(out, money, grouped, named, line)?;
    }
    Ok(())
}

// Returns the title of the column of groups, on a day with groups.
#[tactic(auto, unfolding(crate::specs::ShiftTable::group_head))]
fn group_head(grouped: bool) -> &'static [u8]
    ensures { result.now ≡ group_head grouped }
{
    if grouped { b"<th>Group</th>" } else { b"" }
}

// Returns the title of the column of names, where shifts are named.
#[tactic(auto, unfolding(crate::specs::ShiftTable::who_head))]
fn who_head(named: bool) -> &'static [u8]
    ensures { result.now ≡ who_head named }
{
    if named { b"<th>Who</th>" } else { b"" }
}

// What stands before the columns.
fn table_start() -> &'static [u8]
    ensures { result.now
        ≡ text "<section class='list'><h2>List of shifts</h2>\n<div class='scroll'><table><thead><tr><th>Shift</th>" }
{
    b"<section class='list'><h2>List of shifts</h2>\n<div class='scroll'><table><thead><tr><th>Shift</th>"
}

// What stands between the columns and the lines.
fn table_heads() -> &'static [u8]
    ensures { result.now
        ≡ text "<th>Begin</th><th>End</th><th>Periods of work</th><th>Paid time</th><th>Price</th><th>Codes</th></tr></thead>\n<tbody>\n" }
{
    b"<th>Begin</th><th>End</th><th>Periods of work</th><th>Paid time</th><th>Price</th><th>Codes</th></tr></thead>\n<tbody>\n"
}

/// Appends the table of the shifts, with amounts that are counted in these words.
///
/// # Errors
///
/// `Memory` where memory runs out; a part of it may stand there then.
#[tactic(auto, unfolding(crate::specs::ShiftTable::shift_table))]
pub(crate) fn shift_table(
    out: &mut List<u8>,
    money: &Money,
    grouped: bool,
    named: bool,
    lines: &[ShiftLine],
) -> Result<(), Memory>
    ensures { OnOk result
        (out.new ≡ out.old ++ written (shift_table money.now grouped named lines.now)) }
{
    marks(out, table_start())?;
    marks(out, group_head(grouped))?;
    marks(out, who_head(named))?;
    marks(out, table_heads())?;
    shift_lines(out, money, grouped, named, lines)?;
    marks(out, b"</tbody></table></div></section>\n")
}
