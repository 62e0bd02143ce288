//! How many employees have a shift.

ghost use Rattle.std.specs.Prelude.{◌≡◌, ◌++◌, codes as text, OnOk};
ghost use Rattle.page_parts.specs.Elements.{written};
ghost use Rattle.page_tables.specs.HeadTable.{head_end, head_line, head_lines, head_table};

use crate::line::HeadLine;
use model_rosters::{List, Memory};
use page_parts::{labelled, labelled_text, marks};

// Writes the numbers of a line.
#[tactic(auto, unfolding(crate::specs::HeadTable::head_end))]
fn head_end(out: &mut List<u8>, line: &HeadLine) -> Result<(), Memory>
    ensures { OnOk result (out.new ≡ out.old ++ written (head_end line.now)) }
{
    labelled(out, b"</td><td>", line.count)?;
    labelled(out, b"</td><td>", line.least as u64)?;
    labelled(out, b"</td><td>", line.most as u64)?;
    marks(out, b"</td></tr>\n")
}

// Writes the line of a group, or of all.
#[tactic(auto, unfolding(crate::specs::HeadTable::head_line))]
fn head_line(out: &mut List<u8>, line: &HeadLine) -> Result<(), Memory>
    ensures { OnOk result (out.new ≡ out.old ++ written (head_line line.now)) }
{
    labelled_text(out, b"<tr><td>", line.group.as_slice())?;
    head_end(out, line)
}

// Writes the lines of groups.
fn head_lines(out: &mut List<u8>, lines: &[HeadLine]) -> Result<(), Memory>
    ensures { OnOk result (out.new ≡ out.old ++ written (head_lines lines.now)) }
{
    for line in lines {
        head_line(out, line)?;
    }
    Ok(())
}

// What stands before the lines.
fn table_start() -> &'static [u8]
    ensures { result.now
        ≡ text "<section class='list'><h2>Employees</h2>\n<div class='scroll'><table><thead><tr><th>Group</th><th>Shifts</th><th>At least</th><th>At most</th></tr></thead>\n<tbody>\n" }
{
    b"<section class='list'><h2>Employees</h2>\n<div class='scroll'><table><thead><tr><th>Group</th><th>Shifts</th><th>At least</th><th>At most</th></tr></thead>\n<tbody>\n"
}

/// Appends the table of how many employees have a shift.
///
/// # Errors
///
/// `Memory` where memory runs out; a part of it may stand there then.
#[tactic(auto, unfolding(crate::specs::HeadTable::head_table))]
pub(crate) fn head_table(out: &mut List<u8>, lines: &[HeadLine]) -> Result<(), Memory>
    ensures { OnOk result (out.new ≡ out.old ++ written (head_table lines.now)) }
{
    marks(out, table_start())?;
    head_lines(out, lines)?;
    marks(out, b"</tbody></table></div></section>\n")
}
