//! How many begin and end at each time.

ghost use Rattle.std.specs.Prelude.{◌≡◌, ◌++◌, codes as text, length, OnOk};
ghost use Rattle.page_parts.specs.Elements.{written};
ghost use Rattle.page_tables.specs.MomentTable.{moment_line, moment_lines, moment_list, moment_table};

use crate::line::MomentLine;
use model_rosters::{List, Memory};
use page_parts::{labelled, labelled_text, marks};

// Writes the line of a time.
#[tactic(auto, unfolding(crate::specs::MomentTable::moment_line))]
fn moment_line(out: &mut List<u8>, line: &MomentLine) -> Result<(), Memory>
    ensures { OnOk result (out.new ≡ out.old ++ written (moment_line line.now)) }
{
    labelled_text(out, b"<tr><td>", line.time.as_slice())?;
    labelled(out, b"</td><td>", line.begins)?;
    labelled(out, b"</td><td>", line.ends)?;
    marks(out, b"</td></tr>\n")
}

// Writes the lines of times.
fn moment_lines(out: &mut List<u8>, lines: &[MomentLine]) -> Result<(), Memory>
    ensures { OnOk result (out.new ≡ out.old ++ written (moment_lines lines.now)) }
{
    for line in lines {
        moment_line(out, line)?;
    }
    Ok(())
}

// What stands before the lines.
fn table_start() -> &'static [u8]
    ensures { result.now
        ≡ text "<section class='list'><h2>Begin and end</h2>\n<div class='scroll'><table><thead><tr><th>Time</th><th>Begin</th><th>End</th></tr></thead>\n<tbody>\n" }
{
    b"<section class='list'><h2>Begin and end</h2>\n<div class='scroll'><table><thead><tr><th>Time</th><th>Begin</th><th>End</th></tr></thead>\n<tbody>\n"
}

// Writes the table.
#[tactic(auto, unfolding(crate::specs::MomentTable::moment_table))]
fn moment_table(out: &mut List<u8>, lines: &[MomentLine]) -> Result<(), Memory>
    ensures { OnOk result (out.new ≡ out.old ++ written (moment_table lines.now)) }
{
    marks(out, table_start())?;
    moment_lines(out, lines)?;
    marks(out, b"</tbody></table></div></section>\n")
}

/// Appends the table of how many begin and end at each time, where there are any.
///
/// # Errors
///
/// `Memory` where memory runs out; a part of it may stand there then.
#[tactic(auto, unfolding(crate::specs::MomentTable::moment_list))]
pub(crate) fn moment_list(out: &mut List<u8>, lines: &[MomentLine]) -> Result<(), Memory>
    ensures { OnOk result (out.new ≡ out.old ++ written (moment_list lines.now)) }
{
    if lines.len() > 0 {
        moment_table(out, lines)?;
    }
    Ok(())
}
