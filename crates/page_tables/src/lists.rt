//! The lists of runs.

ghost use Rattle.std.specs.Prelude.{◌≡◌, ◌++◌, codes as text, length, OnOk};
ghost use Rattle.page_parts.specs.Elements.{written};
ghost use Rattle.page_tables.specs.RunLists.{run_end, run_front, run_line, run_lines, run_list, run_table};

use crate::line::RunLine;
use model_rosters::{List, Memory};
use page_parts::{Money, labelled, labelled_amount, labelled_text, marks};

// Writes what stands before the number of a run.
#[tactic(auto, unfolding(crate::specs::RunLists::run_front))]
fn run_front(out: &mut List<u8>, line: &RunLine) -> Result<(), Memory>
    ensures { OnOk result (out.new ≡ out.old ++ written (run_front line.now)) }
{
    labelled_text(out, b"<tr><td>", line.code.as_slice())?;
    labelled_text(out, b"</td><td>", line.first.as_slice())?;
    labelled_text(out, b"</td><td>", line.last.as_slice())
}

// Writes the rest of the line of a run.
#[tactic(auto, unfolding(crate::specs::RunLists::run_end))]
fn run_end(out: &mut List<u8>, money: &Money, line: &RunLine) -> Result<(), Memory>
    ensures { OnOk result (out.new ≡ out.old ++ written (run_end money.now line.now)) }
{
    labelled(out, b"</td><td>", line.count as u64)?;
    labelled_amount(out, b"</td><td>", money, line.cost)?;
    marks(out, b"</td></tr>\n")
}

// Writes the line of a run.
fn run_line(out: &mut List<u8>, money: &Money, line: &RunLine) -> Result<(), Memory>
    ensures { OnOk result (out.new ≡ out.old ++ written (run_line money.now line.now)) }
{
    run_front(out, line)?;
    run_end(out, money, line)
}

// Writes the lines of runs.
fn run_lines(out: &mut List<u8>, money: &Money, lines: &[RunLine]) -> Result<(), Memory>
    ensures { OnOk result (out.new ≡ out.old ++ written (run_lines money.now lines.now)) }
{
    for line in lines {
        run_line(out, money, line)?;
    }
    Ok(())
}

// What stands between the title and the lines.
fn table_heads() -> &'static [u8]
    ensures { result.now
        ≡ text "</h2>\n<div class='scroll'><table><thead><tr><th>Code</th><th>From</th><th>To</th><th>Employees</th><th>Cost</th></tr></thead>\n<tbody>\n" }
{
    b"</h2>\n<div class='scroll'><table><thead><tr><th>Code</th><th>From</th><th>To</th><th>Employees</th><th>Cost</th></tr></thead>\n<tbody>\n"
}

// Writes runs as a table under a title.
#[tactic(auto, unfolding(crate::specs::RunLists::run_table))]
fn run_table(
    out: &mut List<u8>,
    money: &Money,
    title: &[u8],
    lines: &[RunLine],
) -> Result<(), Memory>
    ensures { OnOk result (out.new ≡ out.old ++ written (run_table money.now title.now lines.now)) }
{
    marks(out, b"<section class='list'><h2>")?;
    marks(out, title)?;
    marks(out, table_heads())?;
    run_lines(out, money, lines)?;
    marks(out, b"</tbody></table></div></section>\n")
}

/// Appends the list of runs under a title of the page's own, where there are any, with amounts that are
/// counted in these words.
///
/// # Errors
///
/// `Memory` where memory runs out; a part of it may stand there then.
#[tactic(auto, unfolding(crate::specs::RunLists::run_list))]
pub(crate) fn run_list(
    out: &mut List<u8>,
    money: &Money,
    title: &[u8],
    lines: &[RunLine],
) -> Result<(), Memory>
    ensures { OnOk result (out.new ≡ out.old ++ written (run_list money.now title.now lines.now)) }
{
    if lines.len() > 0 {
        run_table(out, money, title, lines)?;
    }
    Ok(())
}
