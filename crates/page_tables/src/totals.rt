//! The table of the codes, and the share of the need that is covered in all.

ghost use Rattle.std.specs.Prelude.{◌≡◌, ◌/◌, ◌%◌, ◌++◌, codes as text, OnOk};
ghost use Rattle.page_parts.specs.Elements.{written};
ghost use Rattle.page_tables.specs.TotalTable.{all_line, all_share, share_cell, share_of, total_front, total_line, total_lines, total_table};

use crate::line::TotalLine;
use model_rosters::{List, Memory};
use page_parts::{labelled, labelled_text, marks, number};

// Writes a share in percent.
#[tactic(auto, unfolding(crate::specs::TotalTable::share_of))]
fn share_of(out: &mut List<u8>, share: u64) -> Result<(), Memory>
    ensures { OnOk result (out.new ≡ out.old ++ written (share_of share)) }
{
    number(out, share / 10)?;
    labelled(out, b".", share % 10)?;
    marks(out, b" %")
}

// Writes a share in percent, where there is one.
#[tactic(auto, unfolding(crate::specs::TotalTable::share_cell))]
fn share_cell(out: &mut List<u8>, share: Option<u64>) -> Result<(), Memory>
    ensures { OnOk result (out.new ≡ out.old ++ written (share_cell share)) }
{
    match share {
        None => Ok(()),
        Some(share) => share_of(out, share),
    }
}

// Writes what stands before the share of a code.
#[tactic(auto, unfolding(crate::specs::TotalTable::total_front))]
fn total_front(out: &mut List<u8>, line: &TotalLine) -> Result<(), Memory>
    ensures { OnOk result (out.new ≡ out.old ++ written (total_front line.now)) }
{
    labelled_text(out, b"<tr><td>", line.code.as_slice())?;
    labelled(out, b"</td><td>", line.total)?;
    marks(out, b"</td><td>")
}

// Writes the line of a code.
#[tactic(auto, unfolding(crate::specs::TotalTable::total_line))]
fn total_line(out: &mut List<u8>, line: &TotalLine) -> Result<(), Memory>
    ensures { OnOk result (out.new ≡ out.old ++ written (total_line line.now)) }
{
    total_front(out, line)?;
    share_cell(out, line.share)?;
    marks(out, b"</td></tr>\n")
}

// Writes the lines of codes.
fn total_lines(out: &mut List<u8>, lines: &[TotalLine]) -> Result<(), Memory>
    ensures { OnOk result (out.new ≡ out.old ++ written (total_lines lines.now)) }
{
    for line in lines {
        total_line(out, line)?;
    }
    Ok(())
}

// What stands before the lines.
fn table_start() -> &'static [u8]
    ensures { result.now
        ≡ text "<section class='list'><h2>Codes</h2>\n<div class='scroll'><table><thead><tr><th>Code</th><th>Periods</th><th>Covered</th></tr></thead>\n<tbody>\n" }
{
    b"<section class='list'><h2>Codes</h2>\n<div class='scroll'><table><thead><tr><th>Code</th><th>Periods</th><th>Covered</th></tr></thead>\n<tbody>\n"
}

// Writes the line of the share of all codes.
#[tactic(auto, unfolding(crate::specs::TotalTable::all_share))]
fn all_share(out: &mut List<u8>, share: u64) -> Result<(), Memory>
    ensures { OnOk result (out.new ≡ out.old ++ written (all_share share)) }
{
    marks(out, b"<tr><td>all</td><td></td><td>")?;
    share_of(out, share)?;
    marks(out, b"</td></tr>\n")
}

// Writes the line of the share of all codes, where anything is needed.
#[tactic(auto, unfolding(crate::specs::TotalTable::all_line))]
fn all_line(out: &mut List<u8>, covered: Option<u64>) -> Result<(), Memory>
    ensures { OnOk result (out.new ≡ out.old ++ written (all_line covered)) }
{
    match covered {
        None => Ok(()),
        Some(share) => all_share(out, share),
    }
}

/// Appends the table of the codes, and behind them the share of their need that is covered in all.
///
/// # Errors
///
/// `Memory` where memory runs out; a part of it may stand there then.
#[tactic(auto, unfolding(crate::specs::TotalTable::total_table))]
pub(crate) fn total_table(
    out: &mut List<u8>,
    lines: &[TotalLine],
    covered: Option<u64>,
) -> Result<(), Memory>
    ensures { OnOk result (out.new ≡ out.old ++ written (total_table lines.now covered)) }
{
    marks(out, table_start())?;
    total_lines(out, lines)?;
    all_line(out, covered)?;
    marks(out, b"</tbody></table></div></section>\n")
}
