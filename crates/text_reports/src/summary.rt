//! The summary of a made day.

ghost use Rattle.std.specs.Prelude.{◌≡◌, ◌++◌, IfOk, OnOk};
ghost use Rattle.text_lines.specs.Written.{written};
ghost use Rattle.text_reports.specs.SummaryText.{day_lines, search_lines, summary_text};

use crate::write::{number_line, result_line};
use model_rosters::{Done, List, Memory};
use std::alloc::Global;
use text_certificates::amount_line;

/// What is said of a day that was made from a number, and of the search for its roster.
#[derive(Clone, Copy, Debug, PartialEq, Eq, Drop)]
pub struct Summary {
    /// The number that the day is made from.
    pub number: u32,
    /// How many periods the day has.
    pub periods: u8,
    /// How many arcs the day has.
    pub arcs: u32,
    /// How the search ended.
    pub done: Done,
    /// What the roster costs, or none where there is no roster.
    pub cost: Option<u64>,
    /// The bound; none says that no roster is allowed.
    pub bound: Option<u64>,
    /// How many nodes the search processed.
    pub processed: u32,
    /// How many of them it split without prices.
    pub failed: u32,
}

// Writes what a summary says of its day.
fn day_lines(out: &mut List<u8>, summary: &Summary) -> Result<(), Memory>
    ensures { OnOk result (out.new ≡ out.old ++ written (day_lines summary.now)) }
{
    number_line(out, b"make", summary.number as u64)?;
    number_line(out, b"periods", summary.periods as u64)?;
    number_line(out, b"arcs", summary.arcs as u64)
}

// Writes what a summary says of the search.
fn search_lines(out: &mut List<u8>, summary: &Summary) -> Result<(), Memory>
    ensures { OnOk result (out.new ≡ out.old ++ written (search_lines summary.now)) }
{
    result_line(out, summary.done)?;
    amount_line(out, b"cost", summary.cost)?;
    amount_line(out, b"bound", summary.bound)?;
    number_line(out, b"processed", summary.processed as u64)?;
    number_line(out, b"failed", summary.failed as u64)
}

/// Writes the text of a summary, with one space between words and no comment.
///
/// # Errors
///
/// `Memory` where memory runs out; there is no text then.
pub fn write_summary(alloc: Global, summary: &Summary) -> Result<List<u8>, Memory>
    ensures { IfOk result (λ text. text ≡ summary_text summary.now) }
{
    let mut out = List::new(alloc);
    day_lines(&mut out, summary)?;
    search_lines(&mut out, summary)?;
    Ok(out)
}
