//! All tables of a roster.

ghost use Rattle.std.specs.Prelude.{◌≡◌, ◌≤◌, All, IfOk, length};
ghost use Rattle.page_text.specs.Costs.{AreDayColumns};
ghost use Rattle.page_rosters.specs.TablesOf.{is_grouped, is_named, tables_of};

use crate::counts::moments_of;
use crate::heads::heads_of;
use crate::lines::lines_of;
use crate::runs::{shortages, surplus_lines};
use crate::totals::{all_covered, totals_of};
use model_rosters::{Instance, Memory, Shift};
use page_labels::Labels;
use page_tables::Tables;
use page_text::CellCover;
use std::alloc::Global;

// Whether the day has groups.
fn is_grouped(instance: &Instance) -> bool
    ensures { result ≡ is_grouped instance.now }
{
    instance.groups.len() > 0
}

// Whether some shift has a name.
fn is_named(labels: &Labels) -> bool
    ensures { result ≡ is_named labels.now }
{
    labels.shifts.len() > 0
}

/// Returns the tables and lists of a roster of at most 64 shifts, from how it covers the day's cells and from
/// labels.
///
/// # Errors
///
/// `Memory` where memory runs out; nothing is kept then.
pub fn tables_of(
    alloc: Global,
    instance: &Instance,
    labels: &Labels,
    shifts: &[Shift],
    columns: &[CellCover],
) -> Result<Tables, Memory>
    requires codes { length instance.now.grammar.codes ≤ 32 }
    requires groups { length instance.now.groups ≤ 8 }
    requires few { length shifts.now ≤ 64 }
    requires short { All (λ s. length s.word ≤ 96) shifts.now }
    requires columns { AreDayColumns columns.now }
    ensures { IfOk result (λ t. t ≡ tables_of instance.now labels.now shifts.now columns.now) }
{
    let codes = instance.grammar.codes.as_slice();
    Ok(Tables {
        grouped: is_grouped(instance),
        named: is_named(labels),
        shifts: lines_of(alloc, instance, labels, shifts)?,
        heads: heads_of(alloc, instance, labels, shifts)?,
        totals: totals_of(alloc, codes, labels, shifts, columns)?,
        covered: all_covered(columns),
        moments: moments_of(alloc, instance, labels, shifts)?,
        shortages: shortages(alloc, codes, labels, columns)?,
        surplus: surplus_lines(alloc, codes, labels, columns)?,
    })
}
