//! All tables of a page.

ghost use Rattle.std.specs.Prelude.{◌≡◌, ◌++◌, length, OnOk};
ghost use Rattle.page_parts.specs.Elements.{written};
ghost use Rattle.page_tables.specs.Tables.{page_tables, some_tables};

use crate::heads::head_table;
use crate::line::{HeadLine, MomentLine, RunLine, ShiftLine, TotalLine};
use crate::lists::run_list;
use crate::moments::moment_list;
use crate::shifts::shift_table;
use crate::totals::total_table;
use model_rosters::{List, Memory};
use page_parts::{Money, marks};

/// What the tables and lists of a page show.
#[derive(Debug, PartialEq, Eq, Drop)]
pub struct Tables {
    /// Whether the day has groups.
    pub grouped: bool,
    /// Whether some shift has a name.
    pub named: bool,
    /// The shifts, or their stretches where time off is named; nothing where there is no roster.
    pub shifts: List<ShiftLine>,
    /// How many employees have a shift, group by group and in all.
    pub heads: List<HeadLine>,
    /// The codes.
    pub totals: List<TotalLine>,
    /// Which share of the need is covered in all, in tenths of a percent, where any is needed.
    pub covered: Option<u64>,
    /// How many begin and end at each time at which any do.
    pub moments: List<MomentLine>,
    /// The runs of shortage.
    pub shortages: List<RunLine>,
    /// The runs of surplus.
    pub surplus: List<RunLine>,
}

// Appends the tables and lists.
#[tactic(auto, unfolding(crate::specs::Tables::some_tables))]
fn some_tables(out: &mut List<u8>, money: &Money, tables: &Tables) -> Result<(), Memory>
    ensures { OnOk result (out.new ≡ out.old ++ written (some_tables money.now tables.now)) }
{
    marks(out, b"<div class='lists'>\n")?;
    run_list(out, money, b"Shortages", tables.shortages.as_slice())?;
    run_list(out, money, b"Surplus", tables.surplus.as_slice())?;
    total_table(out, tables.totals.as_slice(), tables.covered)?;
    head_table(out, tables.heads.as_slice())?;
    moment_list(out, tables.moments.as_slice())?;
    shift_table(
        out,
        money,
        tables.grouped,
        tables.named,
        tables.shifts.as_slice(),
    )?;
    marks(out, b"</div>\n")
}

/// Appends the tables and lists of a page, where there are any shifts, with amounts that are counted in these
/// words, or bare where there are none.
///
/// # Errors
///
/// `Memory` where memory runs out; a part of them may stand there then.
#[tactic(auto, unfolding(crate::specs::Tables::page_tables))]
pub fn add_tables(out: &mut List<u8>, money: &Money, tables: &Tables) -> Result<(), Memory>
    ensures { OnOk result (out.new ≡ out.old ++ written (page_tables money.now tables.now)) }
{
    if tables.shifts.len() > 0 {
        some_tables(out, money, tables)?;
    }
    Ok(())
}
