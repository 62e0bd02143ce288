//! The best roster made better where there are no prices.

ghost use Rattle.std.specs.Prelude.{◌<◌, All, IfOk, IfSome, length};
ghost use Rattle.lp_master_rows.specs.search_day.Days.{IsDay};
ghost use Rattle.search_primal.specs.Workspaces.{CanFind, HasFound};

use crate::completed::{Stage, guide_of, offer_begun};
use crate::first::missing_prices;
use crate::holes::{HolePlace, best_shifts, offer_holes};
use crate::shortening::keep_all;
use crate::workspace::SearchWorkspace;
use lp_master_rows::Day;
use model_rosters::Memory;
use search_candidates::{Roster, limit};
use search_masters::{Cause, Pool};
use search_moves::add_words;
use search_watch::{Watch, Work};
use std::alloc::Global;

/// Says whether a roster is looked for at a node with too many rows before which so many were processed: at
/// the first, and then ever more seldom.
fn is_due(processed: u32) -> bool {
    processed & processed.saturating_sub(1) == 0
}

/// Offers the best roster, completed and made better by moves that no prices steer.
fn offer_moved<W: Watch>(
    alloc: Global,
    day: &Day,
    stage: &Stage,
    workspace: &mut SearchWorkspace,
    pool: &mut Pool,
    best: &mut Option<Roster>,
    watch: &W,
) -> Result<(), Memory>
    requires day { IsDay day.now }
    requires find { CanFind day.now pool.old workspace.old best.old }
    ensures { HasFound day.now pool.old pool.new workspace.new best.old best.new }
{
    watch.tell(Work::Rosters);
    let begun = add_words(
        alloc,
        day,
        best_shifts(best),
        &mut workspace.pricing.pricer,
        pool,
    )?;
    let Ok(prices) = missing_prices(alloc, day.instance) else {
        drop(begun);
        return Err(Memory);
    };
    let guide = guide_of(day.graph, pool, &prices, stage);
    let offered = offer_begun(
        alloc,
        day,
        begun.as_slice(),
        &guide,
        workspace,
        pool,
        best,
        watch,
    );
    drop(begun);
    drop(prices);
    offered
}

/// Offers a roster at a node that was given up for its rows, where it is due: there are no prices, whatever
/// the turns, so the best roster is made better by moves.
///
/// # Errors
///
/// `Memory` where memory runs out; the best roster is an allowed one still then, and the pool has its trees
/// under their numbers, and perhaps further trees of the day.
pub fn offer_without_prices<W: Watch>(
    alloc: Global,
    day: &Day,
    cause: Cause,
    stage: &Stage,
    workspace: &mut SearchWorkspace,
    pool: &mut Pool,
    best: &mut Option<Roster>,
    watch: &W,
) -> Result<(), Memory>
    requires day { IsDay day.now }
    requires find { CanFind day.now pool.old workspace.old best.old }
    ensures { HasFound day.now pool.old pool.new workspace.new best.old best.new }
{
    let Cause::Rows { .. } = cause else {
        return Ok(());
    };
    if !is_due(stage.processed) || limit(day.instance, best) <= stage.bound || watch.is_over() {
        return Ok(());
    }
    let place = HolePlace {
        turn: stage.processed,
        bound: stage.bound,
        prices: None,
    };
    if offer_holes(alloc, day, &place, workspace, best, watch)? {
        return Ok(());
    }
    keep_all(day, workspace);
    offer_moved(alloc, day, stage, workspace, pool, best, watch)
}
