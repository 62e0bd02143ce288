//! Rosters by holes, on wide days.

ghost use Rattle.std.specs.Prelude.{IfOk, IfSome};
ghost use Rattle.model_rosters.specs.SoundInstance.{IsSoundInstance};
ghost use Rattle.lp_master_rows.specs.search_day.Days.{IsDay};
ghost use Rattle.search_candidates.specs.Rosters.{IsGoodRoster};
ghost use Rattle.search_holes.specs.Found.{AreSoundShifts};
ghost use Rattle.search_primal.specs.Workspaces.{CanOffer, HasOffered, IsWorkspace, HasTried};

use crate::first::is_wide;
use crate::workspace::SearchWorkspace;
use lp_master_rows::Day;
use model_rosters::{Instance, List, Memory, Prices, Shift};
use search_candidates::{Roster, RosterWorkspace, limit, offer, roster_again};
use search_holes::{HoleSearch, HoleTask};
use search_masters::Handover;
use search_watch::{Watch, Work};
use std::alloc::Global;

/// Returns the shifts of the best roster, and none where there is none.
pub(crate) fn best_shifts(best: &Option<Roster>) -> &[Shift] {
    match best {
        Some(roster) => roster.shifts.as_slice(),
        None => &[],
    }
}

/// Where a search opens holes.
#[derive(Clone, Copy, Drop)]
pub(crate) struct HolePlace<'a> {
    /// How many nodes were processed before.
    pub turn: u32,
    /// The bound that the node leaves.
    pub bound: u64,
    /// The node's prices, where it has some.
    pub prices: Option<&'a Prices>,
}

/// Returns what holes are opened for.
fn task_of<'a>(instance: &Instance, turn: u32, bound: u64, best: &'a Option<Roster>) -> HoleTask<'a>
    requires { IsSoundInstance instance.now }
{
    HoleTask {
        shifts: best_shifts(best),
        cost: limit(instance, best),
        bound,
        turn,
    }
}

/// Makes the search by holes, where there is none yet.
///
/// # Errors
///
/// `Memory` where memory runs out; there is none then.
fn make_ready(alloc: Global, day: &Day, holes: &mut Option<HoleSearch>) -> Result<(), Memory> {
    if holes.is_none() {
        *holes = Some(HoleSearch::new(alloc, day.instance, day.graph)?);
    }
    Ok(())
}

/// Returns the shifts that holes find at a node, at its prices.
///
/// # Errors
///
/// `Memory` where memory runs out; it may be asked again then.
fn found_at_node<W: Watch>(
    alloc: Global,
    day: &Day,
    task: &HoleTask,
    prices: Option<&Prices>,
    holes: &mut Option<HoleSearch>,
    watch: &W,
) -> Result<Option<List<Shift>>, Memory>
    ensures { IfOk result (λ found. IfSome found (AreSoundShifts day.now.instance.now)) }
{
    make_ready(alloc, day, holes)?;
    match holes {
        Some(search) => search.open_holes(alloc, day.instance, task, prices, watch),
        None => Ok(None),
    }
}

/// Returns the shifts that are found before any prices are known.
///
/// # Errors
///
/// `Memory` where memory runs out; it may be asked again then.
fn found_first<W: Watch>(
    alloc: Global,
    day: &Day,
    task: &HoleTask,
    holes: &mut Option<HoleSearch>,
    watch: &W,
) -> Result<Option<List<Shift>>, Memory>
    ensures { IfOk result (λ found. IfSome found (AreSoundShifts day.now.instance.now)) }
{
    make_ready(alloc, day, holes)?;
    match holes {
        Some(search) => search.first_roster(alloc, day.instance, task, watch),
        None => Ok(None),
    }
}

/// Offers the roster of shifts that were found, at their prices on the day. Says whether it becomes the best
/// one.
///
/// # Errors
///
/// `Memory` where memory runs out; the best roster is as before then.
fn offer_found(
    alloc: Global,
    instance: &Instance,
    found: &Option<List<Shift>>,
    rosters: &mut RosterWorkspace,
    best: &mut Option<Roster>,
) -> Result<bool, Memory>
    requires found { IfSome found.now (AreSoundShifts instance.now) }
    requires offer { CanOffer instance.now rosters.old best.old }
    ensures { HasOffered instance.now rosters.new best.old best.new }
{
    let Some(shifts) = found else {
        return Ok(false);
    };
    let before = limit(instance, best);
    let roster = roster_again(alloc, instance, shifts.as_slice(), rosters)?;
    offer(instance, best, roster);
    Ok(limit(instance, best) < before)
}

/// Offers a roster by holes at a node of a wide day. Says whether it becomes the best one.
///
/// # Errors
///
/// `Memory` where memory runs out; the best roster is as before then.
pub(crate) fn offer_holes<W: Watch>(
    alloc: Global,
    day: &Day,
    place: &HolePlace,
    workspace: &mut SearchWorkspace,
    best: &mut Option<Roster>,
    watch: &W,
) -> Result<bool, Memory>
    requires day { IsDay day.now }
    requires workspace { IsWorkspace day.now workspace.old }
    requires good { IfSome best.old (IsGoodRoster day.now.instance.now) }
    ensures { HasTried day.now workspace.new best.old best.new }
{
    if !is_wide(day.graph) {
        return Ok(false);
    }
    watch.tell(Work::Rosters);
    let task = task_of(day.instance, place.turn, place.bound, best);
    let found = found_at_node(alloc, day, &task, place.prices, &mut workspace.holes, watch)?;
    let offered = offer_found(alloc, day.instance, &found, &mut workspace.rosters, best);
    drop(found);
    offered
}

/// Hands over the prices with which holes begin, for the first master.
///
/// # Errors
///
/// `Memory` where memory runs out; nothing is handed over then.
fn hand_over(
    alloc: Global,
    holes: &Option<HoleSearch>,
    handover: &mut Handover,
) -> Result<(), Memory> {
    if let Some(search) = holes {
        handover.cells = search.cell_prices(alloc)?;
    }
    Ok(())
}

/// Offers a roster by holes before any node is priced.
///
/// # Errors
///
/// `Memory` where memory runs out; the best roster is as before then.
pub(crate) fn offer_first_holes<W: Watch>(
    alloc: Global,
    day: &Day,
    workspace: &mut SearchWorkspace,
    best: &mut Option<Roster>,
    watch: &W,
) -> Result<(), Memory>
    requires day { IsDay day.now }
    requires workspace { IsWorkspace day.now workspace.old }
    requires good { IfSome best.old (IsGoodRoster day.now.instance.now) }
    ensures { HasTried day.now workspace.new best.old best.new }
{
    let task = task_of(day.instance, 0, 0, best);
    let found = found_first(alloc, day, &task, &mut workspace.holes, watch)?;
    let offered = offer_found(alloc, day.instance, &found, &mut workspace.rosters, best);
    drop(found);
    offered?;
    hand_over(alloc, &workspace.holes, &mut workspace.handover)
}
