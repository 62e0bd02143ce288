//! The roster of an old certificate, offered before the first turn; its trees go into the pool.

ghost use Rattle.std.specs.Prelude.{◌≤◌, OnOk, length};
ghost use Rattle.model_rosters.specs.Folds.{Each};
ghost use Rattle.check_certificates.specs.Sound.{IsSoundShift};
ghost use Rattle.search_primal.specs.Workspaces.{CanOffer, HasOffered, CanFind, HasFound};
ghost use Rattle.search_primal.specs.Jobs.{IsJob, ReachesStart};
ghost use Rattle.search_primal.specs.OldRosters.{ReachesOld};

use crate::job::Job;
use crate::old_splits::OldSplits;
use crate::workspace::SearchWorkspace;
use model_rosters::{Instance, Memory, Shift};
use search_candidates::{Roster, RosterWorkspace, offer, roster_again};
use search_masters::Pool;
use search_moves::add_words;
use std::alloc::Global;

/// Offers the roster of old shifts, at their prices on the day, and says whether there are some and they are
/// allowed.
///
/// # Errors
///
/// `Memory` where memory runs out; the best roster is as before then.
fn offer_shifts(
    alloc: Global,
    instance: &Instance,
    shifts: &[Shift],
    rosters: &mut RosterWorkspace,
    best: &mut Option<Roster>,
) -> Result<bool, Memory>
    requires shifts { Each (IsSoundShift instance.now) shifts.now }
    requires few { length shifts.now ≤ 64 }
    requires offer { CanOffer instance.now rosters.old best.old }
    ensures reaches { OnOk result (ReachesOld instance.now shifts.now best.new) }
    ensures offered { HasOffered instance.now rosters.new best.old best.new }
{
    let found = roster_again(alloc, instance, shifts, rosters)?;
    let is_allowed = !shifts.is_empty() && found.is_some();
    offer(instance, best, found);
    Ok(is_allowed)
}

/// Offers the roster of an old certificate, and keeps its trees and its splits as hints. Says whether the
/// roster has shifts and is allowed.
///
/// # Errors
///
/// `Memory` where memory runs out; the best roster is an allowed one still then, and the pool has its trees
/// under their numbers, and perhaps further trees of the day.
pub fn offer_start(
    alloc: Global,
    job: &Job,
    workspace: &mut SearchWorkspace,
    pool: &mut Pool,
    best: &mut Option<Roster>,
) -> Result<bool, Memory>
    requires job { IsJob job.now }
    requires find { CanFind job.now.searched.day pool.old workspace.old best.old }
    ensures reaches { OnOk result (ReachesStart job.now best.new) }
    ensures found { HasFound job.now.searched.day pool.old pool.new workspace.new best.old best.new }
{
    let day = &job.searched.day;
    let is_allowed = offer_shifts(
        alloc,
        day.instance,
        job.start.shifts,
        &mut workspace.rosters,
        best,
    )?;
    workspace.splits.old = OldSplits::of(alloc, job.start.nodes)?;
    let pricer = &mut workspace.pricing.pricer;
    add_words(alloc, day, job.start.shifts, pricer, pool)?;
    Ok(is_allowed)
}
