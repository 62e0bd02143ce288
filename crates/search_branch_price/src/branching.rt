//! The loop of a search: one turn after another.

ghost use Rattle.std.specs.Prelude.{◌≡◌, ◌≤◌, IfOk};
ghost use Rattle.model_rosters.specs.SoundInstance.{IsSoundInstance};
ghost use Rattle.tree_graph.specs.Graphs.{IsGraph};
ghost use Rattle.tree_pool.specs.Pools.{IsPool, IsGrown};
ghost use Rattle.lp_master_rows.specs.search_day.Rooms.{Grows};
ghost use Rattle.search_primal.specs.Workspaces.{AreTools, StayTools, IsBench, IsRootBench};
ghost use Rattle.search_primal.specs.Jobs.{IsJob, ReachesStart};
ghost use Rattle.search_branch_price.specs.Found.{HasNoArc, IsFound, AreCounted};
ghost use Rattle.search_branch_price.specs.Tasks.{IsJobDone, IsSearchTask, IsTaskDone};
ghost use Rattle.search_branch_price.specs.Steps.{IsBegun};
ghost use Rattle.search_watch.specs.Within.{IsWithin};

use crate::arcless::search_arcless;
use crate::ended::{closed_end, found, halted, halted_at_root};
use crate::found::Found;
use crate::infeasible::{derived, no_roster};
use crate::progress::{Progress, tell_best};
use crate::stop::stops_at;
use crate::task::SearchTask;
use crate::turn::turn;
use crate::turn_end::TurnEnd;
use check_parts::is_plainly_infeasible;
use lp_master_rows::Day;
use model_rosters::{Done, Instance, Memory};
use search_candidates::least_roster;
use search_masters::{Master, Pool};
use search_primal::{
    Job, SearchBench, SearchWorkspace, SearchedDay, Start, offer_early, offer_start,
};
use search_tree::SearchTree;
use search_watch::Watch;
use std::alloc::Global;
use tree_graph::Graph;

/// Returns how far a search is at its begin: the root is not processed, and the best roster is that of
/// equal shifts of least price, the old one, or on a wide day one that is completed from no trees, where they
/// are allowed.
fn begin<W: Watch>(
    alloc: Global,
    job: &Job,
    workspace: &mut SearchWorkspace,
    pool: &mut Pool,
    watch: &W,
) -> Result<Progress, Memory>
    requires job { IsJob job.now }
    requires tools { AreTools job.now.searched.day pool.old workspace.old }
    ensures begun { IfOk result (IsBegun job.now.searched.day.instance.now job.now.searched.day.graph.now) }
    ensures reaches { IfOk result (λ p. ReachesStart job.now p.best) }
    ensures tools { StayTools job.now.searched.day pool.old pool.new workspace.new }
{
    let day = &job.searched.day;
    let mut best = least_roster(
        alloc,
        day,
        &mut workspace.pricing,
        pool,
        &mut workspace.rosters,
    )?;
    let has_old = offer_start(alloc, job, workspace, pool, &mut best)?;
    offer_early(alloc, day, has_old, workspace, &mut best, watch)?;
    tell_best(&best, watch);
    Ok(Progress {
        tree: SearchTree::new(alloc)?,
        best,
    })
}

/// Searches a day that has arcs, with all that it takes, from the root.
fn search_along<M: Master, W: Watch>(
    alloc: Global,
    job: &Job,
    bench: &mut SearchBench,
    pool: &mut Pool,
    master: &mut M,
    watch: &mut W,
) -> Result<Found, Memory>
    requires job { IsJob job.now }
    requires arcs { HasNoArc job.now.searched.day.instance.now → ⊥ }
    requires bench { IsBench job.now.searched.day pool.old bench.old }
    ensures found { IfOk result (IsJobDone job.now (W.patient watch.old) (M.strict master.old)
        (M.refused master.old) (M.refused master.new)) }
    ensures rises { M.refused master.old ≤ M.refused master.new }
    ensures strict_stays { M.strict master.new ≡ M.strict master.old }
    ensures pool { Grows job.now.searched.day pool.old pool.new }
{
    let mut progress = begin(alloc, job, &mut bench.workspace, pool, watch)?;
    while let Some(leaf) = progress.next(job.searched.day.instance) {
        if stops_at(&progress, job.turns, leaf.bound, watch) {
            return found(
                alloc,
                job.searched.day.instance,
                progress,
                Some(leaf.bound),
                Done::TurnsOut,
            );
        }
        let end = turn(
            alloc,
            &job.searched,
            bench,
            pool,
            master,
            &mut progress,
            leaf,
            watch,
        )?;
        match end {
            TurnEnd::Done => {}
            TurnEnd::Stopped(leaf) => {
                return halted(alloc, job.searched.day.instance, progress, leaf);
            }
            TurnEnd::StoppedAtRoot(root) => {
                return halted_at_root(alloc, job.searched.day.instance, progress.best, root);
            }
        }
    }
    let (bound, done) = closed_end(&progress.best);
    found(alloc, job.searched.day.instance, progress, bound, done)
}

/// Searches at a bench, from the root.
fn search_at<M: Master, W: Watch>(
    alloc: Global,
    job: &Job,
    bench: &mut SearchBench,
    pool: &mut Pool,
    master: &mut M,
    watch: &mut W,
) -> Result<Found, Memory>
    requires job { IsJob job.now }
    requires bench { IsRootBench job.now.searched.day pool.old bench.old }
    ensures found { IfOk result (IsJobDone job.now (W.patient watch.old) (M.strict master.old)
        (M.refused master.old) (M.refused master.new)) }
    ensures rises { M.refused master.old ≤ M.refused master.new }
    ensures strict_stays { M.strict master.new ≡ M.strict master.old }
    ensures pool { Grows job.now.searched.day pool.old pool.new }
{
    let day = &job.searched.day;
    if day.graph.arcs().is_empty() {
        return search_arcless(alloc, day, bench, pool);
    }
    search_along(alloc, job, bench, pool, master, watch)
}

/// Searches a day that is not plainly infeasible.
fn search_busy<M: Master, W: Watch>(
    alloc: Global,
    job: &Job,
    pool: &mut Pool,
    master: &mut M,
    watch: &mut W,
) -> Result<Found, Memory>
    requires job { IsJob job.now }
    requires pool { IsPool job.now.searched.day.instance.now.grammar pool.old }
    ensures found { IfOk result (IsJobDone job.now (W.patient watch.old) (M.strict master.old)
        (M.refused master.old) (M.refused master.new)) }
    ensures rises { M.refused master.old ≤ M.refused master.new }
    ensures strict_stays { M.strict master.new ≡ M.strict master.old }
    ensures pool { Grows job.now.searched.day pool.old pool.new }
{
    let mut bench = SearchBench::new(alloc, &job.searched.day)?;
    let found = search_at(alloc, job, &mut bench, pool, master, watch);
    drop(bench);
    found
}

/// Searches as [`search`] does, and begins with an old certificate, of this day or of another one: its roster
/// is offered before the first turn, and its nodes are hints. The shifts are at most 64, of teams of the day.
///
/// All that is said of what [`search`] finds holds here. Where the words of the old shifts are an allowed
/// roster of the day, what is found costs no more than they do here, whatever the old certificate says of its
/// cost; where they are none, it is not taken.
///
/// # Errors
///
/// `Memory` where memory runs out; the master's count may have risen.
pub fn search_from<M: Master, W: Watch>(
    alloc: Global,
    task: &SearchTask,
    pool: &mut Pool,
    master: &mut M,
    watch: &mut W,
) -> Result<Found, Memory>
    requires task { IsSearchTask task.now }
    requires pool { IsPool task.now.day.instance.now.grammar pool.old }
    ensures found { IfOk result (IsTaskDone task.now (W.patient watch.old) (M.strict master.old)
        (M.refused master.old) (M.refused master.new)) }
    ensures rises { M.refused master.old ≤ M.refused master.new }
    ensures strict_stays { M.strict master.new ≡ M.strict master.old }
    ensures pool { Grows task.now.day pool.old pool.new }
{
    let day = &task.day;
    let derives = derived(alloc, day.instance)?;
    if is_plainly_infeasible(day.instance, &derives) {
        return no_roster(alloc, day);
    }
    let searched = SearchedDay {
        day: *day,
        derives: &derives,
    };
    let job = Job {
        searched,
        turns: task.turns,
        start: task.start,
    };
    search_busy(alloc, &job, pool, master, watch)
}

/// Searches for a roster of least cost, with at most so many turns, 1 to 10,000. Each turn processes one
/// node, one of least bound first. Between two turns the watch is told how far the search is, and may stop
/// it. It is asked within a turn too, and where it says that the search is over that turn ends early, or is
/// not taken. All that is said of what is found holds for the number of turns that were taken, from 0; the
/// roster may be better than so many turns would find, and where the first turn is stopped the root may have
/// prices that fit it and need not be best. A patient watch stops none.
///
/// The certificate is sound and accepted, its bound is what its tree shows, and its shifts stand in order
/// of their groups and then of their bytes. The bound is the cost, or both say that no roster is allowed,
/// unless the turns ran out; these are enough where they are at least twice the points less one, a point
/// being a choice of one count for each arc. A day without arcs has one pinned node. The graph is the
/// instance's, and the pool's trees are of its day; whatever the answer, it has its old trees under their
/// numbers, and beside them only further trees of the day.
///
/// # Errors
///
/// `Memory` where memory runs out; the master's count may have risen.
pub fn search<M: Master, W: Watch>(
    alloc: Global,
    instance: &Instance,
    graph: &Graph,
    turns: u32,
    pool: &mut Pool,
    master: &mut M,
    watch: &mut W,
) -> Result<Found, Memory>
    requires sound { IsSoundInstance instance.now }
    requires graph { IsGraph instance.now.grammar graph.now }
    requires pool { IsPool instance.now.grammar pool.old }
    requires some { 1 ≤ turns }
    requires few { turns ≤ 10000 }
    ensures found { IfOk result (λ f. IsWithin (W.patient watch.old) turns
        (λ k. IsFound instance.now (M.strict master.old) k f)) }
    ensures counted { IfOk result (AreCounted instance.now (M.refused master.old) (M.refused master.new)) }
    ensures rises { M.refused master.old ≤ M.refused master.new }
    ensures strict_stays { M.strict master.new ≡ M.strict master.old }
    ensures pool { IsPool instance.now.grammar pool.new }
    ensures grown { IsGrown pool.old pool.new }
{
    let task = SearchTask {
        day: Day { instance, graph },
        turns,
        start: Start::none(),
    };
    search_from(alloc, &task, pool, master, watch)
}
