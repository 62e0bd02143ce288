//! What a search works on, beside its tree: the workspace, and the bench, which has the path too.

ghost use Rattle.std.specs.Prelude.{IfOk};
ghost use Rattle.lp_master_rows.specs.search_day.Days.{IsDay};
ghost use Rattle.search_primal.specs.Workspaces.{IsWorkspace, IsNewBench};

use crate::old_splits::OldSplits;
use check_certificates::MOST_MULTIPLIERS;
use lp_master_rows::{Day, Pricing};
use model_rosters::{List, Memory};
use search_arc_counts::NodePath;
use search_candidates::RosterWorkspace;
use search_holes::HoleSearch;
use search_masters::{Handover, Weight};
use search_moves::ShortPricing;
use search_strong_branching::Gains;
use std::alloc::Global;

/// What is known of splits, as hints.
#[derive(Drop)]
pub struct SplitHints {
    /// What splits on letters gained so far.
    pub gains: Gains,
    /// The splits of an old certificate.
    pub old: OldSplits,
}

/// What a search works on, beside its tree and its path.
#[derive(Drop)]
pub struct SearchWorkspace {
    /// What prices the trees of the day.
    pub pricing: Pricing,
    /// What prices words and judges rosters.
    pub rosters: RosterWorkspace,
    /// What the last master hands on to the next one: the trees of the last solution, and a basis.
    pub handover: Handover,
    /// The arcs over which dives and moves look for trees.
    pub moves: ShortPricing,
    /// What is known of splits.
    pub splits: SplitHints,
    /// The search for rosters by holes, once it was asked for.
    pub holes: Option<HoleSearch>,
    /// Whether a first roster was looked for.
    pub has_first: bool,
}

/// What a search works on, beside its tree.
#[derive(Drop)]
pub struct SearchBench {
    /// What it works on beside its path.
    pub workspace: SearchWorkspace,
    /// The way to the node at which the search stands.
    pub path: NodePath,
}

impl SearchWorkspace {
    /// Returns a workspace for a search.
    ///
    /// # Errors
    ///
    /// `Memory` where memory runs out; nothing is kept then.
    pub fn new(alloc: Global, day: &Day) -> Result<SearchWorkspace, Memory>
        requires { IsDay day.now }
        ensures { IfOk result (IsWorkspace day.now) }
    {
        let gains = Gains::new(alloc, &day.instance.grammar, day.graph)?;
        let old = OldSplits::new(alloc);
        let moves = ShortPricing::new(alloc, day)?;
        let pricing = Pricing::new(alloc, day, MOST_MULTIPLIERS)?;
        match RosterWorkspace::for_instance(alloc, day.instance) {
            Ok(rosters) => Ok(SearchWorkspace {
                pricing,
                rosters,
                handover: Handover::new(alloc),
                moves,
                splits: SplitHints { gains, old },
                holes: None,
                has_first: false,
            }),
            Err(fault) => {
                drop(pricing);
                drop(moves);
                Err(fault)
            }
        }
    }
}

impl SearchBench {
    /// Returns a bench for a search, which stands at the root.
    ///
    /// # Errors
    ///
    /// `Memory` where memory runs out; nothing is kept then.
    pub fn new(alloc: Global, day: &Day) -> Result<SearchBench, Memory>
        requires { IsDay day.now }
        ensures { IfOk result (IsNewBench day.now) }
    {
        let workspace = SearchWorkspace::new(alloc, day)?;
        match NodePath::new(alloc, day) {
            Ok(path) => Ok(SearchBench { workspace, path }),
            Err(fault) => {
                drop(workspace);
                Err(fault)
            }
        }
    }
}

/// Keeps the trees of a solution, for the next master.
///
/// # Errors
///
/// `Memory` where memory runs out; some of them may be kept then.
pub fn want(wanted: &mut List<usize>, weights: &[Weight]) -> Result<(), Memory> {
    wanted.truncate(0);
    for weight in weights {
        wanted.push(weight.column)?;
    }
    Ok(())
}
