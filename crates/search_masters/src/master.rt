//! The trait of masters, which a search asks.

ghost use Rattle.std.specs.Prelude.{ℕ, ◌≡◌, ◌≤◌, ◌<◌, ◌-◌, ◌^◌, Bool, IfOk, MatchResult, length};
ghost use Rattle.model_rosters.specs.Folds.{Each};
ghost use Rattle.model_rosters.specs.SoundInstance.{IsSoundInstance};
ghost use Rattle.model_rosters.specs.Trees.{Parts, IsDayTree};
ghost use Rattle.law_bounds.specs.Infeasible.{IsPlainlyInfeasible};
ghost use Rattle.tree_graph.specs.Graphs.{IsGraph};
ghost use Rattle.tree_cheapest.specs.Pricers.{IsMadeFor};
ghost use Rattle.tree_pool.specs.Pools.{IsPool, IsGrown};
ghost use Rattle.search_masters.specs.Ends.{IsNodeCut};
ghost use Rattle.search_masters.specs.Refusals.{EndsWell, counted};

use crate::{Handover, NodeEnd, Pool};
use lp_master_rows::Day;
use model_rosters::{Cut, Memory};
use search_watch::Watch;
use std::alloc::Global;
use tree_cheapest::Pricer;

/// What prices the nodes of a search.
pub trait Master {
    // How many nodes were refused: given up for a number too wide, or for want of pivots. It never falls, and
    // stays at the last value of a u64.
    ghost refused: { Self → ℕ };

    // Whether it refuses hard nodes alone.
    ghost strict: { Self → Bool };

    /// Prices the node at a path of cuts, base cuts first, or gives it up; a refused node is counted once.
    /// What is handed over may steer it, whatever it is, and the basis of the last column generation is left
    /// there. Where the watch says that the search is over it may stop, before its prices are shown to be
    /// best.
    ///
    /// # Errors
    ///
    /// `Memory` where memory runs out; the count of refusals stays as it is then. The pricer is still one for
    /// the graph, and the pool has its trees under their numbers, and perhaps further trees of the day.
    fn node<W: Watch>(
        &mut self,
        alloc: Global,
        day: &Day,
        pricer: &mut Pricer,
        pool: &mut Pool,
        cuts: &[Cut],
        handover: &mut Handover,
        watch: &W,
    ) -> Result<NodeEnd, Memory>
        requires sound { IsSoundInstance day.now.instance.now }
        requires busy { IsPlainlyInfeasible day.now.instance.now → ⊥ }
        requires graph { IsGraph day.now.instance.now.grammar day.now.graph.now }
        requires tree { (t : Parts) × IsDayTree day.now.instance.now.grammar t }
        requires pricer { IsMadeFor day.now.graph.now pricer.old }
        requires pool { IsPool day.now.instance.now.grammar pool.old }
        requires cuts { Each (IsNodeCut day.now.instance.now) cuts.now }
        requires few { length cuts.now < 2 ^ 31 }
        ensures end { IfOk result (EndsWell day.now.instance.now cuts.now pool.new (strict self.old)
            (W.patient watch.now)) }
        ensures counts { MatchResult result (λ end. refused self.new ≡ counted (refused self.old) end)
            (λ fault. refused self.new ≡ refused self.old) }
        ensures rises { refused self.old ≤ refused self.new }
        ensures within { refused self.new ≤ 2 ^ 64 - 1 }
        ensures strict_stays { strict self.new ≡ strict self.old }
        ensures pricer { IsMadeFor day.now.graph.now pricer.new }
        ensures pool { IsPool day.now.instance.now.grammar pool.new }
        ensures grown { IsGrown pool.old pool.new };
}
