//! The plain master.

ghost use Rattle.std.specs.Prelude.{◌≡◌, IfOk, true};
ghost use Rattle.search_columns.specs.Tools.{AreTools, StayTools};
ghost use Rattle.search_masters.specs.Refusals.{EndsWell};
ghost use Rattle.search_masters.specs.Tasks.{IsBusyNode};

use crate::counting::{count_refusal, is_wide};
use crate::master::Master;
use crate::{Bases, First, Handover, NodeEnd, Pool, Steering, solve_node_from};
use lp_float_programs::LastBasis;
use lp_fractions::Tally;
use lp_master_rows::Day;
use model_rosters::{Cut, List, Memory};
use search_watch::Watch;
use std::alloc::Global;
use std::mem;
use tree_cheapest::Pricer;

/// A master that finds prices which a near solution shows to be best, and solves a node's linear program in
/// exact fractions where it finds none. It refuses hard nodes alone.
#[derive(Drop)]
pub struct PlainMaster {
    tally: Tally,
    refused: u64,
    /// The last bases of nodes: hints.
    bases: Option<Bases>,
}

/// Returns the bases that were kept, or none.
fn kept(alloc: Global, bases: Option<Bases>) -> Bases {
    match bases {
        Some(bases) => bases,
        None => Bases::new(alloc),
    }
}

impl PlainMaster {
    /// Returns a master that has refused no node.
    pub fn new() -> PlainMaster
        ensures { result.refused ≡ 0 }
    {
        PlainMaster {
            tally: Tally::new(),
            refused: 0,
            bases: None,
        }
    }

    /// Returns how many nodes were given up for a number too wide, or for want of pivots; it stays at the
    /// last value of a u64.
    pub fn refused(&self) -> u64
        ensures { result ≡ self.now.refused }
    {
        self.refused
    }

    /// Returns the basis of the last column generation; an empty one where none was made since it was taken.
    fn take_last(&mut self, alloc: Global) -> LastBasis
        ensures { self.new.refused ≡ self.old.refused }
    {
        match &mut self.bases {
            Some(bases) => bases.take_last(alloc),
            None => LastBasis::new(alloc),
        }
    }

    /// Takes the prices of the cells that are handed over, where there are some.
    fn take_cells(&mut self, alloc: Global, handover: &mut Handover)
        ensures { self.new.refused ≡ self.old.refused }
    {
        if handover.cells.is_empty() {
            return;
        }
        let mut bases = kept(alloc, self.bases.take());
        bases.begin_at(mem::replace(&mut handover.cells, List::new(alloc)));
        self.bases = Some(bases);
    }

    /// Solves a node's program with the bases that were kept, and keeps one more.
    fn solve<W: Watch>(
        &mut self,
        alloc: Global,
        day: &Day,
        cuts: &[Cut],
        wanted: &[usize],
        pricer: &mut Pricer,
        pool: &mut Pool,
        watch: &W,
    ) -> Result<NodeEnd, Memory>
        requires node { IsBusyNode day.now cuts.now }
        requires tools { AreTools day.now pricer.old pool.old }
        ensures end { IfOk result (EndsWell day.now.instance.now cuts.now pool.new true
            (W.patient watch.now)) }
        ensures refused { self.new.refused ≡ self.old.refused }
        ensures tools { StayTools day.now pricer.new pool.old pool.new }
    {
        let mut steering = Steering {
            wanted,
            first: First::Near,
            bases: kept(alloc, self.bases.take()),
        };
        let end = solve_node_from(
            alloc,
            day,
            cuts,
            pricer,
            pool,
            &mut steering,
            watch,
            &mut self.tally,
        )?;
        self.bases = Some(steering.bases);
        Ok(end)
    }

    /// Solves a node's program; where a number was too wide, once more with no tree wanted: the pool has
    /// more trees by then, and it may end at another solution, with smaller numbers.
    fn solve_again<W: Watch>(
        &mut self,
        alloc: Global,
        day: &Day,
        cuts: &[Cut],
        wanted: &[usize],
        pricer: &mut Pricer,
        pool: &mut Pool,
        watch: &W,
    ) -> Result<NodeEnd, Memory>
        requires node { IsBusyNode day.now cuts.now }
        requires tools { AreTools day.now pricer.old pool.old }
        ensures end { IfOk result (EndsWell day.now.instance.now cuts.now pool.new true
            (W.patient watch.now)) }
        ensures refused { self.new.refused ≡ self.old.refused }
        ensures tools { StayTools day.now pricer.new pool.old pool.new }
    {
        let end = self.solve(alloc, day, cuts, wanted, pricer, pool, watch)?;
        if !is_wide(&end) {
            return Ok(end);
        }
        drop(end);
        self.solve(alloc, day, cuts, &[], pricer, pool, watch)
    }
}

impl Master for PlainMaster {
    ghost use Rattle.std.specs.Prelude.{true};

    ghost refused = { λ m. m.refused };

    ghost strict = { λ m. true };

    /// Solves a node's program, and counts where it is given up.
    fn node<W: Watch>(
        &mut self,
        alloc: Global,
        day: &Day,
        pricer: &mut Pricer,
        pool: &mut Pool,
        cuts: &[Cut],
        handover: &mut Handover,
        watch: &W,
    ) -> Result<NodeEnd, Memory> {
        let refused = self.refused;
        self.take_cells(alloc, handover);
        let wanted = handover.wanted.as_slice();
        let end = self.solve_again(alloc, day, cuts, wanted, pricer, pool, watch)?;
        handover.last = self.take_last(alloc);
        self.refused = count_refusal(refused, &end);
        Ok(end)
    }
}
