//! The curve with the day's graph and the texts of its certificates.

ghost use Rattle.std.specs.Prelude.{ℕ, ◌≡◌, ◌≤◌, ◌<◌, ◌+◌, ◌-◌, Bool, IfOk, IfErr};
ghost use Rattle.search_primal.specs.OldRosters.{IsNoDearerThan};
ghost use Rattle.search_branch_price.specs.Found.{AreCounted};
ghost use Rattle.search_days.specs.Solutions.{HasArcCount, IsSearched, IsSolution, IsWritten};
ghost use Rattle.tree_graph.specs.Graphs.{IsRefused};
ghost use Rattle.search_days.specs.day_curve.Curves.{new_curve, point_day, point_heads, points_of};
ghost use Rattle.search_days.specs.day_curve.Staffs.{IsStaff};
ghost use Rattle.model_rosters.specs.SoundInstance.{IsSoundInstance};
ghost use Rattle.search_watch.specs.Within.{IsWithin};

use crate::day_curve::curve::Curve;
use crate::day_curve::staff::Staff;
use crate::{Solution, graph_of, with_text};
use lp_master_rows::Day;
use model_rosters::{Instance, Memory};
use search_branch_price::{Found, Master, Watch};
use std::alloc::Global;
use std::marker::Model;
use tree_graph::{Graph, GraphFault};

/// The curve of a sound day over one of its teams, with the day's graph, which serves all points.
#[derive(Drop)]
pub struct DayCurve {
    alloc: Global,
    graph: Graph,
    curve: Curve,
}

impl Model for DayCurve {
    ghost use Rattle.tree_graph.specs.Graphs.{IsGraph};
    ghost use Rattle.search_days.specs.day_curve.Curves.{CurveView};

    ghost Value = { CurveView };

    ghost view = { λ c. c.curve };

    ghost invariant = { λ c. IsGraph c.curve.day.grammar c.graph };
}

impl DayCurve {
    /// Returns the curve of a sound day over a team of it, of which no point is given yet.
    ///
    /// # Errors
    ///
    /// `TooManyArcs` exactly where the day has more than 100,000 arcs, with their number, and `Memory` where
    /// memory runs out.
    pub fn new(alloc: Global, instance: Instance, staff: Staff) -> Result<DayCurve, GraphFault>
        requires sound { IsSoundInstance instance }
        requires staff { IsStaff instance staff }
        ensures curve { IfOk result (λ c. c ≡ new_curve staff instance) }
        ensures few { IfOk result (λ _. (count : ℕ) × HasArcCount instance.grammar count) }
        ensures refused { IfErr result (IsRefused instance.grammar) }
    {
        let graph = graph_of(alloc, &instance.grammar)?;
        let curve = Curve::new(alloc, instance, staff)?;
        Ok(DayCurve {
            alloc,
            graph,
            curve,
        })
    }

    /// Returns how many points there are.
    pub fn points(&self) -> u32
        ensures { result ≡ points_of self.now }
    {
        self.curve.points()
    }

    /// Returns the greatest number of the point given last, and before any point that of the first.
    pub fn heads(&self) -> u32
        ensures { result ≡ point_heads self.now }
    {
        self.curve.heads()
    }

    /// Searches the next point, with at most so many turns, 1 to 10,000, and this watch, and writes its
    /// certificate. The text is read as the certificate on the day with the point's greatest number, and what
    /// it states is true there. Where the kept roster is allowed there, the point costs no more than that.
    ///
    /// # Errors
    ///
    /// `Memory` where memory runs out, also where the certificate was found and there was no room for its
    /// text: the curve is as it was, so the same point is the next one. The master's count may have risen.
    pub fn next<M: Master, W: Watch>(
        &mut self,
        turns: u32,
        master: &mut M,
        watch: &mut W,
    ) -> Result<Solution, Memory>
        requires more { self.old.given < points_of self.old }
        requires some { 1 ≤ turns }
        requires few { turns ≤ 10000 }
        ensures given { IfOk result (λ _. self.new ≡ record self.old { given = self.old.given + 1 }) }
        ensures solution { IfOk result (λ s. IsWithin (W.patient watch.old) turns
            (λ k. IsSolution (point_day self.new) (M.strict master.old) k s)) }
        ensures falls { IfOk result (λ s. IsNoDearerThan (point_day self.new) self.old.kept s.found.cert.cost) }
        ensures counted { IfOk result (λ s. AreCounted (point_day self.new) (M.refused master.old)
            (M.refused master.new) s.found) }
        ensures without { IfErr result (λ _. self.new ≡ self.old) }
        ensures rises { M.refused master.old ≤ M.refused master.new }
        ensures strict_stays { M.strict master.new ≡ M.strict master.old }
    {
        match self.curve.next(&self.graph, turns, master, watch)? {
            Some(found) => self.written(found),
            None => unreachable!(),
        }
    }

    /// Keeps the roster of the point given last, which every further point is offered: none of them costs
    /// more.
    pub fn keep(&mut self, solution: Solution)
        requires { (strict : Bool) × (turns : ℕ) × IsSolution (point_day self.old) strict turns solution }
        ensures { self.new ≡ record self.old { kept = solution.found.cert.shifts } }
    {
        self.curve.keep(solution.found.cert.shifts);
    }

    // Writes the certificate of the point given last; where there is no room for its text, the point is the
    // next one again.
    fn written(&mut self, found: Found) -> Result<Solution, Memory>
        requires given { 0 < self.old.given }
        requires found { IsSearched (point_day self.old) found }
        ensures given { IfOk result (λ _. self.new ≡ self.old) }
        ensures written { IfOk result (IsWritten (point_day self.old) found) }
        ensures without { IfErr result (λ _. self.new ≡ record self.old { given = self.old.given - 1 }) }
    {
        let day = Day {
            instance: self.curve.instance(),
            graph: &self.graph,
        };
        match with_text(self.alloc, &day, found) {
            Ok(solution) => Ok(solution),
            Err(fault) => {
                self.curve.take_back();
                Err(fault)
            }
        }
    }
}
