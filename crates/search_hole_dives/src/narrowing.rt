//! Arcs whose trees all cost too much.

use crate::volume::Asked;
use model_rosters::Memory;
use search_hole_passes::{HoleArc, HoleGraph, NEAR, NONE, Part, Passer, Row, at, lesser, set_at};
use std::alloc::Global;

/// What it takes to leave out the arcs whose trees all cost too much.
#[derive(Drop)]
pub struct Narrower {
    /// The least sum outside of each slot.
    outer: Vec<f64>,
    /// Whether the arc at each place of the part is kept.
    keeps: Vec<bool>,
    /// The least sum of each team, 0 where it need not have a tree and the sum is above.
    bases: Vec<f64>,
    /// How many arcs are kept.
    count: usize,
}

/// Lowers the number at a slot to another one.
fn lower_at(numbers: &mut [f64], slot: u32, number: f64) {
    if let Some(own) = numbers.get_mut(slot as usize) {
        *own = lesser(*own, number);
    }
}

/// Returns the sum from which a team's trees are counted: one that may have no tree has all trees above.
fn base_of(asked: &Asked, sum: f64) -> f64 {
    if asked.most == 0 {
        return 0.0 - NONE;
    }
    if asked.least > 0 {
        sum
    } else {
        lesser(sum, 0.0)
    }
}

impl Narrower {
    /// Returns what it takes on a graph.
    ///
    /// # Errors
    ///
    /// `Memory` where memory runs out.
    pub fn new(alloc: Global, graph: &HoleGraph) -> Result<Narrower, Memory> {
        Ok(Narrower {
            outer: vec![in alloc; NONE; graph.slots()]?,
            keeps: vec![in alloc; false; graph.all.arcs.len()]?,
            bases: vec![in alloc; 0.0; graph.teams.len()]?,
            count: 0,
        })
    }

    /// Sets the sums from which the trees of the teams are counted, after a pass.
    fn set_bases(&mut self, graph: &HoleGraph, part: &Part, teams: &[Asked], passer: &mut Passer) {
        let known = self.bases.as_mut_slice().iter_mut().zip(teams);
        for (place, (base, asked)) in known.enumerate() {
            *base = base_of(asked, passer.lead(graph, part, place));
        }
    }

    /// Returns the least sum outside of an arc of a node.
    fn above(&self, graph: &HoleGraph, row: &Row, arc: &HoleArc) -> f64 {
        if row.node != graph.root {
            return at(self.outer.as_slice(), row.node);
        }
        match self.bases.as_slice().get(graph.team_of(arc.arc)) {
            Some(base) => 0.0 - *base,
            None => NONE,
        }
    }

    /// Marks an arc where it has a tree below the limit, and lowers the sums outside of what it uses.
    fn mark_arc(&mut self, arc: &HoleArc, place: u32, above: f64, sums: &[f64], limit: f64) {
        let first = at(sums, arc.first);
        let rest = at(sums, arc.rest);
        let sum = above + arc.cost;
        let is_kept = sum + first + rest < limit;
        if let Some(keeps) = self.keeps.as_mut_slice().get_mut(place as usize) {
            *keeps = is_kept;
        }
        if is_kept {
            self.count = self.count.saturating_add(1);
            lower_at(self.outer.as_mut_slice(), arc.first, sum + rest);
            lower_at(self.outer.as_mut_slice(), arc.rest, sum + first);
        }
    }

    /// Marks the arcs of a part that have a tree below the limit.
    fn mark(&mut self, graph: &HoleGraph, part: &Part, sums: &[f64], limit: f64) {
        self.outer.as_mut_slice().fill(NONE);
        set_at(self.outer.as_mut_slice(), graph.root, 0.0);
        self.count = 0;
        for row in part.rows.as_slice().iter().rev() {
            let mut place = row.begin;
            for arc in part.arcs_of(row) {
                let above = self.above(graph, row, arc);
                self.mark_arc(arc, place, above, sums, limit);
                place = place.saturating_add(1);
            }
        }
    }

    /// Leaves out the arcs whose trees all cost more than the limit above the least ones, after a pass. Says
    /// whether any is left.
    pub fn narrow(
        &mut self,
        graph: &HoleGraph,
        part: &mut Part,
        teams: &[Asked],
        limit: f64,
        passer: &mut Passer,
    ) -> bool {
        self.set_bases(graph, part, teams, passer);
        self.mark(graph, part, passer.sums.as_slice(), limit + NEAR);
        if self.count == 0 {
            return false;
        }
        part.keep(self.keeps.as_slice());
        true
    }
}
