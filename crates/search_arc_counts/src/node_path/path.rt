//! The path, and its calls.

ghost use Rattle.std.specs.Prelude.{◌≡◌, IfOk, OnOk};
ghost use Rattle.model_rosters.specs.Cuts.{base_cuts};
ghost use Rattle.law_bounds.specs.Pinned.{IsPinnedValue};
ghost use Rattle.search_arc_counts.specs.count_boxes.Costs.{pinned_number};
ghost use Rattle.lp_master_rows.specs.search_day.Days.{IsDay};
ghost use Rattle.search_arc_counts.specs.node_path.Paths.{IsPath, HasNode, IsWayTo};

use crate::count_boxes::ArcBox;
use crate::node_path::base::{base_box, base_cuts as cuts_of_base};
use crate::node_path::climb::{follow, further};
use crate::node_path::turn::Turn;
use crate::node_path::turns::{go_back, go_down};
use check_certificates::Seat;
use lp_master_rows::Day;
use model_rosters::{Cut, Memory};
use std::alloc::Global;
use std::marker::Model;

/// A path of cuts from the root to a node, and the counts that it leaves the arcs.
#[derive(Drop)]
pub struct NodePath {
    cuts: Vec<Cut>,
    arc_box: ArcBox,
    base: usize,
    turns: Vec<Turn>,
}

impl Model for NodePath {
    ghost use Rattle.search_arc_counts.specs.node_path.Paths.{PathView};

    ghost Value = { PathView };

    ghost view = { λ p. record
        { cuts = p.cuts.items; arc_box = p.arc_box; base = p.base; turns = p.turns.items } };
}

impl NodePath {
    /// Returns the path of the root: the base cuts alone.
    ///
    /// # Errors
    ///
    /// `Memory` where memory runs out; nothing is kept then.
    pub fn new(alloc: Global, day: &Day) -> Result<NodePath, Memory>
        requires { IsDay day.now }
        ensures path { IfOk result (IsPath day.now.instance.now day.now.graph.now) }
        ensures cuts { IfOk result (λ p. p.cuts ≡ base_cuts day.now.instance.now) }
    {
        let cuts = cuts_of_base(alloc, day.instance)?;
        let arc_box = base_box(alloc, day, cuts.as_slice())?;
        let base = cuts.len();
        Ok(NodePath {
            cuts,
            arc_box,
            base,
            turns: Vec::new(alloc),
        })
    }

    /// Returns the cuts, base cuts first.
    pub fn cuts(&self) -> &[Cut]
        ensures { result.now ≡ self.now.cuts }
    {
        self.cuts.as_slice()
    }

    /// Returns the counts that the path leaves the arcs.
    pub fn arc_box(&self) -> &ArcBox
        ensures { result.now ≡ self.now.arc_box }
    {
        &self.arc_box
    }

    /// Returns the cost of the counts where the path leaves each arc one, as [`ArcBox::pinned_cost`] does.
    pub fn pinned_cost(&mut self, day: &Day) -> Option<u64>
        requires day { IsDay day.now }
        requires path { IsPath day.now.instance.now day.now.graph.now self.old }
        ensures value { IsPinnedValue day.now.instance.now self.old.cuts
            (pinned_number day.now.instance.now result) }
        ensures same { self.new ≡ self.old }
    {
        self.arc_box.pinned_cost(day.instance, day.graph)
    }

    /// Goes to the node of a number of a search's tree, whose seats these are.
    ///
    /// # Errors
    ///
    /// `Memory` where memory runs out; nothing is said of the path then, and it is not used again.
    pub fn go_to(&mut self, day: &Day, seats: &[Seat], number: u32) -> Result<(), Memory>
        requires day { IsDay day.now }
        requires path { IsPath day.now.instance.now day.now.graph.now self.old }
        requires node { HasNode day.now.instance.now seats.now number }
        ensures path { OnOk result (IsPath day.now.instance.now day.now.graph.now self.new) }
        ensures cuts { OnOk result (IsWayTo day.now.instance.now seats.now number self.new.cuts) }
    {
        go_back(&mut self.arc_box, &mut self.turns);
        follow(&mut self.cuts, self.base, seats, number)?;
        let cuts = further(self.cuts.as_slice(), self.base);
        go_down(&mut self.arc_box, day.graph, cuts, &mut self.turns)
    }
}
