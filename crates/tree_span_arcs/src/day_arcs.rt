//! The arcs, and their calls.

ghost use Rattle.std.specs.Prelude.{ℕ, ◌↔◌, ◌≡◌, ◌≤◌, ◌+◌, IsTrue, IfOk, Some, length};
ghost use Rattle.model_rosters.specs.Arcs.{IsArc};
ghost use Rattle.model_rosters.specs.Sound.{IsSound};
ghost use Rattle.tree_span_cells.specs.Cells.{cell_count};
ghost use Rattle.tree_span_arcs.specs.Ahead.{HasPassed, IsPassed};
ghost use Rattle.tree_span_arcs.specs.DayArcs.{IsDayArcsOf, IsDerivedOf};
ghost use Rattle.tree_span_arcs.specs.Marks.{AreMarked};
ghost use Rattle.tree_span_arcs.specs.Order.{IsNextArc, key_number};

use crate::arcs::{is_arc, next_arc};
use crate::derived::Derived;
use crate::marks::mark_all;
use crate::runs::{Run, count_run, list_run};
use model_rosters::{ArcKey, Grammar, List, Memory};
use std::alloc::Global;
use std::marker::Model;
use tree_span_cells::count_cells;

/// The arcs of an instance: each stands in some tree of the day. They are told one by one, and in
/// their order, by rule, suffix, start, length and part.
#[derive(Drop)]
pub struct DayArcs {
    derived: Derived,
    // Which slots stand in trees of the day, by their places.
    marks: Vec<bool>,
}

impl Model for DayArcs {
    ghost use Rattle.tree_span_arcs.specs.Order.{IsNextArc};
    ghost use Rattle.tree_span_arcs.specs.DayArcs.{DayArcsView};

    ghost Value = { DayArcsView };

    ghost view = { λ t. record { layout = t.derived.layout; free = t.derived.free; marks = t.marks.items } };
}

// Which slots stand in trees of the day, by their places.
fn marks_of(alloc: Global, grammar: &Grammar, derived: &Derived) -> Result<Vec<bool>, Memory>
    requires sound { IsSound grammar.now }
    requires derived { IsDerivedOf grammar.now derived.now.layout derived.now.free }
    ensures count { IfOk result (λ m. length m.items ≡ cell_count derived.now.layout) }
    ensures marked { IfOk result (λ m. AreMarked grammar.now derived.now.layout m.items) }
{
    let layout = &derived.layout;
    let mut marks = vec![in alloc; false; count_cells(grammar, layout)]?;
    mark_all(grammar, layout, &derived.free, marks.as_mut_slice());
    Ok(marks)
}

impl DayArcs {
    /// Returns the arcs of a sound grammar. Later calls take the same grammar.
    ///
    /// It has taken the memory for all of them: two bytes for each name, and for each suffix of two or
    /// more symbols that is not a whole right side, on each span of the day, and 32 bytes for each of
    /// these at each period.
    ///
    /// # Errors
    ///
    /// `Memory` where memory runs out; nothing is kept then.
    pub fn for_instance(alloc: Global, grammar: &Grammar) -> Result<DayArcs, Memory>
        requires { IsSound grammar.now }
        ensures { IfOk result (IsDayArcsOf grammar.now) }
    {
        let derived = Derived::new(alloc, grammar)?;
        let marks = marks_of(alloc, grammar, &derived)?;
        Ok(DayArcs { derived, marks })
    }

    /// Returns whether an arc is one of the instance: whether it stands in some tree of the day. Any
    /// five numbers may be asked. Takes no memory.
    pub fn has_arc(&self, grammar: &Grammar, arc: &ArcKey) -> bool
        requires sound { IsSound grammar.now }
        requires arcs { IsDayArcsOf grammar.now self.now }
        ensures { IsTrue result ↔ IsArc grammar.now arc.now }
    {
        is_arc(
            grammar,
            &self.derived.layout,
            &self.derived.free,
            self.marks.as_slice(),
            arc,
        )
    }

    /// Returns the first arc of the instance after the given one, by rule, suffix, start, length and
    /// part, or the first of all where none is given; `None` exactly where there is none. Any five
    /// numbers may be given. Takes no memory.
    pub fn next_arc(&self, grammar: &Grammar, after: Option<ArcKey>) -> Option<ArcKey>
        requires sound { IsSound grammar.now }
        requires arcs { IsDayArcsOf grammar.now self.now }
        ensures { IsNextArc grammar.now after result }
    {
        next_arc(
            grammar,
            &self.derived.layout,
            &self.derived.free,
            self.marks.as_slice(),
            after,
        )
    }

    /// Lists an arc of the instance and those after it with the same rule, suffix, start and length,
    /// but for the last of these, which it returns: the arcs that are listed are all that come before
    /// it where they were all that come before the given one.
    ///
    /// # Errors
    ///
    /// `Memory` where memory runs out; some of the arcs may be listed then.
    pub fn list_run(
        &self,
        grammar: &Grammar,
        arc: ArcKey,
        arcs: &mut List<ArcKey>,
    ) -> Result<ArcKey, Memory>
        requires sound { IsSound grammar.now }
        requires arcs { IsDayArcsOf grammar.now self.now }
        requires arc { IsArc grammar.now arc }
        ensures passed { IfOk result (λ last. IsPassed grammar.now arcs.old (Some arc)
            → IsPassed grammar.now arcs.new (Some last)) }
        ensures later { IfOk result (λ last. key_number arc ≤ key_number last) }
    {
        list_run(
            grammar,
            &self.derived.layout,
            &self.derived.free,
            self.marks.as_slice(),
            arc,
            arcs,
        )
    }

    /// Counts an arc of the instance and those after it with the same rule, suffix, start and length, but
    /// for the last of these, which is given back with the count. Takes no memory.
    pub fn count_run(&self, grammar: &Grammar, arc: ArcKey) -> Run
        requires sound { IsSound grammar.now }
        requires arcs { IsDayArcsOf grammar.now self.now }
        requires arc { IsArc grammar.now arc }
        ensures passed { (passed : ℕ) → HasPassed grammar.now passed (Some arc)
            → HasPassed grammar.now (passed + result.before) (Some result.last) }
        ensures later { key_number arc ≤ key_number result.last }
    {
        count_run(
            grammar,
            &self.derived.layout,
            &self.derived.free,
            self.marks.as_slice(),
            arc,
        )
    }
}
