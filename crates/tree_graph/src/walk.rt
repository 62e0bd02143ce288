//! The walk over the arcs.

ghost use Rattle.std.specs.Prelude.{◌≡◌, ◌≤◌, [], IfOk, OnOk, IfErr};
ghost use Rattle.model_rosters.specs.Sound.{IsSound};
ghost use Rattle.tree_span_arcs.specs.Ahead.{HasPassed};
ghost use Rattle.tree_span_arcs.specs.DayArcs.{IsDayArcsOf};
ghost use Rattle.tree_graph.specs.Graphs.{IsRefused};
ghost use Rattle.tree_graph.specs.Listed.{IsArcCount, AreListed};

use crate::fault::GraphFault;
use model_rosters::{ArcKey, Grammar, List};
use std::alloc::Global;
use tree_span_arcs::DayArcs;

// Returns how many arcs the instance has, so many of which come before the next one. They are counted run by
// run.
fn count_arcs(grammar: &Grammar, day: &DayArcs, passed: u64, first: Option<ArcKey>) -> u64
    requires sound { IsSound grammar.now }
    requires day { IsDayArcsOf grammar.now day.now }
    requires passed { HasPassed grammar.now passed first }
    ensures count { IsArcCount grammar.now result }
    ensures more { passed ≤ result }
{
    let mut count = passed;
    let mut next = first;
    while let Some(arc) = next {
        let run = day.count_run(grammar, arc);
        count += run.before + 1;
        next = day.next_arc(grammar, Some(run.last));
    }
    count
}

// Lists the arcs of the instance in their order, where they are at most 100,000.
fn list_all(grammar: &Grammar, day: &DayArcs, arcs: &mut List<ArcKey>) -> Result<(), GraphFault>
    requires sound { IsSound grammar.now }
    requires day { IsDayArcsOf grammar.now day.now }
    requires none { arcs.old ≡ [] }
    ensures listed { OnOk result (AreListed grammar.now arcs.new) }
    ensures refused { IfErr result (IsRefused grammar.now) }
{
    let mut next = day.next_arc(grammar, None);
    while let Some(arc) = next {
        let last = day.list_run(grammar, arc, arcs)?;
        arcs.push(last)?;
        next = day.next_arc(grammar, Some(last));
        if arcs.len() > 100_000 {
            let count = count_arcs(grammar, day, arcs.len() as u64, next);
            return Err(GraphFault::TooManyArcs { count });
        }
    }
    Ok(())
}

/// Returns the arcs of the instance in their order, where they are at most 100,000.
///
/// # Errors
///
/// `TooManyArcs` exactly where they are more, with their number, and `Memory` where memory runs out; nothing
/// is kept then.
pub fn list_arcs(
    alloc: Global,
    grammar: &Grammar,
    day: &DayArcs,
) -> Result<List<ArcKey>, GraphFault>
    requires sound { IsSound grammar.now }
    requires day { IsDayArcsOf grammar.now day.now }
    ensures listed { IfOk result (AreListed grammar.now) }
    ensures refused { IfErr result (IsRefused grammar.now) }
{
    let mut arcs = List::new(alloc);
    match list_all(grammar, day, &mut arcs) {
        Ok(()) => Ok(arcs),
        Err(fault) => Err(fault),
    }
}
