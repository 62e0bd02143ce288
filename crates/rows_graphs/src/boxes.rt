//! What three pinned boxes cost, and a cut with its undoing (`search_arc_counts::count_boxes`).

ghost use Rattle.std.specs.Prelude.{◌≡◌, ◌<◌, IfSome, length};
ghost use Rattle.model_rosters.specs.SoundInstance.{IsSoundInstance};
ghost use Rattle.tree_graph.specs.Graphs.{IsGraph};

use crate::days::graph_of;
use model_rosters::{ArcKey, Instance, Side};
use model_sample_days::{PAIR_PARTS, sound_day};
use search_arc_counts::ArcBox;
use std::alloc::Global;
use std::test::Fail;
use tree_graph::Graph;

const FIRST: ArcKey = ArcKey {
    rule: 1,
    suffix: 0,
    start: 1,
    len: 3,
    part: 1,
};

const SECOND: ArcKey = ArcKey {
    suffix: 1,
    start: 2,
    len: 2,
    ..FIRST
};

/// The arcs of the three rules, two of each.
const SIX: [ArcKey; 6] = [
    FIRST,
    SECOND,
    ArcKey { rule: 2, ..FIRST },
    ArcKey { rule: 2, ..SECOND },
    ArcKey { rule: 3, ..FIRST },
    ArcKey { rule: 3, ..SECOND },
];

/// The number of an arc in the graph.
fn number(graph: &Graph, arc: &ArcKey) -> Option<u32>
    ensures { IfSome result (λ p. p < length graph.now.arcs) }
{
    let place = graph.arcs().iter().position(|other| *other == *arc)?;
    Some(place as u32)
}

/// Cuts an arc of the box, where the number is within its bounds.
fn cut(arc_box: &mut ArcBox, graph: &Graph, arc: &ArcKey, side: Side, b: u32) -> Option<(u32, u32)>
    requires { length arc_box.old.bounds ≡ length graph.now.arcs }
    ensures arcs { length arc_box.new.bounds ≡ length graph.now.arcs }
    ensures places { arc_box.new.places ≡ arc_box.old.places }
{
    let arc = number(graph, arc)?;
    if arc_box.low(arc) <= b && b < arc_box.high(arc) {
        return Some(arc_box.cut(arc, side, b));
    }
    None
}

/// Leaves an arc of the box one count, and returns whether it could.
fn pin(arc_box: &mut ArcBox, graph: &Graph, arc: &ArcKey, count: u32) -> bool
    requires { length arc_box.old.bounds ≡ length graph.now.arcs }
    ensures arcs { length arc_box.new.bounds ≡ length graph.now.arcs }
    ensures places { arc_box.new.places ≡ arc_box.old.places }
{
    if count > 0 && cut(arc_box, graph, arc, Side::High, count - 1).is_none() {
        return false;
    }
    cut(arc_box, graph, arc, Side::Low, count).is_some()
}

/// Leaves the six arcs one count each, and returns whether it could.
fn pin_all(arc_box: &mut ArcBox, graph: &Graph, counts: &[u32]) -> bool
    requires { length arc_box.old.bounds ≡ length graph.now.arcs }
    ensures arcs { length arc_box.new.bounds ≡ length graph.now.arcs }
    ensures places { arc_box.new.places ≡ arc_box.old.places }
{
    for (arc, count) in SIX.iter().zip(counts) {
        if !pin(arc_box, graph, arc, *count) {
            return false;
        }
    }
    true
}

/// What the box costs that leaves the six arcs these counts.
fn cost_on(
    alloc: Global,
    day: &Instance,
    graph: &Graph,
    counts: &[u32],
) -> Result<Option<u64>, Fail>
    requires sound { IsSoundInstance day.now }
    requires graph { IsGraph day.now.grammar graph.now }
{
    let mut arc_box = ArcBox::new(alloc, day, graph)?;
    if pin_all(&mut arc_box, graph, counts) && arc_box.pinned() {
        return Ok(arc_box.pinned_cost(day, graph));
    }
    Err(Fail::from("not pinned"))
}

/// Counts of the six arcs, and what they cost where each period needs one employee, and a missing one costs
/// 10.
const CASES: [([u32; 6], Option<u64>); 3] = [
    ([0, 0, 0, 0, 0, 0], Some(30)),
    ([1, 1, 0, 0, 0, 0], Some(12)),
    ([1, 0, 0, 0, 0, 0], None),
];

/// Whether the counts cost what they should.
fn have_costs(alloc: Global, day: &Instance, graph: &Graph) -> Result<bool, Fail>
    requires sound { IsSoundInstance day.now }
    requires graph { IsGraph day.now.grammar graph.now }
{
    for (counts, cost) in &CASES {
        if cost_on(alloc, day, graph, counts)? != *cost {
            return Ok(false);
        }
    }
    Ok(true)
}

type LowAndHigh = (u32, u32);

/// The bounds of an arc of the box.
fn bounds(arc_box: &ArcBox, arc: u32) -> LowAndHigh
    requires { arc < length arc_box.now.bounds }
{
    (arc_box.low(arc), arc_box.high(arc))
}

/// Whether a cut at 0 answers the bounds before it, and they are as they should be after it and after they
/// are set back.
fn is_cut_and_back(arc_box: &mut ArcBox, graph: &Graph) -> bool
    requires { length arc_box.old.bounds ≡ length graph.now.arcs }
{
    let Some(first) = number(graph, &FIRST) else {
        return false;
    };
    let before = cut(arc_box, graph, &FIRST, Side::Low, 0);
    let after = bounds(arc_box, first);
    arc_box.set_back(first, (0, 3));
    before == Some((0, 3)) && after == (0, 0) && bounds(arc_box, first) == (0, 3)
}

/// Whether a cut of a new box and its undoing have these bounds.
fn has_cut_and_back(alloc: Global, day: &Instance, graph: &Graph) -> Result<bool, Fail>
    requires sound { IsSoundInstance day.now }
    requires graph { IsGraph day.now.grammar graph.now }
{
    let mut arc_box = ArcBox::new(alloc, day, graph)?;
    Ok(is_cut_and_back(&mut arc_box, graph))
}

/// Whether the boxes of a graph are as they should be.
fn are_right_on(alloc: Global, day: &Instance, graph: &Graph) -> Result<bool, Fail>
    requires sound { IsSoundInstance day.now }
    requires graph { IsGraph day.now.grammar graph.now }
{
    Ok(has_cut_and_back(alloc, day, graph)? && have_costs(alloc, day, graph)?)
}

fn are_right(alloc: Global, day: &Instance) -> Result<bool, Fail>
    requires { IsSoundInstance day.now }
{
    let graph = graph_of(alloc, &day.grammar)?;
    let are_right = are_right_on(alloc, day, &graph);
    drop(graph);
    are_right
}

#[test]
fn a_cut_and_back_and_costs_of_pinned_boxes(rt: HostRuntime) -> Result<(), Fail> {
    let day = sound_day(rt.alloc(), &PAIR_PARTS)?;
    let are_right = are_right(rt.alloc(), &day);
    drop(day);
    assert!(rt; are_right?);
    Ok(())
}
