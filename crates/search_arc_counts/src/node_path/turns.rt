//! The turns of a path, made and undone.

ghost use Rattle.std.specs.Prelude.{◌≡◌, [], List, IfSome, IfNone, OnOk};
ghost use Rattle.model_rosters.specs.declared.instance.Cut.{Cut as OneCut};
ghost use Rattle.model_rosters.specs.declared.instance.Instance.{Instance};
ghost use Rattle.model_rosters.specs.Folds.{In};
ghost use Rattle.search_arc_counts.specs.node_path.Steps.{CanBeCut, IsCut, TellsTurn, LeadTo};
ghost use Rattle.search_arc_counts.specs.node_path.Steps.{CanGoDown, GoesDown, CanGoBack, HasGoneBack};

use crate::count_boxes::ArcBox;
use crate::node_path::turn::Turn;
use model_rosters::{Cut, Memory};
use tree_graph::Graph;

/// Cuts the box where the cut is on an arc of the graph, and returns what the arc had.
pub(crate) fn narrow(arc_box: &mut ArcBox, graph: &Graph, cut: &Cut) -> Option<Turn>
    requires { CanBeCut graph.now cut.now arc_box.old }
    ensures left { IsCut graph.now cut.now arc_box.old arc_box.new }
    ensures turn { IfSome result (TellsTurn graph.now cut.now arc_box.old) }
    ensures none { IfNone result (In cut.now.arc graph.now.arcs → ⊥) }
{
    let arc = graph.find(&cut.arc)?;
    let (low, high) = arc_box.cut(arc, cut.side, cut.b);
    Some(Turn { arc, low, high })
}

// Goes down by one cut, on an arc of the graph.
fn turn_at(
    arc_box: &mut ArcBox,
    graph: &Graph,
    cut: &Cut,
    turns: &mut Vec<Turn>,
) -> Result<(), Memory>
    requires { CanBeCut graph.now cut.now arc_box.old }
    ensures left { IsCut graph.now cut.now arc_box.old arc_box.new }
    ensures turned { OnOk result (LeadTo graph.now cut.now arc_box.old turns.old.items turns.new.items) }
{
    if let Some(turn) = narrow(arc_box, graph, cut) {
        turns.push(turn)?;
    }
    Ok(())
}

/// Goes down by cuts on arcs of the graph, in their order.
///
/// # Errors
///
/// `Memory` where memory runs out; nothing is said of the box and the turns then.
pub(crate) fn go_down(
    arc_box: &mut ArcBox,
    graph: &Graph,
    cuts: &[Cut],
    turns: &mut Vec<Turn>,
) -> Result<(), Memory>
    requires { (i : Instance) × (above : List OneCut) × CanGoDown i graph.now above cuts.now arc_box.old }
    ensures { OnOk result (GoesDown graph.now cuts.now arc_box.old turns.old.items
        arc_box.new turns.new.items) }
{
    for cut in cuts {
        turn_at(arc_box, graph, cut, turns)?;
    }
    Ok(())
}

/// Undoes the turns, the last one first.
pub(crate) fn go_back(arc_box: &mut ArcBox, turns: &mut Vec<Turn>)
    requires { CanGoBack turns.old.items arc_box.old }
    ensures none { turns.new.items ≡ [] }
    ensures left { HasGoneBack turns.old.items arc_box.old arc_box.new }
{
    while let Some(turn) = turns.pop() {
        arc_box.set_back(turn.arc, (turn.low, turn.high));
    }
}
