//! Where an arc stands among all.

ghost use Rattle.std.specs.Prelude.{◌≡◌, ◌↔◌, ◌<◌, ◌≤◌, IsTrue, Some, IfSome, IfNone, length, slice_get};
ghost use Rattle.model_rosters.specs.Folds.{In};
ghost use Rattle.model_rosters.specs.Arcs.{ArcBefore};
ghost use Rattle.tree_graph.specs.Levels.{AreInOrder};

use model_rosters::ArcKey;

// Whether an arc comes before another in the order of arcs.
fn comes_before(a: &ArcKey, b: &ArcKey) -> bool
    ensures { IsTrue result ↔ ArcBefore a.now b.now }
{
    if a.rule != b.rule {
        return a.rule < b.rule;
    }
    if a.suffix != b.suffix {
        return a.suffix < b.suffix;
    }
    if a.start != b.start {
        return a.start < b.start;
    }
    if a.len != b.len {
        return a.len < b.len;
    }
    a.part < b.part
}

/// Returns where an arc stands in a list of arcs, given the places of all in their order.
pub fn search(arcs: &[ArcKey], places: &[u32], arc: &ArcKey) -> Option<u32>
    requires { AreInOrder arcs.now places.now }
    ensures found { IfSome result (λ p. slice_get arcs.now p ≡ Some arc.now) }
    ensures none { IfNone result (In arc.now arcs.now → ⊥) }
{
    let mut low = 0;
    let mut high = places.len();
    while low < high {
        let middle = low + (high - low) / 2;
        if comes_before(&arcs[places[middle] as usize], arc) {
            low = middle + 1;
        } else {
            high = middle;
        }
    }
    if low == places.len() {
        return None;
    }
    let place = places[low];
    if arcs[place as usize] == *arc {
        return Some(place);
    }
    None
}
