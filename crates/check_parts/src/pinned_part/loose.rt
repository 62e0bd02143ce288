//! The first loose arc.

ghost use Rattle.std.specs.Prelude.{◌<◌, ◌↔◌, All, IsTrue, MatchOption};
ghost use Rattle.model_rosters.specs.SoundInstance.{IsSoundInstance};
ghost use Rattle.model_rosters.specs.arc_laws.Loose.{IsLoose, IsFirstLoose};
ghost use Rattle.law_bounds.specs.Pinned.{IsPinned};
ghost use Rattle.tree_span_arcs.specs.DayArcs.{IsDayArcsOf};
ghost use Rattle.model_rosters.specs.Limits.{IsSmallCut};

use crate::pinned_part::bounds::{high, low};
use model_rosters::{ArcKey, Cut, Instance};
use tree_span_arcs::DayArcs;

// Whether the cuts leave an arc more than one count.
fn is_loose(instance: &Instance, cuts: &[Cut], arc: &ArcKey) -> bool
    requires { All IsSmallCut cuts.now }
    ensures { IsTrue result ↔ IsLoose instance.now cuts.now arc.now }
{
    low(cuts, arc) < high(instance.heads_max, cuts, arc)
}

/// Returns the first arc of the instance to which the cuts leave more than one count, `None` exactly
/// where they leave each arc one. The arcs are those of the instance's grammar. Takes no memory.
pub fn first_loose(instance: &Instance, cuts: &[Cut], arcs: &DayArcs) -> Option<ArcKey>
    requires sound { IsSoundInstance instance.now }
    requires small { All IsSmallCut cuts.now }
    requires arcs { IsDayArcsOf instance.now.grammar arcs.now }
    ensures { MatchOption result (IsPinned instance.now cuts.now) (IsFirstLoose instance.now cuts.now) }
{
    let mut next = arcs.next_arc(&instance.grammar, None);
    while let Some(arc) = next {
        if is_loose(instance, cuts, &arc) {
            return Some(arc);
        }
        next = arcs.next_arc(&instance.grammar, Some(arc));
    }
    None
}
