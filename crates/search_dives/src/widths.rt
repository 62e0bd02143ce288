//! Prices of arcs alone, for widest trees.

ghost use Rattle.std.specs.Prelude.{◌≡◌, ◌^◌, pos, All, slice_index_or};
ghost use Rattle.model_rosters.specs.Sums.{Within};
ghost use Rattle.model_rosters.specs.arc_laws.Lists.{StandOnce};

use model_rosters::{ArcKey, ArcPrice, LetterPrice};
use tree_graph::Graph;

/// Prices of arcs alone: letters and rules cost nothing.
#[derive(Clone, Copy)]
pub struct Widths<'a> {
    /// The graph with the arcs.
    pub graph: &'a Graph,
    /// The price of each arc of the graph.
    pub prices: &'a [i128],
    pub ghost once: { StandOnce graph.now.arcs },
    pub ghost small: { All (Within (2 ^ 96)) prices.now },
}

/// Returns the price at a place, 0 behind the last one.
fn price_at(prices: &[i128], place: u32) -> i128
    requires small { All (Within (2 ^ 96)) prices.now }
    ensures value { result ≡ slice_index_or prices.now place (pos 0) }
    ensures within { Within (2 ^ 96) result }
{
    match prices.get(place as usize) {
        Some(price) => *price,
        None => 0,
    }
}

impl<'a> LetterPrice for Widths<'a> {
    ghost use Rattle.search_dives.specs.Widths.{width_view};
    ghost use Rattle.search_dives.specs.Small.{view-small};

    ghost view = { λ s. width_view s.graph.now.arcs s.prices.now };

    /// Returns 0 for each letter.
    fn letter(&self, code: u8, period: u8) -> Option<i128> {
        Some(0)
    }

    /// Returns the price of an arc of the graph, and 0 for any other.
    fn arc(&self, arc: &ArcKey) -> i128 {
        let Some(place) = self.graph.find(arc) else {
            return 0;
        };
        price_at(self.prices, place)
    }

    /// Returns that each arc is to be asked for.
    fn arc_prices(&self) -> Option<&[ArcPrice]> {
        None
    }

    /// Returns 0 for each rule.
    fn rule(&self, rule: u8) -> i128 {
        0
    }

    ghost all_within = { λ s. view-small s.graph.now.arcs s.prices.now s.small };
}
