//! Least sums under an arc.

ghost use Rattle.std.specs.Prelude.{◌≡◌, ◌^◌, IfSome};
ghost use Rattle.model_rosters.specs.declared.grammar.ArcKey.{ArcKey as Key};
ghost use Rattle.model_rosters.specs.Sums.{IsLeast, Within, tree_sum};
ghost use Rattle.tree_cheapest.specs.AtNodes.{arc_total};
ghost use Rattle.tree_cheapest.specs.Under.{IsTop, IsDayTreeUnder, AsksSum};

use crate::slots::Links;
use crate::sums;
use model_rosters::{ArcKey, LetterPrice};
use tree_graph::Graph;
use tree_span_cells::PackedSum;

// Returns the sum of an arc of the sums of its first part and of what follows it, none where either
// is not there. The arc of a whole right side pays for its rule.
fn arc_sum<P: LetterPrice>(
    prices: &P,
    arc: &ArcKey,
    first: Option<i128>,
    rest: Option<i128>,
) -> Option<i128>
    requires first { IfSome first (Within (2 ^ 110)) }
    requires rest { IfSome rest (Within (2 ^ 110)) }
    ensures { result ≡ arc_total (P.view prices.now) arc.now first rest }
{
    let parts = sums::add_part(first, prices.arc(arc), rest);
    if arc.suffix == 0 {
        sums::add_price(prices.rule(arc.rule), parts)
    } else {
        parts
    }
}

/// Returns the least sum over the trees of the day with an arc at the top, of the values of a filled
/// pricer.
pub fn least_under<P: LetterPrice>(
    graph: &Graph,
    prices: &P,
    links: &Links,
    values: &[PackedSum],
    arc: u32,
) -> Option<i128>
    requires { AsksSum (P.view prices.now) graph.now links.now values.now arc }
    ensures { (asked : AsksSum (P.view prices.now) graph.now links.now values.now arc) (a : Key)
        → IsTop asked.g graph.now arc a
        → IsLeast (IsDayTreeUnder asked.g a) (tree_sum (P.view prices.now) 1) result }
{
    let place = arc as usize;
    let first = values[links.first.as_slice()[place] as usize].sum();
    let rest = values[links.rest.as_slice()[place] as usize].sum();
    arc_sum(prices, &graph.arcs()[place], first, rest)
}
