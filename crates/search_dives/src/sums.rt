//! Weights by arc.

ghost use Rattle.std.specs.Prelude.{◌≡◌, ◌^◌, All, length};
ghost use Rattle.model_rosters.specs.Sums.{Within};

use model_rosters::ArcKey;
use tree_graph::Graph;

/// The weight 1.
pub(crate) const ONE: i64 = 4_294_967_296;

/// The weight 2^-8, below which an arc counts as without weight.
pub(crate) const LEAST: i64 = 16_777_216;

/// What an arc without weight costs, 2^96: the greatest price that a pricer takes.
const MOST_ARC_PRICE: i128 = 79_228_162_514_264_337_593_543_950_336;

/// A sixteenth of the weight 1.
const SIXTEENTH: i64 = 268_435_456;

/// Returns what an arc costs that has so many sixteenths of the weight 1: 64 times as much as one that has
/// one more.
fn price_at(sixteenths: i64) -> i128 {
    match sixteenths {
        0 => 1_237_940_039_285_380_274_899_124_224,
        1 => 19_342_813_113_834_066_795_298_816,
        2 => 302_231_454_903_657_293_676_544,
        3 => 4_722_366_482_869_645_213_696,
        4 => 73_786_976_294_838_206_464,
        5 => 1_152_921_504_606_846_976,
        6 => 18_014_398_509_481_984,
        7 => 281_474_976_710_656,
        8 => 4_398_046_511_104,
        9 => 68_719_476_736,
        10 => 1_073_741_824,
        11 => 16_777_216,
        12 => 262_144,
        13 => 4_096,
        14 => 64,
        15 => 1,
        _ => 0,
    }
}

/// Returns what an arc costs with this sum of weights: the less by far, the greater the sum, and nothing
/// from 1 on.
fn price_of(sum: i64) -> i128
    ensures { Within (2 ^ 96) result }
{
    if sum < LEAST {
        return MOST_ARC_PRICE;
    }
    price_at(sum / SIXTEENTH).clamp(0, MOST_ARC_PRICE)
}

/// Sets the price of each arc by its sum.
pub(crate) fn set_prices(sums: &[i64], prices: &mut [i128])
    requires each { length prices.old ≡ length sums.now }
    ensures each { length prices.new ≡ length prices.old }
    ensures small { All (Within (2 ^ 96)) prices.new }
{
    for (place, sum) in sums.iter().enumerate() {
        prices[place] = price_of(*sum);
    }
}

/// Sets all sums to 0.
pub(crate) fn clear(sums: &mut [i64])
    ensures { length sums.new ≡ length sums.old }
{
    for place in 0..sums.len() {
        sums[place] = 0;
    }
}

/// Adds a weight to the sum of an arc, which stays at 0 or above.
fn add_arc(graph: &Graph, arc: &ArcKey, weight: i64, sums: &mut [i64])
    ensures { length sums.new ≡ length sums.old }
{
    let Some(place) = graph.find(arc) else {
        return;
    };
    let place = place as usize;
    if place < sums.len() {
        sums[place] = sums[place].saturating_add(weight).max(0);
    }
}

/// Adds a weight to the sum of each of these arcs.
pub(crate) fn add(graph: &Graph, arcs: &[ArcKey], weight: i64, sums: &mut [i64])
    ensures { length sums.new ≡ length sums.old }
{
    for arc in arcs {
        add_arc(graph, arc, weight, sums);
    }
}

/// Returns the sum of an arc.
fn sum_at(graph: &Graph, arc: &ArcKey, sums: &[i64]) -> i64 {
    let Some(place) = graph.find(arc) else {
        return 0;
    };
    match sums.get(place as usize) {
        Some(sum) => *sum,
        None => 0,
    }
}

/// Returns the least sum of these arcs.
pub(crate) fn width(graph: &Graph, arcs: &[ArcKey], sums: &[i64]) -> i64 {
    let mut least = i64::MAX;
    for arc in arcs {
        least = least.min(sum_at(graph, arc, sums));
    }
    least
}
