//! A pass in that order, in numbers of any width.

ghost use Rattle.std.specs.Prelude.{◌≡◌, ◌≤◌, ◌≤ℤ◌, ◌<◌, ◌+◌, ◌^◌, IsTrue, IfSome, List as Items, Some, ℕ, pos, length, slice_set};
ghost use Rattle.model_rosters.specs.declared.grammar.ArcKey.{ArcKey as Key};
ghost use Rattle.model_rosters.specs.RoomPrices.{listed_price};
ghost use Rattle.model_rosters.specs.Sums.{PriceView, plus, Within, AllWithin};
ghost use Rattle.tree_graph.specs.Graphs.{GraphView, HasGrammar};
ghost use Rattle.tree_cheapest.specs.Extras.{AreFree, AreFreeBut, AreCosts};
ghost use Rattle.tree_cheapest.specs.Numbers.{AreSmall, AreRules, IsBetter, sum_but};
ghost use Rattle.tree_cheapest.specs.Orders.{IsOrder};
ghost use Rattle.tree_cheapest.specs.Passes.{AreBegun, CanAdd, maker_price, AsksPass, FindsRow, AreRowsPassed};
ghost use Rattle.tree_cheapest.specs.Pricers.{value_at};

use crate::extras::Extras;
use crate::least::{Least, Price, Sum};
use crate::number::Number;
use crate::order::{Maker, Order};
use crate::slots::Spot;
use model_rosters::{ArcPrice, LetterPrice};
use tree_graph::Graph;

// Puts the price of each rule at its number plus 1, and returns true; false where one is too wide, which
// none is in numbers that fit all prices.
fn put_rules<N: Number, P: LetterPrice>(prices: &P, rules: &mut [Price<N>]) -> bool
    requires { length rules.old ≡ 257 }
    ensures rules { IsTrue result → AreRules N.limits.price (P.view prices.now) rules.new }
    ensures fits { 2 ^ 96 ≤ N.limits.price → IsTrue result }
{
    rules[0] = Price::zero();
    for rule in 0..256usize {
        let Some(price) = Price::new(prices.rule(rule as u8)) else {
            return false;
        };
        rules[rule + 1] = price;
    }
    true
}

// Puts the price of a letter, or none where it is forbidden, into a slot, and returns true; false where
// the price is too wide.
fn put_letter<N: Number, P: LetterPrice>(
    prices: &P,
    letter: Spot,
    slot: usize,
    sums: &mut [Sum<N>],
) -> bool
    requires slot { slot < length sums.old }
    ensures put { IsTrue result → sums.new
        ≡ slice_set sums.old slot ((P.view prices.now).letter_at letter.code letter.period) }
    ensures small { IsTrue result → IfSome ((P.view prices.now).letter_at letter.code letter.period)
        (Within N.limits.sum) }
    ensures fits { 2 ^ 96 ≤ N.limits.price → IsTrue result }
{
    let Some(price) = prices.letter(letter.code, letter.period) else {
        sums[slot] = Sum::none();
        return true;
    };
    let Some(price) = Price::new(price) else {
        return false;
    };
    sums[slot] = Sum::new(price);
    true
}

// Puts the prices of the letters into their slots, 0 into that of nothing, and none into those of so
// many nodes, and returns true; false where a price is too wide.
fn begin<N: Number, P: LetterPrice>(
    prices: &P,
    letters: &[Spot],
    nodes: usize,
    sums: &mut [Sum<N>],
) -> bool
    requires slots { length sums.old ≡ nodes + 1 + length letters.now }
    requires room { length sums.old < 2 ^ 63 }
    ensures begun { IsTrue result → AreBegun (P.view prices.now) letters.now nodes sums.new }
    ensures small { IsTrue result → AreSmall N.limits.sum sums.new }
    ensures fits { 2 ^ 96 ≤ N.limits.price → IsTrue result }
{
    for node in 0..nodes {
        sums[node] = Sum::none();
    }
    sums[nodes] = Sum::new(Price::zero());
    for index in 0..letters.len() {
        if !put_letter(prices, letters[index], nodes + 1 + index, sums) {
            return false;
        }
    }
    true
}

// Returns the better of a least sum and that of an arc.
fn better<N: Number>(
    rules: &[Price<N>],
    extras: &[Price<N>],
    sums: &[Sum<N>],
    maker: Maker,
    least: Least<N>,
) -> Least<N>
    requires maker { CanAdd N.limits.price rules.now extras.now sums.now maker }
    requires small { AreSmall N.limits.sum sums.now }
    requires most { N.value least.number ≤ℤ pos N.limits.least }
    ensures most { N.value result.number ≤ℤ pos N.limits.least }
    ensures better { IsBetter (sum_but N.limits.least (N.value least.number)) least.arc
        (plus (value_at sums.now maker.first) (plus (Some (maker_price rules.now extras.now maker))
        (value_at sums.now maker.rest))) maker.arc
        (sum_but N.limits.least (N.value result.number)) result.arc }
{
    let rule = rules[maker.code as usize];
    let prices = rule.plus(extras[maker.arc as usize]);
    let first = sums[maker.first as usize];
    let rest = sums[maker.rest as usize];
    least.or(first, prices, rest, maker.arc)
}

// Returns the least sum of what stands at the node of a row, with an arc that has it at the top.
fn least_of_row<N: Number>(
    rules: &[Price<N>],
    extras: &[Price<N>],
    order: &Order,
    sums: &[Sum<N>],
    place: usize,
) -> Least<N>
    requires asks { (p : PriceView) × (v : GraphView) × (letters : Items Spot) × (best : Items ℕ)
        × AsksPass N.limits p v letters order.now sums.now best place rules.now extras.now }
    ensures most { N.value result.number ≤ℤ pos N.limits.least }
    ensures found { (p : PriceView) (v : GraphView) (letters : Items Spot) (best : Items ℕ)
        → AsksPass N.limits p v letters order.now sums.now best place rules.now extras.now
        → FindsRow p v order.now place (sum_but N.limits.least (N.value result.number)) result.arc }
{
    let row = order.rows.as_slice()[place];
    let makers = order.makers.as_slice();
    let begin = row.begin;
    let count = row.end - begin;
    let mut least = Least::none();
    for index in 0..count {
        least = better(rules, extras, sums, makers[begin + index], least);
    }
    least
}

// Puts a sum into a slot.
fn put<N: Number>(sums: &mut [Sum<N>], slot: usize, sum: Sum<N>)
    requires { slot < length sums.old }
    ensures { sums.new ≡ slice_set sums.old slot sum }
{
    sums[slot] = sum;
}

// Puts the least sum of a row's node into its slot, and an arc that has it, and returns true; false where
// the sum is too wide.
fn pass_row<N: Number>(
    rules: &[Price<N>],
    extras: &[Price<N>],
    order: &Order,
    sums: &mut [Sum<N>],
    best: &mut [u32],
    place: usize,
) -> bool
    requires asks { (p : PriceView) × (v : GraphView) × (letters : Items Spot)
        × AsksPass N.limits p v letters order.now sums.old best.old place rules.now extras.now }
    ensures passed { IsTrue result → (p : PriceView) (v : GraphView) (letters : Items Spot)
        → AsksPass N.limits p v letters order.now sums.old best.old place rules.now extras.now
        → AreRowsPassed N.limits.sum p v letters order.now sums.new best.new (place + 1) }
    ensures fits { 2 ^ 110 ≤ N.limits.sum → (p : PriceView) (v : GraphView) (letters : Items Spot)
        → AsksPass N.limits p v letters order.now sums.old best.old place rules.now extras.now
        → AllWithin (2 ^ 96) p → HasGrammar v → IsTrue result }
{
    let least = least_of_row(rules, extras, order, sums, place);
    let Some(sum) = least.sum() else {
        return false;
    };
    let node = order.rows.as_slice()[place].node as usize;
    put(sums, node, sum);
    best[node] = least.arc;
    true
}

// Passes all rows with the prices of the arcs, and returns true; false where a price or a sum is too wide.
fn pass<N: Number, P: LetterPrice>(
    graph: &Graph,
    prices: &P,
    letters: &[Spot],
    order: &Order,
    rules: &[Price<N>],
    extras: &[Price<N>],
    sums: &mut [Sum<N>],
    best: &mut [u32],
) -> bool
    requires order { IsOrder graph.now letters.now order.now }
    requires slots { length sums.old ≡ length graph.now.nodes + 1 + length letters.now }
    requires nodes { length best.old ≡ length graph.now.nodes }
    requires rules { AreRules N.limits.price (P.view prices.now) rules.now }
    requires extras { AreCosts N.limits.price (P.view prices.now) graph.now.arcs extras.now }
    ensures passed { IsTrue result
        → AreRowsPassed N.limits.sum (P.view prices.now) graph.now letters.now order.now sums.new best.new
        (length order.now.rows) }
    ensures fits { 2 ^ 96 ≤ N.limits.price → 2 ^ 110 ≤ N.limits.sum → HasGrammar graph.now → IsTrue result }
{
    if !begin(prices, letters, graph.nodes() as usize, sums) {
        return false;
    }
    for place in 0..order.rows.len() {
        if !pass_row(rules, extras, order, sums, best, place) {
            return false;
        }
    }
    true
}

// Passes all rows where the entries add up to what the arcs cost.
fn pass_listed<N: Number, P: LetterPrice>(
    graph: &Graph,
    prices: &P,
    entries: &[ArcPrice],
    letters: &[Spot],
    order: &Order,
    rules: &[Price<N>],
    extras: &mut Extras<N>,
    sums: &mut [Sum<N>],
    best: &mut [u32],
) -> bool
    requires graph { HasGrammar graph.now }
    requires entries { (a : Key) → (P.view prices.now).arc_of a ≡ listed_price entries.now a }
    requires order { IsOrder graph.now letters.now order.now }
    requires rules { AreRules N.limits.price (P.view prices.now) rules.now }
    requires slots { length sums.old ≡ length graph.now.nodes + 1 + length letters.now }
    requires nodes { length best.old ≡ length graph.now.nodes }
    requires free { AreFree (length graph.now.arcs) extras.old.prices.items }
    ensures passed { IsTrue result
        → AreRowsPassed N.limits.sum (P.view prices.now) graph.now letters.now order.now sums.new best.new
        (length order.now.rows) }
    ensures count { length extras.new.prices.items ≡ length graph.now.arcs }
    ensures free { AreFreeBut extras.new.places.items 0 (length entries.now) extras.new.prices.items }
{
    if !extras.add_all(graph, entries) {
        return false;
    }
    pass(
        graph,
        prices,
        letters,
        order,
        rules,
        extras.prices.as_slice(),
        sums,
        best,
    )
}

// Passes all rows where arcs are asked for one by one.
fn pass_asked<N: Number, P: LetterPrice>(
    graph: &Graph,
    prices: &P,
    letters: &[Spot],
    order: &Order,
    rules: &[Price<N>],
    extras: &mut Extras<N>,
    sums: &mut [Sum<N>],
    best: &mut [u32],
) -> bool
    requires order { IsOrder graph.now letters.now order.now }
    requires rules { AreRules N.limits.price (P.view prices.now) rules.now }
    requires slots { length sums.old ≡ length graph.now.nodes + 1 + length letters.now }
    requires nodes { length best.old ≡ length graph.now.nodes }
    requires count { length extras.old.prices.items ≡ length graph.now.arcs }
    ensures passed { IsTrue result
        → AreRowsPassed N.limits.sum (P.view prices.now) graph.now letters.now order.now sums.new best.new
        (length order.now.rows) }
    ensures fits { 2 ^ 96 ≤ N.limits.price → 2 ^ 110 ≤ N.limits.sum → HasGrammar graph.now → IsTrue result }
    ensures count { length extras.new.prices.items ≡ length graph.now.arcs }
{
    if !extras.ask_all(graph, prices) {
        return false;
    }
    pass(
        graph,
        prices,
        letters,
        order,
        rules,
        extras.prices.as_slice(),
        sums,
        best,
    )
}

/// Puts into the slot of each node of the graph the least sum of what stands there, or none, and keeps
/// an arc that has it at the top, and returns true; false where a price or a sum is beyond the limits of
/// the numbers, which none is in numbers that fit all prices and sums. The slots hold any numbers then.
///
/// Asks for the prices of the arcs one by one.
pub fn fill_asked<N: Number, P: LetterPrice>(
    graph: &Graph,
    prices: &P,
    letters: &[Spot],
    order: &Order,
    rules: &mut [Price<N>],
    extras: &mut Extras<N>,
    sums: &mut [Sum<N>],
    best: &mut [u32],
) -> bool
    requires order { IsOrder graph.now letters.now order.now }
    requires rules { length rules.old ≡ 257 }
    requires slots { length sums.old ≡ length graph.now.nodes + 1 + length letters.now }
    requires nodes { length best.old ≡ length graph.now.nodes }
    requires free { AreFree (length graph.now.arcs) extras.old.prices.items }
    ensures passed { IsTrue result
        → AreRowsPassed N.limits.sum (P.view prices.now) graph.now letters.now order.now sums.new best.new
        (length order.now.rows) }
    ensures fits { 2 ^ 96 ≤ N.limits.price → 2 ^ 110 ≤ N.limits.sum → HasGrammar graph.now → IsTrue result }
    ensures free { AreFree (length graph.now.arcs) extras.new.prices.items }
{
    if !put_rules(prices, rules) {
        return false;
    }
    let is_passed = pass_asked(graph, prices, letters, order, rules, extras, sums, best);
    extras.take_all_back();
    is_passed
}

/// Puts into the slot of each node of the graph the least sum of what stands there, or none, and keeps
/// an arc that has it at the top, and returns true; false where a price or a sum is beyond the limits of
/// the numbers, or more prices of arcs are listed than there are arcs. The slots hold any numbers then.
pub fn fill_rows<N: Number, P: LetterPrice>(
    graph: &Graph,
    prices: &P,
    letters: &[Spot],
    order: &Order,
    rules: &mut [Price<N>],
    extras: &mut Extras<N>,
    sums: &mut [Sum<N>],
    best: &mut [u32],
) -> bool
    requires graph { HasGrammar graph.now }
    requires order { IsOrder graph.now letters.now order.now }
    requires rules { length rules.old ≡ 257 }
    requires slots { length sums.old ≡ length graph.now.nodes + 1 + length letters.now }
    requires nodes { length best.old ≡ length graph.now.nodes }
    requires free { AreFree (length graph.now.arcs) extras.old.prices.items }
    ensures passed { IsTrue result
        → AreRowsPassed N.limits.sum (P.view prices.now) graph.now letters.now order.now sums.new best.new
        (length order.now.rows) }
    ensures free { AreFree (length graph.now.arcs) extras.new.prices.items }
{
    let Some(entries) = prices.arc_prices() else {
        return fill_asked(graph, prices, letters, order, rules, extras, sums, best);
    };
    if !put_rules(prices, rules) {
        return false;
    }
    let is_passed = pass_listed(
        graph, prices, entries, letters, order, rules, extras, sums, best,
    );
    extras.take_back(entries.len());
    is_passed
}
