//! The test of soundness, and that of arcs, shifts and prices.

ghost use Rattle.std.specs.Prelude.{◌≡◌, ◌≤◌, ◌≤ℤ◌, ◌^◌, pos, ◌↔◌, All, IsTrue, IfSome, count_by, length, List as Items};
ghost use Rattle.model_rosters.specs.declared.instance.Cut.{Cut};
ghost use Rattle.model_rosters.specs.Folds.{Each};
ghost use Rattle.model_rosters.specs.PriceLimits.{IsMult, FitPrices, is_nonzero};
ghost use Rattle.model_rosters.specs.SoundInstance.{IsSoundInstance};
ghost use Rattle.model_rosters.specs.Sums.{Within};
ghost use Rattle.check_certificates.specs.Sound.{most_cost, most_rule, IsKey, IsWordByte, IsGroupNumber, IsSoundShift, ListNoZero, NoneIsZero, IsSoundCert};
ghost use Rattle.check_certificates.specs.Walks.{RisesFrom, HasPrices, HasMults};

use crate::cert::{Cert, Node};
use crate::tree::is_whole_tree;
use model_rosters::{ArcKey, Group, Instance, Mult, Prices, Shift};

/// The greatest cost, bound and price of a shift.
pub const MOST_COST: u64 = 1_099_511_627_776;

/// The greatest number of multipliers that a node lists.
pub const MOST_MULTIPLIERS: usize = 1_500;

/// The greatest size of a price and of a multiplier.
pub const MOST_PRICE: i128 = 1_208_925_819_614_629_174_706_176;

/// Returns whether the certificate is sound: its nodes are one whole tree of at most 20,001, each
/// number is in its range, there are at most 64 shifts and none without a cost, each word has 1 to 96
/// bytes that a word of a text may have and is of a group of the day, and the prices of each node
/// are one for each cell, with at most 1,500 multipliers of the cuts on the way to it, none of which
/// is 0. Takes no memory.
pub fn is_sound_cert(instance: &Instance, cert: &Cert) -> bool
    requires { IsSoundInstance instance.now }
    ensures { IsTrue result ↔ IsSoundCert instance.now cert.now }
{
    cert.shifts.len() <= 64
        && are_shifts(instance, cert.shifts.as_slice())
        && (cert.cost.is_some() || cert.shifts.is_empty())
        && is_cost(cert.cost)
        && is_cost(cert.bound)
        && is_whole_tree(instance, cert.nodes.as_slice())
        && list_no_zero(cert.nodes.as_slice())
}

/// Returns whether the number, where there is one, is in the range of costs.
fn is_cost(cost: Option<u64>) -> bool
    ensures { IsTrue result ↔ IfSome cost (λ n. n ≤ most_cost) }
{
    match cost {
        Some(cost) => cost <= MOST_COST,
        None => true,
    }
}

/// Returns whether no multiplier that the nodes list is 0.
fn list_no_zero(nodes: &[Node]) -> bool
    ensures { IsTrue result ↔ All NoneIsZero nodes.now }
{
    nodes.iter().all(|node| none_is_zero(node))
}

/// Says whether no multiplier of the node's prices is 0.
fn none_is_zero(node: &Node) -> bool
    ensures { IsTrue result ↔ NoneIsZero node.now }
{
    match node {
        Node::Split { prices, .. } => match prices {
            Some(prices) => has_no_zero(prices),
            None => true,
        },
        Node::Priced { prices } => has_no_zero(prices),
        Node::Pinned | Node::Bare => true,
    }
}

/// Says whether no multiplier is 0.
fn has_no_zero(prices: &Prices) -> bool
    ensures { IsTrue result ↔ ListNoZero prices.now }
{
    prices.mult.as_slice().iter().all(|mult| is_listed(mult))
}

/// Returns whether a multiplier may be listed: one that is 0 is left out.
fn is_listed(mult: &Mult) -> bool
    ensures { IsTrue result ↔ (pos 1 ≤ℤ mult.now.value) }
{
    1 <= mult.value
}

/// Returns whether each shift is sound.
fn are_shifts(instance: &Instance, shifts: &[Shift]) -> bool
    ensures { IsTrue result ↔ All (IsSoundShift instance.now) shifts.now }
{
    shifts.iter().all(|shift| is_shift(instance, shift))
}

/// Says whether a shift has a word, a group and a price that may be.
fn is_shift(instance: &Instance, shift: &Shift) -> bool
    ensures { IsTrue result ↔ IsSoundShift instance.now shift.now }
{
    is_word(shift.word.as_slice())
        && is_group_number(instance.groups.as_slice(), shift.group)
        && shift.price <= MOST_COST
}

/// Returns whether the word has 1 to 96 bytes, all of which a word of a text may have.
fn is_word(word: &[u8]) -> bool
    ensures { IsTrue result ↔ ((1 ≤ length word.now) × (length word.now ≤ 96) × Each IsWordByte word.now) }
{
    !word.is_empty() && word.len() <= 96 && word.iter().all(|byte| is_word_byte(*byte))
}

/// Says whether a byte may stand in a word: no blank, no control byte, and not `#`.
fn is_word_byte(byte: u8) -> bool
    ensures { IsTrue result ↔ IsWordByte byte }
{
    33 <= byte && byte <= 126 && byte != 35
}

/// Says whether a number is that of a group, or 0 on a day without groups.
fn is_group_number(groups: &[Group], number: u8) -> bool
    ensures { IsTrue result ↔ IsGroupNumber groups.now number }
{
    if groups.is_empty() {
        number == 0
    } else {
        1 <= number && number as usize <= groups.len()
    }
}

/// Returns whether the five numbers are in the ranges of arcs.
pub(crate) fn is_key(instance: &Instance, arc: &ArcKey) -> bool
    ensures { IsTrue result ↔ IsKey instance.now arc.now }
{
    1 <= arc.rule
        && arc.rule <= most_rule(instance.groups.as_slice())
        && arc.suffix <= 6
        && is_in_day(arc.start)
        && is_in_day(arc.len)
        && is_in_day(arc.part)
}

/// Returns the greatest number of a rule, with groups and without.
fn most_rule(groups: &[Group]) -> u8
    ensures { result ≡ most_rule groups.now }
{
    if groups.is_empty() { 64 } else { 72 }
}

/// Says whether a number is from 1 to 96.
fn is_in_day(number: u8) -> bool
    ensures { IsTrue result ↔ ((1 ≤ number) × (number ≤ 96)) }
{
    1 <= number && number <= 96
}

/// Returns whether the prices are within the limits, one for each cell, with multipliers by rising
/// numbers of cuts, of which there are so many.
#[tactic(auto, using(crate::proofs::WalksLemmas::fit))]
pub fn are_fit(instance: &Instance, cuts: usize, prices: &Prices) -> bool
    ensures { (path : Items Cut) → length path ≡ cuts
        → (IsTrue result ↔ FitPrices instance.now prices.now.d prices.now.cell prices.now.mult path) }
{
    are_prices(instance, prices) && are_mults(prices, cuts)
}

/// Returns whether the denominator is in its range, and there is a price in the range for each cell.
fn are_prices(instance: &Instance, prices: &Prices) -> bool
    ensures { IsTrue result ↔ HasPrices (length instance.now.cells) prices.now.d prices.now.cell }
{
    1 <= prices.d
        && prices.d <= 1 << 30
        && prices.cell.len() == instance.cells.len()
        && prices.cell.as_slice().iter().all(|price| is_price(*price))
}

/// Says whether a price is at most 2^80 in size.
fn is_price(price: i128) -> bool
    ensures { IsTrue result ↔ Within (2 ^ 80) price }
{
    -MOST_PRICE <= price && price <= MOST_PRICE
}

/// Returns how many of the multipliers are not 0.
fn count_nonzero(mult: &[Mult]) -> usize
    ensures { result ≡ count_by is_nonzero mult.now }
{
    mult.iter().filter(|m| m.value != 0).count()
}

/// Returns whether the multipliers are in their range, by rising numbers of cuts.
#[tactic(auto, using(crate::proofs::WalksLemmas::nonzero_counted))]
fn are_mults(prices: &Prices, cuts: usize) -> bool
    ensures { IsTrue result ↔ HasMults cuts prices.now.mult }
{
    let mult = prices.mult.as_slice();
    count_nonzero(mult) <= MOST_MULTIPLIERS
        && mult.iter().all(|m| is_mult(m, cuts))
        && are_rising(mult)
}

/// Says whether a multiplier is of one of so many cuts, and from 0 to 2^80.
fn is_mult(mult: &Mult, cuts: usize) -> bool
    ensures { IsTrue result ↔ IsMult cuts mult.now }
{
    1 <= mult.cut && mult.cut as usize <= cuts && 0 <= mult.value && mult.value <= MOST_PRICE
}

/// Says whether the multipliers' cuts rise, from 1 on.
fn are_rising(mult: &[Mult]) -> bool
    ensures { IsTrue result ↔ RisesFrom 0 mult.now }
{
    let mut last = 0;
    for m in mult {
        if m.cut <= last {
            return false;
        }
        last = m.cut;
    }
    true
}
