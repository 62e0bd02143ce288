//! The arcs that are tried.

ghost use Rattle.std.specs.Prelude.{◌≡◌, length};

use crate::gains::Gains;
use crate::sums::ArcSum;
use model_rosters::{List, Memory};
use search_arc_counts::ArcBox;
use std::alloc::Global;
use tree_graph::Graph;

/// The weight 1.
pub(crate) const ONE: i64 = 4_294_967_296;

/// An eighth of it.
const EIGHTH: i64 = 536_870_912;

/// A sum nearer to a whole number, 2^-16, is taken for one.
pub(crate) const NEAR: i64 = 65_536;

/// How many arcs are taken in each order.
const EACH: usize = 16;

/// How many letters are taken by what their splits gained before.
const PROMISING: usize = 8;

/// How many letters are taken beside them by nearness to a half.
const NEAR_HALF: usize = 12;

/// An arc whose trees weigh no whole number together.
#[derive(Clone, Copy, Drop)]
pub(crate) struct Candidate {
    pub arc: u32,
    /// The weight rounded down.
    pub floor: i64,
    /// The weight less that.
    pub rest: i64,
    /// The arc's length.
    pub len: u8,
    /// Which trees it has.
    pub mark: u64,
    /// The product of what both halves are likely to gain; 0 where no split on the arc was tried before.
    pub promise: i128,
}

impl Candidate {
    /// Returns how far the weight is from a whole number.
    fn apart(&self) -> i64 {
        self.rest.min(ONE.saturating_sub(self.rest))
    }
}

/// The arcs whose weights are not whole, by rising numbers.
#[derive(Drop)]
struct Fractional {
    /// All of them.
    arcs: List<Candidate>,
    /// Those that are letters.
    letters: List<Candidate>,
}

/// The arcs whose splits are tried; no two in a list have the same trees.
#[derive(Drop)]
pub(crate) struct Candidates {
    /// Arcs of all kinds.
    pub arcs: List<Candidate>,
    /// Letters, which may stand among the arcs too.
    pub letters: List<Candidate>,
}

impl Candidates {
    /// Says whether there are less than two.
    pub fn are_few(&self) -> bool {
        self.arcs.len().saturating_add(self.letters.len()) < 2
    }
}

/// The order in which arcs are taken.
#[derive(Clone, Copy, PartialEq, Eq, Drop)]
enum Order {
    /// By the greatest weight rounded down, and then the nearest to a half.
    Floor,
    /// By nearness to a half, and then the greatest weight rounded down.
    Half,
    /// By nearness to a half in eighths, and then the greatest weight rounded down.
    Eighths,
    /// By what both halves are likely to gain.
    Promise,
}

/// Says whether the first arc comes before the second.
fn comes_before(order: Order, first: &Candidate, second: &Candidate) -> bool {
    match order {
        Order::Floor => {
            (first.floor, first.apart(), first.len) > (second.floor, second.apart(), second.len)
        }
        Order::Half => {
            (first.apart(), first.floor, first.len) > (second.apart(), second.floor, second.len)
        }
        Order::Eighths => {
            (first.apart() / EIGHTH, first.floor) > (second.apart() / EIGHTH, second.floor)
        }
        Order::Promise => first.promise > second.promise,
    }
}

/// Says whether there is an arc of the same trees.
fn has_same(candidates: &[Candidate], mark: u64) -> bool {
    candidates.iter().any(|other| other.mark == mark)
}

/// Returns an arc with its sum, and none where that is whole or below the arc's least count.
fn fitted(arc: u32, len: u8, low: u32, sum: ArcSum) -> Option<Candidate> {
    let floor = sum.weight.max(0) / ONE;
    let rest = sum.weight.max(0) % ONE;
    let apart = rest.min(ONE - rest);
    if apart < NEAR || floor < i64::from(low) {
        return None;
    }
    Some(Candidate {
        arc,
        floor,
        rest,
        len,
        mark: sum.mark,
        promise: 0,
    })
}

impl Fractional {
    /// Adds an arc, also to the letters where it is one.
    fn add(&mut self, candidate: Candidate, gains: &Gains) -> Result<(), Memory> {
        if let Some(promise) = gains.promise(&candidate) {
            self.letters.push(Candidate {
                promise,
                ..candidate
            })?;
        }
        self.arcs.push(candidate)
    }
}

/// Returns the arcs whose weights are not whole.
fn list_fractional(
    alloc: Global,
    graph: &Graph,
    arc_box: &ArcBox,
    sums: &[ArcSum],
    gains: &Gains,
) -> Result<Fractional, Memory>
    requires sums { length sums.now ≡ length graph.now.arcs }
    requires bounds { length arc_box.now.bounds ≡ length graph.now.arcs }
{
    let mut found = Fractional {
        arcs: List::new(alloc),
        letters: List::new(alloc),
    };
    let arcs = graph.arcs();
    for (place, sum) in sums.iter().enumerate() {
        let arc = place as u32;
        if let Some(next) = fitted(arc, arcs[place].len, arc_box.low(arc), *sum) {
            found.add(next, gains)?;
        }
    }
    Ok(found)
}

/// Returns the first arc in an order whose trees are those of no arc that was taken.
fn first_in(order: Order, found: &[Candidate], taken: &[Candidate]) -> Option<Candidate> {
    let mut first: Option<Candidate> = None;
    for next in found {
        let is_first = first.is_none_or(|other| comes_before(order, next, &other));
        if is_first && !has_same(taken, next.mark) {
            first = Some(*next);
        }
    }
    first
}

/// Takes the first arc in an order, if there is one.
fn take_first(
    order: Order,
    found: &[Candidate],
    taken: &mut List<Candidate>,
) -> Result<(), Memory> {
    match first_in(order, found, taken.as_slice()) {
        Some(next) => taken.push(next),
        None => Ok(()),
    }
}

/// Returns the first arcs in both orders, by turns.
fn arcs_of(alloc: Global, found: &[Candidate]) -> Result<List<Candidate>, Memory> {
    let mut taken = List::new(alloc);
    for _ in 0..EACH {
        take_first(Order::Floor, found, &mut taken)?;
        take_first(Order::Half, found, &mut taken)?;
    }
    Ok(taken)
}

/// Returns the letters that promise most, and those nearest to a half.
fn letters_of(alloc: Global, found: &[Candidate]) -> Result<List<Candidate>, Memory> {
    let mut tried_before = List::new(alloc);
    for letter in found {
        if letter.promise > 0 {
            tried_before.push(*letter)?;
        }
    }
    let mut taken = List::new(alloc);
    for _ in 0..PROMISING {
        take_first(Order::Promise, tried_before.as_slice(), &mut taken)?;
    }
    for _ in 0..NEAR_HALF {
        take_first(Order::Eighths, found, &mut taken)?;
    }
    Ok(taken)
}

/// Returns the arcs whose splits are tried.
///
/// # Errors
///
/// `Memory` where memory runs out; nothing is kept then.
pub(crate) fn candidates_of(
    alloc: Global,
    graph: &Graph,
    arc_box: &ArcBox,
    sums: &[ArcSum],
    gains: &Gains,
) -> Result<Candidates, Memory>
    requires sums { length sums.now ≡ length graph.now.arcs }
    requires bounds { length arc_box.now.bounds ≡ length graph.now.arcs }
{
    let found = list_fractional(alloc, graph, arc_box, sums, gains)?;
    let arcs = arcs_of(alloc, found.arcs.as_slice())?;
    let letters = letters_of(alloc, found.letters.as_slice())?;
    Ok(Candidates { arcs, letters })
}
