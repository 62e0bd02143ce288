//! The last bases of nodes.

use lp_float_programs::{Key, LastBasis, Limits};
use model_rosters::{Cut, List, Memory};
use std::alloc::Global;
use std::mem;

/// How many bases are kept at most: a search goes down from few nodes at a time, and each basis has a
/// price of every row, so that they take a few megabytes at most.
const MOST_BASES: usize = 256;

/// The steps of a round of a column generation that is not careful.
const STEPS: Limits = Limits {
    dual: 3_000,
    primal: 20_000,
};

/// The last basis of a node at a float program, and the prices there.
#[derive(Drop)]
pub(crate) struct Basis {
    /// The node's cuts.
    pub(crate) cuts: List<Cut>,
    /// The basis's trees of the pool.
    pub(crate) trees: List<usize>,
    /// Its columns of rows.
    pub(crate) own: List<Key>,
    /// The prices of the rows, in units of 2^-24.
    pub(crate) prices: List<i128>,
    /// Whether the column generation was careful.
    pub(crate) is_careful: bool,
}

/// A basis that is kept.
#[derive(Drop)]
struct Kept {
    basis: Basis,
    /// The turn in which it was kept or last chosen.
    turn: u64,
}

/// The last bases of some nodes at a float program, with which nodes below may begin. They are hints:
/// whatever they are, what a master answers with them is right.
#[derive(Drop)]
pub struct Bases {
    kept: Vec<Kept>,
    /// How often a basis was kept or chosen.
    turns: u64,
    /// The steps of a round of the generations that keep them.
    steps: Limits,
    /// The basis of the last column generation; an empty one where none was made since it was taken.
    last: LastBasis,
    /// Prices of rows at which a column generation without a basis may begin, in units of 2^-24; none where
    /// none are known.
    first: List<i128>,
}

/// Whether the second list of cuts begins with the first.
fn begins_with(first: &[Cut], cuts: &[Cut]) -> bool {
    if first.len() > cuts.len() {
        return false;
    }
    for (one, other) in first.iter().zip(cuts) {
        if *one != *other {
            return false;
        }
    }
    true
}

/// Returns the place of the basis of the nearest node above the one at these cuts, or of that node itself, if
/// one is kept; of two of the same node, that of the later turn.
fn nearest_place(kept: &[Kept], cuts: &[Cut]) -> Option<usize> {
    let mut best = (0, 0);
    let mut found = None;
    for (place, one) in kept.iter().enumerate() {
        let own = one.basis.cuts.as_slice();
        let rank = (own.len(), one.turn);
        if rank >= best && begins_with(own, cuts) {
            best = rank;
            found = Some(place);
        }
    }
    found
}

/// Returns the place of the basis that was not chosen for longest, 0 where none is kept.
fn idle_place(kept: &[Kept]) -> usize {
    let mut least = u64::MAX;
    let mut found = 0;
    for (place, one) in kept.iter().enumerate() {
        if one.turn < least {
            least = one.turn;
            found = place;
        }
    }
    found
}

impl Bases {
    /// Returns no bases.
    pub fn new(alloc: Global) -> Bases {
        Bases::with_steps(alloc, STEPS)
    }

    /// Returns no bases, for column generations whose rounds have so many steps while they are not careful:
    /// with few of them a column generation is soon lost, and rescued.
    pub fn with_steps(alloc: Global, steps: Limits) -> Bases {
        Bases {
            kept: Vec::new(alloc),
            turns: 0,
            steps,
            last: LastBasis::new(alloc),
            first: List::new(alloc),
        }
    }

    /// Notes prices of the first rows at which a column generation without a basis may begin, in units of
    /// 2^-24. A row behind these begins at the price 0.
    pub fn begin_at(&mut self, prices: List<i128>) {
        self.first = prices;
    }

    /// Returns the prices at which a column generation without a basis may begin; none where none are known.
    pub(crate) fn first_prices(&self) -> &[i128] {
        self.first.as_slice()
    }

    /// Returns how many steps a round of a column generation has.
    pub(crate) fn steps(&self) -> Limits {
        self.steps
    }

    /// Notes the basis of the last column generation.
    pub(crate) fn set_last(&mut self, last: LastBasis) {
        self.last = last;
    }

    /// Returns the basis with which the last column generation ended, and leaves an empty one.
    pub fn take_last(&mut self, alloc: Global) -> LastBasis {
        mem::replace(&mut self.last, LastBasis::new(alloc))
    }

    /// Counts a turn, and returns its number.
    fn next_turn(&mut self) -> u64 {
        self.turns = self.turns.saturating_add(1);
        self.turns
    }

    /// Returns the basis of the nearest node above the one at these cuts, or of that node itself, if one is
    /// kept.
    pub(crate) fn nearest(&mut self, cuts: &[Cut]) -> Option<&Basis> {
        let turn = self.next_turn();
        let place = nearest_place(self.kept.as_slice(), cuts)?;
        let one = self.kept.get_mut(place)?;
        one.turn = turn;
        Some(&one.basis)
    }

    /// Keeps a basis. Where there are many, the one that was not chosen for longest is forgotten.
    ///
    /// # Errors
    ///
    /// `Memory` where memory runs out; the basis is not kept then.
    pub(crate) fn keep(&mut self, basis: Basis) -> Result<(), Memory> {
        let turn = self.next_turn();
        let one = Kept { basis, turn };
        if self.kept.len() >= MOST_BASES {
            let place = idle_place(self.kept.as_slice());
            if let Some(idle) = self.kept.get_mut(place) {
                *idle = one;
            }
            return Ok(());
        }
        self.kept.push(one)?;
        Ok(())
    }
}
