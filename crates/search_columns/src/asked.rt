//! The prices that a column generation asks at.

ghost use Rattle.std.specs.Prelude.{◌≡◌, length, IfOk};

use lp_float_programs::Q24;
use lp_master_rows::reduced_at;
use model_rosters::Memory;
use search_node_columns::Held;
use search_node_columns::volume::whole_bound;
use std::alloc::Global;

/// The unit of a float program's prices, one in 2^24.
pub(crate) const KAPPA: i128 = 16_777_216;

/// A reduced cost above this, -2^-11, is taken for none.
const CHEAPER: i128 = -8_192;

/// What weights add up to.
const WHOLE: i128 = 16;

/// How many units of a float program's value make one of a bound.
pub(crate) const VALUE_UNITS: i128 = 256;

/// How near a value is to a bound in boxes where nothing else is said, 2^-18 in units of 2^-32.
const NEAR: i128 = 16_384;

/// The prices at which trees are asked for.
#[derive(Drop)]
pub(crate) struct Asked {
    /// Those asked at, in units of 2^-24.
    pub(crate) y: Vec<i128>,
    /// Those with the greatest bound so far.
    best: Vec<i128>,
    /// That bound.
    bound: Option<i128>,
    /// A value within so much of the bound ends the column generation, in units of 2^-32; none where nothing
    /// short of no cheap tree does.
    near: Option<i128>,
    /// Whether it ended so, or with the best prices for want of better ones.
    is_early: bool,
}

/// Leaves so many sixteenths of one list of prices and the rest of another.
fn mix(out: &mut [i128], best: &[i128], prices: &[Q24], weight: i128) {
    let other = WHOLE.saturating_sub(weight);
    for ((number, old), price) in out.iter_mut().zip(best).zip(prices) {
        let share = old.saturating_mul(weight);
        let rest = i128::from(price.raw()).saturating_mul(other);
        *number = share.saturating_add(rest) / WHOLE;
    }
}

/// Returns what prices show of the least cost, where the least reduced cost of a tree is this.
fn bound_at(right: &[i64], y: &[i128], heads: u32, reduced: i128) -> i128 {
    let mut bound = reduced.min(0).saturating_mul(i128::from(heads));
    for (side, price) in right.iter().zip(y) {
        bound = bound.saturating_add(price.saturating_mul(i128::from(*side)));
    }
    bound
}

/// Copies prices.
fn copy_prices(out: &mut [i128], prices: &[i128]) {
    for (copy, price) in out.iter_mut().zip(prices) {
        *copy = *price;
    }
}

impl Asked {
    /// Returns prices of 0 for so many rows.
    ///
    /// # Errors
    ///
    /// `Memory` where memory runs out; nothing is kept then.
    pub(crate) fn new(alloc: Global, rows: usize) -> Result<Asked, Memory>
        ensures { IfOk result (λ a. length a.y.items ≡ rows) }
    {
        let y = vec![in alloc; 0i128; rows]?;
        let best = vec![in alloc; 0i128; rows]?;
        Ok(Asked {
            y,
            best,
            bound: None,
            near: None,
            is_early: false,
        })
    }

    /// Begins with prices that show this bound, if any are known.
    pub(crate) fn begin_at(&mut self, prices: &[i128], bound: Option<i128>)
        ensures { length self.new.y.items ≡ length self.old.y.items }
    {
        copy_prices(self.best.as_mut_slice(), prices);
        self.bound = bound;
    }

    /// Lets the column generation end where the value is within so much of the bound.
    pub(crate) fn end_within(&mut self, near: i128)
        ensures { length self.new.y.items ≡ length self.old.y.items }
    {
        self.near = Some(near);
    }

    /// Says whether the column generation ends at a value, in units of 2^-32, since it is near enough to the
    /// bound.
    pub(crate) fn ends_at(&mut self, value: i128) -> bool
        ensures { length self.new.y.items ≡ length self.old.y.items }
    {
        let (Some(near), Some(bound)) = (self.near, self.bound) else {
            return false;
        };
        let apart = value.saturating_sub(bound.saturating_mul(VALUE_UNITS));
        self.is_early = apart <= near;
        self.is_early
    }

    /// Returns the best prices, in units of 2^-24.
    pub(crate) fn best(&self) -> &[i128] {
        self.best.as_slice()
    }

    /// Returns the bound that they show, in the same units; none where there is none.
    pub(crate) fn bound(&self) -> Option<i128> {
        self.bound
    }

    /// Returns within how much of the bound a value is near to it, in the same units.
    pub(crate) fn near(&self) -> i128 {
        self.near.unwrap_or(NEAR) / VALUE_UNITS
    }

    /// Lets the column generation hand on the best prices, if any are known, though the value is not near to
    /// what they show.
    pub(crate) fn take_best(&mut self)
        ensures { length self.new.y.items ≡ length self.old.y.items }
    {
        self.is_early = self.bound.is_some();
    }

    /// Returns the bound that the best prices show as a whole number, rounded down; none where there is none,
    /// or where it is below 0.
    pub(crate) fn whole_bound(&self) -> Option<u64> {
        whole_bound(self.bound?)
    }

    /// Returns the best prices, where the column generation ended since the value was near to what they show,
    /// or hands them on for want of better ones.
    pub(crate) fn early_prices(&self) -> Option<&[i128]> {
        if self.is_early {
            Some(self.best.as_slice())
        } else {
            None
        }
    }

    /// Asks at a float program's prices, of which so many sixteenths are in place of those of the best ones.
    pub(crate) fn mix(&mut self, prices: &[Q24], weight: i128)
        ensures { length self.new.y.items ≡ length self.old.y.items }
    {
        let weight = if self.bound.is_none() { 0 } else { weight };
        mix(self.y.as_mut_slice(), self.best.as_slice(), prices, weight);
    }

    /// Notes the column of least reduced cost at the prices that were asked at. Says whether it is cheap.
    pub(crate) fn note(&mut self, held: &[Held], column: usize, right: &[i64], heads: u32) -> bool
        ensures { length self.new.y.items ≡ length self.old.y.items }
    {
        let Some(one) = held.get(column) else {
            return false;
        };
        let reduced = reduced_at(one.cost, one.places.as_slice(), self.y.as_slice());
        let bound = bound_at(right, self.y.as_slice(), heads, reduced);
        if self.bound.is_none_or(|best| best < bound) {
            self.bound = Some(bound);
            copy_prices(self.best.as_mut_slice(), self.y.as_slice());
        }
        reduced < CHEAPER
    }
}
