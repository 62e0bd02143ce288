//! The prices that rows may have near to the best ones.

use crate::asked::KAPPA;
use crate::float_columns::ARTIFICIAL;
use lp_float_programs::{FloatProgram, Q24};
use model_rosters::Memory;
use search_node_columns::{Held, Kind};
use std::alloc::Global;

/// How far a price may be from the best one at first.
const WIDTH: i64 = 1;

/// How far it may be at most, 2^16.
const MOST_WIDTH: i64 = 65_536;

/// The greatest price in size that a box is put about, 2^40.
const MOST_PRICE: i128 = 1_099_511_627_776;

/// Half the unit of prices.
const HALF: i128 = 8_388_608;

/// A price is at a side of its box within so much, 2^-18 in units of 2^-24.
const AT_SIDE: i128 = 64;

/// The box of a row: the prices that it may have, in whole units.
#[derive(Clone, Copy, Drop)]
struct PriceBox {
    /// Whether there is a box: the row has columns of what is missing and of what is beyond, and is none of
    /// the heads.
    is_there: bool,
    /// The least price that the row has without a box: the negative cost of what is beyond.
    least: i64,
    /// The greatest one: the cost of what is missing.
    most: i64,
    /// How far the price may be from the best one.
    width: i64,
    low: i64,
    high: i64,
}

/// A row without a box.
const OPEN: PriceBox = PriceBox {
    is_there: false,
    least: 0,
    most: 0,
    width: WIDTH,
    low: 0,
    high: 0,
};

/// The boxes of all rows.
#[derive(Drop)]
pub(crate) struct Boxes {
    rows: Vec<PriceBox>,
}

/// Returns a price in whole units, rounded, of one in units of 2^-24.
fn whole_price(price: i128) -> i64 {
    let whole = price.saturating_add(HALF).div_euclid(KAPPA);
    whole.clamp(-MOST_PRICE, MOST_PRICE) as i64
}

/// Returns a price in units of 2^-24 of one in whole units.
fn fine_price(price: i64) -> i128 {
    i128::from(price).saturating_mul(KAPPA)
}

impl PriceBox {
    /// Puts the box about a price.
    fn put_about(&mut self, price: i128) {
        let middle = whole_price(price).max(self.least).min(self.most);
        self.low = middle.saturating_sub(self.width).max(self.least);
        self.high = middle.saturating_add(self.width).min(self.most);
    }

    /// Says whether the price is at a side of the box that is none without the box.
    fn holds_back(&self, price: i128) -> bool {
        let is_low = price <= fine_price(self.low).saturating_add(AT_SIDE);
        let is_high = price >= fine_price(self.high).saturating_sub(AT_SIDE);
        self.is_there && ((self.low > self.least && is_low) || (self.high < self.most && is_high))
    }

    /// Doubles how far the price may be from the best one.
    fn widen(&mut self) {
        self.width = self.width.saturating_mul(2).min(MOST_WIDTH);
    }
}

/// Takes what a row's own column costs.
fn take_cost(rows: &mut [PriceBox], one: &Held) {
    match one.kind {
        Kind::Missing(row) => {
            if let Some(place) = rows.get_mut(row) {
                place.most = one.cost.min(ARTIFICIAL);
            }
        }
        Kind::Beyond(row) => {
            if let Some(place) = rows.get_mut(row) {
                place.least = one.cost.saturating_neg();
                place.is_there = true;
            }
        }
        Kind::OfTree(_) => {}
    }
}

/// Leaves a row without a box.
fn open(rows: &mut [PriceBox], row: usize) {
    if let Some(place) = rows.get_mut(row) {
        place.is_there = false;
    }
}

impl Boxes {
    /// Returns boxes for so many rows with these own columns, of which the row of this number and the next
    /// one are those of the heads.
    ///
    /// # Errors
    ///
    /// `Memory` where memory runs out; nothing is kept then.
    pub(crate) fn new(
        alloc: Global,
        held: &[Held],
        count: usize,
        head: usize,
    ) -> Result<Boxes, Memory> {
        let mut rows = vec![in alloc; OPEN; count]?;
        for one in held {
            take_cost(rows.as_mut_slice(), one);
        }
        open(rows.as_mut_slice(), head);
        open(rows.as_mut_slice(), head.saturating_add(1));
        Ok(Boxes { rows })
    }

    /// Puts the boxes about the best prices: in the float program the own columns of a row cost what the
    /// sides of its box are.
    pub(crate) fn put_about(&mut self, best: &[i128], float_program: &mut FloatProgram) {
        let rows = self.rows.as_mut_slice().iter_mut();
        for ((row, place), price) in rows.enumerate().zip(best) {
            if place.is_there {
                place.put_about(*price);
                float_program.set_costs(row, place.high, Some(place.low.saturating_neg()));
            }
        }
    }

    /// Takes the boxes away: in the float program the own columns of a row cost what they cost.
    pub(crate) fn lift(&self, float_program: &mut FloatProgram) {
        for (row, place) in self.rows.as_slice().iter().enumerate() {
            if place.is_there {
                float_program.set_costs(row, place.most, Some(place.least.saturating_neg()));
            }
        }
    }

    /// Says whether a box holds its price back at these prices of a float program.
    pub(crate) fn hold_back(&self, prices: &[Q24]) -> bool {
        let rows = self.rows.as_slice().iter();
        for (place, price) in rows.zip(prices) {
            if place.holds_back(i128::from(price.raw())) {
                return true;
            }
        }
        false
    }

    /// Makes each box wider that holds its price back at these prices of a float program, from when it is
    /// moved on.
    pub(crate) fn widen(&mut self, prices: &[Q24]) {
        let rows = self.rows.as_mut_slice().iter_mut();
        for (place, price) in rows.zip(prices) {
            if place.holds_back(i128::from(price.raw())) {
                place.widen();
            }
        }
    }
}
