//! Prices from pass to pass.

ghost use Rattle.std.specs.Prelude.{◌≡◌, IfOk, length};
ghost use Rattle.lp_master_rows.specs.node_task.Tasks.{IsTask, row_count};

use crate::Held;
use crate::volume::float::price_of;
use crate::volume::line::{
    RowNumbers, cost_of_missing, keep_prices, least_share, lines_of, mix_last, rise_of, set_gaps,
    set_last, try_prices,
};
use crate::volume::pace::Pace;
use lp_fractions::Place;
use lp_master_rows::{NodeRows, NodeTask, reduced_at};
use model_rosters::{List, Memory};
use std::alloc::Global;
use std::num::nearest_i64_to_f64;

/// A price of the heads at which each tree of the day has a negative reduced cost, 2^55 in units of 2^-24:
/// other prices are within 10,000 or the costs of a cell.
const LIFT: i128 = 36_028_797_018_963_968;

/// The prices that passes lead to.
#[derive(Drop)]
pub(crate) struct Path {
    /// The numbers of the rows.
    lines: Vec<RowNumbers>,
    /// The prices at which a tree is asked for, in units of 2^-24.
    pub(crate) asked: Vec<i128>,
    /// Those with the best bound so far, in the same units.
    best: Vec<i128>,
    /// That bound, in the same units.
    bound: Option<i128>,
    /// How far a pass goes.
    pace: Pace,
}

/// Returns so many zeros.
fn zeros(alloc: Global, count: usize) -> Result<Vec<i128>, Memory>
    ensures { IfOk result (λ v. length v.items ≡ count) }
{
    Ok(vec![in alloc; 0i128; count]?)
}

/// Sets the number at a place, if there is one.
fn set_at(numbers: &mut [i128], place: usize, value: i128)
    ensures { length numbers.new ≡ length numbers.old }
{
    if place < numbers.len() {
        numbers[place] = value;
    }
}

/// Copies numbers, as many as both have.
fn copy_numbers(out: &mut [i128], numbers: &[i128]) {
    for (copy, number) in out.iter_mut().zip(numbers) {
        *copy = *number;
    }
}

/// Returns what prices show of the least cost, where so many trees of this reduced cost are taken.
fn bound_at(right: &[i64], prices: &[i128], heads: u32, reduced: i128) -> i128 {
    let mut bound = reduced.saturating_mul(i128::from(heads));
    for (side, price) in right.iter().zip(prices) {
        bound = bound.saturating_add(price.saturating_mul(i128::from(*side)));
    }
    bound
}

impl Path {
    /// Returns the begin of a path at prices in units of 2^-24; a row behind these has the price 0.
    ///
    /// # Errors
    ///
    /// `Memory` where memory runs out; nothing is kept then.
    pub(crate) fn new(
        alloc: Global,
        task: &NodeTask,
        start: Option<&[i128]>,
    ) -> Result<Path, Memory>
        requires { IsTask task.now }
        ensures { IfOk result (λ p. length p.asked.items ≡ row_count task.now) }
    {
        let lines = lines_of(alloc, task, start.unwrap_or(&[]))?;
        let asked = zeros(alloc, task.rows.right().len())?;
        let best = zeros(alloc, task.rows.right().len())?;
        let margin = cost_of_missing(lines.as_slice(), task.day.instance.cells.len()) / 5.0;
        Ok(Path {
            lines,
            asked,
            best,
            bound: None,
            pace: Pace::new(start.is_some(), margin),
        })
    }

    /// Asks at prices a step from the best ones; at the first row of the heads at one at which each tree is
    /// cheap.
    pub(crate) fn step(&mut self, rows: &NodeRows)
        ensures { length self.new.asked.items ≡ length self.old.asked.items }
    {
        let best = price_of(self.bound.unwrap_or(0));
        let squares = set_gaps(self.lines.as_mut_slice());
        let step = self.pace.step(best, squares);
        try_prices(self.lines.as_mut_slice(), step, self.asked.as_mut_slice());
        set_at(self.asked.as_mut_slice(), rows.first_head(), LIFT);
    }

    /// Takes the prices that were asked at for the best ones; those of the heads are what a tree leaves.
    fn keep(&mut self, rows: &NodeRows, reduced: i128)
        ensures { length self.new.asked.items ≡ length self.old.asked.items }
    {
        keep_prices(self.lines.as_mut_slice());
        copy_numbers(self.best.as_mut_slice(), self.asked.as_slice());
        let head = rows.first_head();
        set_at(self.best.as_mut_slice(), head, reduced.max(0));
        set_at(
            self.best.as_mut_slice(),
            head.saturating_add(1),
            reduced.min(0),
        );
    }

    /// Gives a tree with these entries its share of the mean.
    fn mix(&mut self, places: &[Place], heads: u32)
        ensures { length self.new.asked.items ≡ length self.old.asked.items }
    {
        let count = nearest_i64_to_f64(i64::from(heads));
        set_last(self.lines.as_mut_slice(), places, count);
        let share = self.pace.share(least_share(self.lines.as_slice()));
        mix_last(self.lines.as_mut_slice(), share);
    }

    /// Notes a bound at the prices that were asked at, where a tree of least cost leaves this.
    fn note_bound(&mut self, rows: &NodeRows, reduced: i128, bound: i128)
        ensures { length self.new.asked.items ≡ length self.old.asked.items }
    {
        if self.bound.is_none_or(|best| best < bound) {
            self.bound = Some(bound);
            self.pace.rose(rise_of(self.lines.as_slice()));
            self.keep(rows, reduced);
        } else {
            self.pace.stayed();
        }
    }

    /// Notes the tree of least reduced cost at the prices that were asked at, and says whether a further pass
    /// is worth its time.
    pub(crate) fn note(&mut self, task: &NodeTask, held: &Held) -> bool
        ensures { length self.new.asked.items ≡ length self.old.asked.items }
    {
        set_at(self.asked.as_mut_slice(), task.rows.first_head(), 0);
        let places = held.places.as_slice();
        let reduced = reduced_at(held.cost, places, self.asked.as_slice());
        let heads = if reduced < 0 {
            task.day.instance.heads_max
        } else {
            task.day.instance.heads_min
        };
        let bound = bound_at(task.rows.right(), self.asked.as_slice(), heads, reduced);
        self.mix(places, heads);
        self.note_bound(task.rows, reduced, bound);
        self.pace.count(price_of(self.bound.unwrap_or(0)))
    }

    /// Returns the best prices, in units of 2^-24, one for each row.
    ///
    /// # Errors
    ///
    /// `Memory` where memory runs out; nothing is kept then.
    pub(crate) fn list_prices(&self, alloc: Global) -> Result<List<i128>, Memory> {
        let mut prices = List::new(alloc);
        prices.extend_from_slice(self.best.as_slice())?;
        Ok(prices)
    }

    /// Returns the bound that they show, in units of 2^-24; 0 before the first pass.
    pub(crate) fn bound(&self) -> i128 {
        self.bound.unwrap_or(0)
    }

    /// Returns how many passes were taken.
    pub(crate) fn passes(&self) -> u32 {
        self.pace.passes
    }
}
