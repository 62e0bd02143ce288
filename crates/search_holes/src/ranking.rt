//! Which trees go from a roster first.

use crate::drawing::Draws;
use model_rosters::{Cell, Instance, Memory};
use search_hole_passes::{HoleRoster, HoleTree, short, weight, whole};
use std::alloc::Global;

/// How many values the noise has that is added to a rank.
const NOISES: u32 = 1_000;

/// What a cell in common, a period between, or a unit of cost counts beside the noise.
const STEP: i64 = 100;

/// What a cell of the chosen code counts, where another one counts 1.
const OWN_CODE: i64 = 3;

/// A hole reaches at least so many periods from a cell that costs, and by chance up to so many further ones.
const LEAST_REACH: u32 = 6;

const FURTHER_REACH: u32 = 20;

/// A cell's weight is counted up to this.
const MOST_WEIGHT: u64 = 1_000_000;

/// All weights are counted up to this.
const MOST_TOTAL: u64 = 1_000_000_000;

/// Which trees of a roster go.
#[derive(Clone, Copy, PartialEq, Eq, Drop)]
enum Mode {
    /// Any.
    Any,
    /// Those that work most where a drawn one works.
    Along,
    /// Those that begin or end nearest this period.
    Near(u8),
    /// Those that lose most against the prices.
    Dear,
    /// Those that work most near a cell that costs.
    Around,
}

/// A tree of a roster by its place, and how late it goes.
#[derive(Clone, Copy, Drop)]
struct Rank {
    late: i64,
    place: usize,
}

/// What it takes to choose which trees go.
#[derive(Drop)]
pub(crate) struct Ranking {
    /// What each cell counts.
    marks: Vec<i64>,
    ranks: Vec<Rank>,
    pub draws: Draws,
}

/// Returns what a cell's count weighs, up to a bound.
fn capped(cell: &Cell, count: u32) -> u64 {
    weight(cell, count).min(MOST_WEIGHT)
}

/// Returns what all counts weigh, up to a bound.
fn total_weight(cells: &[Cell], counts: &[u32]) -> u64 {
    let mut total = 0u64;
    for (cell, count) in cells.iter().zip(counts) {
        total = total.saturating_add(capped(cell, *count));
    }
    total.min(MOST_TOTAL)
}

/// Returns a drawn cell: one that costs, the sooner the more it costs, or any where none does.
fn drawn_cell(cells: &[Cell], counts: &[u32], draws: &mut Draws) -> Option<Cell> {
    let total = total_weight(cells, counts);
    if total == 0 {
        return cells.get(draws.below(short(cells.len())) as usize).copied();
    }
    let mut left = u64::from(draws.below(total.min(MOST_TOTAL) as u32));
    for (cell, count) in cells.iter().zip(counts) {
        let own = capped(cell, *count);
        if own > left {
            return Some(*cell);
        }
        left = left.saturating_sub(own);
    }
    cells.first().copied()
}

/// Returns what a cell counts near a chosen one, where a hole reaches so many periods.
fn mark_of(cell: &Cell, chosen: &Cell, reach: u32) -> i64 {
    let apart = u32::from(cell.period.abs_diff(chosen.period));
    if apart > reach {
        return 0;
    }
    let all = i64::from(reach).saturating_add(1);
    let near = all
        .saturating_sub(i64::from(apart))
        .saturating_mul(STEP)
        .checked_div(all)
        .unwrap_or(0);
    if cell.code == chosen.code {
        near.saturating_mul(OWN_CODE)
    } else {
        near
    }
}

/// Returns the sum of the marks of a tree's cells.
fn sum_of(tree: &HoleTree, marks: &[i64]) -> i64 {
    let mut sum = 0i64;
    for &cell in tree.cells.as_slice() {
        if let Some(mark) = marks.get(cell as usize) {
            sum = sum.saturating_add(*mark);
        }
    }
    sum
}

/// Returns how far a tree's first or last period at work is from a period.
fn nearness(cells: &[Cell], tree: &HoleTree, period: u8) -> i64 {
    let mut first = 255u8;
    let mut last = 0u8;
    for &place in tree.cells.as_slice() {
        if let Some(cell) = cells.get(place as usize) {
            first = first.min(cell.period);
            last = last.max(cell.period);
        }
    }
    i64::from(first.abs_diff(period).min(last.abs_diff(period)))
}

/// Returns how late a tree goes, with a drawn noise.
fn late_of(mode: Mode, cells: &[Cell], tree: &HoleTree, marks: &[i64], noise: i64) -> i64 {
    match mode {
        Mode::Any => noise,
        Mode::Along => noise.saturating_sub(sum_of(tree, marks)),
        Mode::Near(period) => nearness(cells, tree, period)
            .saturating_mul(STEP)
            .saturating_add(noise / 4),
        Mode::Dear => {
            let cost = i64::try_from(tree.cost).unwrap_or(i64::MAX);
            noise
                .saturating_mul(2)
                .saturating_sub(cost.saturating_mul(STEP))
                .saturating_sub(sum_of(tree, marks))
        }
        Mode::Around => (noise / 2).saturating_sub(sum_of(tree, marks)),
    }
}

impl Ranking {
    /// Returns what it takes on a day.
    ///
    /// # Errors
    ///
    /// `Memory` where memory runs out.
    pub(crate) fn new(alloc: Global, instance: &Instance) -> Result<Ranking, Memory> {
        Ok(Ranking {
            marks: vec![in alloc; 0i64; instance.cells.len()]?,
            ranks: Vec::new(alloc),
            draws: Draws::of_turn(0),
        })
    }

    /// Marks the cells near one that costs.
    fn mark_near(&mut self, cells: &[Cell], counts: &[u32]) {
        let Some(chosen) = drawn_cell(cells, counts, &mut self.draws) else {
            return;
        };
        let reach = LEAST_REACH.saturating_add(self.draws.below(FURTHER_REACH));
        for (cell, mark) in cells.iter().zip(self.marks.as_mut_slice().iter_mut()) {
            *mark = mark_of(cell, &chosen, reach);
        }
    }

    /// Marks the cells of a drawn tree.
    fn mark_tree(&mut self, roster: &HoleRoster) {
        let place = self.draws.below(short(roster.trees.len()));
        let Some(tree) = roster.trees.as_slice().get(place as usize) else {
            return;
        };
        for &cell in tree.cells.as_slice() {
            if let Some(mark) = self.marks.as_mut_slice().get_mut(cell as usize) {
                *mark = STEP;
            }
        }
    }

    /// Marks each cell by what an employee there loses against its price.
    fn mark_losses(&mut self, cells: &[Cell], counts: &[u32], prices: &[f64]) {
        let known = cells.iter().zip(counts.iter().zip(prices));
        for ((cell, (count, price)), mark) in known.zip(self.marks.as_mut_slice().iter_mut()) {
            let over = if *count > cell.need {
                i64::from(cell.over).saturating_mul(STEP)
            } else {
                0
            };
            *mark = over.saturating_sub(whole(*price * 100.0));
        }
    }

    /// Draws which trees go, and marks the cells for it. Half of all holes lie round a cell that costs.
    fn draw_mode(&mut self, instance: &Instance, prices: &[f64], roster: &HoleRoster) -> Mode {
        let cells = instance.cells.as_slice();
        let counts = roster.counts.as_slice();
        self.marks.as_mut_slice().fill(0);
        match self.draws.below(8) {
            0 => Mode::Any,
            1 => {
                self.mark_tree(roster);
                Mode::Along
            }
            2 => {
                let period = self.draws.below(u32::from(instance.grammar.periods));
                Mode::Near(period.saturating_add(1).min(255) as u8)
            }
            3 => {
                self.mark_losses(cells, counts, prices);
                Mode::Dear
            }
            _ => {
                self.mark_near(cells, counts);
                Mode::Around
            }
        }
    }

    /// Ranks the trees of a roster by how late they go.
    fn rank(
        &mut self,
        instance: &Instance,
        prices: &[f64],
        roster: &HoleRoster,
    ) -> Result<(), Memory> {
        let mode = self.draw_mode(instance, prices, roster);
        let cells = instance.cells.as_slice();
        self.ranks.clear();
        for (place, tree) in roster.trees.as_slice().iter().enumerate() {
            let noise = i64::from(self.draws.below(NOISES));
            let late = late_of(mode, cells, tree, self.marks.as_slice(), noise);
            self.ranks.push(Rank { late, place })?;
        }
        self.ranks
            .sort_unstable_by_key(|rank| (rank.late, rank.place));
        Ok(())
    }

    /// Takes so many trees out of a roster, into a list.
    ///
    /// # Errors
    ///
    /// `Memory` where memory runs out.
    pub(crate) fn take_out(
        &mut self,
        instance: &Instance,
        prices: &[f64],
        count: usize,
        roster: &mut HoleRoster,
        gone: &mut Vec<HoleTree>,
    ) -> Result<(), Memory> {
        self.rank(instance, prices, roster)?;
        // The places go from the last one down, so that a swap with the last tree moves none that is to go.
        self.ranks.truncate(count);
        self.ranks.sort_unstable_by_key(|rank| rank.place);
        for rank in self.ranks.as_slice().iter().rev() {
            if let Some(tree) = roster.take(rank.place) {
                gone.push(tree)?;
            }
        }
        Ok(())
    }
}
