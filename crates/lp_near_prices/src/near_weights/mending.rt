//! Passes that raise and lower weights until rows hold.

use crate::near_weights::table::{RowBalance, Table, Weighted};

/// The most passes over the rows; the last one lowers.
const PASSES: u32 = 40;

/// From this pass on no tree is raised where that harms another row.
const CAREFUL: u32 = 31;

/// What is done to trees in a pass over the rows.
#[derive(Clone, Copy, Drop)]
struct Pass {
    /// Whether trees of short rows are raised; else trees of exceeded rows are lowered.
    is_raising: bool,
    /// Whether only what harms no row is done.
    is_careful: bool,
}

impl Pass {
    /// Returns the pass with this number.
    fn at(number: u32) -> Pass {
        let is_raising = number % 2 == 0;
        Pass {
            is_raising,
            is_careful: is_raising && number >= CAREFUL,
        }
    }

    /// Returns by how much a tree is raised or lowered in a row that is off by so much.
    fn amount(self, off: i128, tree: &Weighted) -> i128 {
        if self.is_raising {
            off
        } else {
            off.min(tree.weight)
        }
    }
}

/// A tree that may be raised or lowered.
#[derive(Clone, Copy, Drop)]
struct Choice {
    place: usize,
    weight: i128,
    amount: i128,
    /// How many rows it harms.
    harm: u32,
}

impl Choice {
    /// Whether it harms fewer rows than another one, or as many and has more weight.
    fn is_better(&self, other: &Choice) -> bool {
        self.harm < other.harm || (self.harm == other.harm && self.weight > other.weight)
    }

    /// Returns the better of the best one so far and this one, the first of equal ones.
    fn best(self, so_far: Option<Choice>) -> Option<Choice> {
        match so_far {
            Some(best) if !self.is_better(&best) => Some(best),
            _ => Some(self),
        }
    }
}

/// Whether a row is among these.
fn is_among(rows: &[u32], row: usize) -> bool {
    rows.iter().any(|one| *one as usize == row)
}

/// Whether a step in the row with this number harms it.
fn is_harmed(lines: &[RowBalance], row: u32, is_raising: bool, amount: i128) -> bool {
    match lines.get(row as usize) {
        Some(line) => line.is_harmed(is_raising, amount),
        None => false,
    }
}

/// Returns how many of these rows a step harms.
fn harm_of(lines: &[RowBalance], rows: &[u32], is_raising: bool, amount: i128) -> u32 {
    let mut harm = 0u32;
    for row in rows {
        if is_harmed(lines, *row, is_raising, amount) {
            harm = harm.saturating_add(1);
        }
    }
    harm
}

impl Table {
    /// Returns what a tree does to a row that is off by so much, if it does anything.
    fn choice(
        &self,
        pass: Pass,
        row: usize,
        off: i128,
        place: usize,
        tree: &Weighted,
    ) -> Option<Choice> {
        let rows = self.rows_of(tree);
        let amount = pass.amount(off, tree);
        if amount <= 0 || !is_among(rows, row) {
            return None;
        }
        Some(Choice {
            place,
            weight: tree.weight,
            amount,
            harm: harm_of(self.lines.as_slice(), rows, pass.is_raising, amount),
        })
    }

    /// Returns the tree that mends a row which is off by so much and harms fewest rows.
    fn best_choice(&self, pass: Pass, row: usize, off: i128) -> Option<Choice> {
        let mut best: Option<Choice> = None;
        for (place, tree) in self.trees.as_slice().iter().enumerate() {
            if let Some(choice) = self.choice(pass, row, off, place, tree) {
                best = choice.best(best);
            }
        }
        best
    }

    /// Takes one step to mend a row. Says whether there was one.
    fn mend_once(&mut self, pass: Pass, row: usize) -> bool {
        let Some(line) = self.lines.as_slice().get(row) else {
            return false;
        };
        if !line.is_mended(pass.is_raising) {
            return false;
        }
        let Some(choice) = self.best_choice(pass, row, line.off(pass.is_raising)) else {
            return false;
        };
        if pass.is_careful && choice.harm > 0 {
            return false;
        }
        if pass.is_raising {
            self.change(choice.place, choice.amount);
        } else {
            self.change(choice.place, 0i128.saturating_sub(choice.amount));
        }
        true
    }

    /// Mends a row. Says whether a weight changed.
    fn mend_row(&mut self, pass: Pass, row: usize) -> bool {
        let mut has_changed = false;
        for _step in 0..self.trees.len() {
            if !self.mend_once(pass, row) {
                break;
            }
            has_changed = true;
        }
        has_changed
    }

    /// Mends all rows once. Says whether a weight changed.
    fn mend_all(&mut self, pass: Pass) -> bool {
        let mut has_changed = false;
        for row in 0..self.lines.len() {
            has_changed |= self.mend_row(pass, row);
        }
        has_changed
    }

    /// Changes weights so that no row that asks at most its right side is exceeded, and little is missing in
    /// those that ask at least theirs: trees of short rows are raised and trees of exceeded rows lowered,
    /// pass by pass, the tree first that harms fewest rows of the other kind.
    pub(crate) fn mend(&mut self) {
        for number in 0..PASSES {
            let has_changed = self.mend_all(Pass::at(number));
            if !has_changed && number > 0 {
                break;
            }
        }
    }
}
