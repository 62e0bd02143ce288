//! What the volume algorithm knows of cells.

use model_rosters::Cell;
use search_hole_passes::{bounded, greater, of_count};

/// What a count out of its cell's range costs further.
const RANGE: f64 = 1_000.0;

/// A cell as the volume algorithm sees it.
#[derive(Clone, Copy, Drop)]
pub struct CellState {
    /// How many employees are needed still.
    pub need: f64,
    /// The least price, and the greatest one.
    pub low: f64,
    pub high: f64,
    /// The price at which most is shown.
    pub best: f64,
    /// The price that is tried.
    pub tried: f64,
    /// How many work there in the mean of the trees.
    pub mean: f64,
    /// How many work there by the last trees.
    pub last: f64,
    /// How many lack in the mean, 0 where the price cannot follow.
    pub gap: f64,
}

/// Returns a cell of which nothing is known.
pub fn blank_cell() -> CellState {
    CellState {
        need: 0.0,
        low: 0.0,
        high: 0.0,
        best: 0.0,
        tried: 0.0,
        mean: 0.0,
        last: 0.0,
        gap: 0.0,
    }
}

/// Returns a cell where so many work already, at a price.
pub fn begun_cell(cell: &Cell, count: u32, price: f64) -> CellState {
    let mut state = blank_cell();
    state.need = of_count(cell.need) - of_count(count);
    state.low = 0.0 - of_count(cell.over);
    state.high = of_count(cell.under);
    if count < cell.floor {
        state.high += RANGE;
    }
    if count >= cell.ceiling {
        state.low -= RANGE;
    }
    state.best = state.lawful(price);
    state
}

impl CellState {
    /// Returns the lawful price next to a price: the least one where no more are needed.
    pub fn lawful(&self, price: f64) -> f64 {
        if self.need <= 0.0 {
            self.low
        } else {
            bounded(price, self.low, self.high)
        }
    }

    /// Sets how many lack in the mean.
    fn set_gap(&mut self) {
        let lack = self.need - self.mean;
        let is_stopped = self.need <= 0.0
            || (lack > 0.0 && self.best >= self.high)
            || (lack < 0.0 && self.best <= self.low);
        self.gap = if is_stopped { 0.0 } else { lack };
    }

    /// Takes one employee off what is needed.
    pub fn fix(&mut self) {
        self.need -= 1.0;
        self.mean = greater(self.mean - 1.0, 0.0);
        if self.need <= 0.0 {
            self.best = self.low;
        }
    }
}

/// Sets how many lack in the mean at each cell, and returns the sum of the squares.
pub fn set_gaps(states: &mut [CellState]) -> f64 {
    let mut squares = 0.0;
    for state in states {
        state.set_gap();
        squares += state.gap * state.gap;
    }
    squares
}

/// Tries the prices that lie a step along the gaps from the best ones.
pub fn step_along(states: &mut [CellState], step: f64, gains: &mut [f64]) {
    for (state, gain) in states.iter_mut().zip(gains.iter_mut()) {
        state.tried = state.lawful(state.best + step * state.gap);
        *gain = state.tried;
    }
}

/// Tries the best prices.
pub fn try_best(states: &mut [CellState], gains: &mut [f64]) {
    for (state, gain) in states.iter_mut().zip(gains.iter_mut()) {
        state.tried = state.best;
        *gain = state.best;
    }
}

/// Makes the tried prices the best ones.
pub fn keep_tried(states: &mut [CellState]) {
    for state in states {
        state.best = state.tried;
    }
}

/// Returns what all that is needed is worth at the tried prices.
pub fn worth(states: &[CellState]) -> f64 {
    let mut worth = 0.0;
    for state in states {
        worth += state.need * state.tried;
    }
    worth
}

/// Leaves a share of the mean.
pub fn shrink(states: &mut [CellState], share: f64) {
    for state in states {
        state.mean *= share;
    }
}

/// Adds so many employees to the mean at these cells.
pub fn add_to_mean(states: &mut [CellState], cells: &[u32], weight: f64) {
    for &cell in cells {
        if let Some(state) = states.get_mut(cell as usize) {
            state.mean += weight;
        }
    }
}

/// Forgets how many work by the last trees.
pub fn clear_last(states: &mut [CellState]) {
    for state in states {
        state.last = 0.0;
    }
}

/// Adds so many employees to the last ones at these cells.
pub fn add_to_last(states: &mut [CellState], cells: &[u32], heads: f64) {
    for &cell in cells {
        if let Some(state) = states.get_mut(cell as usize) {
            state.last += heads;
        }
    }
}

/// Returns the share of the last trees in the next mean that brings it nearest to what is needed, within 0.01
/// and 0.1.
pub fn share(states: &[CellState]) -> f64 {
    let mut product = 0.0;
    let mut square = 0.0;
    for state in states {
        if state.need > 0.0 {
            let change = state.last - state.mean;
            product += (state.need - state.mean) * change;
            square += change * change;
        }
    }
    if square > 0.0 {
        bounded(product / square, 0.01, 0.1)
    } else {
        0.1
    }
}

/// Says whether what is shown rises further along the gaps.
pub fn rises(states: &[CellState]) -> bool {
    let mut rise = 0.0;
    for state in states {
        rise += (state.need - state.last) * state.gap;
    }
    rise >= 0.0
}
