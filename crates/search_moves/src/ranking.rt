//! Which trees a move takes away.

ghost use Rattle.std.specs.Prelude.{◌<◌, All, length};

use crate::blending::PARTS;
use crate::counts::works;
use crate::drawing::Draws;
use model_rosters::{Cell, Instance, Memory};
use tree_pool::Pool;

/// How many values the noise has that is added to a rank.
const NOISES: usize = 1_000;

/// What a cell in common, a period between, or a unit of cost counts beside the noise.
const STEP: i64 = 100;

/// Which trees of a roster go.
#[derive(Clone, Copy, Drop)]
pub(crate) enum Mode {
    /// Any.
    Any,
    /// Those that work most where this tree of the pool works.
    Overlapping(usize),
    /// Those that begin or end nearest this period.
    Near(u8),
    /// Those that lose most against the node's prices.
    Dear,
}

/// A tree of a roster, and how late it goes.
#[derive(Clone, Copy, Drop)]
pub(crate) struct Rank {
    pub late: i64,
    pub column: usize,
}

/// What a word has at the cells where it works.
#[derive(Clone, Copy, Drop)]
struct Tally {
    /// The values of these cells.
    sum: i64,
    /// The first period and the last one.
    first: u8,
    last: u8,
}

/// Draws which trees of a roster go.
pub(crate) fn drawn_mode(draws: &mut Draws, instance: &Instance, columns: &[usize]) -> Mode
    requires { 0 < length columns.now }
{
    let periods = (instance.grammar.periods as usize).max(1);
    match draws.below(4) {
        0 => Mode::Any,
        1 => Mode::Overlapping(
            columns
                .get(draws.below(columns.len()))
                .copied()
                .unwrap_or(0),
        ),
        2 => Mode::Near(draws.below(periods).saturating_add(1).min(255) as u8),
        _ => Mode::Dear,
    }
}

/// Sets the value of each cell to 1 where a word of these codes works, and else to 0.
fn set_common(cells: &[Cell], codes: &[u8], values: &mut [i64]) {
    for (cell, value) in cells.iter().zip(values.iter_mut()) {
        *value = i64::from(works(codes, cell));
    }
}

/// Sets the value of each cell, where so many work, to what an employee there loses: what a further one
/// costs, less the node's price; both in sixteenths.
fn set_losses(cells: &[Cell], counts: &[u32], worths: &[i64], values: &mut [i64]) {
    let known = counts.iter().zip(worths);
    for ((cell, value), (count, worth)) in cells.iter().zip(values.iter_mut()).zip(known) {
        let over = if *count > cell.need {
            i64::from(cell.over).saturating_mul(PARTS)
        } else {
            0
        };
        *value = over.saturating_sub(*worth);
    }
}

/// Sets the values of the cells by which trees go.
pub(crate) fn set_values(
    cells: &[Cell],
    pool: &Pool,
    counts: &[u32],
    worths: &[i64],
    mode: Mode,
    values: &mut [i64],
) {
    match mode {
        Mode::Overlapping(column) if column < pool.len() => {
            set_common(cells, pool.codes(column), values);
        }
        Mode::Dear => set_losses(cells, counts, worths, values),
        _ => {}
    }
}

/// Tells what a word of these codes has at the cells, which have these values.
fn tally_of(cells: &[Cell], codes: &[u8], values: &[i64]) -> Tally {
    let mut tally = Tally {
        sum: 0,
        first: 255,
        last: 0,
    };
    for (cell, value) in cells.iter().zip(values) {
        if works(codes, cell) {
            tally.sum = tally.sum.saturating_add(*value);
            tally.first = tally.first.min(cell.period);
            tally.last = tally.last.max(cell.period);
        }
    }
    tally
}

/// Returns how late a word with this tally goes whose tree costs so much, without noise.
fn late_of(mode: Mode, tally: Tally, cost: u32) -> i64 {
    match mode {
        Mode::Any => 0,
        Mode::Overlapping(_) => tally.sum.saturating_mul(-STEP),
        Mode::Near(period) => {
            let begin = tally.first.abs_diff(period);
            let end = tally.last.abs_diff(period);
            i64::from(begin.min(end)).saturating_mul(STEP)
        }
        Mode::Dear => {
            let loss = i64::from(cost)
                .saturating_mul(PARTS)
                .saturating_add(tally.sum);
            (loss / PARTS).saturating_mul(-STEP)
        }
    }
}

/// Returns a drawn number by how much earlier or later a tree goes.
fn noise_of(mode: Mode, draws: &mut Draws) -> i64 {
    let noise = draws.below(NOISES) as i64;
    match mode {
        Mode::Any | Mode::Overlapping(_) => noise,
        Mode::Near(_) => noise / 4,
        Mode::Dear => noise.saturating_mul(2),
    }
}

/// Lists these trees of the pool by how late they go, the first ones first.
///
/// # Errors
///
/// `Memory` where memory runs out; nothing is said of the ranks then.
pub(crate) fn list_ranks(
    cells: &[Cell],
    pool: &Pool,
    columns: &[usize],
    mode: Mode,
    values: &[i64],
    draws: &mut Draws,
    ranks: &mut Vec<Rank>,
) -> Result<(), Memory>
    requires columns { All (λ c. c < length pool.now) columns.now }
{
    ranks.clear();
    for &column in columns {
        let tally = tally_of(cells, pool.codes(column), values);
        let late = late_of(mode, tally, pool.cost(column)).saturating_add(noise_of(mode, draws));
        ranks.push(Rank { late, column })?;
    }
    ranks.sort_unstable_by_key(|rank| (rank.late, rank.column));
    Ok(())
}
