//! Tables of programs with their values, prices and weights, or why they are given up.
//!
//! Three tables of programs with their values, prices, basic columns and weights, or why they are given up:
//! pairs of rows, also with right sides of 0 and equal ratios; budgets of 0 and 2 pivots; entries above 1
//! with costs above 2^39, and a value above 2^56 at the start; the count that rises with a refusal; and pairs
//! that are to stop, at once or before the turn that would be their last.

ghost use Rattle.std.specs.Prelude.{◌≡◌};

use crate::listed::{ColumnParts, Listed, program_of};
use crate::sound::is_sound;
use lp_fractions::{Frac, Tally};
use lp_tableaus::{Basic, LpEnd, LpFault, solve};
use std::alloc::Global;
use std::test::Fail;

/// How a program ends.
#[derive(Clone, Copy, Drop)]
enum Answer {
    End(End),
    Wide,
    Spent,
}

/// A value with its denominator, the prices of the rows, and the basic columns with their weights,
/// that of the last row first.
#[derive(Clone, Copy, Drop)]
struct End {
    value: (i128, i128),
    prices: [i128; 3],
    basic: &'static [(usize, (i128, i128)); 3],
}

/// A program of three rows, whose unit columns have one cost, and its answer.
#[derive(Clone, Copy, Drop)]
struct Row {
    right: [i64; 3],
    cost: i64,
    columns: &'static [ColumnParts],
    pivots: u32,
    answer: Answer,
}

const PAIRS: [ColumnParts; 3] = [(2, [1, 1, 0]), (2, [0, 1, 1]), (2, [1, 0, 1])];

/// One in each row, by pairs of rows at 2.
const PAIR_ROW: Row = Row {
    right: [1, 1, 1],
    cost: 10,
    columns: &PAIRS,
    pivots: 100,
    answer: Answer::End(End {
        value: (3, 1),
        prices: [1, 1, 1],
        basic: &[(5, (1, 2)), (4, (1, 2)), (3, (1, 2))],
    }),
};

/// The same with right sides of 0. The first two rows have equal ratios at the first step, and the
/// column that enters there leaves again at the third.
const ZERO_ROW: Row = Row {
    right: [0, 0, 1],
    answer: Answer::End(End {
        value: (10, 1),
        prices: [-8, -8, 10],
        basic: &[(2, (1, 1)), (4, (0, 1)), (5, (0, 1))],
    }),
    ..PAIR_ROW
};

const LARGE: [ColumnParts; 3] = [
    (1, [(1 << 61) - 1, 0, 0]),
    (1, [0, 1 << 61, 0]),
    (1, [0, 0, (1 << 61) + 1]),
];

static FOUND: [Row; 2] = [PAIR_ROW, ZERO_ROW];

/// Programs whose pivots run out.
static SPENT: [Row; 2] = [
    Row {
        pivots: 2,
        answer: Answer::Spent,
        ..PAIR_ROW
    },
    Row {
        pivots: 0,
        answer: Answer::Spent,
        ..PAIR_ROW
    },
];

/// Programs whose numbers are too wide.
static WIDE: [Row; 2] = [
    // Entries above 1, and costs of units above 2^39.
    Row {
        cost: 1 << 40,
        columns: &LARGE,
        answer: Answer::Wide,
        ..PAIR_ROW
    },
    // A value above 2^56 at the start.
    Row {
        right: [0, 1 << 20, 0],
        cost: 1 << 39,
        answer: Answer::Wide,
        ..PAIR_ROW
    },
];

/// Says whether a price of a row is this one.
fn is_price(number: i128, kappa: i128, price: i128) -> bool {
    kappa.checked_mul(price) == Some(number)
}

fn has_prices(numbers: &[i128], kappa: i128, prices: [i128; 3]) -> bool {
    let [first, second, third] = numbers else {
        return false;
    };
    is_price(*first, kappa, prices[0])
        && is_price(*second, kappa, prices[1])
        && is_price(*third, kappa, prices[2])
}

fn is_fraction(fraction: Frac, (num, den): (i128, i128)) -> bool {
    fraction.num() == num && fraction.den() == den
}

fn is_basic(basic: Basic, (column, weight): (usize, (i128, i128))) -> bool {
    basic.col == column && is_fraction(basic.x, weight)
}

fn has_basic(basic: &[Basic], expected: &[(usize, (i128, i128)); 3]) -> bool {
    let [first, second, third] = basic else {
        return false;
    };
    is_basic(*first, expected[0]) && is_basic(*second, expected[1]) && is_basic(*third, expected[2])
}

/// Says whether the end of a path is this one.
fn is_end(end: &LpEnd, expected: End) -> bool {
    is_fraction(end.value, expected.value)
        && has_prices(end.y.as_slice(), end.kappa, expected.prices)
        && has_basic(end.basic.as_slice(), expected.basic)
}

/// Says whether an answer is that of the row, and whether the refusals that it comes from were counted.
fn is_answer(row: &Row, answer: &Result<LpEnd, LpFault>, counts: (u64, u64)) -> bool {
    match (answer, row.answer) {
        (Ok(end), Answer::End(expected)) => is_end(end, expected) && counts == (0, 0),
        (Err(LpFault::Wide(_)), Answer::Wide) => counts == (1, 0),
        (Err(LpFault::Spent { pivots }), Answer::Spent) => *pivots == row.pivots
            && counts == (0, 1),
        _ => false,
    }
}

/// Solves the program of a row, and says whether its answer comes.
fn is_solved(alloc: Global, row: &Row, program: &mut Listed) -> Result<bool, Fail>
    requires { program.old.right ≡ row.now.right }
{
    if !is_sound(program) {
        return Err(Fail::from("no sound program"));
    }
    let mut tally = Tally::new();
    let answer = solve(alloc, program, &row.right, row.pivots, &mut tally);
    Ok(is_answer(row, &answer, (tally.wide(), tally.spent())))
}

/// Says whether the program of a row stops where it is to stop behind so many turns, with no refusal counted.
fn stops(alloc: Global, row: &Row, turns: u32) -> Result<bool, Fail> {
    let mut program = program_of(alloc, row.right, row.cost, row.columns)?;
    program.goes_on.set(Some(turns));
    if program.right != row.right || !is_sound(&program) {
        return Err(Fail::from("no sound program"));
    }
    let mut tally = Tally::new();
    let answer = solve(alloc, &mut program, &row.right, row.pivots, &mut tally);
    drop(program);
    let is_stopped = matches!(answer, Err(LpFault::Stopped));
    Ok(is_stopped && tally.wide() == 0 && tally.spent() == 0)
}

/// Says whether the answer to a row comes.
fn is_answered(alloc: Global, row: &Row) -> Result<bool, Fail> {
    let mut program = program_of(alloc, row.right, row.cost, row.columns)?;
    is_solved(alloc, row, &mut program)
}

/// Says whether each answer comes.
fn are_answered(alloc: Global, rows: &[Row]) -> Result<bool, Fail> {
    for row in rows {
        if !is_answered(alloc, row)? {
            return Ok(false);
        }
    }
    Ok(true)
}

#[test]
fn programs_with_an_end(rt: HostRuntime) -> Result<(), Fail> {
    assert!(rt; are_answered(rt.alloc(), &FOUND)?);
    Ok(())
}

#[test]
fn programs_whose_pivots_run_out(rt: HostRuntime) -> Result<(), Fail> {
    assert!(rt; are_answered(rt.alloc(), &SPENT)?);
    Ok(())
}

// All three pairs become basic, each at a turn of its own; then a further turn shows that no column has a
// negative reduced cost.
#[test]
fn programs_that_are_to_stop(rt: HostRuntime) -> Result<(), Fail> {
    assert!(rt; stops(rt.alloc(), &PAIR_ROW, 0)?);
    assert!(rt; stops(rt.alloc(), &PAIR_ROW, 3)?);
    assert!(rt; !stops(rt.alloc(), &PAIR_ROW, 100)?);
    Ok(())
}

#[test]
fn programs_of_wide_numbers(rt: HostRuntime) -> Result<(), Fail> {
    assert!(rt; are_answered(rt.alloc(), &WIDE)?);
    Ok(())
}
