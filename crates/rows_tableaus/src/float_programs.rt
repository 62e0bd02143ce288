//! Float programs over three shifts, over four by thirds, and over nested rows that grow.
//!
//! Three shifts over three periods, two periods each: half of each costs 3, from either start, with the right
//! sides perturbed and settled, and from a start with a column twice, with one that is not listed and with
//! one that the program does not have; 4 where the first shift is cut off, or asked for. Four shifts of three
//! of four periods by thirds: values, prices and products with the inverse, and the same with tighter
//! tolerances. A price at the true cost of what is missing. 40 nested rows in which each column takes 1 from
//! all later rows, so that the values double from row to row: as a start it grew, and a run from another
//! start grew too.

ghost use Rattle.std.specs.Prelude.{◌≡◌};
ghost use Rattle.lp_float_programs.specs.Sizes.{row_count};

use lp_float_programs::{FloatProgram, FloatSolved, Grown, Key, LastRow, Limits, Sign};
use model_rosters::Memory;
use search_watch::SteadyWatch;
use std::alloc::Global;

/// The number 1 in units of 2^-32.
const ONE: i64 = 4_294_967_296;

/// What stands for the cost of a column that no solution should have.
const DEAR: i64 = 131_072;

/// Steps enough for these programs.
pub(crate) const LIMITS: Limits = Limits {
    dual: 300,
    primal: 300,
};

/// Lists a column with an entry 1 in each of these rows.
fn list(float_program: &mut FloatProgram, cost: i64, rows: &[u32]) -> Result<(), Memory> {
    let _number = float_program.add_column(cost)?;
    for row in rows {
        float_program.add_entry(*row, Sign::Plus)?;
    }
    Ok(())
}

/// Lists columns, each with its cost and its rows.
fn list_all(float_program: &mut FloatProgram, columns: &[(i64, &[u32])]) -> Result<(), Memory> {
    for (cost, rows) in columns {
        list(float_program, *cost, rows)?;
    }
    Ok(())
}

/// Returns the master of three shifts over three periods, two periods each at a cost of 2. A missing
/// employee costs 10, and there are at most 3. The last row is empty.
pub(crate) fn three_shifts(alloc: Global) -> Result<FloatProgram, Memory> {
    let right = [1, 1, 1, 0, 3, 0];
    let missing = [10, 10, 10, DEAR, 0, 0];
    let beyond = [Some(0), Some(0), Some(0), Some(0), None, None];
    let mut float_program = FloatProgram::new(alloc, &right, &missing, &beyond)?;
    list_all(
        &mut float_program,
        &[(2, &[0, 1, 3, 4]), (2, &[1, 2, 3, 4]), (2, &[0, 2, 3, 4])],
    )?;
    Ok(float_program)
}

/// Whether a value is this whole number, within 2^-16.
pub(crate) fn is_about(value: i128, whole: i64) -> bool {
    let wanted = i128::from(whole.saturating_mul(ONE));
    value.saturating_sub(wanted).unsigned_abs() <= 65_536
}

/// A start with a column twice, with one that is not listed, and with one that the program does not have.
const NO_BASIS: [Key; 8] = [
    Key::Listed(0),
    Key::Listed(0),
    Key::Listed(99),
    Key::Missing(77),
    Key::Beyond(4),
    Key::Missing(0),
    Key::Missing(1),
    Key::Missing(3),
];

/// Whether a run from here ends at a cost of 3.
pub(crate) fn costs_three(float_program: &mut FloatProgram) -> bool {
    float_program.run(LIMITS, &SteadyWatch) == FloatSolved::Optimal
        && is_about(float_program.value(), 3)
}

/// Whether it costs 3 with the right sides settled too, by halves of shifts.
fn costs_three_settled(float_program: &mut FloatProgram) -> bool {
    float_program.settle(LIMITS, &SteadyWatch) == FloatSolved::Optimal
        && is_about(float_program.value(), 3)
        && float_program
            .values()
            .iter()
            .any(|value| value.raw() == ONE / 2)
}

/// Whether each start leads to that cost.
pub(crate) fn costs_three_from_each(float_program: &mut FloatProgram) -> bool {
    float_program.start_beyond().is_ok()
        && costs_three(float_program)
        && costs_three_settled(float_program)
        && float_program.start_missing().is_ok()
        && costs_three(float_program)
        && float_program.start(&NO_BASIS).is_ok()
        && costs_three(float_program)
}

#[test]
fn three_halves_cost_3(rt: HostRuntime) {
    let mut float_program = three_shifts(rt.alloc()).expect(&rt, "memory");
    let are_halves = costs_three_from_each(&mut float_program);
    drop(float_program);
    assert!(rt; are_halves);
}

/// Whether a program that starts with slacks is solved.
fn is_solved(float_program: &mut FloatProgram) -> bool {
    float_program.start_beyond().is_ok()
        && float_program.run(LIMITS, &SteadyWatch) == FloatSolved::Optimal
}

/// Whether a program that was solved costs 4 with this last row.
fn costs_four(probe: &mut FloatProgram, solved: &FloatProgram, row: LastRow) -> Result<bool, Memory>
    requires { row_count probe.old ≡ row_count solved.now }
    ensures { row_count probe.new ≡ row_count probe.old }
{
    let copied = probe.copy_with_row(solved, row, &[true])?;
    Ok(
        copied.is_ok()
            && probe.run(LIMITS, &SteadyWatch) == FloatSolved::Optimal
            && is_about(probe.value(), 4),
    )
}

/// Whether it does where the first column is left out, and where it is taken once.
fn both_cost_four(probe: &mut FloatProgram, solved: &FloatProgram) -> Result<bool, Memory> {
    if probe.rows() != solved.rows() {
        return Ok(false);
    }
    let none = LastRow {
        right: 0,
        missing: 0,
        beyond: None,
    };
    let one = LastRow {
        right: 1,
        missing: DEAR,
        beyond: Some(0),
    };
    Ok(costs_four(probe, solved, none)? && costs_four(probe, solved, one)?)
}

/// Whether the three shifts cost 4 on both sides of a cut, in a program beside the one that was solved.
fn three_cost_four(alloc: Global, solved: &FloatProgram) -> Result<bool, Memory> {
    let mut probe = three_shifts(alloc)?;
    let four = both_cost_four(&mut probe, solved);
    drop(probe);
    four
}

#[test]
fn both_sides_of_a_cut_cost_4(rt: HostRuntime) {
    let mut float_program = three_shifts(rt.alloc()).expect(&rt, "memory");
    let solved = is_solved(&mut float_program);
    let four = three_cost_four(rt.alloc(), &float_program);
    drop(float_program);
    assert!(rt; solved);
    assert!(rt; four.expect(&rt, "memory"));
}

/// Lists 40 columns, each of which takes 1 from all later rows.
fn list_nested(float_program: &mut FloatProgram) -> Result<(), Memory> {
    for row in 0..40u32 {
        let _number = float_program.add_column(0)?;
        float_program.add_entry(row, Sign::Plus)?;
        for later in row + 1..40 {
            float_program.add_entry(later, Sign::Minus)?;
        }
    }
    Ok(())
}

/// Returns a program of 40 rows in which each column takes 1 from all later rows: the values of the
/// columns double from row to row.
fn nested(alloc: Global) -> Result<FloatProgram, Memory> {
    let right = [1; 40];
    let missing = [DEAR; 40];
    let beyond = [None; 40];
    let mut float_program = FloatProgram::new(alloc, &right, &missing, &beyond)?;
    list_nested(&mut float_program)?;
    Ok(float_program)
}

/// Whether all columns grow as a start, and a run from another start does.
fn grows(float_program: &mut FloatProgram) -> bool {
    let mut keys = [Key::Listed(0); 40];
    for (number, key) in keys.iter_mut().enumerate() {
        *key = Key::Listed(number);
    }
    float_program.start(&keys) == Err(Grown)
        && float_program.start_missing().is_ok()
        && float_program.run(LIMITS, &SteadyWatch) == FloatSolved::Grew
}

#[test]
fn nested_rows_grow(rt: HostRuntime) {
    let mut float_program = nested(rt.alloc()).expect(&rt, "memory");
    let has_grown = grows(&mut float_program);
    drop(float_program);
    assert!(rt; has_grown);
}

/// The number 1 in units of 2^-40.
const PRICE_ONE: i128 = 1 << 40;

/// How far refined numbers may be off: 2^-50 in units of 2^-56, and 2^-34 in units of 2^-40.
const NEAR: u128 = 64;

/// Whether a refined number is this one, as far as it may be off.
fn is_near(number: i128, wanted: i128) -> bool {
    number.saturating_sub(wanted).unsigned_abs() <= NEAR
}

/// Returns the master of four shifts, each of three of four periods at a cost of 2, where each period needs
/// one employee. A missing employee costs 10, and there are at most 3.
fn four_thirds(alloc: Global) -> Result<FloatProgram, Memory> {
    let right = [1, 1, 1, 1, 0, 3];
    let missing = [10, 10, 10, 10, DEAR, 0];
    let beyond = [Some(0), Some(0), Some(0), Some(0), Some(0), None];
    let mut float_program = FloatProgram::new(alloc, &right, &missing, &beyond)?;
    list_all(
        &mut float_program,
        &[
            (2, &[0, 1, 2, 4, 5]),
            (2, &[1, 2, 3, 4, 5]),
            (2, &[0, 2, 3, 4, 5]),
            (2, &[0, 1, 3, 4, 5]),
        ],
    )?;
    Ok(float_program)
}

/// Returns the value of a column of that master, in units of 2^-56: each shift has a third of an employee, so
/// there are 4 thirds, which is 4 thirds above 0 and 5 thirds below 3.
fn third_of(key: Option<Key>) -> i128 {
    match key {
        Some(Key::Listed(_)) => 24_019_198_012_642_645,
        Some(Key::Beyond(4)) => 96_076_792_050_570_581,
        Some(Key::Missing(5)) => 120_095_990_063_213_227,
        _ => 0,
    }
}

/// Whether these are the values of that master's optimal basis.
fn are_thirds(float_program: &FloatProgram, values: &[i128]) -> bool {
    let mut listed = 0u32;
    for (place, value) in values.iter().enumerate() {
        let key = float_program.basic(place);
        if !is_near(*value, third_of(key)) {
            return false;
        }
        if matches!(key, Some(Key::Listed(_))) {
            listed = listed.saturating_add(1);
        }
    }
    listed == 4 && values.len() == 6
}

/// The prices of the rows: three periods have that of a shift together, so each has 2 thirds.
const PRICES: [i128; 6] = [
    733_007_751_851,
    733_007_751_851,
    733_007_751_851,
    733_007_751_851,
    0,
    0,
];

fn are_two_thirds(prices: &[i128]) -> bool {
    prices.len() == 6
        && prices
            .iter()
            .zip(&PRICES)
            .all(|(price, wanted)| is_near(*price, *wanted))
}

/// Whether the values and the prices of that master's basis are refined, where its right sides are still
/// perturbed.
fn are_refined(alloc: Global, float_program: &FloatProgram) -> Result<bool, Memory> {
    let values = float_program.refined_values(alloc)?;
    let prices = float_program.refined_prices(alloc, &[])?;
    Ok(are_thirds(float_program, values.as_slice()) && are_two_thirds(prices.as_slice()))
}

/// Whether a float is this many thirds, within 2^-30.
fn are_float_thirds(number: f64, thirds: f64) -> bool {
    (number * 3.0 - thirds).abs() < 1.0e-9
}

/// Returns the thirds that a column of that master has of one employee in the first period: each shift has a
/// third, less 1 for the one without that period.
fn thirds_of_first(key: Option<Key>) -> f64 {
    match key {
        Some(Key::Listed(1)) => -2.0,
        Some(Key::Listed(_)) | Some(Key::Beyond(_)) => 1.0,
        _ => -1.0,
    }
}

/// A side with one employee in the first period.
const FIRST_PERIOD: [f64; 6] = [1.0, 0.0, 0.0, 0.0, 0.0, 0.0];

/// Shifts at 1, and the rows' own columns at 0.
const COSTS: [f64; 6] = [1.0, 1.0, 1.0, 1.0, 0.0, 0.0];

/// Whether the products of the inverse with a side and with costs are those of that master.
fn are_products(alloc: Global, float_program: &FloatProgram) -> Result<bool, Memory> {
    let mut room = float_program.product_room(alloc)?;
    let mut out = [7.0; 6];
    float_program.inverse_times(&FIRST_PERIOD, &mut room, &mut out);
    let are_shares = out.iter().enumerate().all(|(place, share)| are_float_thirds(
        *share,
        thirds_of_first(float_program.basic(place)),
    ));
    // A third of the cost of three shifts for each period.
    float_program.times_inverse(&COSTS, &mut room, &mut out);
    let are_prices = out
        .iter()
        .zip(&COSTS)
        .all(|(price, thirds)| are_float_thirds(*price, *thirds));
    drop(room);
    Ok(are_shares && are_prices)
}

/// Whether that master is solved with an eighth of the tolerances.
fn is_solved_tighter(float_program: &mut FloatProgram) -> bool {
    float_program.tighten(0.125);
    // 2^-14 and 2^-20
    float_program.tolerances().reduced == 6.103515625e-5
        && float_program.tolerances().value == 9.5367431640625e-7
        && is_solved(float_program)
        && float_program.settle(LIMITS, &SteadyWatch) == FloatSolved::Optimal
        && float_program
            .values()
            .iter()
            .any(|value| is_about(i128::from(value.raw()) * 3, 1))
}

/// Whether that master is solved by thirds.
fn is_solved_by_thirds(alloc: Global, float_program: &mut FloatProgram) -> Result<bool, Memory> {
    Ok(
        is_solved(float_program)
            && are_refined(alloc, float_program)?
            && are_products(alloc, float_program)?
            && is_solved_tighter(float_program),
    )
}

#[test]
fn refined_thirds(rt: HostRuntime) {
    let mut float_program = four_thirds(rt.alloc()).expect(&rt, "memory");
    let solved = is_solved_by_thirds(rt.alloc(), &mut float_program);
    drop(float_program);
    assert!(rt; solved.expect(&rt, "memory"));
}

/// What a missing unit costs, above what a float program lets it cost.
const TRUE_COST: i64 = 70_000_000_001;

/// Whether a row that no listed column meets has the price of its own column, at the true cost.
fn has_true_cost(alloc: Global) -> Result<bool, Memory> {
    let mut float_program = FloatProgram::new(alloc, &[1], &[DEAR], &[Some(0)])?;
    let solved = float_program.start_missing().is_ok()
        && float_program.run(LIMITS, &SteadyWatch) == FloatSolved::Optimal;
    let prices = float_program.refined_prices(alloc, &[TRUE_COST]);
    drop(float_program);
    let prices = prices?;
    Ok(solved && prices.as_slice() == [i128::from(TRUE_COST) * PRICE_ONE].as_slice())
}

#[test]
fn prices_at_the_true_cost(rt: HostRuntime) {
    assert!(rt; has_true_cost(rt.alloc()).expect(&rt, "memory"));
}
