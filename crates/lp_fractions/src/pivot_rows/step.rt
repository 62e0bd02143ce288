//! A step of elimination.

ghost use Rattle.std.specs.Prelude.{◌≡◌, ◌≤◌, ◌<◌, ◌^◌, pos, ◌<ℤ◌, ◌*ℤ◌, max, length, unsigned_abs, int_div, IfOk, IfErr, MatchResult};
ghost use Rattle.std.specs.Int.{IsGcd, ◌∣◌};
ghost use Rattle.law_bounds.specs.linear_programs.RowStep.{combined, IsCommonFactor};
ghost use Rattle.lp_fractions.specs.Range.{refused};
ghost use Rattle.lp_fractions.specs.pivot_rows.Rows.{AreNarrow, IsPrimitive, StepsTo, IsWideStep};
ghost use Rattle.lp_fractions.specs.pivot_rows.Quotients.{AreDivided, IsWideDivided, whole};
ghost use Rattle.lp_fractions.specs.pivot_rows.Places.{AreListed};
ghost use Rattle.lp_fractions.specs.pivot_rows.Refusals.{IsWideValue};

use crate::pivot_rows::row::{MOST_NUMBER, PivotRow};
use crate::{Tally, TooWide, fits, gcd, gcd_unsigned};

// The new number before the common factor is taken out.
fn combine(factor: i128, number: i64, entry: i128, other: i64) -> i128
    requires factor { unsigned_abs factor ≤ 2 ^ 68 }
    requires number { unsigned_abs number ≤ 2 ^ 56 }
    requires entry { unsigned_abs entry ≤ 2 ^ 68 }
    requires other { unsigned_abs other ≤ 2 ^ 56 }
    ensures value { result ≡ combined factor number entry other }
    ensures size { unsigned_abs result ≤ 2 ^ 125 }
{
    factor * i128::from(number) - entry * i128::from(other)
}

// The greatest common divisor of the common factor so far and one more number.
fn next_factor(common: u128, number: i128) -> u128
    requires common { common ≤ 2 ^ 125 }
    requires number { unsigned_abs number ≤ 2 ^ 125 }
    ensures value { IsGcd common (unsigned_abs number) result }
    ensures size { result ≤ 2 ^ 125 }
{
    if number == 0 {
        common
    } else {
        gcd_unsigned(number.unsigned_abs(), common)
    }
}

// The greatest common divisor of the new numbers, 0 where all are 0. It reads no more of them than it
// takes to see that it is 1.
fn common_factor(row: &[i64], factor: i128, other: &[i64], entry: i128) -> u128
    requires lengths { length row.now ≤ length other.now }
    requires narrow { AreNarrow row.now }
    requires other { AreNarrow other.now }
    requires factor { unsigned_abs factor ≤ 2 ^ 68 }
    requires entry { unsigned_abs entry ≤ 2 ^ 68 }
    ensures value { IsCommonFactor (whole row.now factor other.now entry) (length row.now) result }
    ensures size { result ≤ 2 ^ 125 }
{
    let mut common = 0;
    for place in 0..row.len() {
        common = next_factor(common, combine(factor, row[place], entry, other[place]));
        if common == 1 {
            return 1;
        }
    }
    common
}

// The common factor, or 1 in place of 0.
fn divisor_of(common: u128) -> i128
    requires { common ≤ 2 ^ 125 }
    ensures value { result ≡ pos (max 1 common) }
    ensures size { unsigned_abs result ≤ 2 ^ 125 }
{
    if common == 0 { 1 } else { common as i128 }
}

// The quotient, towards 0, by a positive divisor.
fn quotient(number: i128, divisor: i128) -> i128
    requires { pos 0 <ℤ divisor }
    ensures { result ≡ int_div number divisor }
{
    if divisor == 1 {
        return number;
    }
    if let (Ok(number), Ok(divisor)) = (i64::try_from(number), i64::try_from(divisor)) {
        return i128::from(number / divisor);
    }
    number / divisor
}

// The quotient by a positive divisor, where it is narrow.
fn divided(number: i128, divisor: i128, tally: &mut Tally) -> Result<i64, TooWide>
    requires { pos 0 <ℤ divisor }
    ensures value { IfOk result (λ value. value ≡ int_div number divisor) }
    ensures narrow { IfOk result (λ value. unsigned_abs value ≤ 2 ^ 56) }
    ensures wide { IfErr result (λ _. 2 ^ 56 < unsigned_abs (int_div number divisor)) }
    ensures fault { IfErr result IsWideValue }
    ensures counted { MatchResult result (λ _. tally.new ≡ tally.old) (λ _. tally.new ≡ refused tally.old) }
{
    let value = quotient(number, divisor);
    fits(value, i128::from(MOST_NUMBER), tally)?;
    Ok(value as i64)
}

// Puts each number of the step in its place.
fn write_all(
    row: &mut [i64],
    factor: i128,
    other: &[i64],
    entry: i128,
    divisor: i128,
    tally: &mut Tally,
) -> Result<(), TooWide>
    requires lengths { length row.old ≤ length other.now }
    requires narrow { AreNarrow row.old }
    requires other { AreNarrow other.now }
    requires factor { unsigned_abs factor ≤ 2 ^ 68 }
    requires entry { unsigned_abs entry ≤ 2 ^ 68 }
    requires divisor { pos 0 <ℤ divisor }
    ensures divided { IfOk result (λ _. AreDivided row.old factor other.now entry divisor row.new) }
    ensures narrow { IfOk result (λ _. AreNarrow row.new) }
    ensures wide { IfErr result (λ _. IsWideDivided row.old factor other.now entry divisor) }
    ensures fault { IfErr result IsWideValue }
    ensures counted { MatchResult result (λ _. tally.new ≡ tally.old) (λ _. tally.new ≡ refused tally.old) }
{
    for place in 0..row.len() {
        let number = combine(factor, row[place], entry, other[place]);
        row[place] = divided(number, divisor, tally)?;
    }
    Ok(())
}

// Puts each number of the step in its place, where the common factor is that of the row: then no
// number changes but those at a place of the other row whose number is not 0.
fn write_listed(
    row: &mut [i64],
    factor: i128,
    other: &[i64],
    places: &[usize],
    entry: i128,
    tally: &mut Tally,
) -> Result<(), TooWide>
    requires lengths { length row.old ≤ length other.now }
    requires narrow { AreNarrow row.old }
    requires other { AreNarrow other.now }
    requires listed { AreListed other.now (length other.now) places.now }
    requires factor { (pos 0 <ℤ factor) × (unsigned_abs factor ≤ 2 ^ 68) }
    requires entry { unsigned_abs entry ≤ 2 ^ 68 }
    ensures divided { IfOk result (λ _. AreDivided row.old factor other.now entry factor row.new) }
    ensures narrow { IfOk result (λ _. AreNarrow row.new) }
    ensures wide { IfErr result (λ _. IsWideDivided row.old factor other.now entry factor) }
    ensures fault { IfErr result IsWideValue }
    ensures counted { MatchResult result (λ _. tally.new ≡ tally.old) (λ _. tally.new ≡ refused tally.old) }
{
    for place in places {
        if *place >= row.len() {
            return Ok(());
        }
        let number = combine(factor, row[*place], entry, other[*place]);
        row[*place] = divided(number, factor, tally)?;
    }
    Ok(())
}

// Puts the numbers of the step in their places.
fn write_step(
    row: &mut [i64],
    factor: i128,
    other: &PivotRow,
    entry: i128,
    divisor: i128,
    tally: &mut Tally,
) -> Result<(), TooWide>
    requires lengths { length row.old ≤ length other.now }
    requires narrow { AreNarrow row.old }
    requires other { AreNarrow other.now }
    requires factor { unsigned_abs factor ≤ 2 ^ 68 }
    requires entry { unsigned_abs entry ≤ 2 ^ 68 }
    requires divisor { pos 0 <ℤ divisor }
    ensures divided { IfOk result (λ _. AreDivided row.old factor other.now entry divisor row.new) }
    ensures narrow { IfOk result (λ _. AreNarrow row.new) }
    ensures wide { IfErr result (λ _. IsWideDivided row.old factor other.now entry divisor) }
    ensures fault { IfErr result IsWideValue }
    ensures counted { MatchResult result (λ _. tally.new ≡ tally.old) (λ _. tally.new ≡ refused tally.old) }
{
    if factor == divisor {
        return write_listed(row, factor, other.numbers(), other.places(), entry, tally);
    }
    write_all(row, factor, other.numbers(), entry, divisor, tally)
}

// Takes the step, whatever the factor of the row.
fn step_numbers(
    row: &mut [i64],
    factor: i128,
    other: &PivotRow,
    entry: i128,
    tally: &mut Tally,
) -> Result<(), TooWide>
    requires lengths { length row.old ≤ length other.now }
    requires narrow { AreNarrow row.old }
    requires other { AreNarrow other.now }
    requires factor { unsigned_abs factor ≤ 2 ^ 68 }
    requires entry { unsigned_abs entry ≤ 2 ^ 68 }
    ensures step { IfOk result (λ _. StepsTo row.old factor other.now entry row.new) }
    ensures narrow { IfOk result (λ _. AreNarrow row.new) }
    ensures wide { IfErr result (λ _. IsWideStep row.old factor other.now entry) }
    ensures fault { IfErr result IsWideValue }
    ensures counted { MatchResult result (λ _. tally.new ≡ tally.old) (λ _. tally.new ≡ refused tally.old) }
{
    let common = common_factor(row, factor, other.numbers(), entry);
    write_step(row, factor, other, entry, divisor_of(common), tally)
}

// The exact quotient by a positive divisor.
fn shared_out(number: i128, shared: i128) -> i128
    requires positive { pos 0 <ℤ shared }
    requires divides { unsigned_abs shared ∣ unsigned_abs number }
    ensures value { shared *ℤ result ≡ number }
    ensures size { unsigned_abs result ≤ unsigned_abs number }
{
    quotient(number, shared)
}

// Takes the step with what the factor of the row and the other row's have in common divided out.
fn step_shared(
    row: &mut [i64],
    factor: i128,
    other: &PivotRow,
    entry: i128,
    tally: &mut Tally,
) -> Result<(), TooWide>
    requires lengths { length row.old ≤ length other.now }
    requires narrow { AreNarrow row.old }
    requires other { AreNarrow other.now }
    requires factor { (pos 0 <ℤ factor) × (unsigned_abs factor ≤ 2 ^ 68) }
    requires entry { unsigned_abs entry ≤ 2 ^ 68 }
    ensures step { IfOk result (λ _. StepsTo row.old factor other.now entry row.new) }
    ensures narrow { IfOk result (λ _. AreNarrow row.new) }
    ensures wide { IfErr result (λ _. IsWideStep row.old factor other.now entry) }
    ensures fault { IfErr result IsWideValue }
    ensures counted { MatchResult result (λ _. tally.new ≡ tally.old) (λ _. tally.new ≡ refused tally.old) }
{
    let shared = gcd(factor, entry);
    let factor_left = shared_out(factor, shared);
    let entry_left = shared_out(entry, shared);
    step_numbers(row, factor_left, other, entry_left, tally)
}

/// Replaces each number `r` of the row by `(factor * r - entry * s) / g`, where `s` is the number of
/// the other row at its place, and `g` is the greatest common divisor of the new numbers, or 1 where
/// all are 0.
///
/// Takes no memory.
///
/// # Errors
///
/// A new number that is above 2^56 in size is told (`IsWideStep`), and the tally counts a refusal; the row
/// then still has as many numbers, and nothing else is said of it.
pub fn step_row(
    row: &mut [i64],
    factor: i128,
    other: &PivotRow,
    entry: i128,
    tally: &mut Tally,
) -> Result<(), TooWide>
    requires lengths { length row.old ≤ length other.now }
    requires narrow { AreNarrow row.old }
    requires other { AreNarrow other.now }
    requires primitive { IsPrimitive row.old }
    requires factor { (pos 0 <ℤ factor) × (unsigned_abs factor ≤ 2 ^ 68) }
    requires entry { unsigned_abs entry ≤ 2 ^ 68 }
    ensures step { IfOk result (λ _. StepsTo row.old factor other.now entry row.new) }
    ensures primitive { IfOk result (λ _. IsPrimitive row.new) }
    ensures narrow { IfOk result (λ _. AreNarrow row.new) }
    ensures length { length row.new ≡ length row.old }
    ensures wide { IfErr result (λ _. IsWideStep row.old factor other.now entry) }
    ensures fault { IfErr result IsWideValue }
    ensures counted { MatchResult result (λ _. tally.new ≡ tally.old) (λ _. tally.new ≡ refused tally.old) }
{
    if entry == 0 {
        return Ok(());
    }
    step_shared(row, factor, other, entry, tally)
}
