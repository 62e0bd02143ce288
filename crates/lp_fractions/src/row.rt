//! The row step of a tableau in 128 bits.

ghost use Rattle.std.specs.Prelude.{◌≡◌, ℕ, ◌<◌, ◌^◌, pos, max, ◌*ℤ◌, ◌-ℤ◌, ◌<ℤ◌, length, unsigned_abs, IfOk, IfErr};
ghost use Rattle.std.specs.Int.{◌∣◌, IsGcd};
ghost use Rattle.std.specs.Option.{SomeIff};
ghost use Rattle.law_bounds.specs.linear_programs.RowStep.{combined, IsCommonFactor};
ghost use Rattle.lp_fractions.specs.Range.{InRange, refused};
ghost use Rattle.lp_fractions.specs.Row.{EntryFits, at, new_at, FitsBelow, IsFirstWide, IsStep};
ghost use Rattle.lp_fractions.specs.Refusal.{IsRowRefusal};

use crate::divisors::gcd_unsigned;
use crate::range::{difference_in, product_in, quotient};
use crate::{Tally, TooWide};

/// Returns the new entry before the common factor is taken out, where both products and their
/// difference are in range.
fn combine(p: i128, r: i128, a: i128, s: i128) -> Option<i128>
    ensures { SomeIff result (EntryFits p r a s) (combined p r a s) }
{
    let first = product_in(p, r)?;
    let second = product_in(a, s)?;
    difference_in(first, second)
}

/// Returns the greatest common divisor of the factor so far and one more entry.
fn next_factor(factor: u128, entry: i128) -> u128
    requires factor { factor < 2 ^ 127 }
    requires entry { InRange entry }
    ensures value { IsGcd factor (unsigned_abs entry) result }
    ensures bound { result < 2 ^ 127 }
{
    if factor == 1 {
        1
    } else {
        gcd_unsigned(entry.unsigned_abs(), factor)
    }
}

/// Returns the new entry divided by a factor that it has.
fn new_entry(p: i128, r: i128, a: i128, s: i128, g: i128) -> i128
    requires fits { EntryFits p r a s }
    requires positive { pos 0 <ℤ g }
    requires divides { unsigned_abs g ∣ unsigned_abs (combined p r a s) }
    ensures { g *ℤ result ≡ combined p r a s }
{
    let entry = p * r - a * s;
    if g == 1 { entry } else { quotient(entry, g) }
}

/// Returns the greatest common divisor of the new entries, 0 where all are 0, or else the first
/// place whose entry is out of range.
fn common_factor(row: &[i128], p: i128, other: &[i128], a: i128) -> Result<u128, usize>
    requires lengths { length row.now ≡ length other.now }
    ensures factor { IfOk result (λ d. FitsBelow p row.now a other.now (length row.now) ×
        IsCommonFactor (new_at p row.now a other.now) (length row.now) d) }
    ensures bound { IfOk result (λ d. d < 2 ^ 127) }
    ensures wide { IfErr result (λ j. IsFirstWide p row.now a other.now j) }
{
    let mut factor = 0;
    for j in 0..row.len() {
        match combine(p, row[j], a, other[j]) {
            Some(entry) => {
                factor = next_factor(factor, entry);
            }
            None => return Err(j),
        }
    }
    Ok(factor)
}

/// Replaces each entry by the new one divided by a common factor.
fn divide_all(row: &mut [i128], p: i128, other: &[i128], a: i128, g: i128)
    requires lengths { length row.old ≡ length other.now }
    requires fits { FitsBelow p row.old a other.now (length row.old) }
    requires positive { pos 0 <ℤ g }
    requires divides { (k : ℕ) → k < length row.old →
        unsigned_abs g ∣ unsigned_abs (new_at p row.old a other.now k) }
    ensures { (k : ℕ) → k < length row.old → g *ℤ at row.new k ≡ new_at p row.old a other.now k }
{
    for j in 0..row.len() {
        row[j] = new_entry(p, row[j], a, other[j], g);
    }
}

/// Returns the factor, or 1 in place of 0.
fn divisor_of(factor: u128) -> i128
    requires { factor < 2 ^ 127 }
    ensures { result ≡ pos (max 1 factor) }
{
    if factor == 0 { 1 } else { factor as i128 }
}

/// Replaces each entry `r` of the row by `(p * r - a * s) / g` and returns `g`, where `s` is the
/// entry of the other row at its place, and `g` is the greatest common divisor of the new entries,
/// or 1 where all are 0.
///
/// # Errors
///
/// `Row` with the numbers of the first place at which `p * r`, `a * s` or their difference is out of range;
/// the row stays as it was then, and the tally counts a refusal.
pub fn row_step(
    row: &mut [i128],
    p: i128,
    other: &[i128],
    a: i128,
    tally: &mut Tally,
) -> Result<i128, TooWide>
    requires lengths { length row.old ≡ length other.now }
    requires positive { pos 0 <ℤ p }
    ensures ok { IfOk result (λ g. IsStep p row.old a other.now row.new g × (tally.new ≡
        tally.old)) }
    ensures wide { IfErr result (λ fault. IsRowRefusal p row.old a other.now fault) }
    ensures unchanged { IfErr result (λ _. row.new ≡ row.old) }
    ensures counted { IfErr result (λ _. tally.new ≡ refused tally.old) }
{
    match common_factor(row, p, other, a) {
        Ok(factor) => {
            let g = divisor_of(factor);
            divide_all(row, p, other, a, g);
            Ok(g)
        }
        Err(j) => {
            tally.refuse();
            Err(TooWide::Row {
                p,
                r: row[j],
                a,
                s: other[j],
            })
        }
    }
}
