//! Prices of cells and multipliers of cuts.

ghost use Rattle.std.specs.Prelude.{ℕ, ℤ, ◌≡◌, ◌≤◌, ◌<◌, ◌+◌, ◌^◌, pos, neg_ℤ, ◌+ℤ◌, ◌<ℤ◌, ◌≤ℤ◌, length, All, OnOk, OnErr, IfOk, IfErr};
ghost use Rattle.model_rosters.specs.Sums.{Within};
ghost use Rattle.model_rosters.specs.Reduced.{signed};
ghost use Rattle.law_bounds.specs.master_laws.Rounding.{IsFloor, AreFloors};
ghost use Rattle.law_bounds.specs.master_laws.Laws.{HasSign, HaveSigns};
ghost use Rattle.lp_rounded_prices.specs.Floors.{IsNumberFault, IsCellFault, IsMultFault, AreMultsOf, with_mult};

use crate::round::RoundFault;
use lp_fractions::{Tally, TooWide, scaled};
use model_rosters::{Cut, List, Memory, Mult, Side};
use std::alloc::Global;

/// The greatest size of a price, 2^80.
const MOST_ROUNDED: i128 = 1 << 80;

/// Returns `d` times a number over `kappa`, rounded down.
fn rounded(number: i128, kappa: i128, d: u64, tally: &mut Tally) -> Result<i128, RoundFault>
    requires kappa { pos 0 <ℤ kappa }
    requires d { (1 ≤ d) × (d ≤ 2 ^ 30) }
    ensures floor { IfOk result (IsFloor kappa d number) }
    ensures within { IfOk result (Within (2 ^ 80)) }
    ensures wide { IfErr result (IsNumberFault kappa d number number tally.old tally.new) }
    ensures kept { IfOk result (λ _. tally.new ≡ tally.old) }
{
    match scaled(number, kappa, d, MOST_ROUNDED, tally) {
        Ok(floor) => Ok(floor),
        Err(fault) => Err(RoundFault::Wide(fault)),
    }
}

/// Returns the size of a number of at most 0, less `kappa`: that size itself may not fit.
fn size_less(number: i128, kappa: i128) -> i128
    requires number { number ≤ℤ pos 0 }
    requires kappa { pos 0 <ℤ kappa }
    ensures { result ≡ neg_ℤ (number +ℤ kappa) }
{
    -(number + kappa)
}

/// Returns the fault of a number whose size is too wide once it is rounded: it names the number itself.
fn wide_size(number: i128, kappa: i128, d: u64) -> RoundFault
    ensures { result ≡ RoundFault.Wide (TooWide.Scaled number kappa d (pos (2 ^ 80))) }
{
    RoundFault::Wide(TooWide::Scaled {
        num: number,
        den: kappa,
        d,
        most: MOST_ROUNDED,
    })
}

/// Returns `d` times the size of a number of at most 0 over `kappa`, rounded down.
fn rounded_size(number: i128, kappa: i128, d: u64, tally: &mut Tally) -> Result<i128, RoundFault>
    requires number { number ≤ℤ pos 0 }
    requires kappa { pos 0 <ℤ kappa }
    requires d { (1 ≤ d) × (d ≤ 2 ^ 30) }
    ensures floor { IfOk result (IsFloor kappa d (neg_ℤ number)) }
    ensures within { IfOk result (λ m. (pos 0 ≤ℤ m) × (m ≤ℤ pos (2 ^ 80))) }
    ensures wide { IfErr result (IsNumberFault kappa d number (neg_ℤ number) tally.old tally.new) }
    ensures kept { IfOk result (λ _. tally.new ≡ tally.old) }
{
    // What `kappa` takes off the size is `d` off the floor.
    let whole = i128::from(d);
    match scaled(
        size_less(number, kappa),
        kappa,
        d,
        MOST_ROUNDED - whole,
        tally,
    ) {
        Ok(floor) => Ok(floor + whole),
        Err(_) => Err(wide_size(number, kappa, d)),
    }
}

/// Returns the floors of `d` times each number over `kappa`.
///
/// # Errors
///
/// `Wide` with the first number whose floor is above 2^80 in size, and the tally counts a refusal; `Memory`
/// where memory runs out.
pub(crate) fn floors(
    alloc: Global,
    numbers: &[i128],
    kappa: i128,
    d: u64,
    tally: &mut Tally,
) -> Result<List<i128>, RoundFault>
    requires kappa { pos 0 <ℤ kappa }
    requires d { (1 ≤ d) × (d ≤ 2 ^ 30) }
    ensures floors { IfOk result (AreFloors kappa d numbers.now) }
    ensures within { IfOk result (All (Within (2 ^ 80))) }
    ensures wide { IfErr result (IsCellFault kappa d numbers.now tally.old tally.new) }
    ensures kept { IfOk result (λ _. tally.new ≡ tally.old) }
{
    let mut floors = List::new(alloc);
    for number in numbers {
        let floor = rounded(*number, kappa, d, tally)?;
        floors.push(floor)?;
    }
    Ok(floors)
}

/// Returns the multiplier of a cut whose row has this price over `kappa`.
fn multiplier(
    side: Side,
    number: i128,
    kappa: i128,
    d: u64,
    tally: &mut Tally,
) -> Result<i128, RoundFault>
    requires sign { HasSign side number }
    requires kappa { pos 0 <ℤ kappa }
    requires d { (1 ≤ d) × (d ≤ 2 ^ 30) }
    ensures floor { IfOk result (IsFloor kappa d (neg_ℤ (signed side number))) }
    ensures within { IfOk result (λ m. (pos 0 ≤ℤ m) × (m ≤ℤ pos (2 ^ 80))) }
    ensures wide { IfErr result (IsNumberFault kappa d number (neg_ℤ (signed side number))
        tally.old tally.new) }
    ensures kept { IfOk result (λ _. tally.new ≡ tally.old) }
{
    match side {
        Side::Low => rounded_size(number, kappa, d, tally),
        Side::High => rounded(number, kappa, d, tally),
    }
}

/// Lists a multiplier where it is above 0.
fn add(mults: &mut List<Mult>, cut: u32, value: i128) -> Result<(), Memory>
    ensures { OnOk result (mults.new ≡ with_mult mults.old cut value) }
{
    if value > 0 {
        return mults.push(Mult { cut, value });
    }
    Ok(())
}

/// Returns the multipliers above 0 of cuts whose rows have these prices over `kappa`.
///
/// # Errors
///
/// `Wide` with the first number whose floor, with its side's sign, is above 2^80 in size, and the tally
/// counts a refusal; `Memory` where memory runs out.
pub(crate) fn multipliers(
    alloc: Global,
    cuts: &[Cut],
    numbers: &[i128],
    kappa: i128,
    d: u64,
    tally: &mut Tally,
) -> Result<List<Mult>, RoundFault>
    requires kappa { pos 0 <ℤ kappa }
    requires d { (1 ≤ d) × (d ≤ 2 ^ 30) }
    requires few { length cuts.now ≤ 1500 }
    requires length { length numbers.now ≡ length cuts.now }
    requires signs { HaveSigns cuts.now numbers.now }
    ensures mults { IfOk result (AreMultsOf kappa d cuts.now numbers.now) }
    ensures wide { IfErr result (IsMultFault kappa d cuts.now numbers.now tally.old tally.new) }
    ensures kept { IfOk result (λ _. tally.new ≡ tally.old) }
{
    let mut mults = List::new(alloc);
    for (index, cut) in cuts.iter().enumerate() {
        let value = multiplier(cut.side, numbers[index], kappa, d, tally)?;
        add(&mut mults, index as u32 + 1, value)?;
    }
    Ok(mults)
}
