//! `to_prices`, and why it may fail.

ghost use Rattle.std.specs.Prelude.{ℕ, ◌≡◌, ◌≤◌, ◌+◌, ◌^◌, pos, ◌<ℤ◌, length, take, drop, All, IfOk, IfErr, unsigned_abs};
ghost use Rattle.model_rosters.specs.Folds.{Each};
ghost use Rattle.model_rosters.specs.Sums.{Within};
ghost use Rattle.model_rosters.specs.PriceLimits.{IsMult, AreRising};
ghost use Rattle.model_rosters.specs.declared.instance.Mult.{Mult};
ghost use Rattle.law_bounds.specs.master_laws.Rounding.{AreRounded};
ghost use Rattle.law_bounds.specs.master_laws.Laws.{HaveSigns};
ghost use Rattle.lp_rounded_prices.specs.Faults.{IsRoundFault};

use crate::denominator::denominator;
use crate::floors::{floors, multipliers};
use lp_fractions::{Tally, TooWide};
use model_rosters::{Cut, Memory, Prices};
use std::alloc::Global;

/// Why prices could not be rounded.
#[derive(Clone, Copy, Debug, PartialEq, Eq, Drop)]
pub enum RoundFault {
    /// A rounded number is above 2^80 in size: with the row's number as it stands, `kappa`, `d` and 2^80.
    Wide(TooWide),
    /// Memory did not suffice.
    Memory,
}

impl From<Memory> for RoundFault {
    ghost use Rattle.std.specs.Prelude.{◌≡◌};
    ghost use Rattle.lp_rounded_prices.specs.declared.round.RoundFault.TheVariants.{Memory as out_of_memory};

    ghost from_gives = { λ _ fault. fault ≡ out_of_memory };

    /// Returns the fault of want of memory.
    fn from(_memory: Memory) -> RoundFault {
        RoundFault::Memory
    }
}

/// Rounds the prices `y / kappa` of cells, of two rows of heads and of cuts, in this order, to whole
/// numbers over one denominator: the least `d` that makes the prices of cells and cuts whole, or 2^20
/// where that is above 2^30.
///
/// A cell's price is the floor of its number, and a cut's multiplier that of its number with its side's sign,
/// so that it is rounded towards 0; only multipliers above 0 are listed.
///
/// # Errors
///
/// `Wide` exactly where one of these floors is above 2^80 in size, with its number, and the tally counts a
/// refusal; `Memory` where memory runs out. Nothing is kept then.
pub fn to_prices(
    alloc: Global,
    y: &[i128],
    kappa: i128,
    cells: usize,
    cuts: &[Cut],
    tally: &mut Tally,
) -> Result<Prices, RoundFault>
    requires kappa { pos 0 <ℤ kappa }
    requires length { length y.now ≡ cells + 2 + length cuts.now }
    requires few { length cuts.now ≤ 1500 }
    requires signs { HaveSigns cuts.now (drop (cells + 2) y.now) }
    ensures rounded { IfOk result (AreRounded kappa (take cells y.now) cuts.now (drop (cells + 2) y.now)) }
    ensures d { IfOk result (λ p. (1 ≤ p.d) × (p.d ≤ 2 ^ 30)) }
    ensures cells { IfOk result (λ p. (length p.cell ≡ cells) × All (Within (2 ^ 80)) p.cell) }
    ensures mults { IfOk result (λ p. All (IsMult (length cuts.now)) p.mult × AreRising p.mult) }
    ensures few { IfOk result (λ p. length p.mult ≤ length cuts.now) }
    ensures above { IfOk result (λ p. Each (λ (m : Mult). pos 0 <ℤ m.value) p.mult) }
    ensures wide { IfErr result (IsRoundFault kappa (take cells y.now) cuts.now (drop (cells + 2) y.now)
        tally.old tally.new) }
    ensures kept { IfOk result (λ _. tally.new ≡ tally.old) }
{
    let cell_numbers = &y[..cells];
    let cut_numbers = &y[cells + 2..];
    let d = denominator(cell_numbers, cut_numbers, kappa);
    let cell = floors(alloc, cell_numbers, kappa, d, tally)?;
    let mult = multipliers(alloc, cuts, cut_numbers, kappa, d, tally)?;
    Ok(Prices { d, cell, mult })
}
