//! Copies of shifts, and their prices.

ghost use Rattle.std.specs.Prelude.{◌≡◌, ◌≤◌, ◌^◌, ◌++◌, ◌∷◌, [], All, length, OnOk};
ghost use Rattle.check_certificates.specs.RosterCauses.{stated_prices};
ghost use Rattle.model_rosters.specs.Folds.{sum_n};

use model_rosters::{List, Memory, Shift};
use std::alloc::Global;
use text_lines::put;

// Appends a copy of a shift.
fn add_shift(alloc: Global, out: &mut List<Shift>, shift: &Shift) -> Result<(), Memory>
    ensures { OnOk result (out.new ≡ out.old ++ shift.now ∷ []) }
{
    let mut word = List::new(alloc);
    put(&mut word, shift.word.as_slice())?;
    out.push(Shift {
        group: shift.group,
        word,
        price: shift.price,
    })
}

/// Appends copies of shifts.
///
/// # Errors
///
/// `Memory` where memory runs out; a part may stand there then.
pub(crate) fn add_shifts(
    alloc: Global,
    out: &mut List<Shift>,
    shifts: &[Shift],
) -> Result<(), Memory>
    ensures { OnOk result (out.new ≡ out.old ++ shifts.now) }
{
    for shift in shifts {
        add_shift(alloc, out, shift)?;
    }
    Ok(())
}

/// Returns the sum of the prices of at most 64 shifts.
pub fn paid(shifts: &[Shift]) -> u64
    requires few { length shifts.now ≤ 64 }
    requires small { All (λ s. s.price ≤ 2 ^ 40) shifts.now }
    ensures { result ≡ sum_n (λ p. p) (stated_prices shifts.now) }
{
    let mut sum = 0;
    for shift in shifts {
        sum += shift.price;
    }
    sum
}
