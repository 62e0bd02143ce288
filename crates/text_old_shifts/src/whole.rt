//! The shifts whose words have the day's length.

ghost use Rattle.std.specs.Prelude.{◌≡◌, ◌++◌, [], ◌∷◌, IfOk, OnOk};
ghost use Rattle.text_old_shifts.specs.Fitting.{fits, fitting};

use model_rosters::{List, Memory, Shift};
use std::alloc::Global;
use text_lines::put;

// Whether a shift's word has a letter for each of so many periods.
fn fits(periods: u8, shift: &Shift) -> bool
    ensures { result ≡ fits periods shift.now }
{
    shift.word.len() == periods as usize
}

// Copies a shift.
fn copied(alloc: Global, shift: &Shift) -> Result<Shift, Memory>
    ensures { IfOk result (λ s. s ≡ shift.now) }
{
    let mut word = List::new(alloc);
    put(&mut word, shift.word.as_slice())?;
    Ok(Shift {
        group: shift.group,
        word,
        price: shift.price,
    })
}

// Appends a shift, if its word fits.
fn add_fitting(
    alloc: Global,
    out: &mut List<Shift>,
    periods: u8,
    shift: &Shift,
) -> Result<(), Memory>
    ensures { OnOk result (out.new ≡ out.old ++ fitting periods (shift.now ∷ [])) }
{
    if !fits(periods, shift) {
        return Ok(());
    }
    let copy = copied(alloc, shift)?;
    out.push(copy)
}

/// Returns those of the shifts whose words have a letter for each of so many periods.
///
/// # Errors
///
/// `Memory` where memory runs out.
pub fn fitting(alloc: Global, periods: u8, shifts: &[Shift]) -> Result<List<Shift>, Memory>
    ensures { IfOk result (λ kept. kept ≡ fitting periods shifts.now) }
{
    let mut out = List::new(alloc);
    for shift in shifts {
        add_fitting(alloc, &mut out, periods, shift)?;
    }
    Ok(out)
}
