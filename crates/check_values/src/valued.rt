//! An allowed roster with its prices.

ghost use Rattle.std.specs.Prelude.{◌≡◌, ◌+◌, ◌++◌, [], IfOk, OnOk, length};
ghost use Rattle.model_rosters.specs.SoundInstance.{IsSoundInstance};
ghost use Rattle.check_certificates.specs.RosterCauses.{duties, stated_prices};
ghost use Rattle.model_rosters.specs.Folds.{sum_n};
ghost use Rattle.model_rosters.specs.Rosters.{roster_cost};
ghost use Rattle.text_reports.specs.Reports.{HasSoundShifts};
ghost use Rattle.check_values.specs.Causes.{AreFound, causes_of};
ghost use Rattle.check_values.specs.Prices.{price_or_zero, priced, at_prices};
ghost use Rattle.check_values.specs.Values.{IsValued};

use check_parts::{ShiftWorkspace, stated_cost};
use model_rosters::{Instance, List, Memory, Shift};
use std::alloc::Global;
use text_lines::put;
use text_reports::paid;

/// An allowed roster and what it costs.
#[derive(Debug, PartialEq, Eq, Drop)]
pub struct Valued {
    /// The shifts at their prices, in the order in which they were stated.
    pub shifts: List<Shift>,
    /// What the roster costs: `paid` and `penalty` together.
    pub cost: u64,
    /// The sum of the shifts' prices.
    pub paid: u64,
    /// The sum of the cells' penalties.
    pub penalty: u64,
}

// Returns the price of a word, 0 for one that is no shift.
fn price_or_zero(price: Option<u64>) -> u64
    ensures { result ≡ price_or_zero price }
{
    match price {
        Some(price) => price,
        None => 0,
    }
}

// Returns a shift at another price.
fn priced(alloc: Global, shift: &Shift, price: u64) -> Result<Shift, Memory>
    ensures { IfOk result (λ s. s ≡ priced shift.now price) }
{
    let mut word = List::new(alloc);
    put(&mut word, shift.word.as_slice())?;
    Ok(Shift {
        group: shift.group,
        word,
        price,
    })
}

// Appends the shifts at these prices.
fn add_priced(
    alloc: Global,
    out: &mut List<Shift>,
    shifts: &[Shift],
    found: &[Option<u64>],
) -> Result<(), Memory>
    requires { length found.now ≡ length shifts.now }
    ensures { OnOk result (out.new ≡ out.old ++ at_prices shifts.now found.now) }
{
    for (place, shift) in shifts.iter().enumerate() {
        let price = price_or_zero(found[place]);
        out.push(priced(alloc, shift, price)?)?;
    }
    Ok(())
}

// Returns what a roster costs at the prices that its shifts state.
fn cost_of(alloc: Global, instance: &Instance, shifts: &[Shift]) -> Result<u64, Memory>
    requires sound { IsSoundInstance instance.now }
    requires shifts { HasSoundShifts instance.now shifts.now }
    ensures { IfOk result (λ cost. cost ≡ roster_cost instance.now (duties shifts.now)
        (stated_prices shifts.now)) }
{
    let mut room = ShiftWorkspace::new(alloc)?;
    room.keep_all(shifts);
    Ok(stated_cost(instance, room.shifts()))
}

// Returns what shifts at their prices come to.
fn valued_at(alloc: Global, instance: &Instance, shifts: List<Shift>) -> Result<Valued, Memory>
    requires sound { IsSoundInstance instance.now }
    requires shifts { HasSoundShifts instance.now shifts }
    ensures same { IfOk result (λ v. v.shifts ≡ shifts) }
    ensures paid { IfOk result (λ v. v.paid ≡ sum_n (λ p. p) (stated_prices shifts)) }
    ensures cost { IfOk result (λ v. v.cost ≡ roster_cost instance.now (duties shifts)
        (stated_prices shifts)) }
    ensures total { IfOk result (λ v. v.cost ≡ v.paid + v.penalty) }
{
    let cost = cost_of(alloc, instance, shifts.as_slice())?;
    let paid = paid(shifts.as_slice());
    Ok(Valued {
        shifts,
        cost,
        paid,
        penalty: cost - paid,
    })
}

/// Returns what an allowed roster costs, where these are the prices of its words, and no cause is against it.
///
/// # Errors
///
/// `Memory` where memory runs out.
pub(crate) fn value_of(
    alloc: Global,
    instance: &Instance,
    shifts: &[Shift],
    found: &[Option<u64>],
) -> Result<Valued, Memory>
    requires sound { IsSoundInstance instance.now }
    requires shifts { HasSoundShifts instance.now shifts.now }
    requires found { AreFound instance.now shifts.now found.now }
    requires allowed { causes_of instance.now (duties shifts.now) found.now ≡ [] }
    ensures { IfOk result (IsValued instance.now shifts.now) }
{
    let mut priced = List::new(alloc);
    add_priced(alloc, &mut priced, shifts, found)?;
    valued_at(alloc, instance, priced)
}
