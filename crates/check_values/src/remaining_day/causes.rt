//! Those causes of `check_values` that further shifts do not mend, in their order.

ghost use Rattle.std.specs.Prelude.{◌≡◌, ◌≤◌, ◌++◌, [], ◌∷◌, IfOk, OnOk, filter, length};
ghost use Rattle.model_rosters.specs.SoundInstance.{IsSoundInstance};
ghost use Rattle.check_certificates.specs.RosterCauses.{duties};
ghost use Rattle.check_values.specs.remaining_day.Causes.{is_lasting, causes_of};

use crate::Cause;
use model_rosters::{Instance, List, Memory, Shift};
use std::alloc::Global;

// Whether further shifts do not mend a cause.
fn is_lasting(cause: &Cause) -> bool
    ensures { result ≡ is_lasting cause.now }
{
    match cause {
        Cause::NoShift { .. } => true,
        Cause::TooFew { .. } | Cause::BelowFloor { .. } => false,
        Cause::TooMany { .. } | Cause::AboveCeiling { .. } => true,
    }
}

// Appends a cause, if further shifts do not mend it.
fn add_lasting(out: &mut List<Cause>, cause: &Cause) -> Result<(), Memory>
    ensures { OnOk result (out.new ≡ out.old ++ filter is_lasting (cause.now ∷ [])) }
{
    if is_lasting(cause) {
        return out.push(*cause);
    }
    Ok(())
}

// Returns those of the causes that further shifts do not mend.
fn lasting(alloc: Global, causes: &[Cause]) -> Result<List<Cause>, Memory>
    ensures { IfOk result (λ kept. kept ≡ filter is_lasting causes.now) }
{
    let mut out = List::new(alloc);
    for cause in causes {
        add_lasting(&mut out, cause)?;
    }
    Ok(out)
}

/// Returns each cause for which no roster of the day has the shifts, at most 64, whose prices these are.
///
/// # Errors
///
/// `Memory` where memory runs out.
pub(crate) fn causes_of(
    alloc: Global,
    instance: &Instance,
    shifts: &[Shift],
    found: &[Option<u64>],
) -> Result<List<Cause>, Memory>
    requires sound { IsSoundInstance instance.now }
    requires few { length shifts.now ≤ 64 }
    requires found { length found.now ≤ 64 }
    ensures { IfOk result (λ causes. causes ≡ causes_of instance.now (duties shifts.now) found.now) }
{
    let all = crate::causes_of(alloc, instance, shifts, found)?;
    lasting(alloc, all.as_slice())
}
