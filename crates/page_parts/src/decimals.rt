//! Numbers with decimals.

ghost use Rattle.std.specs.Prelude.{◌≡◌, ◌++◌, ◌∷◌, [], OnOk};
ghost use Rattle.std.specs.Fmt.{decimal};
ghost use Rattle.page_parts.specs.Elements as page;
ghost use Rattle.page_parts.specs.Elements.{all_decimals, decimal_at, decimals_behind, tenths, written};

use crate::element::digits;
use model_rosters::{List, Memory};
use text_lines::put;

// Returns a number that is divided by ten so many times.
fn tenths(times: u8, value: u64) -> u64
    ensures { result ≡ tenths times value }
{
    let mut rest = value;
    for _done in 0..times {
        rest /= 10;
    }
    rest
}

// Appends the decimal behind so many others.
fn decimal_at(out: &mut List<u8>, decimals: u8, value: u64, place: u8) -> Result<(), Memory>
    ensures { OnOk result (out.new ≡ out.old ++ decimal_at decimals value place) }
{
    let times = decimals.saturating_sub(place).saturating_sub(1);
    digits(out, tenths(times, value) % 10)
}

// Appends the decimals.
fn all_decimals(out: &mut List<u8>, decimals: u8, value: u64) -> Result<(), Memory>
    ensures { OnOk result (out.new ≡ out.old ++ all_decimals decimals value) }
{
    for place in 0..decimals {
        decimal_at(out, decimals, value, place)?;
    }
    Ok(())
}

// Appends a point and the decimals, where there are any.
#[tactic(auto, unfolding(crate::specs::Elements::decimals_behind))]
fn decimals_behind(out: &mut List<u8>, decimals: u8, value: u64) -> Result<(), Memory>
    ensures { OnOk result (out.new ≡ out.old ++ decimals_behind decimals value) }
{
    if decimals > 0 {
        put(out, b".")?;
        all_decimals(out, decimals, value)?;
    }
    Ok(())
}

/// Appends an amount in units of 10 to the power of minus so many decimals: 1205 with two of them is `12.05`.
///
/// # Errors
///
/// `Memory` where memory runs out; a part may stand in `out` then.
#[tactic(auto, unfolding(crate::specs::Elements::element_text))]
pub fn units(out: &mut List<u8>, decimals: u8, value: u64) -> Result<(), Memory>
    ensures { OnOk result (out.new ≡ out.old ++ written (page.units decimals value ∷ [])) }
{
    digits(out, tenths(decimals, value))?;
    decimals_behind(out, decimals, value)?;
    Ok(())
}
