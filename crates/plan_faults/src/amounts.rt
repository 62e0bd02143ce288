//! Amounts, as they are told.

ghost use Rattle.std.specs.Prelude.{◌≡◌, ◌≤◌, ◌/◌, ◌%◌, ◌++◌, OnOk};
ghost use Rattle.plan_words.specs.Amounts.{scale};
ghost use Rattle.plan_faults.specs.Amounts.{amount_text, behind_point};

use crate::counts::put_number;
use model_rosters::{List, Memory};
use text_lines::put;

// Returns how many units a whole has at so many decimals, 0 to 3.
#[tactic(auto, unfolding(plan_words::specs::Amounts::scale))]
fn scale(decimals: u8) -> u64
    ensures value { result ≡ scale decimals }
    ensures some { 1 ≤ result }
{
    match decimals {
        0 => 1,
        1 => 10,
        2 => 100,
        _ => 1000,
    }
}

// Appends a point and the units behind it.
#[tactic(auto, unfolding(crate::specs::Amounts::behind_point))]
fn put_behind_point(out: &mut List<u8>, decimals: u8, units: u64) -> Result<(), Memory>
    ensures { OnOk result (out.new ≡ out.old ++ behind_point decimals units) }
{
    let tens = 48 + (units / 10 % 10) as u8;
    let ones = 48 + (units % 10) as u8;
    match decimals {
        0 => Ok(()),
        1 => put(out, &[b'.', ones]),
        2 => put(out, &[b'.', tens, ones]),
        _ => put(out, &[b'.', 48 + (units / 100 % 10) as u8, tens, ones]),
    }
}

/// Appends an amount in units of so many decimals, 0 to 3: 1388 with two of them is `13.88`.
///
/// # Errors
///
/// `Memory` where memory runs out; a part may stand in `out` then.
pub fn put_amount(out: &mut List<u8>, decimals: u8, units: u64) -> Result<(), Memory>
    ensures { OnOk result (out.new ≡ out.old ++ amount_text decimals units) }
{
    put_number(out, units / scale(decimals))?;
    put_behind_point(out, decimals, units)
}
