//! Clock text.

ghost use Rattle.std.specs.Prelude.{◌≡◌, ◌≤◌, ◌^◌, ◌++◌, [], ◌∷◌, OnOk};
ghost use Rattle.std.specs.Fmt.{decimal};
ghost use Rattle.plan_words.specs.ClockText.{clock_text, two_text};

use model_rosters::{List, Memory};
use text_lines::{put, write_number};

// Appends two digits of a number below 100.
#[tactic(auto, unfolding(crate::specs::ClockText::two_text))]
fn put_two(out: &mut List<u8>, value: u8) -> Result<(), Memory>
    requires { value ≤ 99 }
    ensures { OnOk result (out.new ≡ out.old ++ two_text value) }
{
    put(out, &[48 + value / 10, 48 + value % 10])
}

/// Appends hours and two digits of minutes, as `9:05`.
///
/// # Errors
///
/// `Memory` where memory runs out; a part may stand in `out` then.
#[tactic(auto, unfolding(crate::specs::ClockText::clock_text))]
pub fn put_clock(out: &mut List<u8>, minutes: u128) -> Result<(), Memory>
    ensures { OnOk result (out.new ≡ out.old ++ clock_text minutes) }
{
    write_number(out, (minutes / 60) as i128)?;
    put(out, b":")?;
    put_two(out, (minutes % 60) as u8)
}
