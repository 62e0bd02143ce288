//! How many shifts of a team are kept.

ghost use Rattle.std.specs.Prelude.{◌≡◌, ◌≤◌, length, nat_eq, count_by};
ghost use Rattle.check_certificates.specs.RosterCauses.{duties};
ghost use Rattle.check_values.specs.remaining_day.Remaining.{kept_of};

use model_rosters::Shift;

// How many of the shifts are of the team of a number.
fn members(shifts: &[Shift], number: u8) -> usize
    ensures { result ≡ count_by (λ shift. nat_eq shift.group number) shifts.now }
{
    shifts.iter().filter(|shift| shift.group == number).count()
}

/// Returns how many of the shifts, at most 64, are of the team of a number.
pub(crate) fn kept_of(shifts: &[Shift], number: u8) -> u32
    requires { length shifts.now ≤ 64 }
    ensures value { result ≡ kept_of number (duties shifts.now) }
    ensures few { result ≤ 64 }
{
    members(shifts, number) as u32
}
