//! How often a code is had, and how many shifts a group has.

ghost use Rattle.std.specs.Prelude.{◌≡◌, ◌≤◌, ◌+◌, All, count_by, length};
ghost use Rattle.model_shift_figures.specs.Totals.{code_total, group_count, is_byte, is_of_group};

use model_rosters::Shift;

// How many letters of a word are this byte.
fn letters_of(byte: u8, word: &[u8]) -> usize
    ensures count { result ≡ count_by (is_byte byte) word.now }
    ensures few { result ≤ length word.now }
{
    word.iter().filter(|letter| **letter == byte).count()
}

/// Returns in how many periods of at most 64 shifts the code of a byte stands.
pub fn code_total(byte: u8, shifts: &[Shift]) -> u64
    requires few { length shifts.now ≤ 64 }
    requires short { All (λ s. length s.word ≤ 96) shifts.now }
    ensures { result ≡ code_total byte shifts.now 0 }
{
    let mut sum: u64 = 0;
    for shift in shifts {
        sum += letters_of(byte, shift.word.as_slice()) as u64;
    }
    sum
}

/// Returns how many of the shifts are of the group with this number.
pub fn group_count(group: u8, shifts: &[Shift]) -> usize
    ensures { result ≡ group_count group shifts.now }
{
    shifts.iter().filter(|shift| shift.group == group).count()
}
