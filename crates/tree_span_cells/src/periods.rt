//! Sets of periods.

ghost use Rattle.std.specs.Prelude.{ℕ, ◌≤◌, ◌<◌, ◌↔◌, ◌≡◌, ◌⊎◌, ◌%◌, ◌^◌};
ghost use Rattle.std.specs.Int.{bit_at};
ghost use Rattle.tree_span_cells.specs.Periods.{Has};

/// Some periods of a day, the one after its last among them if need be.
#[derive(Clone, Copy, Drop)]
pub struct Periods {
    // A bit for each number from 0 to 127.
    bits: u128,
}

// The low half of a number.
fn low_half(bits: u128) -> u64
    ensures { result ≡ bits % 2 ^ 64 }
{
    (bits % (1 << 64)) as u64
}

// The place of the lowest bit that is 1.
fn lowest_bit(bits: u128) -> u8
    requires { 0 < bits }
    ensures fits { result < 128 }
    ensures there { bit_at bits result ≡ 1 }
    ensures first { (n : ℕ) → bit_at bits n ≡ 1 → result ≤ n }
{
    let low = low_half(bits);
    if low != 0 {
        low.trailing_zeros() as u8
    } else {
        bits.trailing_zeros() as u8
    }
}

impl Periods {
    /// Returns no periods.
    pub fn none() -> Periods
        ensures { (n : ℕ) → Has result n → ⊥ }
    {
        Periods { bits: 0 }
    }

    /// Returns these periods and one more.
    pub fn with(self, period: u8) -> Periods
        requires { period < 128 }
        ensures added { Has result period }
        ensures kept { (n : ℕ) → Has self n → Has result n }
        ensures only { (n : ℕ) → Has result n → (n ≡ period) ⊎ Has self n }
    {
        Periods {
            bits: self.bits | (1 << period),
        }
    }

    /// Returns the periods that are in both.
    pub fn both(self, other: Periods) -> Periods
        ensures { (n : ℕ) → Has result n ↔ Has self n × Has other n }
    {
        Periods {
            bits: self.bits & other.bits,
        }
    }

    /// Returns the first of these periods from one on and before an end, or the end where there is
    /// none.
    pub fn first_in(self, begin: u8, end: u8) -> u8
        requires order { begin ≤ end }
        requires few { end < 128 }
        ensures low { begin ≤ result }
        ensures high { result ≤ end }
        ensures there { result < end → Has self result }
        ensures first { (n : ℕ) → begin ≤ n → n < end → Has self n → result ≤ n }
    {
        let later = self.bits >> begin;
        if later == 0 {
            return end;
        }
        let first = begin + lowest_bit(later);
        first.min(end)
    }
}
