//! Hours and minutes in digits.

ghost use Rattle.std.specs.Prelude.{◌≡◌, ◌≤◌, ◌<◌, ◌-◌, IfSome};
ghost use Rattle.text_lines.specs.Numbers.{is_digit};
ghost use Rattle.plan_words.specs.Digits.{is_clock, minutes_at, two};

/// Whether a byte is a digit.
pub(crate) fn is_digit(byte: u8) -> bool
    ensures { result ≡ is_digit byte }
{
    48 <= byte && byte <= 57
}

/// Returns the number that a digit says.
pub(crate) fn digit(byte: u8) -> u32
    ensures value { result ≡ byte - 48 }
    ensures small { result ≤ 207 }
{
    byte.saturating_sub(48) as u32
}

// Returns the number that two digits say.
fn two(tens: u8, ones: u8) -> u32
    ensures value { result ≡ two tens ones }
    ensures small { result ≤ 2277 }
{
    10 * digit(tens) + digit(ones)
}

// Whether these are two digits, a colon and two digits.
fn is_clock(g: u8, h: u8, colon: u8, a: u8, b: u8) -> bool
    ensures { result ≡ is_clock g h colon a b }
{
    colon == 58 && is_digit(g) && is_digit(h) && is_digit(a) && is_digit(b)
}

/// Returns the minutes that two digits, a colon and two digits say, of which the last two are below 60.
#[tactic(auto, unfolding(crate::specs::Digits::minutes_at))]
pub(crate) fn minutes_at(g: u8, h: u8, colon: u8, a: u8, b: u8) -> Option<u32>
    ensures value { result ≡ minutes_at g h colon a b }
    ensures small { IfSome result (λ n. n ≤ 136679) }
{
    if !is_clock(g, h, colon, a, b) || 59 < two(a, b) {
        return None;
    }
    Some(60 * two(g, h) + two(a, b))
}
