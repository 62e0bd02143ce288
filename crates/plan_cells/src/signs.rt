//! Which signs may stand.

ghost use Rattle.std.specs.Prelude.{◌≡◌};
ghost use Rattle.std.specs.List.{list_all};
ghost use Rattle.std.specs.Str.{chars};
ghost use Rattle.plan_cells.specs.Signs.{is_control, is_turn, may_stand, sign_fault};

use crate::fault::CellFault;

// Whether a sign is a control sign.
fn is_control(code: u32) -> bool
    ensures { result ≡ is_control code }
{
    code < 0x20 || (0x7f <= code && code <= 0x9f)
}

// Whether a sign ends a line or turns the direction of a text.
fn is_turn(code: u32) -> bool
    ensures { result ≡ is_turn code }
{
    (0x2028 <= code && code <= 0x202e) || (0x2066 <= code && code <= 0x2069)
}

// Whether a line may hold a sign.
fn may_stand(code: u32) -> bool
    ensures { result ≡ may_stand code }
{
    code == 9 || (!is_control(code) && !is_turn(code))
}

// Whether a line may hold all signs of a text.
fn may_all_stand(text: &str) -> bool
    ensures { result ≡ list_all may_stand (chars text.now) }
{
    let mut passed: usize = 0;
    for c in text.chars() {
        if !may_stand(c as u32) {
            return false;
        }
        passed += 1;
    }
    true
}

/// Returns why a line cannot stand by its signs, if it cannot: it must be UTF-8 without control signs but
/// tabs.
#[tactic(auto, unfolding(crate::specs::Signs::sign_fault))]
pub fn sign_fault(bytes: &[u8]) -> Option<CellFault>
    ensures { result ≡ sign_fault bytes.now }
{
    match std::str::from_utf8(bytes) {
        Ok(text) if may_all_stand(text) => None,
        Ok(_) => Some(CellFault::ControlSign),
        Err(_) => Some(CellFault::NoUtf8),
    }
}
