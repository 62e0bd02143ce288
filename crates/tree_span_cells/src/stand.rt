//! Where a rule may stand.

ghost use Rattle.std.specs.Prelude.{◌≤◌, ◌↔◌, IsTrue};
ghost use Rattle.model_rosters.specs.Grammar.{IsInWindow, Stands};

use model_rosters::{Rule, Window};

// Says whether a number is in a window.
fn holds(window: Window, n: u8) -> bool
    ensures { IsTrue result ↔ IsInWindow window n }
{
    window.lo <= n && n <= window.hi
}

/// Returns whether a rule may stand on the span of `len` periods that begins at `start`, in a day
/// of `periods` periods: the span is one of the day, and the rule's windows hold its length, its
/// first and its last period.
pub fn may_stand(rule: &Rule, periods: u8, start: u8, len: u8) -> bool
    requires start { (1 ≤ start) × (start ≤ 96) }
    requires len { (1 ≤ len) × (len ≤ 96) }
    ensures { IsTrue result ↔ Stands periods rule.now start len }
{
    let end = start + len - 1;
    end <= periods && holds(rule.span, len) && holds(rule.first, start) && holds(rule.last, end)
}
