//! The marks of a day's teams.

ghost use Rattle.std.specs.Prelude.{◌↔◌, ◌⊎◌, IsTrue};
ghost use Rattle.tree_findings.specs.Findings.{EitherUsesRule, EitherUsesName, EitherUsesCode};
ghost use Rattle.tree_findings.specs.Marks.{IsSet};
ghost use Rattle.tree_findings.specs.Shifts.{AreShifts};
ghost use Rattle.tree_findings.specs.Used.{HasTree, UsesName, FillsDay, HasLetter};

use crate::marks::is_set;
use crate::used::Used;
use model_rosters::Grammar;

/// The shifts of a day: those of the rules' own start name, and those of the day's teams. Without groups
/// both are the same.
#[derive(Clone, Copy)]
pub struct Shifts<'a> {
    /// The grammar of the rules text.
    pub own: &'a Grammar,
    /// What the trees of its day use.
    pub own_used: &'a Used,
    /// The grammar of the day.
    pub day: &'a Grammar,
    /// What the trees of its day use.
    pub day_used: &'a Used,
}

// Whether one of both marks is set.
fn is_either(own: &[bool], day: &[bool], place: usize) -> bool
    ensures { IsTrue result ↔ (IsSet own.now place ⊎ IsSet day.now place) }
{
    is_set(own, place) || is_set(day, place)
}

/// Returns whether a shift uses the rule of a number.
pub(crate) fn uses_rule(shifts: &Shifts<'_>, rule: usize) -> bool
    requires { AreShifts shifts.now }
    ensures { IsTrue result ↔ EitherUsesRule shifts.now.own.now shifts.now.day.now rule }
{
    is_either(
        shifts.own_used.rules.as_slice(),
        shifts.day_used.rules.as_slice(),
        rule,
    )
}

/// Returns whether a shift uses a name.
pub(crate) fn uses_name(shifts: &Shifts<'_>, name: usize) -> bool
    requires { AreShifts shifts.now }
    ensures { IsTrue result ↔ EitherUsesName shifts.now.own.now shifts.now.day.now name }
{
    is_either(
        shifts.own_used.names.as_slice(),
        shifts.day_used.names.as_slice(),
        name,
    )
}

/// Returns whether a shift has a code.
pub(crate) fn uses_code(shifts: &Shifts<'_>, code: usize) -> bool
    requires { AreShifts shifts.now }
    ensures { IsTrue result ↔ EitherUsesCode shifts.now.own.now shifts.now.day.now code }
{
    is_either(
        shifts.own_used.codes.as_slice(),
        shifts.day_used.codes.as_slice(),
        code,
    )
}

/// Returns whether a shift of the day's teams uses a name.
pub(crate) fn day_uses_name(shifts: &Shifts<'_>, name: usize) -> bool
    requires { AreShifts shifts.now }
    ensures { IsTrue result ↔ UsesName shifts.now.day.now name }
{
    is_set(shifts.day_used.names.as_slice(), name)
}

/// Returns whether the day's teams have shifts.
pub(crate) fn has_tree(shifts: &Shifts<'_>) -> bool
    requires { AreShifts shifts.now }
    ensures { IsTrue result ↔ HasTree shifts.now.day.now }
{
    day_uses_name(shifts, shifts.day.start as usize)
}

/// Returns whether a name stands on the whole day in a shift of the rules' own start name.
pub(crate) fn fills_day(shifts: &Shifts<'_>, name: usize) -> bool
    requires { AreShifts shifts.now }
    ensures { IsTrue result ↔ FillsDay shifts.now.own.now name }
{
    is_set(shifts.own_used.days.as_slice(), name)
}

/// Returns whether a shift of the day's teams has a code in a period.
pub(crate) fn has_letter(shifts: &Shifts<'_>, code: u8, period: u8) -> bool
    requires { AreShifts shifts.now }
    ensures { IsTrue result ↔ HasLetter shifts.now.day.now (record { code = code; period = period }) }
{
    is_set(
        shifts.day_used.letters.as_slice(),
        code as usize * 256 + period as usize,
    )
}
