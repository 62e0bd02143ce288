//! Duty lines compared.

ghost use Rattle.std.specs.Prelude.{◌≡◌, nat_eq};
ghost use Rattle.plan_names.specs.Same.{
  same_activity,
  same_bounds,
  same_duty,
  same_frame,
  same_lines,
  same_part,
  same_set,
  same_times,
  same_window,
};
ghost use lib.Pointwise.{pointwise};

use model_rosters::Window;
use plan_laws::{Activity, NamedLines, PeriodDuty, PeriodPart};

/// Says whether two sets are the same.
pub(crate) fn same_set(one: &[Activity], two: &[Activity]) -> bool
    ensures { result ≡ same_set one.now two.now }
{
    one == two
}

/// Says whether two windows are the same, or there is none.
pub(crate) fn same_times(one: Option<Window>, two: Option<Window>) -> bool
    ensures { result ≡ same_times one two }
{
    one == two
}

// Says whether two activities are the same.
fn same_activity(one: &Activity, two: &Activity) -> bool
    ensures { result ≡ same_activity one.now two.now }
{
    *one == *two
}

// Says whether two windows are the same.
fn same_window(one: Window, two: Window) -> bool
    ensures { result ≡ same_window one two }
{
    one == two
}

// Says whether two parts of duties are the same.
fn same_part(one: &PeriodPart, two: &PeriodPart) -> bool
    ensures { result ≡ same_part one.now two.now }
{
    match (one, two) {
        (PeriodPart::Working(one), PeriodPart::Working(two)) => {
            same_set(one.as_slice(), two.as_slice())
        }
        (PeriodPart::Pausing(one, times), PeriodPart::Pausing(two, other)) => {
            same_activity(one, two) && same_times(*times, *other)
        }
        (PeriodPart::Working(_), PeriodPart::Pausing(_, _)) => false,
        (PeriodPart::Pausing(_, _), PeriodPart::Working(_)) => false,
    }
}

// Says whether the parts of two duties are the same.
fn same_parts(one: &[PeriodPart], two: &[PeriodPart]) -> bool
    ensures { result ≡ pointwise same_part one.now two.now }
{
    if one.len() != two.len() {
        return false;
    }
    for place in 0..one.len() {
        if !same_part(&one[place], &two[place]) {
            return false;
        }
    }
    true
}

// Says whether two duty lines have the same length, cost and parts.
fn same_frame(one: &PeriodDuty, two: &PeriodDuty) -> bool
    ensures { result ≡ same_frame one.now two.now }
{
    same_window(one.length, two.length)
        && one.cost == two.cost
        && same_parts(one.parts.as_slice(), two.parts.as_slice())
}

// Says whether two duty lines have the same begins, ends, stretches and plus.
fn same_bounds(one: &PeriodDuty, two: &PeriodDuty) -> bool
    ensures { result ≡ same_bounds one.now two.now }
{
    same_window(one.begin, two.begin)
        && same_window(one.end, two.end)
        && same_window(one.stretch, two.stretch)
        && one.plus == two.plus
}

// Says whether two duty lines are the same.
fn same_duty(one: &PeriodDuty, two: &PeriodDuty) -> bool
    ensures { result ≡ same_duty one.now two.now }
{
    same_frame(one, two) && same_bounds(one, two)
}

// Says whether duty lines are the same.
fn same_duties(one: &[PeriodDuty], two: &[PeriodDuty]) -> bool
    ensures { result ≡ pointwise same_duty one.now two.now }
{
    if one.len() != two.len() {
        return false;
    }
    for place in 0..one.len() {
        if !same_duty(&one[place], &two[place]) {
            return false;
        }
    }
    true
}

// Says whether two names are the same.
fn same_bytes(one: &[u8], two: &[u8]) -> bool
    ensures { result ≡ pointwise nat_eq one.now two.now }
{
    one == two
}

/// Says whether the lines of two duty names are the same, and so are the names.
pub(crate) fn same_named(one: &NamedLines, two: &NamedLines) -> bool
    ensures { result ≡ same_lines one.now two.now }
{
    same_bytes(one.name.as_slice(), two.name.as_slice())
        && same_duties(one.lines.as_slice(), two.lines.as_slice())
}

/// Says whether the lines of duty names are the same, and so are the names.
pub(crate) fn same_all(one: &[NamedLines], two: &[NamedLines]) -> bool
    ensures { result ≡ pointwise same_lines one.now two.now }
{
    if one.len() != two.len() {
        return false;
    }
    for place in 0..one.len() {
        if !same_named(&one[place], &two[place]) {
            return false;
        }
    }
    true
}
