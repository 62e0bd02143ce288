//! A bound against what the nodes show.

ghost use Rattle.std.specs.Prelude.{◌≡◌, ◌≤◌, ◌<◌, MatchOption};
ghost use Rattle.model_rosters.specs.SoundInstance.{IsSoundInstance};
ghost use Rattle.check_certificates.specs.certificate_laws.Accepted.{bound_number};
ghost use Rattle.check_certificates.specs.certificate_laws.Causes.{stated_bound};

use check_certificates::Why;
use model_rosters::{Instance, greatest_cost};

// Returns a bound as a number: none is one more than the greatest cost of a roster.
fn bound_number(instance: &Instance, bound: Option<u64>) -> u64
    requires { IsSoundInstance instance.now }
    ensures { result ≡ bound_number instance.now bound }
{
    match bound {
        Some(bound) => bound,
        None => greatest_cost(instance) + 1,
    }
}

// Returns a shown value as it is stated: one more than the greatest cost is none.
fn stated_bound(instance: &Instance, shown: u64) -> Option<u64>
    requires { IsSoundInstance instance.now }
    ensures { result ≡ stated_bound instance.now shown }
{
    if shown == greatest_cost(instance) + 1 {
        None
    } else {
        Some(shown)
    }
}

/// Returns that a bound is above what the nodes show, where it is.
pub(crate) fn bound_cause(instance: &Instance, bound: Option<u64>, shown: u64) -> Option<Why>
    requires { IsSoundInstance instance.now }
    ensures { MatchOption result (bound_number instance.now bound ≤ shown)
        (λ why. (shown < bound_number instance.now bound)
        × (why ≡ Why.BoundTooHigh bound (stated_bound instance.now shown))) }
{
    if shown < bound_number(instance, bound) {
        return Some(Why::BoundTooHigh {
            said: bound,
            shown: stated_bound(instance, shown),
        });
    }
    None
}
