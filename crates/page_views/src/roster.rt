//! A roster to show.

ghost use Rattle.std.specs.Prelude.{◌≡◌};
ghost use Rattle.page_views.specs.Shown.{certified, stated};

use check_certificates::Cert;
use check_values::Valued;
use model_rosters::{List, Shift};

/// A roster to show, or that there is none, with what is proved of the cost.
#[derive(Debug, PartialEq, Eq, Drop)]
pub struct ShownRoster {
    /// The shifts of the roster at their prices, at most 64; none where there is no roster.
    pub shifts: List<Shift>,
    /// What the roster costs, or none where there is no roster.
    pub cost: Option<u64>,
    /// No allowed roster costs less; 0 proves nothing, and none says that no roster is allowed.
    pub bound: Option<u64>,
    /// Whether a report states the roster, and not a certificate.
    pub is_stated: bool,
}

/// Returns the roster of a certificate, and its bound.
pub fn certified(cert: Cert) -> ShownRoster
    ensures { result ≡ certified cert }
{
    ShownRoster {
        shifts: cert.shifts,
        cost: cert.cost,
        bound: cert.bound,
        is_stated: false,
    }
}

/// Returns an allowed roster that was stated; nothing is proved of its cost.
pub fn stated(value: Valued) -> ShownRoster
    ensures { result ≡ stated value }
{
    ShownRoster {
        shifts: value.shifts,
        cost: Some(value.cost),
        bound: Some(0),
        is_stated: true,
    }
}
