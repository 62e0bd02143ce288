//! What all events share.

use crate::roster_calendar::date::Date;
use page_labels::Clock;

/// What all events of a calendar share.
#[derive(Clone, Copy, Debug, PartialEq, Eq, Drop)]
pub struct Setting {
    /// The day of the roster.
    pub date: Date,
    /// When the first period begins, and how long a period is.
    pub clock: Clock,
}
