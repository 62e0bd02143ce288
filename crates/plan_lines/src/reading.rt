//! What the lines so far say.

ghost use Rattle.std.specs.Prelude.{◌≡◌};
ghost use Rattle.plan_lines.specs.Readings.{nothing};

use model_rosters::List;
use plan_fields::{Draft, no_draft};
use plan_words::Day;
use std::alloc::Global;

/// What the lines of a plan so far say.
#[derive(Drop)]
pub(crate) struct Reading {
    /// What the page is called, or nothing.
    pub(crate) title: List<u8>,
    /// The day, where it is said.
    pub(crate) day: Option<Day>,
    /// What the lines behind the day line say.
    pub(crate) draft: Draft,
}

/// Returns what no line says.
pub(crate) fn nothing(alloc: Global) -> Reading
    ensures { result ≡ nothing }
{
    Reading {
        title: List::new(alloc),
        day: None,
        draft: no_draft(alloc),
    }
}
