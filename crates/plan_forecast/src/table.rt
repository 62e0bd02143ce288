//! What the lines so far say.

ghost use Rattle.std.specs.Prelude.{◌≡◌};
ghost use Rattle.plan_forecast.specs.Headings.{asks, same_kind};

use model_rosters::List;

/// What is asked of a code: how many employees are needed, must be there, or may be there.
#[derive(Clone, Copy, Debug, PartialEq, Eq, Drop)]
pub enum Kind {
    Need,
    Least,
    Most,
}

/// What a heading asks.
#[derive(Clone, Copy, Debug, PartialEq, Eq, Drop)]
pub struct Asked {
    /// The code of work.
    pub code: u8,
    /// What is asked of it.
    pub kind: Kind,
}

/// What the lines so far say.
#[derive(Debug, Drop)]
pub struct Table {
    /// What parts cells; nothing before the first line.
    pub separator: Option<u8>,
    /// The headings behind the word `time`, of which empty ones ask nothing.
    pub headings: List<Option<Asked>>,
    /// How many minutes a step has, as the second row tells; 0 before it.
    pub step: u32,
    /// A number for each heading, row by row; 0 under an empty one.
    pub rows: List<List<u8>>,
    /// The number of the line of the last row.
    pub line: u32,
}

// Whether the same is asked.
fn same_kind(a: Kind, b: Kind) -> bool
    ensures { result ≡ same_kind a b }
{
    match (a, b) {
        (Kind::Need, Kind::Need) | (Kind::Least, Kind::Least) | (Kind::Most, Kind::Most) => true,
        _ => false,
    }
}

/// Whether a heading asks this.
pub(crate) fn asks(code: u8, kind: Kind, heading: &Option<Asked>) -> bool
    ensures { result ≡ asks code kind heading.now }
{
    match heading {
        Some(asked) => asked.code == code && same_kind(asked.kind, kind),
        None => false,
    }
}
