//! What a column brings to a chart.

/// What a column brings to a chart.
#[derive(Clone, Copy, Drop)]
pub(crate) enum Ink {
    /// Its bars.
    Bars,
    /// A step of the line of the need.
    Need,
    /// A line at its floor.
    Floor,
    /// A line at its ceiling.
    Ceiling,
    /// How many employees are needed.
    Needed,
    /// How many employees work.
    Had,
    /// How many employees are missing.
    Short,
    /// How many employees there are beyond the need.
    Over,
}
