//! A plan in numbers of periods.

use model_rosters::{List, Window};

/// A code of work, or a pause.
#[derive(Clone, Copy, Debug, PartialEq, Eq, Drop)]
pub struct Activity {
    /// The letter that stands for it in a word.
    pub code: u8,
    /// Whether it is a code of work.
    pub work: bool,
    /// The least number of periods of a block of it.
    pub least: u8,
    /// The greatest number of periods of a block of it.
    pub greatest: u8,
    /// What a period of it costs.
    pub amount: u32,
}

/// In some periods a period of a code costs more.
#[derive(Clone, Copy, Debug, PartialEq, Eq, Drop)]
pub struct PeriodExtra {
    /// The code.
    pub code: u8,
    /// The periods.
    pub periods: Window,
    /// How much more a period of it costs then.
    pub amount: u32,
}

/// A part of a duty.
#[derive(Debug, PartialEq, Eq, Drop)]
pub enum PeriodPart {
    /// Work of these activities.
    Working(List<Activity>),
    /// A pause, and the periods that it may begin in, where the line says so.
    Pausing(Activity, Option<Window>),
}

/// A duty line.
#[derive(Debug, PartialEq, Eq, Drop)]
pub struct PeriodDuty {
    /// How many periods a duty has.
    pub length: Window,
    /// What a duty costs beside its periods and its changes.
    pub cost: u32,
    /// Its parts in order.
    pub parts: List<PeriodPart>,
    /// Its first period.
    pub begin: Window,
    /// Its last period.
    pub end: Window,
    /// How many periods its stretches have.
    pub stretch: Window,
    /// How much more by this line a period costs of what is paid.
    pub plus: u32,
}

/// The duty lines of a duty name, or all lines under no name.
#[derive(Debug, PartialEq, Eq, Drop)]
pub struct NamedLines {
    /// The name; no byte where there is none.
    pub name: List<u8>,
    /// The lines in order.
    pub lines: List<PeriodDuty>,
}

/// A plan in numbers of periods.
#[derive(Debug, PartialEq, Eq, Drop)]
pub struct PeriodPlan {
    /// How many periods the day has.
    pub periods: u8,
    /// The letter of time off.
    pub off: u8,
    /// The codes of work and the pauses.
    pub activities: List<Activity>,
    /// Where codes cost more.
    pub extras: List<PeriodExtra>,
    /// What a change of activity within a stretch costs; none where none may change.
    pub change: Option<u32>,
    /// A duty may begin behind `first_start` periods, and then every so many; 1 where nothing is said.
    pub starts: u8,
    /// How many periods are before the first start.
    pub first_start: u8,
}
