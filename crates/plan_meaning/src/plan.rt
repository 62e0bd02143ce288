//! What a plan says.

use model_rosters::List;

/// A time as it is written.
#[derive(Clone, Copy, Debug, PartialEq, Eq, Drop)]
pub struct Time {
    /// The minutes behind midnight, 0 to 1,440.
    pub minute: u32,
    /// Whether it is the next day's: that of the day after the one on which the plan's day begins.
    pub next_day: bool,
}

/// Two times of the day, of which both count.
#[derive(Clone, Copy, Debug, PartialEq, Eq, Drop)]
pub struct Times {
    pub from: Time,
    pub to: Time,
}

/// The least and the greatest length in minutes, of which both count.
#[derive(Clone, Copy, Debug, PartialEq, Eq, Drop)]
pub struct Lengths {
    pub least: u32,
    pub greatest: u32,
}

/// When the day begins and ends, and how long its periods are.
#[derive(Clone, Copy, Debug, PartialEq, Eq, Drop)]
pub struct PlanDay {
    /// The minutes behind midnight at which the day begins, 0 to 1,440.
    pub begin: u32,
    /// When it ends, which is an end: the first such time behind the begin.
    pub end: Time,
    /// How many minutes a period has, 1 to 720.
    pub minutes: u32,
}

/// What amounts are counted in.
#[derive(Debug, PartialEq, Eq, Drop)]
pub struct Money {
    /// One word of 1 to 20 bytes.
    pub name: List<u8>,
    /// How many decimals amounts have, 0 to 3. A unit is the last of them.
    pub decimals: u8,
}

/// A code of work, or a pause: a code that is no work.
#[derive(Debug, PartialEq, Eq, Drop)]
pub struct PlanCode {
    /// The letter that stands for the code in a word: a letter or a digit.
    pub code: u8,
    /// Whether it is a code of work.
    pub work: bool,
    /// How long a block of it lasts, or a rest.
    pub lasts: Lengths,
    /// What an hour of it costs in units.
    pub hour: u32,
    /// What it is called, 1 to 60 bytes.
    pub words: List<u8>,
}

/// In some time of the day an hour of a code costs more.
#[derive(Clone, Copy, Debug, PartialEq, Eq, Drop)]
pub struct Extra {
    /// The code.
    pub code: u8,
    /// From when to when: a begin and an end.
    pub times: Times,
    /// How much more an hour costs then, in units.
    pub hour: u32,
}

/// A part of a duty.
#[derive(Debug, PartialEq, Eq, Drop)]
pub enum Part {
    /// A stretch of work over these codes, at least one.
    Work(List<u8>),
    /// A rest of a pause, and between which times it begins, where the line says so.
    Pause(u8, Option<Times>),
}

/// A duty line.
#[derive(Debug, PartialEq, Eq, Drop)]
pub struct Duty {
    /// The number of the line that says it, from 1.
    pub line: u32,
    /// The name, which several lines may have: they are alternatives.
    pub name: List<u8>,
    /// How long a duty lasts, with its pauses.
    pub lasts: Lengths,
    /// What a duty costs in units, beside its hours and its changes.
    pub cost: u32,
    /// Its parts in order, 1 to 8.
    pub parts: List<Part>,
    /// Between which times a duty begins, where the line says so.
    pub begins: Option<Times>,
    /// Between which times a duty ends, where the line says so.
    pub ends: Option<Times>,
    /// How long its stretches last, where the line says so; else as the plan has it.
    pub stretch: Option<Lengths>,
    /// How much more by this line an hour costs of work, and of a pause whose line costs; in units.
    pub plus: u32,
}

/// How many employees work: of those of a duty name, or all together.
#[derive(Debug, PartialEq, Eq, Drop)]
pub struct Staff {
    /// The duty name, or none where the line is of all employees.
    pub name: Option<List<u8>>,
    /// The least number of employees, 0 to 64.
    pub least: u8,
    /// The greatest number of employees, 1 to 64.
    pub greatest: u8,
    /// What these employees are called, at most 60 bytes; nothing where the line does not say it.
    pub words: List<u8>,
}

/// What it costs where employees are missing or needless.
#[derive(Clone, Copy, Debug, PartialEq, Eq, Drop)]
pub struct Need {
    /// The code of work.
    pub code: u8,
    /// What an hour of a missing employee costs in units.
    pub missing: u32,
    /// What an hour of a needless employee costs in units.
    pub needless: u32,
}

/// One day in a planner's words.
#[derive(Debug, PartialEq, Eq, Drop)]
pub struct Plan {
    /// What the page is called, at most 60 bytes, or nothing.
    pub title: List<u8>,
    /// When the day begins and ends.
    pub day: PlanDay,
    /// What amounts are counted in, where it is said; else whole amounts are units.
    pub money: Option<Money>,
    /// The codes of work and the pauses, in the order of their lines; at most 8 and 23.
    pub codes: List<PlanCode>,
    /// Where codes cost more, in the order of the lines.
    pub extras: List<Extra>,
    /// What a change of activity within a stretch costs in units; none where none may change.
    pub change: Option<u32>,
    /// How long work lasts without a pause.
    pub stretch: Lengths,
    /// Duties begin at whole multiples of so many minutes by the clock, where it is said.
    pub starts: Option<u32>,
    /// The duty lines in order.
    pub duties: List<Duty>,
    /// The staff lines in order: one without a name, or 1 to 8 with names.
    pub staff: List<Staff>,
    /// The need lines in order, at most one of a code.
    pub needs: List<Need>,
}
