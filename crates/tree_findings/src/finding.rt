//! The kinds of findings.

/// Which window of a rule.
#[derive(Clone, Copy, Debug, PartialEq, Eq, Drop)]
pub enum WindowKind {
    /// The lengths of the spans on which the rule may stand.
    Length,
    /// The periods in which such a span may begin.
    First,
    /// The periods in which such a span may end.
    Last,
}

/// Something odd about the rules and the demand of a day. Rules are told by their numbers, from 1, names and
/// codes by their positions in the grammar.
#[derive(Clone, Copy, Debug, PartialEq, Eq, Drop)]
pub enum Finding {
    /// The day has no shift at all.
    NoShift,
    /// No shift uses the rule, though one uses another rule of its name.
    IdleRule(u8),
    /// No shift uses the name.
    IdleName(u8),
    /// No shift has the code.
    IdleCode(u8),
    /// The window of the rule of this number begins behind the day's last period.
    BeyondDay(u8, WindowKind),
    /// An earlier rule is the same.
    SameRule(u8),
    /// The group of this name has shifts, and no shift of the start name is one of them.
    StrangeGroup(u8),
    /// A rule of the start name has this name as its one symbol, and neither has a group.
    AbsentTeam(u8),
    /// Somebody with this code is needed in this period, and no shift has the code then.
    VainNeed(u8, u8),
}
