//! The causes for which a certificate is refused.

use model_rosters::ArcKey;

/// Why a certificate is refused. Shifts and nodes are numbered from 1 in the certificate's order.
#[derive(Clone, Copy, Debug, PartialEq, Eq, Drop)]
pub enum Why {
    /// The word is no shift of its team.
    NotAShift {
        shift: u32,
    },
    /// The shift's price is another than the stated one.
    ShiftCost {
        shift: u32,
        said: u64,
        least: u64,
    },
    /// The number of the team's shifts is outside its range. The group is 0 on a day without groups.
    WrongHeads {
        group: u8,
        count: u32,
    },
    /// The roster's cost is another than the stated one.
    WrongCost {
        said: u64,
        found: u64,
    },
    /// The node splits what is no arc of the instance.
    NotAnArc {
        node: u32,
    },
    /// The cuts on the way to the node leave one half of its split no count.
    EmptyHalf {
        node: u32,
    },
    /// The cuts on the way to the pinned node leave the arc more than one count.
    NotPinned {
        node: u32,
        arc: ArcKey,
    },
    /// The bound is above what the nodes show; none is one more than the greatest cost of a roster.
    BoundTooHigh {
        said: Option<u64>,
        shown: Option<u64>,
    },
    /// The coverage of a cell is outside its floor and ceiling. The code is given by its byte.
    Outside {
        code: u8,
        period: u8,
        have: u32,
    },
}
