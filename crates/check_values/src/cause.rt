//! The causes for which a stated roster is not allowed.

/// Why a stated roster is not allowed. Shifts are numbered from 1 in their order, and groups from 1, with 0
/// on a day without groups; a code is given by its byte.
#[derive(Clone, Copy, Debug, PartialEq, Eq, Drop)]
pub enum Cause {
    /// The word is no shift of its team.
    NoShift {
        shift: u32,
    },
    /// Fewer employees of the team work than at least may.
    TooFew {
        group: u8,
        count: u32,
        least: u32,
    },
    /// More employees of the team work than at most may.
    TooMany {
        group: u8,
        count: u32,
        most: u32,
    },
    /// Fewer employees work at the cell than its floor.
    BelowFloor {
        code: u8,
        period: u8,
        have: u32,
        floor: u32,
    },
    /// More employees work at the cell than its ceiling.
    AboveCeiling {
        code: u8,
        period: u8,
        have: u32,
        ceiling: u32,
    },
}
