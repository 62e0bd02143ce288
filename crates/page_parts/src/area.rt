//! Where a rectangle stands.

/// Where a rectangle stands, from the left and the top of its chart, and how large it is.
#[derive(Clone, Copy, Debug, PartialEq, Eq, Drop)]
pub struct Area {
    pub left: u64,
    pub top: u64,
    pub width: u64,
    pub height: u64,
}
