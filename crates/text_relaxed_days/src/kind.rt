//! Floors or ceilings.

/// Which bounds of a day are counted in place of being strict.
#[derive(Clone, Copy, Debug, PartialEq, Eq, Drop)]
pub enum Kind {
    /// The floors; the ceilings stay strict.
    Floors,
    /// The ceilings; the floors stay strict.
    Ceilings,
}
