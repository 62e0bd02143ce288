//! What holes are opened for.

use model_rosters::Shift;

/// What holes are opened for.
#[derive(Clone, Copy, Drop)]
pub struct HoleTask<'a> {
    /// The shifts of the best roster; none where there is none.
    pub shifts: &'a [Shift],
    /// A roster is looked for that costs less.
    pub cost: u64,
    /// No roster costs less, as far as is known.
    pub bound: u64,
    /// How many nodes were processed before.
    pub turn: u32,
}
