//! The cells of least sums: the slots of a grammar's names and suffixes, what a cell holds for a slot
//! on a span of the day, and how all cells are filled under prices. The crates above say what they
//! hold cells of: the plain table of sums, or what derives at all.
#![tactic(auto)]

mod build;
mod cells;
mod chains;
mod fill;
mod index;
mod laws;
mod layout;
mod lengths;
mod names;
mod packed_sum;
mod parts;
mod periods;
mod points;
mod present;
mod slot;
mod splits;
mod stand;
mod sum_cells;
mod sums;

pub use build::layout_of;
pub use cells::Cells;
pub use chains::Chains;
pub use fill::fill_cells;
pub use index::SpanIndex;
pub use laws::places_differ;
pub use layout::{count_cells, count_spots, number_at, place_of, slot_of, sum_at};
pub use lengths::Lengths;
pub use names::least_rule;
pub use packed_sum::{NO_NUMBER, PackedSum};
pub use parts::{least_part, rest_least, symbol_least};
pub use periods::Periods;
pub use points::split_points;
pub use present::Present;
pub use slot::{Layout, Slot, Span, Suffix};
pub use stand::may_stand;
pub use sum_cells::SumCells;
pub use sums::{Choice, add, add_part};
