//! The parts of the checker of certificates: what is wrong with a stated roster, what prices show at a list
//! of cuts, and what a leaf costs whose counts are pinned.
#![tactic(auto)]

pub mod pinned_part;
pub mod priced_part;
pub mod roster_part;

pub use pinned_part::{
    Balances, allowed_penalties, arc_cost, clear, count_arc, first_loose, high, low, pinned_value,
    place_count,
};
pub use priced_part::{
    derived_names, is_plainly_infeasible, lagrangian_sum, priced_value, value_from_least,
};
pub use roster_part::{
    ShiftWorkspace, StatedShift, Team, coverage_fault, heads_fault, least_price, roster_fault,
    stated_cost, team_at, team_count,
};
