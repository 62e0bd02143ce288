//! What is wrong with a stated roster: its words, their prices, its head counts, its cost and its
//! coverage.

mod counter;
mod coverage;
mod prices;
mod roster;
mod shift_workspace;
mod stated;
mod team;
mod totals;

pub use coverage::coverage_fault;
pub use prices::least_price;
pub use roster::roster_fault;
pub use shift_workspace::ShiftWorkspace;
pub use stated::StatedShift;
pub use team::{Team, team_at, team_count};
pub use totals::{heads_fault, stated_cost};
