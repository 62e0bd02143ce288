//! The columns of the master of one node: trees and the rows' own, listed in a workspace, found by a
//! cheapest tree, and their weights; and the volume algorithm over its rows.
#![tactic(auto)]

mod columns;
mod first;
mod listed;
mod several;
mod trees;
pub mod volume;
mod weights;
mod workspace;

pub use columns::NodeColumns;
pub use first::{numbers_of, workspace_of};
pub use listed::first_wide;
pub use several::list_several;
pub use trees::list_cheapest;
pub use volume::{Found, Volume};
pub use weights::{Weight, tree_weights};
pub use workspace::{ColumnWorkspace, Held, Kind};
