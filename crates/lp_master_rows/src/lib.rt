//! The rows of a node's linear program, its master, as numbers: right sides, costs of the rows' own columns,
//! what a tree brings to each row, and the rows' prices by cells and cuts. The day that is searched and the
//! node that is solved stand here as one value each.
#![tactic(auto)]

mod building;
mod entries;
mod node_task;
mod ranking;
mod rows;
mod search_day;
mod sense;

pub use node_task::NodeTask;
pub use ranking::reduced_at;
pub use rows::{NodeRows, artificial_price, count_rows};
pub use search_day::{Day, Pricing};
pub use sense::Sense;
