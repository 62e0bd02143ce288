//! A node of the search whose master is solved.

mod task;

pub use task::NodeTask;
