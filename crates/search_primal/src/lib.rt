//! The rosters that a search offers: of an old certificate, before any node has prices, and at nodes.
//!
//! What a search works on stands here too: its workspace, and what it asks at a day and at a node.
//!
//! At nodes rosters come from weights rounded to the nearest; at the first node and each fourth one, on a
//! wide day each second one, from the trees that a dive fixes (`search_dives`) over the arcs of rosters that
//! cost less than the best one (`tree_short_order`; on a wide day over all), unless it is dropped or the pool
//! is full; at the others, or where it fixes none, from the weights rounded down, completed and exchanged
//! once, and on a wide day made better by moves (`search_moves`); neither where the node's value has reached
//! the best roster's cost. On a wide day (8,192 arcs and more) holes are opened first where a dive is due
//! (`search_holes`), and the dive follows where they give no better roster. Prices of words are asked for
//! only where the trees cost less than the best roster (module `offered`). A weight that is a hint is rounded
//! to the nearest unit of 2^-20.
//!
//! A first roster is completed from no trees, over a pool of its own: on a wide day, where no old roster is
//! allowed, before the first turn, and made better by holes at prices that are looked for first; and else
//! where the first node ends without prices. Where nodes have too many rows for prices, the best roster is
//! made better by holes, or where these gain nothing by moves, at the first node and then ever more seldom. A
//! watch (`search_watch`) cuts short what is tried.
#![tactic(auto)]

mod completed;
mod first;
mod holes;
mod job;
mod moved;
mod offered;
mod old_roster;
mod old_splits;
mod open_node;
mod rounded;
mod shortening;
mod solved;
mod start;
mod workspace;

pub use completed::{Stage, offer_at_node};
pub use first::{offer_early, offer_late};
pub use job::{Job, SearchedDay};
pub use moved::offer_without_prices;
pub use old_roster::offer_start;
pub use old_splits::OldSplits;
pub use open_node::OpenNode;
pub use rounded::{in_parts, offer_rounded};
pub use solved::{Outcome, Solved, outcome_of};
pub use start::Start;
pub use workspace::{SearchBench, SearchWorkspace, SplitHints, want};
