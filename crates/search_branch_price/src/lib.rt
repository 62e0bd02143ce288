//! Branch and price: a search for a roster of least cost, which ends in an accepted certificate.
//!
//! Best first over a tree of splits on the counts of arcs, with prices from each node's linear program, as
//! is usual (Barnhart, Johnson, Nemhauser, Savelsbergh and Vance, "Branch-and-Price: Column Generation for
//! Solving Huge Integer Programs", Operations Research 46, 1998).
//!
//! How it goes: best first over the open leaves (`search_open_nodes`), the tree in an array (`search_tree`),
//! the cuts and counts of a node by its way from the root, prices from the node's master (`search_masters`),
//! which is asked in one place (module `asking`). A node is split by the weights of the arcs
//! (`search_arc_weights`) at an exact or a near solution of the master; of the arcs one is preferred: that on
//! which an old certificate splits the node at the same path, where its trees weigh no whole number, or else
//! one that is named after both halves of some splits were tried by a float program from the basis of the
//! last column generation (`search_strong_branching`; what splits on letters gained is kept in the
//! workspace). Rosters come from counts (`search_candidates`), and before the first turn and at nodes from
//! `search_primal`. A weight that is a hint is rounded to the nearest unit of 2^-32 for
//! `search_strong_branching`, so that one that lacks a little of a whole number counts as that.
//!
//! Between two turns a watch is told how far the search is, and may stop it (`search_watch`); it is asked
//! within a turn too. A leaf whose master is stopped stays open without prices, and the search ends with its
//! bound, or closed where the best roster costs no more; the root, where prices were asked at, keeps the best
//! of them, if they show more than 0 and less than the best roster costs (module `leaf`), and the search ends
//! with what they show; behind the master only what is tried is cut short.
#![tactic(auto)]

mod arcless;
mod asking;
mod branching;
mod choose;
mod counts;
mod ended;
mod found;
mod infeasible;
mod leaf;
mod pinned;
mod preferred;
mod progress;
mod stop;
mod task;
mod turn;
mod turn_end;
mod value;

pub use branching::{search, search_from};
pub use found::Found;
pub use model_rosters::Done;
pub use search_masters::{Master, PlainMaster, Pool};
pub use search_primal::Start;
pub use search_watch::{ClockWatch, Standing, SteadyWatch, Subject, TurnWatch, Watch, Work};
pub use task::SearchTask;
