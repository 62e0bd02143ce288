//! The master of one node of the search: prices that no others beat by more than a rounding loss, and the
//! weights of trees at a basic solution of least cost, or at one that shows the prices best.
//!
//! The columns of the master, how they are listed and found, and the weights of trees are in
//! `search_node_columns`, and the column generation in `search_columns`.
//!
//! Inside the crate a node whose rows are there is one value, `NodeTask` of `lp_master_rows::node_task`.
//!
//! - `solve_node`: at a path of cuts, base cuts first, the prices of the node's linear program, rounded, its
//!   value and the weights of its trees; or why it was given up (`Cause`). Trees that it finds go into the
//!   pool, and numbers of pool trees that it is given are listed first. A column generation
//!   (`search_columns`) looks for a good basis in floats first; the exact path is then given the trees of
//!   that basis, and wants them and the rows' own columns of it.
//! - `solve_node_from`: the same of a `Day` (`lp_master_rows::search_day`), with `Steering`
//!   (`search_columns`), and with a watch (`search_watch`) that may stop it. Where a column generation that
//!   ended early hands on near prices that are not shown to be best, it Generates columns on to its end.
//!   Where they are not shown to be best then, it Generates columns once more at a float program that takes
//!   an eighth for 0 of what it took before.
//! - Two ways lead to prices (`first`). The exact path ends with a basic solution of least cost. Where its
//!   numbers are too wide, weights of a float basis still show prices best that are rounded from its own
//!   (`near`, by `lp_near_prices`). Where one way leads to none the other follows, so a node is given up only
//!   after the exact path was. `solve_node_from` may be told which way to go first.
//! - Where the watch is over, which is asked within column generations, behind near prices and before each
//!   pivot, near prices are asked for once from what the column generation holds; where they are not shown to
//!   be best the end is `NodeEnd::Stopped`, with the best prices that the first column generation asked at,
//!   rounded as near prices are, where these fit the node (`with_prices`). It is none of a refusal, and no
//!   tally counts it.
//! - Near prices are those of the rows in units of 2^-40, each rounded to the nearest one in 2^-30, added up
//!   by cells, and rounded to the denominator 2^20: a cell's price down, and within what its rows' columns
//!   let it be, a multiplier towards 0 (`rounding`). The weights of trees are in units of 2^-56 (`listed`).
//!   Both are hints of the column generation's last basis (`lp_near_prices::near_weights`): any numbers are
//!   lawful.
//! - What a search asks: `Master`, by `PlainMaster`, which asks for near prices first at every size. It is
//!   lent a `Handover`, which goes from node to node: the trees that are wanted, prices of the cells at which
//!   the first column generation may begin, which it takes, and the basis with which the last column
//!   generation ended, which it leaves there for the programs that begin with it
//!   (`lp_float_programs::LastBasis`).
//! - `solve_node` goes the exact path first where the basis has at most 150 trees: what is asked of one node
//!   alone is its exact prices, where they are narrow.
#![tactic(auto)]

mod counting;
mod ends;
mod exact;
mod exact_prices;
mod first;
mod handover;
mod listed;
mod master;
mod near;
mod plain;
mod rounding;
mod solve;

pub use ends::{Cause, NodeEnd, Solution};
pub use exact::PIVOTS;
pub use handover::Handover;
pub use master::Master;
pub use plain::PlainMaster;
pub use search_columns::{Bases, FULL, First, Steering};
pub use search_node_columns::Weight;
pub use solve::{solve_node, solve_node_from};
pub use tree_pool::{Pool, Tree};
