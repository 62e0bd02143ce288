//! Rosters made better move by move: completed shift by shift, exchanged one by one, and changed a few shifts
//! at a time.
//!
//! How it goes: while a team has fewer than its least number, or one more employee saves, a cheapest tree of
//! such a team is added; then each tree gives way once to a cheapest one of its team; then moves are made,
//! until as many passes over the graph are used up as the caller allows, by the square of the number of trees
//! and beside it, or the roster costs no more than his goal; where the roster becomes better, as many passes
//! again are allowed as were taken, up to the most that he allows. A move: one to five trees go, those that
//! are drawn, that overlap a drawn one most, that begin or end nearest a drawn period, or that lose most
//! against the node's prices; as many come, one after another, each a cheapest one of the team that is to
//! have one more employee, and one more where it saves; then each that came gives way to a cheapest one of
//! its team. A move is taken back where the roster costs more by it. Its numbers are drawn by the turn of the
//! search, the same each time. The trees that are tried stand in a pool of their own, and only those of the
//! roster at the end go into the search's pool. A cheapest tree is one over the arcs that the caller's short
//! order keeps. A tree's price is what the roster's cost rises by it: its cost, less at each of its cells the
//! penalty that one more employee saves, or 2^40 where the count comes into the cell's range by it. In a move
//! it has noise within one unit of cost, and while further trees are to come, a cell below its need is priced
//! partly by the node's price. It takes at most two passes over the graph for each employee, those that the
//! guide allows, and those of one move, at most twelve. A watch (`search_watch`) is asked before each
//! exchange and before each move; where it is over the roster stays as it is, completed.
#![tactic(auto)]

mod blending;
mod choice;
mod completing;
mod copying;
mod counts;
mod descending;
mod draft;
mod drawing;
mod exchanging;
mod growing;
mod guide;
mod ranking;
mod savings;
mod short_pricing;
mod teams;
mod trees;
mod weighing;
mod words;

pub use completing::complete;
pub use guide::Guide;
pub use short_pricing::ShortPricing;
pub use words::add_words;
