//! Rosters by holes: some shifts of a roster go, and what they leave is solved nearly, by the volume
//! algorithm in floats over a graph of its own, and by a dive.
//!
//! How it goes: a dive (hole_dives) in what a roster leaves where some of its shifts go; with no shifts left
//! it is a dive from nothing: over all arcs, or where the best known roster is near the bound, over those of
//! better ones; the one before the first master looks first for rosters within one in 64 of what its prices
//! show. Before holes are opened in a roster, and each time that it becomes better, the arcs go that by the
//! node's prices no roster has which costs less.
//!
//! Of eight holes four lie round a cell that costs, one each round a time, along a shift, by losses at the
//! prices, and by chance. A hole that is cut is followed by a greater one, one that gains nothing by a
//! smaller one, for two kinds of holes apart. A group keeps its least and greatest number: what stays of it
//! is taken off both. Where the roster becomes better than any known one, further work is allowed. Twenty
//! holes in a row without gain end them for a node, forty before the first master; after three nodes without
//! gain they rest for four turns. At the first node the search begins from three dives from nothing, and
//! after forty holes without gain anew until its work is done: in turn from a further dive from nothing, and
//! in the best roster after a third of it was taken out and solved anew, whatever that cost up to one in 64
//! more.
//!
//! Work is counted in arcs and cells passed over, so the same turns give the same shifts. A watch
//! (`search_watch`) is asked within dives, before a hole is opened and before its roster is exchanged; where
//! it is over, what is begun is given up and the best roster so far is returned. It chooses nothing else.
//!
//! `HoleSearch::new` takes the copies of the graph (hole_passes), three times; on 100,000 arcs that is below
//! 20 MB.
#![tactic(auto)]

mod drawing;
mod holes;
mod ranking;
mod rests;
mod search;
mod sizes;
mod sound;
mod task;
mod words;

pub use search::HoleSearch;
pub use task::HoleTask;
