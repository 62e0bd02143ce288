//! A choice among the splits of a node: the cuts of each are tried at a float program, and an arc is named
//! whose two halves both cost much.
//!
//! How it goes: the weights of the solution's trees are summed by arc. Arcs of the same trees count once; by
//! turns sixteen are taken by the greatest weight rounded down, and sixteen by nearness to a half. The node's
//! program is solved by a float program (`lp_float_programs`) from the basis of the last column generation,
//! over its trees and the pool's last ones, one for each row; where that basis is empty, over the solution's
//! trees in place of its own; then the pool's best ones at the prices there are listed beside them, two for
//! each row, and it is solved again. For each arc both halves of its split are tried on a copy: the cut is a
//! further row, three dual steps are taken, and the value tells what the half gains, no more than up to the
//! cost of the best roster. The four arcs of the greatest product of both gains, each with 1/16 more, are
//! tried again by twenty steps, and that of the greatest product is the best one. The second half is left out
//! where no gain of it could make the arc count.
//!
//! Letters are tried beside these arcs: an arc stands for a letter where its rule makes one code that stands
//! on no other right side. Its count is the number of shifts that have this code at its period, so a split on
//! it cuts off all trees that have the letter, and not only those that share a rule. Up to eight letters, no
//! two of the same trees, are taken by what their splits gained before, for each unit of weight (`Gains`,
//! which the search keeps; a half that was left out counts as no gain), and twelve by nearness to a half in
//! eighths, and then by the greatest weight rounded down. They are tried in the same two stages. What tries
//! may touch is limited by the rows alone (704 times their number, times it again or 448), and no node with
//! up to 448 rows reaches it: no further arc is tried from half of that on, and no further letter from all of
//! it on. The best of them of which a half raises the node's value rounded up is named, unless the best arc's
//! product is more than twice as great. On a day whose rules have no such arc nothing of this runs.
//!
//! A watch (`search_watch`) is asked before each try, and within the float program's runs; where it is over
//! no further arc is tried.
#![tactic(auto)]

mod bench;
mod candidates;
mod gains;
mod halves;
mod letters;
mod node;
mod probing;
mod shares;
mod sums;

pub use gains::Gains;
pub use node::SplitNode;
pub use probing::best_arc;
pub use shares::Share;
