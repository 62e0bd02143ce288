//! The column generation for a good basis of the master of one node: trees of negative reduced cost, listed
//! at a float program round after round, and what the last basis gives as a hint.
//!
//! - `generation_basis`: solves the master of a node by a float program (`lp_float_programs`), round after
//!   round with trees of negative reduced cost at mixed prices, each listed once, and returns its last basis
//!   (`Hint`): trees of the pool, the rows' own columns, and weights and prices for near prices
//!   (`lp_near_prices::near_weights`). Trees that it finds go into the pool. It asks for none once the pool
//!   has 20,000 trees (`FULL`).
//! - `Steering`: the trees that are wanted, which way to prices is gone first (`First`), and `Bases`, in
//!   which the last basis of each column generation is kept with its prices, under the node's cuts, 256 at
//!   most; past that the one goes that no look for the nearest has named for longest. That of the last column
//!   generation can be taken from them once (`take_last`).
//! - `hinted_workspace`: a workspace with the columns of a hint listed, and wanted.
//! - A column generation begins with the trees that are wanted and those that the pool got last, six for each
//!   row. Where trees are wanted, it begins from the basis of the nearest node above that is kept: with its
//!   trees, the pool's best ones at its prices, two for each row (`best_trees` of `lp_master_rows`), and for
//!   each further cut the own column of its row that leaves reduced costs as they are (`starting`). Where
//!   that comes to no end within 400 steps of each kind it begins without.
//! - A round lists five trees at the float program's own prices, each a cheapest one with another arc at the
//!   top, and one at each of two mixes, of which 12 and 9 sixteenths are the best prices.
//! - From 250 rows on it begins with the volume algorithm (`warming`, by `search_node_columns::volume`),
//!   whose prices are the best ones known then and whose cheapest trees are listed too, four for each row;
//!   and it ends once the float program's value is within half the rounding loss of what the best prices show
//!   (`Ending::Early`), which it then hands on as near prices. `Ending::Whole` goes on until no tree is
//!   cheap, and `Ending::Tight` does so at a float program that takes an eighth for 0.
//! - A column generation is *lost* where the float program's steps are spent, a number leaves its bounds, or
//!   more than 8,000 pivots were taken, as on days with long blocks of several codes and 96 periods (column
//!   generations of other days take a tenth of them, and one of a day of 48 periods took 6,163); not where
//!   that is since the watch is over. Then it is *rescued* once: it is careful from then on
//!   (`FloatProgram::be_careful`), with up to 30,000 dual steps a round, and lists more trees
//!   (`list_several`): eleven at the float program's own prices and four at each of four mixes. It begins
//!   with rounds in *boxes* (`boxing`): the own columns of each row but the heads' cost the row's best price
//!   plus and minus 1, so that no price leaps. The boxes move to the best prices where the bound rose by
//!   three tenths of what the value promised, or no tree is cheap in them; a box at whose side the price
//!   stands becomes twice as wide then; and they are lifted where value and bound are within half the
//!   rounding loss of each other, twice in turn or with no price at a side, or after 300 rounds. At its limit
//!   of work, twice that of others, it hands on its best prices and not the last ones. Column generations
//!   that begin from its basis are careful from their begin on. A day whose column generations go well takes
//!   no other step by all this.
//! - Which way to prices is gone first (`First`): near prices, as the plain master does (`Near`), or those
//!   only where the basis has more than 150 trees (`BySize`). The weights of a basis take 0.2 to 0.45 bits a
//!   tree, as measured on roots of 59 to 430 trees, so beyond that exact ones are seldom narrow.
//! - A watch (`search_watch`) is asked before each round, in boxes too, before each pass of the volume
//!   algorithm but the first, and within the float program's runs. Where it is over the column generation
//!   ends with the basis that it has, and says so (`Hint.is_stopped`). The best prices that were asked at go
//!   with each hint (`Hint.best`). Before each question it is told how many trees there are, and what the
//!   best prices show.
#![tactic(auto)]

mod asked;
mod asking;
mod bases;
mod beginning;
mod boxes;
mod boxing;
mod float_columns;
mod generating;
mod generation;
mod hint;
mod rescuing;
mod starting;
mod steering;
mod warming;

pub use asking::FULL;
pub use bases::Bases;
pub use generating::generation_basis;
pub use generation::Ending;
pub use hint::{Hint, hinted_workspace};
pub use steering::{First, Steering};
