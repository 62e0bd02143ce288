//! Rosters that a search may offer: the words of trees at their prices, where these are allowed.
//!
//! A word is priced by the table of `tree_span_table`, so a tree that is not the cheapest of its word is not
//! paid for. `least_roster` fills the pricer for the costs of trees, finds for each team a cheapest tree
//! (with groups by the arc of the group's rule), adds it to the pool and takes its number as often as the
//! team needs employees.
//!
//! The last 64 prices of words are known, so that a roster of equal shifts takes one look at the table.
#![tactic(auto)]

mod again;
mod best;
mod columns;
mod costs;
mod counts;
mod group;
mod lead;
mod leaders;
mod least;
mod order;
mod price;
mod roster;
mod shift;
mod shifts;
mod word;
mod workspace;

pub use again::roster_again;
pub use best::{limit, offer};
pub use columns::columns_of;
pub use counts::offer_counts;
pub use lead::team_arc;
pub use least::least_roster;
pub use roster::{Roster, roster_of};
pub use workspace::RosterWorkspace;
