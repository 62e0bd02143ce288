//! Certificates: a roster, a bound, and a tree of nodes that shows the bound; what they mean, and why a yes
//! to one is sound.
//!
//! The tree is one of branch and bound: each split cuts the count of one arc in two, as is usual in
//! branch and price on aggregated flows (Côté, Gendron and Rousseau, Management Science 57, 2011).
#![tactic(auto)]

mod cert;
pub mod certificate_laws;
pub mod growing_laws;
mod kinds;
mod laws;
mod sound;
mod tree;
mod verdict;
mod why;

pub use cert::{Cert, Node};
pub use certificate_laws::{
    causes_refuse, one_first_cause, one_shown_value, worked_nodes, yes_is_sound,
};
pub use growing_laws::{
    Seat, few_nodes, growing_closed, growing_few, growing_proves, growing_put, growing_raised,
    grown_counts, grown_shows, least_bound, list_nodes, opens_least, opens_sound, put_busy,
    put_missed, put_numbers, put_opens, put_rises, put_times, seated_put, seats_give_nodes,
    seats_lead_up,
};
pub use kinds::{is_processed, is_unpriced};
pub use laws::one_tree;
pub use sound::{MOST_COST, MOST_MULTIPLIERS, MOST_PRICE, are_fit, is_sound_cert};
pub use tree::MOST_NODES;
pub use verdict::Verdict;
pub use why::Why;
