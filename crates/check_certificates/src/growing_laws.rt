//! The tree of a search while it grows: what it shows, and how few turns are enough.

mod laws;
mod listing;
mod seat;

pub use laws::{
    few_nodes, growing_closed, growing_few, growing_proves, growing_put, growing_raised,
    grown_counts, grown_shows, least_bound, opens_least, opens_sound, put_busy, put_missed,
    put_numbers, put_opens, put_rises, put_times, seated_put, seats_give_nodes, seats_lead_up,
};
pub use listing::list_nodes;
pub use seat::Seat;
