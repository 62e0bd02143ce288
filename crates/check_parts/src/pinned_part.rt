//! What a certificate's checker asks of a leaf that is pinned: whether the cuts leave each arc of
//! the instance one count, and what these counts cost. Its parts are public too, for counts that come
//! from elsewhere: numbers at the places of a day's names, suffixes and letters, to which arcs are
//! counted one by one.

mod balances;
mod bounds;
mod counting;
mod judging;
mod loose;
mod penalties;
mod places;
mod value;
mod walk;

pub use balances::Balances;
pub use bounds::{high, low};
pub use counting::count_arc;
pub use loose::first_loose;
pub use places::place_count;
pub use value::{allowed_penalties, pinned_value};
pub use walk::{arc_cost, clear};
