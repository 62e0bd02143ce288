//! The day that remains where some shifts of its roster are kept.
//!
//! Its needs, floors, ceilings and head counts are those of the day less what the kept shifts take. A group
//! of which nobody is left goes, so that the numbers of the groups behind it change.

mod answer;
mod causes;
mod cells;
mod counts;
mod day;
mod groups;
mod keep;
mod laws;
mod text;

pub use answer::{Remaining, Rest};
pub use keep::remaining;
pub use laws::{causes_forbid, rest_is_read, rest_is_right};
pub use text::{rest_status, write_remaining};
