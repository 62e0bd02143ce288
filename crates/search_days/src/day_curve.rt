//! The curve of a day's least costs over the greatest number of all employees, or of those of one group, with
//! the text of each point's certificate, and what a program says of it.
//!
//! ```text
//! curve 2
//! heads 1 cost 35 bound 35 processed 1 failed 0
//! heads 2 cost 10 bound 10 processed 1 failed 0
//! ```
//!
//! A written text has one space between words, and a line feed after each line.

mod curve;
mod day;
mod laws;
mod named;
mod points;
mod staff;

pub use curve::Curve;
pub use day::DayCurve;
pub use laws::{allowed_with_more, costs_fall, offered_costs_fall};
pub use named::staff_of;
pub use points::{CurvePoint, write_curve};
pub use staff::Staff;
