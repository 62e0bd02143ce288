//! A call centre's day that is made from a number: the same day at each call.
//!
//! The number is the first state of a generator, whose draws decide how long the day is, what a stretch
//! of duty and a missing employee cost, and how many employees each period needs. The rules of a shift
//! are the same for all numbers.
#![tactic(auto)]

mod generator;
mod laws;
mod made;
mod parts;

pub use laws::each_day_is_sound;
pub use made::make_instance;
