//! The words of a plan's lines: codes, names, times, lengths and amounts.
//!
//! A length is `H:MM` or `HH:MM`, and a time too, to 24:00, with `+1` behind it where it is the next day's.
//! An amount is a whole number of at most seven digits, behind which a point and decimals may stand. What a
//! word says is read without memory, and a word that says nothing, or too much, gives a fault that tells why.
#![tactic(auto)]

mod amounts;
mod clock;
mod clock_text;
mod day;
mod digits;
mod fault;
mod lengths;
mod name;
mod numbers;
mod times;

pub use amounts::{amount, cost, hour};
pub use clock::{begin_behind, begin_minute, day_length};
pub use clock_text::put_clock;
pub use day::Day;
pub use fault::{DayFault, WordFault};
pub use lengths::length;
pub use name::{code, is_plan_name};
pub use numbers::number;
pub use times::{begin, clock_time, end, time};
