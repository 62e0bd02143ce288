//! What the words of a plan's lines say together with what stands above: the draft of a plan that the lines
//! so far make, words quoted in faults, pairs of lengths, times and numbers, names, codes, and what a period
//! costs.
#![tactic(auto)]

mod codes;
mod costs;
mod counts;
mod draft;
mod names;
mod pairs;
mod quote;
mod words;

pub use codes::{coded, known, new_code, work_code};
pub use costs::{costly_period, told};
pub use counts::count;
pub use draft::{Draft, decimals_of, no_draft};
pub use names::{joined, name_of, short_name};
pub use pairs::{begins, ends, lengths, numbers, span};
pub use quote::{copy, refused, refused_pair};
pub use words::{begin, clock_time, code, cost, end, hour, length, number, plan_name, time};
