//! The rules text: a grammar as lines of words, read with the first fault and its line.
//!
//! ```text
//! periods 4
//! work a
//! idle .
//! start S
//! rule S 0 = W
//! rule W 2 = 'a' W '.' len 2 3 begin 1 4 end 2 4
//! ```
//!
//! A `periods` line has a number from 1 to 96, and a `start` line a name; each stands once. A
//! `work` or `idle` line declares one or more codes, a rule line a name, a cost from 0 to 10,000,
//! one to eight symbols, and windows on the length, the first and the last period of its span. The
//! names are numbered in order of first appearance in the rule lines, the codes in order of
//! declaration, and the rules in order.
#![tactic(auto)]

mod bounds;
mod codes;
mod copy;
mod draft;
mod fault;
mod field;
mod finish;
mod laws;
mod line;
mod message;
mod names;
mod place;
mod read;
mod rule;
mod rules;
mod symbol;
mod window;
mod write;

pub use fault::{Limit, RulesFault};
pub use laws::{accepted_lines, one_reading, refused_line, written_again};
pub use message::fault_line;
pub use read::read_rules;
pub use write::{append_rule, write_rules};
