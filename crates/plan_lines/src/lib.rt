//! The plan text: one day in a planner's words.
//!
//! ```text
//! title Shop, Saturday
//! day 9:00 21:00 60
//! money EUR 2
//! work t 2:00 5:00 15.00 till
//! pause m 1:00 1:00 0 meal
//! change 1.00
//! stretch 2:00 5:00
//! duty Full 8:00 9:00 20.00 = work m 12:00 14:00 work begin 9:00 13:00
//! staff 2 4
//! need t 60.00 5.00
//! ```
//!
//! A line uses only what lines above it say. What is read is a [`plan_meaning::Plan`], or the first fault of
//! the text.
#![tactic(auto)]

mod codes;
mod comment;
mod day;
mod draft_line;
mod duties;
mod finish;
mod kind;
mod line;
mod money;
mod read;
mod reading;
mod signs;
mod staff;
mod starts;

pub use read::read_plan;
