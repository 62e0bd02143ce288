//! Worked rows of a day's arcs, of a made day, of the greatest cost of a day and of spans, as tests over
//! public calls.
#![tactic(auto)]

#[cfg(test)]
mod arcs;
#[cfg(test)]
mod days;
#[cfg(test)]
mod spans;
