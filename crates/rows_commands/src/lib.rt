//! Transcripts of the program over shelves in memory, what is said where a call is refused and what is noted
//! to a person, as tests over public calls.
#![tactic(auto)]

#[cfg(test)]
mod answer_tests;
#[cfg(test)]
mod check_tests;
#[cfg(test)]
mod fault_tests;
#[cfg(test)]
mod notes_tests;
#[cfg(test)]
mod refused_tests;
#[cfg(test)]
mod shelves;
#[cfg(test)]
mod solve_tests;
#[cfg(test)]
mod texts;
#[cfg(test)]
mod transcripts;
#[cfg(test)]
mod what_if_tests;
#[cfg(test)]
mod wide_tests;
