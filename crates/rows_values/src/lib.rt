//! Worked rows of roster texts, as tests over public calls.
#![tactic(auto)]

#[cfg(test)]
mod reader_tests;
