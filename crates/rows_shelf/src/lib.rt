//! What shelves answer, as tests over public calls.
#![tactic(auto)]

#[cfg(test)]
mod disk_tests;
#[cfg(test)]
mod shelf_tests;
