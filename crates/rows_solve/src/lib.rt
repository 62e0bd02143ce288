//! Worked rows of searches, and a master that fails on purpose, as tests over public calls.
#![tactic(auto)]

#[cfg(test)]
mod failing;
#[cfg(test)]
mod searches;
#[cfg(test)]
mod stops;
#[cfg(test)]
mod watches;
