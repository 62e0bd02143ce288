//! Worked rows of rosters by holes, as tests over public calls.
#![tactic(auto)]

#[cfg(test)]
mod rows;
#[cfg(test)]
mod watches;
