//! Worked rows of the checker and of its kernels over lanes, as tests over public calls.
#![tactic(auto)]

#[cfg(test)]
mod chain_rows;
#[cfg(test)]
mod lane_rows;
#[cfg(test)]
mod verdict_rows;
