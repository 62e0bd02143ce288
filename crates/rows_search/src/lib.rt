//! Worked rows of the master of a node and of the open leaves, as tests over public calls.
#![tactic(auto)]

#[cfg(test)]
mod days;
#[cfg(test)]
mod first;
#[cfg(test)]
mod leaves;
#[cfg(test)]
mod masters;
#[cfg(test)]
mod rescues;
#[cfg(test)]
mod splits;
#[cfg(test)]
mod stops;
#[cfg(test)]
mod watches;
