//! Worked rows of the normal form, of the graph, and of what stands on it, as tests over public calls.
#![tactic(auto)]

#[cfg(test)]
mod boxes;
#[cfg(test)]
mod days;
#[cfg(test)]
mod graphs;
#[cfg(test)]
mod normal_forms;
#[cfg(test)]
mod prices;
#[cfg(test)]
mod splits;
#[cfg(test)]
mod volumes;
