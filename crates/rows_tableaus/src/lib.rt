//! Worked rows of fractions, of the simplex method, of float programs and of a master's rounded prices, as
//! tests over public calls.
#![tactic(auto)]

#[cfg(test)]
mod careful;
#[cfg(test)]
mod float_programs;
#[cfg(test)]
mod fractions;
#[cfg(test)]
mod listed;
#[cfg(test)]
mod reduced;
#[cfg(test)]
mod rounded;
#[cfg(test)]
mod sound;
#[cfg(test)]
mod tests;
#[cfg(test)]
mod watches;
