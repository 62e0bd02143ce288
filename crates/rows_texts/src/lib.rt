//! Worked rows of the texts, as tests over public calls: lines and numbers, rules, demand and proof texts,
//! old texts and reports.
#![tactic(auto)]

#[cfg(test)]
mod days;
#[cfg(test)]
mod demand_tests;
#[cfg(test)]
mod line_tests;
#[cfg(test)]
mod old_tests;
#[cfg(test)]
mod proof_tests;
#[cfg(test)]
mod report_tests;
#[cfg(test)]
mod rules_tests;
