//! Worked rows of plans, as tests over public calls: the words of a plan's lines, what is said of faults, the
//! rules of a plan, labels, forecasts, demands, and plan texts.
#![tactic(auto)]

#[cfg(test)]
mod amount_tests;
#[cfg(test)]
mod demand_tests;
#[cfg(test)]
mod demands;
#[cfg(test)]
mod fault_tests;
#[cfg(test)]
mod forecast_faults;
#[cfg(test)]
mod forecast_tests;
#[cfg(test)]
mod label_tests;
#[cfg(test)]
mod plans;
#[cfg(test)]
mod rule_tests;
#[cfg(test)]
mod text_tests;
#[cfg(test)]
mod time_tests;
