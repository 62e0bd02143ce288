//! Worked rows of labels texts, of the parts and the figures of a page, of changes between rosters and of
//! calendars, as tests over public calls.
#![tactic(auto)]

#[cfg(test)]
mod calendar_tests;
#[cfg(test)]
mod change_tests;
#[cfg(test)]
mod days;
#[cfg(test)]
mod figure_tests;
#[cfg(test)]
mod label_tests;
#[cfg(test)]
mod part_tests;
