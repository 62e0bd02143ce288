//! Pages of the second program over shelves in memory, as tests over public calls.
#![tactic(auto)]

#[cfg(test)]
mod notes_tests;
#[cfg(test)]
mod page_tests;
#[cfg(test)]
mod refused_tests;
#[cfg(test)]
mod report_tests;
#[cfg(test)]
mod sheet_tests;
#[cfg(test)]
mod texts;
#[cfg(test)]
mod transcripts;
