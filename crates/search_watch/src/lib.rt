//! What watches a search: it is told how far the search is, and says whether that is to go on, between two
//! turns and within one.
#![tactic(auto)]

mod clock;
mod standing;
mod steady;
mod turns;
mod watch;
mod work;

pub use clock::ClockWatch;
pub use standing::{Standing, Subject};
pub use steady::SteadyWatch;
pub use turns::TurnWatch;
pub use watch::Watch;
pub use work::Work;
