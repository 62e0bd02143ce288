//! What a plan and its forecast ask of a day, as the draft of a demand text for the grammar of the plan's
//! rules, and as its instance: how many employees work, and in each period how many of each code are needed,
//! must be there and may be there.
#![tactic(auto)]

mod counts;
mod draft;
mod instance;
mod laws;
mod needs;
mod side;
mod teams;

pub use draft::plan_draft;
pub use instance::plan_instance;
pub use laws::draft_keeps_limits;
pub use needs::is_small_need;
pub use side::Side;
