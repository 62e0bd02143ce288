//! The rules of a plan: the grammar that is written for a plan in numbers of periods.
#![tactic(auto)]

mod codes;
mod fault;
mod gather;
mod grammar;
mod laws;
mod numbers;
mod text;
mod texts;

pub use fault::WriteFault;
pub use grammar::written_rules;
pub use laws::{
    rules_are_sound, rules_are_written, rules_say_plan, said_plans_are_writable, text_says_plan,
};
pub use text::rules_text_of;
