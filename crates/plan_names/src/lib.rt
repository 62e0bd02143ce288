//! The names of the rules that are written for a plan in numbers of periods, and the rules of each name.
#![tactic(auto)]

mod blocks;
mod cases;
mod compared;
mod days;
mod fault;
mod free;
mod letters;
mod lists;
mod name_rules;
mod names;
mod off;
mod rule;
mod same;
mod shape;
mod stretches;
mod symbols;

pub use fault::RuleFault;
pub use name_rules::{rules_of, start_name};
pub use names::RuleName;
pub use rule::{NameRule, RuleSymbol};
pub use same::{same_name, same_rule};
