//! The law between a plan's meaning and the grammar that is written for it.
//!
//! A plan in numbers of periods (`PeriodPlan`) means what the plan of minutes means from which it is made,
//! and the rules that are written for it say exactly that. Each public function has an empty body, and its
//! contract is a law.
#![tactic(auto)]

mod laws;
mod period_plan;

pub use laws::{one_reading, plan_law, premises_are_met, rules_say_plan, same_meaning};
pub use period_plan::{Activity, NamedLines, PeriodDuty, PeriodExtra, PeriodPart, PeriodPlan};
