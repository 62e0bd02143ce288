//! What a planner looks for in a roster: when work begins and ends, which stretches have no time off, what is
//! paid, in which order shifts stand, how often a code is had, which share of the need is covered, the runs
//! of shortage and of surplus, what a bound tells of a cost, and what differs between two rosters of one day.
#![tactic(auto)]

mod bound;
mod laws;
mod order;
mod roster_changes;
mod run;
mod share;
mod stretch;
mod total;

pub use bound::{Saving, saving_at};
pub use laws::{runs_give_periods_back, stretches_give_word_back, stretches_have_no_time_off};
pub use order::drawn_order;
pub use roster_changes::{
    changed_periods, changed_shifts, changes_of, differing_periods, is_different, is_left_over,
};
pub use run::{Lack, Run, runs_of};
pub use share::covered_share;
pub use stretch::{Stretch, is_work, paid_periods, stretch_of, stretches_of, work_periods};
pub use total::{code_total, group_count};
