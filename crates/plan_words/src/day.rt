//! Days of whole periods.

ghost use Rattle.std.specs.Prelude.{◌≡◌, ◌≤◌, ◌+◌, ◌/◌, ◌%◌};
ghost use Rattle.plan_meaning.specs.Times.{begin_behind, begin_minute, day_length, end_behind};
ghost use Rattle.plan_words.specs.Days.{day_of, IsSoundDay};

use crate::clock::{begin_behind, begin_minute, day_length, end_behind};
use crate::fault::DayFault;
use plan_meaning::{PlanDay, Time};
use std::marker::Model;

/// A day has at most so many periods.
const MOST_PERIODS: u32 = 96;

/// A day of 1 to 96 whole periods. A contract sees the plan's day.
#[derive(Debug, Drop)]
pub struct Day {
    plan: PlanDay,
}

impl Model for Day {
    ghost use Rattle.plan_meaning.specs.declared.plan.PlanDay.{PlanDay};
    ghost use Rattle.plan_words.specs.Days.{IsSoundDay};

    ghost Value = { PlanDay };

    ghost view = { λ d. d.plan };

    ghost invariant = { λ d. IsSoundDay d.plan };
}

impl Day {
    /// Makes a day of its times and the minutes of a period, 1 to 720.
    ///
    /// # Errors
    ///
    /// `PartDay` where it is no whole number of periods; then `ManyPeriods` where it has more than 96.
    #[tactic(auto, unfolding(crate::specs::Days::day_of))]
    pub fn of(plan: PlanDay) -> Result<Day, DayFault>
        requires some { 1 ≤ plan.minutes }
        requires few { plan.minutes ≤ 720 }
        requires end { plan.end.minute ≤ 1440 }
        ensures { result ≡ day_of plan }
    {
        let length = day_length(&plan);
        let minutes = plan.minutes;
        if length % minutes != 0 {
            return Err(DayFault::PartDay { length, minutes });
        }
        let periods = length / minutes;
        if MOST_PERIODS < periods {
            return Err(DayFault::ManyPeriods { periods, minutes });
        }
        Ok(Day { plan })
    }

    /// Returns what the plan says of the day.
    pub fn plan(&self) -> PlanDay
        ensures { result ≡ self.now }
    {
        self.plan
    }

    /// Returns how many minutes a period has.
    pub fn minutes(&self) -> u32
        ensures value { result ≡ self.now.minutes }
        ensures some { 1 ≤ result }
        ensures few { result ≤ 720 }
    {
        self.plan.minutes
    }

    /// Returns how many minutes behind midnight the day begins.
    pub fn begin(&self) -> u32
        ensures value { result ≡ begin_minute self.now }
        ensures small { result ≤ 1439 }
    {
        begin_minute(&self.plan)
    }

    /// Returns how many minutes the day has.
    pub fn length(&self) -> u32
        ensures value { result ≡ day_length self.now }
        ensures small { result ≤ 2880 }
        ensures whole { result % self.now.minutes ≡ 0 }
    {
        day_length(&self.plan)
    }

    /// Returns how many periods the day has.
    pub fn periods(&self) -> u32
        ensures value { result ≡ day_length self.now / self.now.minutes }
        ensures few { result ≤ 96 }
    {
        day_length(&self.plan) / self.plan.minutes
    }

    /// Returns how many minutes behind the day's begin a time is, as the begin of something.
    pub fn begin_behind(&self, time: &Time) -> u64
        ensures value { result ≡ begin_behind self.now time.now }
        ensures small { result ≤ 1440 + time.now.minute }
    {
        begin_behind(&self.plan, time)
    }

    /// Returns how many minutes behind the day's begin a time is, as the end of something.
    pub fn end_behind(&self, time: &Time) -> u64
        ensures value { result ≡ end_behind self.now time.now }
        ensures small { result ≤ 1440 + time.now.minute }
    {
        end_behind(&self.plan, time)
    }
}
