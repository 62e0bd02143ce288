//! How many shifts a team has, and what the roster costs.

ghost use Rattle.std.specs.Prelude.{◌≡◌, ◌≤◌, ◌*◌, ◌^◌, MatchOption, All, length, nat_eq, count_by};
ghost use Rattle.model_rosters.specs.Coverage.{covered, penalty};
ghost use Rattle.model_rosters.specs.Folds.{Each, sum_n};
ghost use Rattle.model_rosters.specs.Limits.{IsDayCell};
ghost use Rattle.model_rosters.specs.Rosters.{HasHeads, roster_cost};
ghost use Rattle.model_rosters.specs.SoundInstance.{IsSoundInstance};
ghost use Rattle.model_rosters.specs.Teams.{teams};
ghost use Rattle.check_certificates.specs.RosterCauses.{duties, stated_prices};
ghost use Rattle.check_certificates.specs.Sound.{IsSoundShift};
ghost use Rattle.check_parts.specs.roster_part.Faults.{IsHeadsCause};

use crate::roster_part::counter::Counter;
use crate::roster_part::stated::StatedShift;
use crate::roster_part::team::{team_at, team_count};
use check_certificates::Why;
use model_rosters::{Cell, Grammar, Instance, penalty};

/// Returns how many of the shifts are of the team of a number.
fn members(shifts: &[StatedShift], number: u8) -> usize
    ensures { result ≡ count_by (λ shift. nat_eq shift.group number) shifts.now }
{
    shifts
        .iter()
        .filter(|shift| shift.group() == number)
        .count()
}

/// Returns the first team whose number of shifts is outside its range, or `None` where there is
/// none.
pub fn heads_fault(instance: &Instance, shifts: &[StatedShift]) -> Option<Why>
    requires sound { IsSoundInstance instance.now }
    requires few { length shifts.now ≤ 64 }
    ensures { MatchOption result (Each (HasHeads (duties shifts.now)) (teams instance.now))
        (IsHeadsCause instance.now shifts.now) }
{
    for place in 0..team_count(instance) {
        let team = team_at(instance, place);
        let count = members(shifts, team.number) as u32;
        if count < team.least || team.most < count {
            return Some(Why::WrongHeads {
                group: team.number,
                count,
            });
        }
    }
    None
}

/// Returns the sum of the stated prices.
fn paid(shifts: &[StatedShift]) -> u64
    requires few { length shifts.now ≤ 64 }
    requires small { All (λ s. s.price ≤ 2 ^ 40) shifts.now }
    ensures value { result ≡ sum_n (λ p. p) (stated_prices shifts.now) }
    ensures within { result ≤ 2 ^ 46 }
{
    let mut sum = 0;
    for shift in shifts {
        sum += shift.price();
    }
    sum
}

/// Returns the sum of the cells' penalties.
fn penalties(grammar: &Grammar, cells: &[Cell], shifts: &[StatedShift]) -> u64
    requires periods { grammar.now.periods ≤ 96 }
    requires cells { All (IsDayCell grammar.now) cells.now }
    requires few_cells { length cells.now ≤ 768 }
    requires few { length shifts.now ≤ 64 }
    ensures value { result ≡ sum_n (λ c. penalty c (covered grammar.now c (duties shifts.now))) cells.now }
    ensures within { result ≤ 2 ^ 40 }
{
    let mut counter = Counter::new();
    let mut sum = 0;
    for cell in cells {
        sum += penalty(cell, counter.coverage(grammar, shifts, cell));
    }
    sum
}

/// Returns what the roster costs at the stated prices.
pub fn stated_cost(instance: &Instance, shifts: &[StatedShift]) -> u64
    requires sound { IsSoundInstance instance.now }
    requires few { length shifts.now ≤ 64 }
    requires shifts { Each (IsSoundShift instance.now) shifts.now }
    ensures { result ≡ roster_cost instance.now (duties shifts.now) (stated_prices shifts.now) }
{
    paid(shifts) + penalties(&instance.grammar, instance.cells.as_slice(), shifts)
}
