//! The first cause on a stated roster.

ghost use Rattle.std.specs.Prelude.{◌≡◌, ◌≢◌, ◌≤◌, MatchOption, length};
ghost use Rattle.model_rosters.specs.declared.grammar.Grammar.{Grammar as Rules};
ghost use Rattle.model_rosters.specs.Folds.{Each};
ghost use Rattle.model_rosters.specs.SoundInstance.{IsSoundInstance};
ghost use Rattle.model_rosters.specs.Rosters.{roster_cost};
ghost use Rattle.check_certificates.specs.RosterCauses.{duties, stated_prices};
ghost use Rattle.check_certificates.specs.Sound.{IsSoundShift};
ghost use Rattle.tree_span_table.specs.Tables.{IsMadeFor};
ghost use Rattle.check_parts.specs.roster_part.Faults.{IsRightlyStated, IsRosterCause};

use crate::roster_part::prices::price_fault;
use crate::roster_part::stated::StatedShift;
use crate::roster_part::totals::{heads_fault, stated_cost};
use check_certificates::Why;
use model_rosters::Instance;
use tree_span_table::Table;

/// Returns the first cause for which a roster is not stated rightly, and `None` where each word is a
/// shift of its team at its stated price, each team has as many shifts as it may, and the roster
/// costs what is said. Takes no memory.
///
/// The causes come in this order: the first word that is no shift of its team, the first shift with
/// another price, the first team whose number of shifts is outside its range, and another cost. The
/// table was made for the instance's grammar, and there are at most 64 shifts.
pub fn roster_fault(
    instance: &Instance,
    cost: u64,
    shifts: &[StatedShift],
    table: &mut Table,
) -> Option<Why>
    requires sound { IsSoundInstance instance.now }
    requires made { IsMadeFor instance.now.grammar table.old }
    requires shifts { Each (IsSoundShift instance.now) shifts.now }
    requires few { length shifts.now ≤ 64 }
    ensures value { MatchOption result (IsRightlyStated instance.now cost shifts.now)
        (IsRosterCause instance.now cost shifts.now) }
    ensures kept { (g : Rules) → IsMadeFor g table.old → IsMadeFor g table.new }
{
    if let Some(why) = price_fault(instance, shifts, table) {
        return Some(why);
    }
    if let Some(why) = heads_fault(instance, shifts) {
        return Some(why);
    }
    cost_fault(instance, cost, shifts)
}

/// Returns that the roster has another cost at the stated prices, where it has.
fn cost_fault(instance: &Instance, cost: u64, shifts: &[StatedShift]) -> Option<Why>
    requires sound { IsSoundInstance instance.now }
    requires few { length shifts.now ≤ 64 }
    requires shifts { Each (IsSoundShift instance.now) shifts.now }
    ensures { let found = roster_cost instance.now (duties shifts.now) (stated_prices shifts.now) in
        MatchOption result (cost ≡ found) (λ why. (cost ≢ found) × (why ≡ Why.WrongCost cost found)) }
{
    let found = stated_cost(instance, shifts);
    if found == cost {
        None
    } else {
        Some(Why::WrongCost { said: cost, found })
    }
}
