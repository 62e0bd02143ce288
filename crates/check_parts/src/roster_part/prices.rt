//! The price of a shift, and the first shift at another one.

ghost use Rattle.std.specs.Prelude.{◌≡◌, ◌≢◌, ◌≤◌, IsTrue, MatchOption, length};
ghost use Rattle.model_rosters.specs.declared.grammar.Grammar.{Grammar as Rules};
ghost use Rattle.model_rosters.specs.Duties.{duty};
ghost use Rattle.model_rosters.specs.Folds.{Each};
ghost use Rattle.model_rosters.specs.Rosters.{ArePrices, IsTeamPrice};
ghost use Rattle.model_rosters.specs.SoundInstance.{IsSoundInstance};
ghost use Rattle.check_certificates.specs.RosterCauses.{duties, IsNoShift, stated_prices};
ghost use Rattle.check_certificates.specs.Sound.{IsGroupNumber, IsSoundShift};
ghost use Rattle.tree_span_table.specs.Tables.{IsMadeFor};
ghost use Rattle.check_parts.specs.roster_part.Faults.{IsPriceBefore, IsPriceCause};

use crate::roster_part::stated::StatedShift;
use crate::roster_part::team::team_name;
use check_certificates::Why;
use model_rosters::{Instance, WordPrices};
use tree_span_table::Table;

/// Returns the price of the shift's word as one of its team, or `None` where it is none. The shift's own
/// price does not matter. The table was made for the instance's grammar. Takes no memory.
pub fn least_price(instance: &Instance, shift: &StatedShift, table: &mut Table) -> Option<u64>
    requires sound { IsSoundInstance instance.now }
    requires made { IsMadeFor instance.now.grammar table.old }
    requires group { IsGroupNumber instance.now.groups shift.now.group }
    ensures value { MatchOption result (IsNoShift instance.now shift.now)
        (λ price. IsTeamPrice instance.now (duty shift.now) price) }
    ensures kept { (g : Rules) → IsMadeFor g table.old → IsMadeFor g table.new }
{
    let grammar = &instance.grammar;
    if shift.word().len() != grammar.periods as usize {
        return None;
    }
    let prices = WordPrices::new(grammar, shift.word());
    table.least(grammar, &prices);
    let name = team_name(instance, shift.group());
    prices.price(name, table.value(grammar, name))
}

/// Returns whether two shifts are one word in one team.
fn is_same_duty(first: &StatedShift, second: &StatedShift) -> bool
    ensures { IsTrue result → duty first.now ≡ duty second.now }
{
    first.group() == second.group() && first.word() == second.word()
}

/// Returns the price of the shift's word as one of its team, or `None` where it is none. The table is filled
/// only where the shift before, whose price this is, has another word or another team.
fn price_after(
    instance: &Instance,
    shifts: &[StatedShift],
    place: usize,
    before: u64,
    shift: &StatedShift,
    table: &mut Table,
) -> Option<u64>
    requires sound { IsSoundInstance instance.now }
    requires made { IsMadeFor instance.now.grammar table.old }
    requires group { IsGroupNumber instance.now.groups shift.now.group }
    requires within { place ≤ length shifts.now }
    requires before { IsPriceBefore instance.now shifts.now place before }
    ensures value { MatchOption result (IsNoShift instance.now shift.now)
        (λ price. IsTeamPrice instance.now (duty shift.now) price) }
    ensures kept { (g : Rules) → IsMadeFor g table.old → IsMadeFor g table.new }
{
    if 0 < place && is_same_duty(&shifts[place - 1], shift) {
        return Some(before);
    }
    least_price(instance, shift, table)
}

/// Returns the first word that is no shift of its team, or else the first shift with another price
/// than the stated one, or `None` where each word is a shift at its stated price.
pub(crate) fn price_fault(
    instance: &Instance,
    shifts: &[StatedShift],
    table: &mut Table,
) -> Option<Why>
    requires sound { IsSoundInstance instance.now }
    requires made { IsMadeFor instance.now.grammar table.old }
    requires shifts { Each (IsSoundShift instance.now) shifts.now }
    requires few { length shifts.now ≤ 64 }
    ensures value { MatchOption result (ArePrices instance.now (duties shifts.now) (stated_prices shifts.now))
        (IsPriceCause instance.now shifts.now) }
    ensures kept { (g : Rules) → IsMadeFor g table.old → IsMadeFor g table.new }
{
    let mut mispriced = None;
    let mut before = 0;
    for (place, shift) in shifts.iter().enumerate() {
        let number = place as u32 + 1;
        let Some(least) = price_after(instance, shifts, place, before, shift, table) else {
            return Some(Why::NotAShift { shift: number });
        };
        mispriced = mispriced.or(other_price(number, shift, least));
        before = least;
    }
    mispriced
}

/// Returns that the shift has another price than the least one, where it has.
fn other_price(number: u32, shift: &StatedShift, least: u64) -> Option<Why>
    ensures { MatchOption result (shift.now.price ≡ least)
        (λ why. (shift.now.price ≢ least) × (why ≡ Why.ShiftCost number shift.now.price least)) }
{
    if shift.price() == least {
        None
    } else {
        Some(Why::ShiftCost {
            shift: number,
            said: shift.price(),
            least,
        })
    }
}
