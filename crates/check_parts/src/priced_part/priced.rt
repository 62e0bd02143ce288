//! What prices show.

ghost use Rattle.std.specs.Prelude.{◌≡◌, ◌≤◌, ◌^◌, ◌+◌, min, All, IfSome, length};
ghost use Rattle.model_rosters.specs.declared.grammar.Grammar.{Grammar as Rules};
ghost use Rattle.model_rosters.specs.PriceLimits.{FitPrices};
ghost use Rattle.model_rosters.specs.PriceRooms.{IsRoomFor};
ghost use Rattle.model_rosters.specs.SoundInstance.{IsSoundInstance};
ghost use Rattle.model_rosters.specs.Sums.{Within};
ghost use Rattle.law_bounds.specs.Lagrangian.{IsLeastReduced};
ghost use Rattle.law_bounds.specs.Priced.{rounded_up, IsPricedValue};
ghost use Rattle.tree_span_table.specs.Tables.{IsMadeFor};
ghost use Rattle.check_parts.specs.priced_part.Filled.{IsFilledForAll, TellsDerived};

use crate::priced_part::derived::derived_names;
use crate::priced_part::infeasible::is_plainly_infeasible;
use crate::priced_part::shares::lagrangian_sum;
use model_rosters::{Cut, Instance, Mult, PriceRoom, greatest_cost};
use tree_span_table::Table;

/// Returns what prices show at a list of cuts: no roster whose trees meet the cuts costs less. It
/// is one more than the greatest cost where they show that there is no such roster. Takes no memory.
///
/// The prices are a denominator of 1 to 2^30, a price for each cell in its order, and multipliers by
/// rising numbers of cuts. Each cut has a number of at most 63. The room and the table were made for
/// the instance, and the room for at least as many multipliers.
pub fn priced_value(
    instance: &Instance,
    d: u64,
    cell: &[i128],
    mult: &[Mult],
    cuts: &[Cut],
    room: &mut PriceRoom,
    table: &mut Table,
) -> u64
    requires sound { IsSoundInstance instance.now }
    requires fit { FitPrices instance.now d cell.now mult.now cuts.now }
    requires small { All (λ c. c.b ≤ 63) cuts.now }
    requires room { IsRoomFor room.old instance.now }
    requires few { length mult.now ≤ room.old.most }
    requires made { IsMadeFor instance.now.grammar table.old }
    ensures value { IsPricedValue instance.now (record { d = d; cell = cell.now; mult = mult.now }) cuts.now
        result }
    ensures room { IsRoomFor room.new instance.now }
    ensures most { room.new.most ≡ room.old.most }
    ensures kept { (g : Rules) → IsMadeFor g table.old → IsMadeFor g table.new }
{
    let least = least_reduced(instance, d, cell, mult, cuts, room, table);
    let derives = derived_names(&instance.grammar, table);
    value_from_least(instance, d, cell, mult, cuts, least, &derives)
}

/// Returns what prices show at a list of cuts, where the least reduced cost of a tree of the day is
/// given, and of each name of the grammar, in its order, whether it derives a word of the day. No
/// roster whose trees meet the cuts costs less. It is one more than the greatest cost where they show
/// that there is no such roster. Takes no memory.
///
/// The prices are a denominator of 1 to 2^30, a price for each cell in its order, and multipliers by
/// rising numbers of cuts. Each cut has a number of at most 63.
pub fn value_from_least(
    instance: &Instance,
    d: u64,
    cell: &[i128],
    mult: &[Mult],
    cuts: &[Cut],
    least: Option<i128>,
    derives: &[bool],
) -> u64
    requires sound { IsSoundInstance instance.now }
    requires fit { FitPrices instance.now d cell.now mult.now cuts.now }
    requires small { All (λ c. c.b ≤ 63) cuts.now }
    requires least { IsLeastReduced instance.now (record { d = d; cell = cell.now; mult = mult.now }) cuts.now
        least }
    requires within { IfSome least (Within (2 ^ 110)) }
    requires told { TellsDerived instance.now.grammar derives.now }
    ensures { IsPricedValue instance.now (record { d = d; cell = cell.now; mult = mult.now }) cuts.now
        result }
{
    let none = greatest_cost(instance) + 1;
    if is_plainly_infeasible(instance, derives) {
        return none;
    }
    let value = lagrangian_sum(instance, d, cell, mult, cuts, least);
    rounded_up(value, d, none)
}

/// Fills the table for the prices, and returns the least reduced cost of a tree of the day; `None`
/// exactly where the day has no tree.
fn least_reduced(
    instance: &Instance,
    d: u64,
    cell: &[i128],
    mult: &[Mult],
    cuts: &[Cut],
    room: &mut PriceRoom,
    table: &mut Table,
) -> Option<i128>
    requires sound { IsSoundInstance instance.now }
    requires fit { FitPrices instance.now d cell.now mult.now cuts.now }
    requires room { IsRoomFor room.old instance.now }
    requires few { length mult.now ≤ room.old.most }
    requires made { IsMadeFor instance.now.grammar table.old }
    ensures least { IsLeastReduced instance.now (record { d = d; cell = cell.now; mult = mult.now }) cuts.now
        result }
    ensures within { IfSome result (Within (2 ^ 110)) }
    ensures filled { IsFilledForAll instance.now.grammar table.new }
    ensures room { IsRoomFor room.new instance.now }
    ensures most { room.new.most ≡ room.old.most }
    ensures kept { (g : Rules) → IsMadeFor g table.old → IsMadeFor g table.new }
{
    room.set_parts(instance, d, cell, mult, cuts);
    table.least(&instance.grammar, room)
}

/// Returns the value over the denominator, rounded up, and 0 where it is negative; at most `most`.
fn rounded_up(value: i128, d: u64, most: u64) -> u64
    requires positive { 1 ≤ d }
    requires within { Within (2 ^ 117) value }
    ensures { result ≡ min most (rounded_up value d) }
{
    if value < 0 {
        return 0;
    }
    let cost = (value as u128 + u128::from(d - 1)) / u128::from(d);
    cost.min(u128::from(most)) as u64
}
