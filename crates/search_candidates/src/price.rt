//! The price of a shift, known or asked of the table.

ghost use Rattle.std.specs.Prelude.{◌≤◌, ◌<◌, IfSome, length};
ghost use Rattle.model_rosters.specs.Folds.{In};
ghost use Rattle.model_rosters.specs.Rosters.{IsTeamPrice};
ghost use Rattle.search_candidates.specs.Rosters.{AreKnown, IsWorkspaceFor, MayBeAsked};
ghost use Rattle.search_candidates.specs.Again.{IsPriceOf};
ghost use Rattle.search_candidates.specs.Spelled.{IsTeamShift};

use crate::workspace::RosterWorkspace;
use check_parts::{ShiftWorkspace, StatedShift, least_price};
use model_rosters::Instance;

// How many prices are known at most.
const MOST_KNOWN: usize = 64;

// Returns the price that a word of a team has among the known ones.
fn known_price(known: &[StatedShift], group: u8, word: &[u8]) -> Option<u64>
    ensures { IfSome result
        (λ price. In (record { group = group; word = word.now; price = price }) known.now) }
{
    for shift in known {
        if shift.group() == group && shift.word() == word {
            return Some(shift.price());
        }
    }
    None
}

// Adds a price to the known ones, all of which are forgotten first where there is no room.
fn remember(instance: &Instance, known: &mut ShiftWorkspace, group: u8, word: &[u8], price: u64)
    requires known { AreKnown instance.now known.old }
    requires short { length word.now ≤ 96 }
    requires price { IsTeamPrice instance.now (record { team = group; word = word.now }) price }
    ensures { AreKnown instance.now known.new }
{
    if known.shifts().len() >= MOST_KNOWN {
        known.clear();
    }
    known.keep(group, word, price);
}

// Finds the price of a word of a team by the table; `None` where it is no shift of it.
fn least_of(
    instance: &Instance,
    group: u8,
    word: &[u8],
    workspace: &mut RosterWorkspace,
) -> Option<u64>
    requires workspace { IsWorkspaceFor instance.now workspace.old }
    requires word { MayBeAsked instance.now group word.now }
    ensures price { IsPriceOf instance.now group word.now result }
    ensures workspace { IsWorkspaceFor instance.now workspace.new }
{
    workspace.room.keep(group, word, 0);
    let price = least_price(instance, &workspace.room.shifts()[0], &mut workspace.table);
    workspace.room.clear();
    price
}

/// Returns the price of a word of a team, and `None` where it is no shift of it. The last prices are known,
/// and take no further look at the table.
pub(crate) fn price_if_shift(
    instance: &Instance,
    group: u8,
    word: &[u8],
    workspace: &mut RosterWorkspace,
) -> Option<u64>
    requires workspace { IsWorkspaceFor instance.now workspace.old }
    requires word { MayBeAsked instance.now group word.now }
    ensures price { IsPriceOf instance.now group word.now result }
    ensures workspace { IsWorkspaceFor instance.now workspace.new }
{
    if let Some(price) = known_price(workspace.known.shifts(), group, word) {
        return Some(price);
    }
    let price = least_of(instance, group, word, workspace)?;
    remember(instance, &mut workspace.known, group, word, price);
    Some(price)
}

/// Returns the price of a shift of a team.
pub fn price_of(instance: &Instance, group: u8, word: &[u8], workspace: &mut RosterWorkspace) -> u64
    requires workspace { IsWorkspaceFor instance.now workspace.old }
    requires word { MayBeAsked instance.now group word.now }
    requires shift { IsTeamShift instance.now group word.now }
    ensures price { IsTeamPrice instance.now (record { team = group; word = word.now }) result }
    ensures workspace { IsWorkspaceFor instance.now workspace.new }
{
    let Some(price) = price_if_shift(instance, group, word, workspace) else {
        unreachable!();
    };
    price
}
