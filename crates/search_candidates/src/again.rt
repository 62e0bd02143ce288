//! The roster of stated shifts at their prices on a day.

ghost use Rattle.std.specs.Prelude.{◌≡◌, ◌≤◌, IfOk, length};
ghost use Rattle.model_rosters.specs.Folds.{Each};
ghost use Rattle.check_certificates.specs.Sound.{IsSoundShift};
ghost use Rattle.search_candidates.specs.Again.{FindsAgain, FindsAllAgain, IsRosterAgain};
ghost use Rattle.search_candidates.specs.Rosters.{IsWorkspaceFor};

use crate::price::price_if_shift;
use crate::roster::{Roster, judged};
use crate::shifts::put;
use crate::workspace::RosterWorkspace;
use model_rosters::{Instance, List, Memory, Shift};
use std::alloc::Global;

// Returns a copy of a word.
fn copied(alloc: Global, word: &[u8]) -> Result<List<u8>, Memory>
    ensures { IfOk result (λ w. w ≡ word.now) }
{
    let mut copy = List::new(alloc);
    copy.extend_from_slice(word)?;
    Ok(copy)
}

// Returns a shift at its price on the day, whatever it states; `None` where its word is no shift of its team.
fn shift_again(
    alloc: Global,
    instance: &Instance,
    shift: &Shift,
    workspace: &mut RosterWorkspace,
) -> Result<Option<Shift>, Memory>
    requires shift { IsSoundShift instance.now shift.now }
    requires workspace { IsWorkspaceFor instance.now workspace.old }
    ensures again { IfOk result (FindsAgain instance.now shift.now) }
    ensures workspace { IsWorkspaceFor instance.now workspace.new }
{
    let group = shift.group;
    let Some(price) = price_if_shift(instance, group, shift.word.as_slice(), workspace) else {
        return Ok(None);
    };
    let word = copied(alloc, shift.word.as_slice())?;
    Ok(Some(Shift { group, word, price }))
}

// Returns the shifts at their prices on the day, in their order; `None` where a word is no shift of its team.
fn shifts_again(
    alloc: Global,
    instance: &Instance,
    shifts: &[Shift],
    workspace: &mut RosterWorkspace,
) -> Result<Option<List<Shift>>, Memory>
    requires shifts { Each (IsSoundShift instance.now) shifts.now }
    requires workspace { IsWorkspaceFor instance.now workspace.old }
    ensures found { IfOk result (FindsAllAgain instance.now shifts.now) }
    ensures workspace { IsWorkspaceFor instance.now workspace.new }
{
    let mut found = Vec::new(alloc);
    for shift in shifts {
        let priced = shift_again(alloc, instance, shift, workspace)?;
        let Some(again) = priced else {
            return Ok(None);
        };
        put(&mut found, again)?;
    }
    Ok(Some(List::from_vec(found)))
}

/// Returns the roster of stated shifts at their prices on this day, whatever they state; `None` where it is
/// not allowed here. The shifts are of teams of the day, in any order.
///
/// # Errors
///
/// `Memory` where memory runs out; the workspace is still one for the instance then.
pub fn roster_again(
    alloc: Global,
    instance: &Instance,
    shifts: &[Shift],
    workspace: &mut RosterWorkspace,
) -> Result<Option<Roster>, Memory>
    requires shifts { Each (IsSoundShift instance.now) shifts.now }
    requires few { length shifts.now ≤ 64 }
    requires workspace { IsWorkspaceFor instance.now workspace.old }
    ensures roster { IfOk result (IsRosterAgain instance.now shifts.now) }
    ensures workspace { IsWorkspaceFor instance.now workspace.new }
{
    let again = shifts_again(alloc, instance, shifts, workspace)?;
    match again {
        Some(shifts) => Ok(judged(instance, shifts, workspace)),
        None => Ok(None),
    }
}
