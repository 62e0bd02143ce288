//! The test that shifts are sound.

ghost use Rattle.std.specs.Prelude.{◌≡◌, ◌≤◌, ◌↔◌, IsTrue, IfOk, IfSome, length};
ghost use Rattle.model_rosters.specs.Folds.{Each};
ghost use Rattle.check_certificates.specs.Sound.{IsWordByte, IsGroupNumber, IsSoundShift};
ghost use Rattle.search_holes.specs.Found.{AreSoundShifts};

use model_rosters::{Group, Instance, List, Memory, Shift};
use search_hole_passes::{HoleGraph, HoleRoster, HoleTree};
use std::alloc::Global;

/// No roster has more shifts.
const MOST_SHIFTS: usize = 64;

/// Says whether a byte may stand in a word: no blank, no control byte, and not `#`.
fn is_word_byte(byte: u8) -> bool
    ensures { IsTrue result ↔ IsWordByte byte }
{
    33 <= byte && byte <= 126 && byte != 35
}

/// Says whether a word has 1 to 96 bytes, all of which a word of a text may have.
fn is_word(word: &[u8]) -> bool
    ensures { IsTrue result ↔ ((1 ≤ length word.now) × (length word.now ≤ 96) × Each IsWordByte word.now) }
{
    !word.is_empty() && word.len() <= 96 && word.iter().all(|byte| is_word_byte(*byte))
}

/// Says whether a number is that of a group, or 0 on a day without groups.
fn is_group_number(groups: &[Group], number: u8) -> bool
    ensures { IsTrue result ↔ IsGroupNumber groups.now number }
{
    if groups.is_empty() {
        number == 0
    } else {
        1 <= number && number as usize <= groups.len()
    }
}

/// Says whether a shift has a word and a group that may be, and the price 0.
fn is_shift(instance: &Instance, shift: &Shift) -> bool
    ensures { IsTrue result → IsSoundShift instance.now shift.now }
{
    is_word(shift.word.as_slice())
        && is_group_number(instance.groups.as_slice(), shift.group)
        && shift.price == 0
}

/// Says whether each shift may be.
fn are_shifts(instance: &Instance, shifts: &[Shift]) -> bool
    ensures { IsTrue result → Each (IsSoundShift instance.now) shifts.now }
{
    shifts.iter().all(|shift| is_shift(instance, shift))
}

/// Returns the shifts where they are at most 64 sound ones, and else none.
fn tested(instance: &Instance, shifts: List<Shift>) -> Option<List<Shift>>
    ensures { IfSome result (AreSoundShifts instance.now) }
{
    if shifts.len() <= MOST_SHIFTS && are_shifts(instance, shifts.as_slice()) {
        Some(shifts)
    } else {
        None
    }
}

/// Returns the shift of a tree at the price 0.
fn shift_of(alloc: Global, graph: &HoleGraph, tree: &HoleTree) -> Result<Shift, Memory> {
    let mut word = List::new(alloc);
    word.extend_from_slice(tree.word.as_slice())?;
    let group = match graph.teams.as_slice().get(tree.team) {
        Some(team) => team.number,
        None => 0,
    };
    Ok(Shift {
        group,
        word,
        price: 0,
    })
}

/// Returns the shifts of a roster at the price 0.
fn shifts_of(alloc: Global, graph: &HoleGraph, roster: &HoleRoster) -> Result<List<Shift>, Memory> {
    let mut shifts = List::new(alloc);
    for tree in roster.trees.as_slice() {
        shifts.push(shift_of(alloc, graph, tree)?)?;
    }
    Ok(shifts)
}

/// Returns the shifts of a roster at the price 0, where they are at most 64 sound ones.
///
/// # Errors
///
/// `Memory` where memory runs out.
pub(crate) fn sound_shifts(
    alloc: Global,
    instance: &Instance,
    graph: &HoleGraph,
    roster: &HoleRoster,
) -> Result<Option<List<Shift>>, Memory>
    ensures { IfOk result (λ found. IfSome found (AreSoundShifts instance.now)) }
{
    let shifts = shifts_of(alloc, graph, roster)?;
    Ok(tested(instance, shifts))
}
