//! The price of each word.

ghost use Rattle.std.specs.Prelude.{◌≡◌, IfOk, IfSome, IsTrue, Some, slice_get};
ghost use Rattle.model_rosters.specs.declared.grammar.Grammar.{Grammar as Rules};
ghost use Rattle.model_rosters.specs.declared.instance.Shift.{Shift as ShiftValue};
ghost use Rattle.model_rosters.specs.Duties.{duty};
ghost use Rattle.model_rosters.specs.Folds.{Each};
ghost use Rattle.model_rosters.specs.SoundInstance.{IsSoundInstance};
ghost use Rattle.check_certificates.specs.Sound.{IsGroupNumber, IsSoundShift};
ghost use Rattle.tree_span_table.specs.Tables.{IsMadeFor};
ghost use Rattle.text_reports.specs.Reports.{HasSoundShifts};
ghost use Rattle.check_values.specs.Causes.{AreFound, IsFound};

use check_parts::{ShiftWorkspace, StatedShift, least_price};
use model_rosters::{Instance, List, Memory, Shift};
use std::alloc::Global;
use tree_span_table::Table;

// Returns whether two shifts are one word in one team.
fn is_same_duty(first: &StatedShift, second: &StatedShift) -> bool
    ensures { IsTrue result → duty first.now ≡ duty second.now }
{
    first.group() == second.group() && first.word() == second.word()
}

// Returns the place of the first of these shifts that is the same word in the same team, where there is one.
fn same_among(shifts: &[StatedShift], shift: &StatedShift) -> Option<usize>
    ensures { IfSome result (λ place. (same : ShiftValue) × (slice_get shifts.now place ≡ Some same)
        × (duty same ≡ duty shift.now)) }
{
    for (place, other) in shifts.iter().enumerate() {
        if is_same_duty(other, shift) {
            return Some(place);
        }
    }
    None
}

// Returns the price of a shift's word in its team, or none for a word that is no shift of it. The table is
// filled only where no shift before, of which these prices were found, is the same word in the same team.
fn price_after(
    instance: &Instance,
    before: &[StatedShift],
    found: &[Option<u64>],
    shift: &StatedShift,
    table: &mut Table,
) -> Option<u64>
    requires sound { IsSoundInstance instance.now }
    requires made { IsMadeFor instance.now.grammar table.old }
    requires found { AreFound instance.now before.now found.now }
    requires group { IsGroupNumber instance.now.groups shift.now.group }
    ensures value { IsFound instance.now shift.now result }
    ensures kept { (g : Rules) → IsMadeFor g table.old → IsMadeFor g table.new }
{
    match same_among(before, shift) {
        Some(place) => found[place],
        None => least_price(instance, shift, table),
    }
}

// Returns the price of each shift's word in its team, or none for a word that is no shift of it. The table
// was made for the instance's grammar.
fn found_by(
    alloc: Global,
    instance: &Instance,
    shifts: &[StatedShift],
    table: &mut Table,
) -> Result<List<Option<u64>>, Memory>
    requires sound { IsSoundInstance instance.now }
    requires made { IsMadeFor instance.now.grammar table.old }
    requires shifts { Each (IsSoundShift instance.now) shifts.now }
    ensures { IfOk result (AreFound instance.now shifts.now) }
{
    let mut found = List::new(alloc);
    for (place, shift) in shifts.iter().enumerate() {
        let price = price_after(instance, &shifts[..place], found.as_slice(), shift, table);
        found.push(price)?;
    }
    Ok(found)
}

// Returns the same by a table of its own.
fn found_in(
    alloc: Global,
    instance: &Instance,
    shifts: &[StatedShift],
) -> Result<List<Option<u64>>, Memory>
    requires sound { IsSoundInstance instance.now }
    requires shifts { Each (IsSoundShift instance.now) shifts.now }
    ensures { IfOk result (AreFound instance.now shifts.now) }
{
    let mut table = Table::for_instance(alloc, &instance.grammar)?;
    found_by(alloc, instance, shifts, &mut table)
}

/// Returns the price of each shift's word in its team, or none for a word that is no shift of it. What a
/// shift states as its price does not matter.
///
/// # Errors
///
/// `Memory` where memory runs out.
pub fn found_of(
    alloc: Global,
    instance: &Instance,
    shifts: &[Shift],
) -> Result<List<Option<u64>>, Memory>
    requires sound { IsSoundInstance instance.now }
    requires shifts { HasSoundShifts instance.now shifts.now }
    ensures { IfOk result (AreFound instance.now shifts.now) }
{
    let mut room = ShiftWorkspace::new(alloc)?;
    room.keep_all(shifts);
    found_in(alloc, instance, room.shifts())
}
