//! How many words are at a cell.

ghost use Rattle.std.specs.Prelude.{◌≡◌, ◌≤◌, ◌++◌, IfOk, OnOk, length};
ghost use Rattle.text_lines.specs.Written.{written};
ghost use Rattle.model_rosters.specs.SoundInstance.{IsSoundInstance};
ghost use Rattle.check_values.specs.ValueText.{covers_of, covered_lines};

use model_rosters::{Instance, List, Memory, Shift};
use std::alloc::Global;
use text_reports::{Cover, add_covers, cover_lines};

// Returns how shifts cover each cell.
fn covers_of(alloc: Global, instance: &Instance, shifts: &[Shift]) -> Result<List<Cover>, Memory>
    requires sound { IsSoundInstance instance.now }
    requires few { length shifts.now ≤ 64 }
    ensures { IfOk result (λ covers. covers ≡ covers_of instance.now shifts.now) }
{
    let mut covers = List::new(alloc);
    let cells = instance.cells.as_slice();
    add_covers(&mut covers, &instance.grammar, cells, shifts)?;
    Ok(covers)
}

/// Writes the four lines of each demanded code.
///
/// # Errors
///
/// `Memory` where memory runs out; a part of them may stand there then.
pub(crate) fn covered_lines(
    alloc: Global,
    out: &mut List<u8>,
    instance: &Instance,
    shifts: &[Shift],
) -> Result<(), Memory>
    requires sound { IsSoundInstance instance.now }
    requires few { length shifts.now ≤ 64 }
    ensures { OnOk result (out.new ≡ out.old ++ written (covered_lines instance.now shifts.now)) }
{
    let covers = covers_of(alloc, instance, shifts)?;
    cover_lines(out, instance, covers.as_slice())
}
