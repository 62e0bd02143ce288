//! The lines of covers.

ghost use Rattle.std.specs.Prelude.{◌≡◌, ◌/◌, ◌++◌, [], ◌∷◌, length, OnOk};
ghost use Rattle.model_rosters.specs.SoundInstance.{IsSoundInstance};
ghost use Rattle.text_lines.specs.Written.{written};
ghost use Rattle.text_reports.specs.ReportText.{part_line, code_lines, cover_lines};

use crate::cover::Cover;
use crate::part::{Part, numbers, part_name};
use model_rosters::{Instance, List, Memory};
use text_lines::{put, word};
use text_proof_pieces::due_byte;

// Writes one number of each of a code's cells.
fn part_line(out: &mut List<u8>, part: Part, code: u8, covers: &[Cover]) -> Result<(), Memory>
    ensures { OnOk result (out.new ≡ out.old ++ written (part_line part code covers.now ∷ [])) }
{
    put(out, part_name(part))?;
    word(out, &[code])?;
    numbers(out, part, covers)?;
    out.push(b'\n')
}

// Writes the lines of a code's cells.
fn code_lines(out: &mut List<u8>, code: u8, covers: &[Cover]) -> Result<(), Memory>
    ensures { OnOk result (out.new ≡ out.old ++ written (code_lines code covers.now)) }
{
    part_line(out, Part::Need, code, covers)?;
    part_line(out, Part::Have, code, covers)?;
    part_line(out, Part::Short, code, covers)?;
    part_line(out, Part::Over, code, covers)
}

/// Writes the lines of the cells of all codes.
///
/// # Errors
///
/// `Memory` where memory runs out; a part of them may stand there then.
pub fn cover_lines(out: &mut List<u8>, instance: &Instance, covers: &[Cover]) -> Result<(), Memory>
    requires sound { IsSoundInstance instance.now }
    requires whole { length covers.now ≡ length instance.now.cells }
    ensures { OnOk result (out.new ≡ out.old ++ written
        (cover_lines instance.now 0 (length covers.now / instance.now.grammar.periods) covers.now)) }
{
    let mut place = 0;
    let mut rest = covers;
    while !rest.is_empty() {
        let (first, others) = rest.split_at(instance.grammar.periods as usize);
        code_lines(out, due_byte(instance, place), first)?;
        place += first.len();
        rest = others;
    }
    Ok(())
}
