//! One of the numbers of a cover.

ghost use Rattle.std.specs.Prelude.{◌≡◌, ◌++◌, OnOk};
ghost use Rattle.text_lines.specs.Written.{tail};
ghost use Rattle.text_reports.specs.ReportText.{part_name, part_of, parts_of};

use crate::cover::Cover;
use model_rosters::{List, Memory};
use text_lines::field;

/// One of the numbers of a cell's cover.
#[derive(Clone, Copy, Drop)]
pub(crate) enum Part {
    Need,
    Have,
    Short,
    Over,
}

/// The word that the line of these numbers begins with.
pub(crate) fn part_name(part: Part) -> &'static [u8]
    ensures { result.now ≡ part_name part }
{
    match part {
        Part::Need => b"need",
        Part::Have => b"have",
        Part::Short => b"short",
        Part::Over => b"over",
    }
}

// Returns this number of a cell's cover.
fn part_of(part: Part, cover: &Cover) -> u32
    ensures { result ≡ part_of part cover.now }
{
    match part {
        Part::Need => cover.need,
        Part::Have => cover.have,
        Part::Short => cover.short,
        Part::Over => cover.over,
    }
}

/// Appends this number of each cell.
///
/// # Errors
///
/// `Memory` where memory runs out; a part may stand in `out` then.
pub(crate) fn numbers(out: &mut List<u8>, part: Part, covers: &[Cover]) -> Result<(), Memory>
    ensures { OnOk result (out.new ≡ out.old ++ tail (parts_of part covers.now)) }
{
    for cover in covers {
        field(out, part_of(part, cover) as u64)?;
    }
    Ok(())
}
