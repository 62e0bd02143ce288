//! A labels text, read from its first line to its end.

ghost use Rattle.std.specs.Prelude.{◌≡◌, ◌<◌, ◌≤◌, ◌^◌, length};
ghost use Rattle.model_rosters.specs.SoundInstance.{IsSoundInstance};
ghost use Rattle.page_labels.specs.Labels.{nothing};
ghost use Rattle.page_labels.specs.LabelsOf.{item_at, labels_of};
ghost use Rattle.page_labels.specs.Steps.{each, Reads};
ghost use Rattle.page_labels.specs.TextLines.{text_items};

use crate::fault::LabelFault;
use crate::labels::{Labels, no_labels};
use crate::line::line;
use crate::text_line::{Line, Lines};
use model_rosters::Instance;
use std::alloc::Global;
use text_lines::BadByte;

/// A text has at most so many bytes.
const MOST_BYTES: usize = 65_536;

// Reads what a line gives.
fn item(
    alloc: Global,
    instance: &Instance,
    labels: &mut Labels,
    item: Result<Line<'_>, BadByte>,
) -> Result<(), LabelFault>
    requires codes { length instance.now.grammar.codes ≤ 32 }
    requires groups { length instance.now.groups ≤ 8 }
    ensures { Reads (λ _. (labels.new)) result (item_at instance.now labels.old item.entry) }
{
    match item {
        Ok(words) => line(alloc, instance, labels, &words),
        Err(BadByte { line }) => Err(LabelFault::BadByte { line }),
    }
}

// Reads all lines of a text.
fn lines(alloc: Global, instance: &Instance, text: &[u8]) -> Result<Labels, LabelFault>
    requires codes { length instance.now.grammar.codes ≤ 32 }
    requires groups { length instance.now.groups ≤ 8 }
    requires short { length text.now < 2 ^ 32 }
    ensures { Reads (λ labels. labels) result (each (item_at instance.now) nothing (text_items text.now)) }
{
    let mut labels = no_labels(alloc);
    let mut lines = Lines::new(text);
    while let Some(next) = lines.next() {
        item(alloc, instance, &mut labels, next)?;
    }
    Ok(labels)
}

/// Reads a labels text for an instance, or the first fault of the text.
///
/// A text that is too long is refused before all else. Then the lines are read in order, and the first that
/// cannot stand gives the fault; in a line a bad byte comes first, then how many words there are, then the
/// words from left to right, then that such a line stands before.
///
/// # Errors
///
/// The first fault of the text, in this order; `Memory` may come at any time.
#[tactic(auto, unfolding(crate::specs::LabelsOf::labels_of))]
pub fn read_labels(alloc: Global, instance: &Instance, text: &[u8]) -> Result<Labels, LabelFault>
    requires { IsSoundInstance instance.now }
    ensures { Reads (λ labels. labels) result (labels_of instance.now text.now) }
{
    if MOST_BYTES < text.len() {
        return Err(LabelFault::TooLong);
    }
    lines(alloc, instance, text)
}
