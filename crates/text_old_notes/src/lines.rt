//! The lines of an old text in words.

use std::alloc::Global;
use text_fault_notes::{Words, listed};
use text_lines::{Line, Lines};

/// A text that a command reads has at most so many bytes.
const MOST_BYTES: usize = 1_073_741_824;

// Returns the line of a number, where it has words.
fn line_at(text: &[u8], number: u32) -> Option<Line<'_>> {
    if MOST_BYTES < text.len() {
        return None;
    }
    let mut lines = Lines::new(text);
    while let Some(item) = lines.next() {
        let line = item.ok()?;
        if line.number() == number {
            return Some(line);
        }
    }
    None
}

/// Returns the words of the line of a number.
pub(crate) fn words_at(alloc: Global, text: &[u8], number: u32) -> Option<Words<'_>> {
    let line = line_at(text, number)?;
    listed(alloc, number, &mut line.words())
}
