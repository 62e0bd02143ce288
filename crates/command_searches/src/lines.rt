//! The lines of a note.

/// Adds a line to those of a note, whose last line has no line feed; `None` after want of memory.
pub(crate) fn add_line(text: &mut String, line: String) -> Option<()> {
    if !text.is_empty() {
        text.push('\n').ok()?;
    }
    text.push_str(line.as_str()).ok()
}
