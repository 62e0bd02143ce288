//! Runs of the program over shelves in memory that hold the texts of the tests.

use crate::texts::{BYTES, TEXTS};
use command_line::run;
use command_shelf::MemoryShelf;
use search_branch_price::{PlainMaster, TurnWatch};
use std::alloc::{AllocError, Global};
use std::test::Fail;

/// Returns the first line of a text, and what follows it.
pub(crate) fn first_line(text: &str) -> (&str, &str) {
    text.split_once('\n').unwrap_or((text, ""))
}

/// Puts the texts of the tests on a shelf.
fn put_texts(shelf: &mut MemoryShelf) -> Result<(), Fail> {
    for part in TEXTS.split('@').skip(1) {
        let (name, text) = first_line(part);
        shelf.put(name.trim(), text.as_bytes())?;
    }
    for (name, text) in &BYTES {
        shelf.put(name, text)?;
    }
    Ok(())
}

/// Returns a shelf with the texts of the tests, whose calls of these numbers fail.
///
/// # Errors
///
/// Want of memory.
pub(crate) fn shelf_of(alloc: Global, failing: &[u32]) -> Result<MemoryShelf, Fail> {
    let mut shelf = MemoryShelf::new(alloc, failing.to_vec(alloc)?);
    put_texts(&mut shelf)?;
    Ok(shelf)
}

/// Returns the words of a line; `''` is the empty word.
fn words_of(alloc: Global, line: &str) -> Result<Vec<String>, AllocError> {
    let mut words = Vec::new(alloc);
    for word in line.split_whitespace() {
        let word = if word == "''" { "" } else { word };
        words.push(String::from_str(alloc, word)?)?;
    }
    Ok(words)
}

/// Runs the program on the words of a line, and returns its status.
///
/// # Errors
///
/// Want of memory for the words.
pub(crate) fn answer(alloc: Global, shelf: &mut MemoryShelf, line: &str) -> Result<u8, AllocError> {
    let words = words_of(alloc, line)?;
    Ok(run(
        alloc,
        shelf,
        words.as_slice(),
        &mut PlainMaster::new(),
        &mut TurnWatch::new(),
    ))
}

/// A shelf after a run, and the run's status.
#[derive(Drop)]
pub(crate) struct Outcome {
    pub(crate) shelf: MemoryShelf,
    pub(crate) status: u8,
}

/// Runs the program on the words of a line, over a shelf that is handed back.
///
/// # Errors
///
/// Want of memory for the words.
pub(crate) fn run_on(
    alloc: Global,
    mut shelf: MemoryShelf,
    line: &str,
) -> Result<Outcome, AllocError> {
    let status = answer(alloc, &mut shelf, line)?;
    Ok(Outcome { shelf, status })
}

/// The names that the searches of these tests store.
pub(crate) const STORED: [&str; 3] = ["p", "p.1", "p.2"];

/// Whether two runs have the same status, say the same, and leave the same under each of these names.
pub(crate) fn end_alike(one: &Outcome, other: &Outcome) -> bool {
    one.status == other.status
        && one.shelf.faults() == other.shelf.faults()
        && one.shelf.said() == other.shelf.said()
        && STORED
            .iter()
            .all(|name| one.shelf.text(name) == other.shelf.text(name))
}

/// Whether a line was said.
pub(crate) fn is_said(text: &[u8], line: &str) -> bool {
    text.split(|byte| *byte == b'\n')
        .any(|said| said == line.as_bytes())
}
