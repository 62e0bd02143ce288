//! Transcripts of what the program says over shelves in memory: cases one after another, each begun by `~`. A
//! case is a line of words, a line with the status, and what is said; with `..` behind the status it is
//! lines, each of which stands somewhere in what is said. Behind a line `!` stands what is noted. A case may
//! hold a text of its own, which the shelf has under `own`: its lines, each behind a line feed or `; `, stand
//! before `<`.

use crate::texts::TEXTS;
use command_shelf::MemoryShelf;
use page_command::run;
use std::alloc::{AllocError, Global};
use std::test::Fail;

/// Returns the first line of a text, and what follows it.
fn first_line(text: &str) -> (&str, &str) {
    text.split_once('\n').unwrap_or((text, ""))
}

/// Puts the texts of the tests on a shelf.
fn put_texts(shelf: &mut MemoryShelf) -> Result<(), Fail> {
    for part in TEXTS.split('@').skip(1) {
        let (name, text) = first_line(part);
        shelf.put(name.trim(), text.as_bytes())?;
    }
    Ok(())
}

/// Returns a shelf with the texts of the tests, whose calls of these numbers fail.
///
/// # Errors
///
/// Want of memory.
pub(crate) fn shelf_of(alloc: Global, failing: &[u32]) -> Result<MemoryShelf, Fail> {
    let mut shelf = MemoryShelf::new(alloc, failing.to_vec(alloc)?);
    put_texts(&mut shelf)?;
    Ok(shelf)
}

/// Runs the program on the words of a line, and returns its status.
///
/// # Errors
///
/// Want of memory for the words.
pub(crate) fn answer(alloc: Global, shelf: &mut MemoryShelf, line: &str) -> Result<u8, AllocError> {
    let mut words = Vec::new(alloc);
    for word in line.split_whitespace() {
        words.push(String::from_str(alloc, word)?)?;
    }
    Ok(run(alloc, shelf, words.as_slice()))
}

/// Whether a part stands somewhere in a text.
fn has(text: &[u8], part: &str) -> bool {
    let part = part.as_bytes();
    part.len() > 0 && text.windows(part.len()).any(|window| window == part)
}

/// Whether a line tells the status.
fn tells(line: &str, status: u8) -> bool {
    line.split_whitespace()
        .any(|word| word.parse::<u8>() == Ok(status))
}

/// Whether what was said is what a case tells, or has each line of that, by the line of its status.
fn says_so(said: &[u8], line: &str, wanted: &str) -> bool {
    if line.ends_with("..") {
        wanted.lines().all(|part| has(said, part))
    } else {
        said == wanted.as_bytes()
    }
}

/// Whether what was noted is what a case tells, where it tells that.
fn notes_so(noted: &[u8], wanted: Option<&str>) -> bool {
    match wanted {
        Some(wanted) => noted == wanted.as_bytes(),
        None => true,
    }
}

/// Returns what is said, and what is noted, where that is told.
fn outcome_of(text: &str) -> (&str, Option<&str>) {
    match text.split_once("!\n") {
        Some((said, noted)) => (said, Some(noted)),
        None => (text, None),
    }
}

/// Whether a case has its answer on a shelf.
///
/// # Errors
///
/// Want of memory for the words.
pub(crate) fn has_answer(
    alloc: Global,
    shelf: &mut MemoryShelf,
    text: &str,
) -> Result<bool, AllocError> {
    let (words, rest) = first_line(text);
    let (line, outcome) = first_line(rest);
    let (said, noted) = outcome_of(outcome);
    let status = answer(alloc, shelf, words)?;
    Ok(tells(line, status) && says_so(shelf.said(), line, said) && notes_so(shelf.notes(), noted))
}

/// Whether a case has its answer on a shelf of its own.
fn has_answer_alone(alloc: Global, text: &str) -> Result<bool, Fail> {
    let mut shelf = shelf_of(alloc, &[])?;
    Ok(has_answer(alloc, &mut shelf, text)?)
}

/// Whether a case has its answer on a shelf that holds its own text under `own`.
fn has_answer_to_own(alloc: Global, text: &str) -> Result<bool, Fail> {
    let (own, case) = text.split_once("<\n").unwrap_or((text, ""));
    let own = own.replace(alloc, "; ", "\n")?;
    let mut shelf = shelf_of(alloc, &[])?;
    shelf.put("own", own.trim().as_bytes())?;
    Ok(has_answer(alloc, &mut shelf, case)?)
}

/// Whether each case of a transcript has its answer, each with a text of its own.
///
/// # Errors
///
/// The first case whose answer is another one; want of memory.
pub(crate) fn have_answers_to_own(alloc: Global, transcript: &str) -> Result<(), Fail> {
    for text in transcript.split('~').skip(1) {
        if !has_answer_to_own(alloc, text)? {
            return Err(Fail::from(text));
        }
    }
    Ok(())
}

/// Whether each case of a transcript has its answer.
///
/// # Errors
///
/// The first case whose answer is another one; want of memory.
pub(crate) fn have_answers(alloc: Global, transcript: &str) -> Result<(), Fail> {
    for text in transcript.split('~').skip(1) {
        if !has_answer_alone(alloc, text)? {
            return Err(Fail::from(text));
        }
    }
    Ok(())
}
