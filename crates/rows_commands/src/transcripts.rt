//! Transcripts of what the program answers: cases one after another, each begun by `>`. A case is a line of
//! words, the lines of a text that the shelf holds under `proof`, each behind a line feed or `; `, behind `<`
//! a line with the statuses that may come, and what is said. With `..` behind the statuses it is lines that
//! are said, among others. Behind a line `!` stands what is noted.

use crate::shelves::{Outcome, first_line, is_said, run_on, shelf_of};
use command_shelf::MemoryShelf;
use std::alloc::Global;
use std::test::Fail;

/// Words, a text that the shelf holds under `proof`, the statuses that may come, what is said, and what is
/// noted, where the case tells that.
#[derive(Clone, Copy, Drop)]
struct Case<'a> {
    words: &'a str,
    proof: &'a str,
    statuses: &'a str,
    said: &'a str,
    notes: Option<&'a str>,
}

/// Returns what is said, and what is noted, where that is told.
fn outcome_of(text: &str) -> (&str, Option<&str>) {
    match text.split_once('!') {
        Some((said, notes)) => (said, Some(first_line(notes).1)),
        None => (text, None),
    }
}

/// Returns a case of a transcript.
fn case_of(text: &str) -> Case<'_> {
    let (words, rest) = first_line(text);
    let (proof, answer) = rest.split_once('<').unwrap_or((rest, ""));
    let (statuses, outcome) = first_line(answer);
    let (said, notes) = outcome_of(outcome);
    Case {
        words,
        proof,
        statuses,
        said,
        notes,
    }
}

/// Whether the status stands among these.
fn may_come(status: u8, statuses: &str) -> bool {
    statuses
        .split_whitespace()
        .any(|word| word.parse::<u8>() == Ok(status))
}

/// Whether what was said is what the case tells.
fn says_so(said: &[u8], case: &Case<'_>) -> bool {
    if case.statuses.ends_with("..") {
        case.said.lines().all(|line| is_said(said, line))
    } else {
        said == case.said.as_bytes()
    }
}

/// Whether what was noted is what the case tells, where it tells that.
fn notes_so(notes: &[u8], case: &Case<'_>) -> bool {
    match case.notes {
        Some(wanted) => notes == wanted.as_bytes(),
        None => true,
    }
}

/// Returns a shelf with the texts of the tests and that of a case.
fn case_shelf(alloc: Global, case: &Case<'_>) -> Result<MemoryShelf, Fail> {
    let proof = case.proof.replace(alloc, "; ", "\n")?;
    let mut shelf = shelf_of(alloc, &[])?;
    shelf.put("proof", proof.as_bytes())?;
    Ok(shelf)
}

/// Whether a run ends as a case tells.
fn is_right(run: &Outcome, case: &Case<'_>) -> bool {
    may_come(run.status, case.statuses)
        && run.shelf.faults() == u64::from(run.status == 6)
        && says_so(run.shelf.said(), case)
        && notes_so(run.shelf.notes(), case)
}

/// Whether a case has its answer; with status 6 the shelf counted a fault, and with others none.
fn has_answer(alloc: Global, case: &Case<'_>) -> Result<bool, Fail> {
    let shelf = case_shelf(alloc, case)?;
    let run = run_on(alloc, shelf, case.words)?;
    Ok(is_right(&run, case))
}

/// Whether each case of a transcript has its answer.
///
/// # Errors
///
/// The first case whose answer is another one; want of memory.
pub(crate) fn have_answers(alloc: Global, transcript: &str) -> Result<(), Fail> {
    for text in transcript.split('>').skip(1) {
        if !has_answer(alloc, &case_of(text))? {
            return Err(Fail::from(text));
        }
    }
    Ok(())
}
