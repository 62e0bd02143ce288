//! Each call of each command where it is refused: what is said, noted and stored then.
//!
//! For each form of the commands and each call of it what is said, what is noted and what the stored names
//! hold where that call is refused, and where a call is that is never made; the whole report of `solve` and
//! `make` where the store is refused, and half of it where the say behind it is too; a text that is no
//! certificate stands; a refused text comes first; texts of the most bytes, and longer ones.

use crate::shelves::{Outcome, STORED, end_alike, run_on, shelf_of};
use crate::transcripts::have_answers;
use command_shelf::MemoryShelf;
use std::alloc::{AllocError, Global};
use std::test::Fail;

/// Words, and behind `>` the names of their calls before the last one, which says the answer; `!` stands
/// before a name that is stored under, and `+` where the answer is said all the same after that call was
/// refused.
const CALLS: &str = "explain g1 .aa. > g1
rank g1 10 > g1
next g1 .aa > g1
fits g1 #a#. > g1
check g2 q2 halves > g2 q2 halves
value g1 q1 pair > g1 q1 pair
rest g1 q1 pair > g1 q1 pair
relax-rules g1 > g1
relax-demand g1 limits floors > g1 limits
reuse g2 two_each halves > g2 two_each halves
solve g1 q1 p 10 > g1 q1 +p
solve g2 q2 p 10 halves > g2 q2 halves +p
make 7 p 1 > +p
curve g1 q1 p 10 > g1 q1 !p.1 !p.2
";

/// What each name that is stored under holds before.
const OLD: &[u8] = b"proof 1\nold";

/// Puts a text under each name that is stored.
fn put_old(shelf: &mut MemoryShelf) -> Result<(), Fail> {
    for name in &STORED {
        shelf.put(name, OLD)?;
    }
    Ok(())
}

/// Runs the program on a shelf whose calls of these numbers fail.
fn run(alloc: Global, words: &str, failing: &[u32]) -> Result<Outcome, Fail> {
    let mut shelf = shelf_of(alloc, failing)?;
    put_old(&mut shelf)?;
    Ok(run_on(alloc, shelf, words)?)
}

/// Whether a run was refused once, and noted this at last.
fn notes_refusal(
    alloc: Global,
    run: &Outcome,
    name: &str,
    cause: &str,
) -> Result<bool, AllocError> {
    let note = [name, cause].concat(alloc)?;
    Ok(run.status == 6 && run.shelf.faults() == 1 && run.shelf.notes().ends_with(note.as_bytes()))
}

/// Whether a name holds what a whole run stores there, where its call came before the one that failed, and
/// else what it held before.
fn holds(refused: &Outcome, whole: &Outcome, name: &str, is_stored: bool) -> bool {
    let held = refused.shelf.text(name);
    if is_stored {
        held == whole.shelf.text(name) && held != Some(OLD)
    } else {
        held == Some(OLD)
    }
}

/// The name that a call stores under, if it does.
fn stored_name(call: &str) -> Option<&str> {
    match call.strip_prefix('!') {
        Some(name) => Some(name),
        None => call.strip_prefix('+'),
    }
}

/// Whether each name that is stored under does.
fn hold(refused: &Outcome, whole: &Outcome, calls: &str, failing: u32) -> bool {
    let mut number = 0u32;
    for call in calls.split_whitespace() {
        number = number.saturating_add(1);
        if let Some(name) = stored_name(call) {
            if !holds(refused, whole, name, number < failing) {
                return false;
            }
        }
    }
    true
}

/// Whether each name that no call stores under holds what it held.
fn keeps(run: &Outcome, calls: &str) -> bool {
    STORED.iter().all(|name| {
        calls
            .split_whitespace()
            .any(|call| stored_name(call) == Some(*name))
            || run.shelf.text(name) == Some(OLD)
    })
}

/// Whether a run whose call of this number and name fails ends there, with this said.
fn ends_at(
    alloc: Global,
    words: &str,
    calls: &str,
    whole: &Outcome,
    failing: u32,
    name: &str,
    said: &[u8],
) -> Result<bool, Fail> {
    let refused = run(alloc, words, &[failing])?;
    Ok(
        notes_refusal(alloc, &refused, name, ": refused\n")?
            && refused.shelf.said() == said
            && hold(&refused, whole, calls, failing)
            && keeps(&refused, calls),
    )
}

/// Whether a run with a failing call that is never made ends as a whole run does.
fn is_unmoved(alloc: Global, words: &str, whole: &Outcome, failing: u32) -> Result<bool, Fail> {
    let other = run(alloc, words, &[failing])?;
    Ok(end_alike(&other, whole))
}

/// Whether a run whose store of this number fails, and what it says behind that too, says half of the answer,
/// and leaves what the name held.
fn says_half(
    alloc: Global,
    words: &str,
    calls: &str,
    whole: &Outcome,
    failing: u32,
) -> Result<bool, Fail> {
    let refused = run(alloc, words, &[failing, failing.saturating_add(1)])?;
    let said = whole.shelf.said();
    Ok(
        refused.status == 6
            && refused.shelf.faults() == 2
            && refused.shelf.said() == &said[..said.len() / 2]
            && hold(&refused, whole, calls, failing)
            && keeps(&refused, calls),
    )
}

/// Whether a run whose call of this number is a store that fails, before the answer is said all the same,
/// says all of it, and half of it where that fails too.
fn is_not_lost(
    alloc: Global,
    words: &str,
    calls: &str,
    whole: &Outcome,
    failing: u32,
    name: &str,
) -> Result<bool, Fail> {
    Ok(
        ends_at(
            alloc,
            words,
            calls,
            whole,
            failing,
            name,
            whole.shelf.said(),
        )? && says_half(alloc, words, calls, whole, failing)?,
    )
}

/// Whether the run ends at a call, where that one fails: with nothing said, or with all where it is a store
/// of one certificate.
fn ends_at_call(
    alloc: Global,
    words: &str,
    calls: &str,
    whole: &Outcome,
    failing: u32,
    call: &str,
) -> Result<bool, Fail> {
    match call.strip_prefix('+') {
        Some(name) => is_not_lost(alloc, words, calls, whole, failing, name),
        None => {
            let name = stored_name(call).unwrap_or(call);
            ends_at(alloc, words, calls, whole, failing, name, b"")
        }
    }
}

/// Whether the run ends at each of its calls, where that one fails: with nothing said, with all where the
/// call is the store of one certificate, or with half of the answer.
fn ends_at_each(alloc: Global, words: &str, calls: &str, whole: &Outcome) -> Result<bool, Fail> {
    let mut number = 1u32;
    for call in calls.split_whitespace() {
        if !ends_at_call(alloc, words, calls, whole, number, call)? {
            return Ok(false);
        }
        number = number.saturating_add(1);
    }
    let said = whole.shelf.said();
    let half = &said[..said.len() / 2];
    Ok(
        ends_at(alloc, words, calls, whole, number, "standard output", half)?
            && is_unmoved(alloc, words, whole, number.saturating_add(1))?,
    )
}

/// Whether the run ends so, beside a whole one.
fn is_right(alloc: Global, words: &str, calls: &str) -> Result<bool, Fail> {
    let whole = run(alloc, words, &[])?;
    Ok(keeps(&whole, calls) && ends_at_each(alloc, words, calls, &whole)?)
}

#[test]
fn a_refused_call_ends_the_run(rt: HostRuntime) -> Result<(), Fail> {
    for line in CALLS.lines() {
        let (words, calls) = line.split_once('>').unwrap_or((line, ""));
        if !is_right(rt.alloc(), words, calls)? {
            return Err(Fail::from(line));
        }
    }
    Ok(())
}

/// Words, and behind `>` a name that they would store under.
const KEPT: &str = "solve g1 q1 p 10 > p
make 7 p 1 > p
curve g1 q1 p 10 > p.1
curve g1 q1 p 10 > p.2
";

/// A text that is no certificate.
const RULES: &[u8] = b"periods 4\n";

/// Runs the program on a shelf that holds this text under a name.
fn run_over(alloc: Global, words: &str, name: &str) -> Result<Outcome, Fail> {
    let mut shelf = shelf_of(alloc, &[])?;
    put_old(&mut shelf)?;
    shelf.put(name, RULES)?;
    Ok(run_on(alloc, shelf, words)?)
}

/// Whether the text stands, and the others under names that are stored under.
fn stand(shelf: &MemoryShelf, name: &str) -> bool {
    shelf.text(name) == Some(RULES)
        && STORED
            .iter()
            .all(|other| *other == name || shelf.text(other) == Some(OLD))
}

/// Whether the run is refused, and does nothing else.
fn is_kept(alloc: Global, words: &str, name: &str) -> Result<bool, Fail> {
    let run = run_over(alloc, words, name)?;
    let cause = ": the file is no certificate, and was left alone\n";
    Ok(
        notes_refusal(alloc, &run, name, cause)?
            && run.shelf.said().is_empty()
            && stand(&run.shelf, name),
    )
}

#[test]
fn a_text_that_is_no_certificate_stands(rt: HostRuntime) -> Result<(), Fail> {
    for line in KEPT.lines() {
        let (words, name) = line.split_once('>').unwrap_or((line, ""));
        if !is_kept(rt.alloc(), words, name.trim())? {
            return Err(Fail::from(line));
        }
    }
    Ok(())
}

/// Words of which some text is refused; the certificate would be stored over the rules `g2`.
const REFUSED: &str = "
> solve q1 q1 g2 10
< 3
rules: line 1: unknown line
> solve g1 g2 g2 10
< 4
demand: line 1: unknown line
";

#[test]
fn a_refused_text_comes_first(rt: HostRuntime) -> Result<(), Fail> {
    have_answers(rt.alloc(), REFUSED)
}

/// Words of which a text under `long` is a comment of the most bytes and of one byte more, the status, and
/// the line of a fault: of a text without lines, and of one that is too long.
const LONG: &str = "explain long a > 3 rules: no periods line
explain longer a > 3 rules: the text is too long
solve g1 long p 10 > 4 demand: no heads line
solve g1 longer p 10 > 4 demand: the text is too long
value g1 q1 longer > 5 roster: the text is too long
rest g1 q1 longer > 5 roster: the text is too long
";

/// Puts a text of the most bytes, and one that is longer.
fn put_long(alloc: Global, shelf: &mut MemoryShelf) -> Result<(), Fail> {
    let long = "#".repeat(alloc, 1_048_576)?;
    shelf.put("long", long.as_bytes())?;
    let longer = "#".repeat(alloc, 1_048_577)?;
    shelf.put("longer", longer.as_bytes())?;
    Ok(())
}

/// Whether the words end with a status and say a line.
fn says_line(alloc: Global, words: &str, answer: &str) -> Result<bool, Fail> {
    let mut shelf = shelf_of(alloc, &[])?;
    put_long(alloc, &mut shelf)?;
    let run = run_on(alloc, shelf, words)?;
    let (status, line) = answer.trim().split_once(' ').unwrap_or((answer, ""));
    let said = [line, "\n"].concat(alloc)?;
    Ok(status.parse::<u8>() == Ok(run.status) && run.shelf.said() == said.as_bytes())
}

#[test]
fn a_long_text_is_refused(rt: HostRuntime) -> Result<(), Fail> {
    for line in LONG.lines() {
        let (words, answer) = line.split_once('>').unwrap_or((line, ""));
        if !says_line(rt.alloc(), words, answer)? {
            return Err(Fail::from(line));
        }
    }
    Ok(())
}
