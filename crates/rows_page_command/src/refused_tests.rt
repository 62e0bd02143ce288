//! Each call of each form where it is refused, and words and texts that are refused.
//!
//! For each form of the words and each call of it what is said and noted where that call is refused; words
//! and texts that are refused, by status; what is noted to no words.

use crate::transcripts::{answer, have_answers, shelf_of};
use command_shelf::MemoryShelf;
use std::alloc::Global;
use std::test::Fail;

/// Words, and behind `>` the names of their calls before the last one, which says the answer.
const CALLS: &str = "page g1 two best > g1 two best
table g1 two best called > g1 called two best
coverage g1 two best called > g1 called two best
page g1 two best called best > g1 called best two best
calendar g1 two best called 2026-02-28 > g1 called two best
calendar g1 two best called 2026-02-28 2 > g1 called two best
";

/// Whether a run whose call of this number and name fails ends there, with this said.
fn ends_at(
    alloc: Global,
    words: &str,
    failing: u32,
    name: &str,
    said: &[u8],
) -> Result<bool, Fail> {
    let mut shelf = shelf_of(alloc, &[failing])?;
    let status = answer(alloc, &mut shelf, words)?;
    let note = [name, ": refused\n"].concat(alloc)?;
    Ok(
        status == 6
            && shelf.faults() == 1
            && shelf.said() == said
            && shelf.notes().ends_with(note.as_bytes()),
    )
}

/// Whether the run ends at each of its calls, where that one fails: with nothing said, or with half of the
/// answer.
fn ends_at_each(alloc: Global, words: &str, calls: &str, whole: &[u8]) -> Result<bool, Fail> {
    let mut number = 1u32;
    for name in calls.split_whitespace() {
        if !ends_at(alloc, words, number, name, b"")? {
            return Ok(false);
        }
        number = number.saturating_add(1);
    }
    ends_at(
        alloc,
        words,
        number,
        "standard output",
        &whole[..whole.len() / 2],
    )
}

/// Whether the run ends so, beside a whole one with status 0.
fn is_right(alloc: Global, words: &str, calls: &str) -> Result<bool, Fail> {
    let mut shelf = shelf_of(alloc, &[])?;
    let status = answer(alloc, &mut shelf, words)?;
    Ok(status == 0 && ends_at_each(alloc, words, calls, shelf.said())?)
}

#[test]
fn a_refused_call_ends_the_run(rt: HostRuntime) -> Result<(), Fail> {
    for line in CALLS.lines() {
        let (words, calls) = line.split_once('>').unwrap_or((line, ""));
        if !is_right(rt.alloc(), words, calls)? {
            return Err(Fail::from(line));
        }
    }
    Ok(())
}

/// Words and texts that are refused, each kind once.
const REFUSED: &str = "
~ page g1 two high
1
no 8 bound too high: said 11 shown 10
~ check g1 two best
2
words: page RULES DEMAND PROOF [LABELS [OLD]] | table RULES DEMAND PROOF [LABELS] \
| coverage RULES DEMAND PROOF [LABELS] | calendar RULES DEMAND PROOF LABELS DATE [SHIFT]
~ calendar g1 two best called 2026-02-29
2
words: page RULES DEMAND PROOF [LABELS [OLD]] | table RULES DEMAND PROOF [LABELS] \
| coverage RULES DEMAND PROOF [LABELS] | calendar RULES DEMAND PROOF LABELS DATE [SHIFT]
~ page cycle absent absent
3
rules: line 3: a name leads back to itself by one-symbol rules
~ page g1 fallen absent
4
demand: line 1: out of range
~ page g1 two empty
5
proof: the text ends early
~ page g1 two best twice
5
labels: line 2: said twice
~ page g1 two best team
5
labels: line 1: no such name
~ calendar g1 two best empty 2026-02-28
5
labels: no clock line
~ page g1 two best absent
6
";

#[test]
fn refused_texts_have_their_lines(rt: HostRuntime) -> Result<(), Fail> {
    have_answers(rt.alloc(), REFUSED)
}

/// What is noted to words of no form.
const FORM: &str = "RULES DEMAND PROOF LABELS OLD are the names of texts; \
the page of the certificate or the report PROOF, or the table of its roster, or of how it covers each need, is printed, \
under the labels LABELS where they are named, and beside the roster of the certificate or the report OLD; \
the calendar of its roster on the day DATE, as 2026-01-31, or of its shift of the number SHIFT alone, \
is printed under labels that tell a clock\n";

/// Whether no words are told the form.
fn notes_form(alloc: Global) -> Result<bool, Fail> {
    let mut shelf = shelf_of(alloc, &[])?;
    let status = answer(alloc, &mut shelf, "")?;
    Ok(status == 2 && shelf.notes() == FORM.as_bytes())
}

#[test]
fn no_words_are_told_the_form(rt: HostRuntime) -> Result<(), Fail> {
    assert!(rt; notes_form(rt.alloc())?);
    Ok(())
}

/// Puts a labels text of the most bytes, and one that is longer, all comment.
fn put_long(alloc: Global, shelf: &mut MemoryShelf) -> Result<(), Fail> {
    let long = "#".repeat(alloc, 65_536)?;
    shelf.put("long", long.as_bytes())?;
    let longer = "#".repeat(alloc, 65_537)?;
    shelf.put("longer", longer.as_bytes())?;
    Ok(())
}

/// The status of a page under the labels of a name, where the fault of labels that are too long is said with
/// 5.
fn long_status(alloc: Global, words: &str) -> Result<Option<u8>, Fail> {
    let mut shelf = shelf_of(alloc, &[])?;
    put_long(alloc, &mut shelf)?;
    let status = answer(alloc, &mut shelf, words)?;
    let is_refused = shelf.said() == b"labels: the text is too long\n".as_slice();
    Ok(if is_refused == (status == 5) {
        Some(status)
    } else {
        None
    })
}

#[test]
fn long_labels_are_refused(rt: HostRuntime) -> Result<(), Fail> {
    assert!(rt; long_status(rt.alloc(), "page g1 two best long")? == Some(0));
    assert!(rt; long_status(rt.alloc(), "page g1 two best longer")? == Some(5));
    Ok(())
}
