//! Notes on rules texts.

use crate::bytes::byte_note;
use crate::lines::{first_line, line_at, lines_above, words_of};
use crate::numbers::number_note;
use crate::refused::{Words, count_note, line_note, text_note, word_note};
use crate::rules_words::{
    RulesNumbers, SYMBOLS, bad_code, bad_symbol, is_quoted, said_again, stands_in, windows_at,
};
use model_rosters::is_name;
use std::alloc::Global;
use text_rules::{Limit, RulesFault};

/// What notes on a rules text begin with.
const NAME: &str = "rules";

const NO_CODE: &str = " is no code, which is one byte other than ' and #";

const NO_NAME: &str =
    " is no name, which is a letter and then letters, digits and _, 32 bytes at most, and not len, begin or end";

const NO_SYMBOL: &str = " is no name; a code stands in single quotes";

// Returns the words of a line.
fn words_at(alloc: Global, text: &[u8], line: u32) -> Option<Words<'_>> {
    words_of(alloc, &line_at(text, line)?.line)
}

// Returns the note on a line of no form.
fn unknown_note(alloc: Global, words: &Words<'_>) -> Option<String> {
    let first = words.word(0);
    if first == b"periods".as_slice() {
        return count_note(alloc, NAME, words, "periods N");
    }
    if first == b"start".as_slice() {
        return count_note(alloc, NAME, words, "start NAME");
    }
    if first == b"work".as_slice() || first == b"idle".as_slice() {
        return line_note(
            alloc,
            NAME,
            words.number,
            "a code is wanted behind the first word",
        );
    }
    if first == b"rule".as_slice() {
        return rule_note(alloc, words);
    }
    let what = " begins no line; the lines begin with periods, work, idle, start and rule";
    word_note(alloc, NAME, words, 0, what)
}

// Returns the note on a rule's line of no form.
fn rule_note(alloc: Global, words: &Words<'_>) -> Option<String> {
    if words.count() < SYMBOLS {
        return count_note(alloc, NAME, words, "rule NAME COST = SYM .. WINDOW ..");
    }
    if words.word(3) != b"=".as_slice() {
        return word_note(alloc, NAME, words, 3, " stands where = is wanted");
    }
    let what = ": from here on the form is len A B, begin A B or end A B";
    word_note(alloc, NAME, words, windows_at(words), what)
}

// Returns the note on a word that is no name or code.
fn name_note(alloc: Global, words: &Words<'_>) -> Option<String> {
    let first = words.word(0);
    if first == b"start".as_slice() {
        return word_note(alloc, NAME, words, 1, NO_NAME);
    }
    if first != b"rule".as_slice() {
        return word_note(alloc, NAME, words, bad_code(words)?, NO_CODE);
    }
    if !is_name(words.word(1)) {
        return word_note(alloc, NAME, words, 1, NO_NAME);
    }
    let place = bad_symbol(words)?;
    if words.word(place).starts_with(b"'") {
        return word_note(
            alloc,
            NAME,
            words,
            place,
            " is no code, which is one byte between two '",
        );
    }
    word_note(alloc, NAME, words, place, NO_SYMBOL)
}

// Returns the line of a declaration of a code above a line.
fn declared(alloc: Global, text: &[u8], line: u32, code: &[u8]) -> Option<u32> {
    let work = lines_above(alloc, text, line, b"work")?;
    if let Some(at) = stands_in(work.as_slice(), code) {
        return Some(at);
    }
    stands_in(lines_above(alloc, text, line, b"idle")?.as_slice(), code)
}

// Returns the note on a code that is declared again.
fn code_again(alloc: Global, text: &[u8], words: &Words<'_>) -> Option<String> {
    for (place, word) in words.list.iter().enumerate() {
        if 0 < place {
            if let Some(line) = declared(alloc, text, words.number, word) {
                let what = format!(in alloc; " is declared in line {line}").ok()?;
                return word_note(alloc, NAME, words, place, what.as_str());
            }
        }
    }
    word_note(
        alloc,
        NAME,
        words,
        said_again(words, 1)?,
        " is declared before in this line",
    )
}

// Returns the note on what stands twice.
fn twice_note(alloc: Global, text: &[u8], words: &Words<'_>) -> Option<String> {
    let first = words.word(0);
    if first == b"rule".as_slice() {
        let windows = windows_at(words);
        let place = second_window(words, windows)?;
        return word_note(alloc, NAME, words, place, " stands before in this line");
    }
    if first == b"work".as_slice() || first == b"idle".as_slice() {
        return code_again(alloc, text, words);
    }
    let line = first_line(text, first, None)?;
    let what = format!(in alloc; " stands in line {line} already").ok()?;
    word_note(alloc, NAME, words, 0, what.as_str())
}

// Returns the place of the first window whose word stands before in the line.
fn second_window(words: &Words<'_>, from: usize) -> Option<usize> {
    for (place, word) in words.list.iter().enumerate() {
        let behind = place.saturating_sub(from);
        if from < place && behind % 3 == 0 && is_window(words, from, behind, word) {
            return Some(place);
        }
    }
    None
}

// Whether one of the windows before so many words behind the first window has this word.
fn is_window(words: &Words<'_>, from: usize, end: usize, word: &[u8]) -> bool {
    (end >= 3 && words.word(from) == word)
        || (end >= 6 && words.word(from.saturating_add(3)) == word)
}

// Returns the place of the first code between quotes that no line above declares.
fn undeclared(alloc: Global, text: &[u8], words: &Words<'_>) -> Option<usize> {
    let end = windows_at(words);
    for (place, word) in words.list.iter().enumerate() {
        if SYMBOLS <= place && place < end && is_quoted(word) {
            if declared(alloc, text, words.number, inner(word)).is_none() {
                return Some(place);
            }
        }
    }
    None
}

// Returns the byte between the quotes of a code.
fn inner(word: &[u8]) -> &[u8] {
    match word {
        [_, byte @ .., _] => byte,
        _ => &[],
    }
}

// Returns what there is one too many of in a line.
fn many_note(alloc: Global, words: &Words<'_>, what: Limit) -> Option<String> {
    match what {
        Limit::Codes => line_note(alloc, NAME, words.number, "the 33rd code is declared here"),
        Limit::Work => line_note(
            alloc,
            NAME,
            words.number,
            "the 9th work code is declared here",
        ),
        Limit::Names => line_note(alloc, NAME, words.number, "the 33rd name stands here"),
        Limit::Rules => line_note(alloc, NAME, words.number, "this is the 65th rule"),
        Limit::Right => {
            let count = windows_at(words).saturating_sub(SYMBOLS);
            let text = format!(in alloc; "{count} symbols, a rule has 8 at most").ok()?;
            line_note(alloc, NAME, words.number, text.as_str())
        }
    }
}

// Returns the note on a rule without symbols.
fn empty_note(alloc: Global, words: &Words<'_>) -> Option<String> {
    if words.count() <= SYMBOLS {
        return line_note(
            alloc,
            NAME,
            words.number,
            "a name or a code is wanted behind =",
        );
    }
    word_note(
        alloc,
        NAME,
        words,
        SYMBOLS,
        " stands right behind =, where a name or a code is wanted",
    )
}

// Returns the note on a name without a rule.
fn unruled_note(alloc: Global, text: &[u8], line: u32, word: u32) -> Option<String> {
    let words = words_at(alloc, text, line)?;
    let place = (word as usize).saturating_sub(1);
    let name = words.word(place);
    if declared(alloc, text, u32::MAX, name).is_some() {
        return word_note(
            alloc,
            NAME,
            &words,
            place,
            " is the name of no rule; the code stands in single quotes",
        );
    }
    word_note(alloc, NAME, &words, place, " is the name of no rule")
}

// Returns the note on a line of the text, by its words.
fn worded_note(alloc: Global, text: &[u8], line: u32, fault: RulesFault) -> Option<String> {
    let words = words_at(alloc, text, line)?;
    match fault {
        RulesFault::UnknownLine { .. } => unknown_note(alloc, &words),
        RulesFault::BadNumber { .. } | RulesFault::OutOfRange { .. } => {
            number_note(alloc, NAME, &RulesNumbers, &words)
        }
        RulesFault::BadName { .. } => name_note(alloc, &words),
        RulesFault::Twice { .. } => twice_note(alloc, text, &words),
        RulesFault::UnknownCode { .. } => {
            let place = undeclared(alloc, text, &words)?;
            word_note(
                alloc,
                NAME,
                &words,
                place,
                ": no work or idle line above declares the code",
            )
        }
        RulesFault::TooMany { what, .. } => many_note(alloc, &words, what),
        RulesFault::EmptyRight { .. } => empty_note(alloc, &words),
        _ => None,
    }
}

// Returns the note on a name that leads back to itself.
fn cycle_note(alloc: Global, text: &[u8], line: u32, word: u32) -> Option<String> {
    let words = words_at(alloc, text, line)?;
    let place = (word as usize).saturating_sub(1);
    word_note(
        alloc,
        NAME,
        &words,
        place,
        ": rules of one symbol lead from this name back to it",
    )
}

/// Returns what is noted of a rules text that is refused for a fault: what stands there, and what is wanted.
pub fn rules_note(alloc: Global, text: &[u8], fault: RulesFault) -> Option<String> {
    match fault {
        RulesFault::BadByte { line } => byte_note(alloc, NAME, text, line),
        RulesFault::UnknownLine { line }
        | RulesFault::BadNumber { line }
        | RulesFault::OutOfRange { line }
        | RulesFault::BadName { line }
        | RulesFault::Twice { line }
        | RulesFault::UnknownCode { line }
        | RulesFault::TooMany { line, .. }
        | RulesFault::EmptyRight { line } => worded_note(alloc, text, line, fault),
        RulesFault::NoRule { line, word } => unruled_note(alloc, text, line, word),
        RulesFault::UnitCycle { line, word } => cycle_note(alloc, text, line, word),
        RulesFault::NoPeriods => text_note(
            alloc,
            NAME,
            "a line periods N is wanted, N from 1 to 96",
        ),
        RulesFault::NoStart => text_note(alloc, NAME, "a line start NAME is wanted"),
        RulesFault::TooLong => text_note(alloc, NAME, "more than 1048576 bytes"),
        RulesFault::Memory => None,
    }
}
