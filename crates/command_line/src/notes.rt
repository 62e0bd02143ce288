//! What is noted to words without a form.

ghost use Rattle.std.specs.Prelude.{◌≡◌};

use crate::form::{kind_of, limit_of, most_of, number_of_make};
use command_shelf::Shelf;

/// The forms of the command line, one a line.
const FORMS: &str = "the forms are:
explain RULES WORD [NAME]
rank RULES MOST [NAME]
next RULES PREFIX [NAME]
fits RULES PATTERN [NAME]
check RULES DEMAND PROOF
value RULES DEMAND ROSTER
rest RULES DEMAND ROSTER
relax-rules RULES
relax-demand RULES DEMAND KIND
reuse RULES DEMAND PROOF
solve RULES DEMAND PROOF LIMIT [FROM]
curve RULES DEMAND PROOF LIMIT [NAME]
make NUMBER PROOF LIMIT
LIMIT is 1 to 10000 turns, or 1s to 86400s for seconds; MOST 1 to 1000, NUMBER 0 to 4294967295;
KIND is floors or ceilings; FROM is an old proof or report to begin with;
NAME is a name of the rules to begin at, in place of the start name; of curve the name of a group";

const LIMIT: &str = "LIMIT is a number of turns from 1 to 10000, or of seconds from 1s to 86400s";

const MOST: &str = "MOST is a number from 1 to 1000";

const KIND: &str = "KIND is floors or ceilings";

const NUMBER: &str = "NUMBER is a number from 0 to 4294967295";

const NUMBER_AND_LIMIT: &str = "NUMBER is a number from 0 to 4294967295
LIMIT is a number of turns from 1 to 10000, or of seconds from 1s to 86400s";

// Returns which of the numbers of `make` is none that may stand there.
fn wrong_of_make(number: &str, limit: &str) -> Option<&'static str> {
    match (number_of_make(number), limit_of(limit)) {
        (None, None) => Some(NUMBER_AND_LIMIT),
        (None, Some(_)) => Some(NUMBER),
        (Some(_), None) => Some(LIMIT),
        (Some(_), Some(_)) => None,
    }
}

// Returns the note where a number is none that may stand there.
fn wrong<T: Drop>(number: Option<T>, note: &'static str) -> Option<&'static str> {
    match number {
        Some(_) => None,
        None => Some(note),
    }
}

// Returns which number, or which bounds, of words that begin and end as a form does is none that may stand
// there.
fn wrong_number(words: &[String]) -> Option<&'static str> {
    match words {
        [command, _, most] | [command, _, most, _] if command.as_str() == "rank" => {
            wrong(most_of(most.as_str()), MOST)
        }
        [command, _, _, kind] if command.as_str() == "relax-demand" => {
            wrong(kind_of(kind.as_str()), KIND)
        }
        [command, number, _, limit] if command.as_str() == "make" => {
            wrong_of_make(number.as_str(), limit.as_str())
        }
        [command, _, _, _, limit] | [command, _, _, _, limit, _]
            if command.as_str() == "solve" || command.as_str() == "curve" => {
            wrong(limit_of(limit.as_str()), LIMIT)
        }
        _ => None,
    }
}

// Notes which number of words without a form is none that may stand there.
fn note_number<S: Shelf>(shelf: &mut S, words: &[String])
    ensures { S.told shelf.new ≡ S.told shelf.old }
{
    match wrong_number(words) {
        Some(note) => shelf.note(note),
        None => {}
    }
}

/// Notes to words without a form what forms there are, and which number is none that may stand there.
pub(crate) fn note_forms<S: Shelf>(shelf: &mut S, words: &[String])
    ensures { S.told shelf.new ≡ S.told shelf.old }
{
    shelf.note(FORMS);
    note_number(shelf, words);
}
