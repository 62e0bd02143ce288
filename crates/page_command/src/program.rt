//! `run`, and words of no form.

ghost use Rattle.std.specs.Prelude.{[], map, string_bytes};
ghost use Rattle.command_answers.specs.Reader.{IsReader};
ghost use Rattle.page_command.specs.Run.{AnswersNoForm, Does};

use crate::beside::draw_beside;
use crate::check::{draw, draw_labelled};
use crate::dated::draw_dated;
use crate::form::{Form, form_of};
use command_answers::say;
use command_shelf::Shelf;
use std::alloc::Global;

const NO_FORM: &[u8] =
    b"words: page RULES DEMAND PROOF [LABELS [OLD]] | table RULES DEMAND PROOF [LABELS] \
| coverage RULES DEMAND PROOF [LABELS] | calendar RULES DEMAND PROOF LABELS DATE [SHIFT]\n";

// What is noted where the words are of no form.
const FORM: &str = "RULES DEMAND PROOF LABELS OLD are the names of texts; \
the page of the certificate or the report PROOF, or the table of its roster, or of how it covers each need, \
is printed, under the labels LABELS where they are named, and beside the roster of the certificate or the \
report OLD; \
the calendar of its roster on the day DATE, as 2026-01-31, or of its shift of the number SHIFT alone, \
is printed under labels that tell a clock";

// Says that words are of no form.
fn say_no_form<S: Shelf>(shelf: &mut S) -> u8
    ensures { IsReader AnswersNoForm [] (S.told shelf.old) (S.told shelf.new) result }
{
    say(shelf, NO_FORM, 2)
}

// Says that the words are of no form, and notes what they stand for.
fn refuse_words<S: Shelf>(shelf: &mut S) -> u8
    ensures { IsReader AnswersNoForm [] (S.told shelf.old) (S.told shelf.new) result }
{
    shelf.note(FORM);
    say_no_form(shelf)
}

/// Says the page of the certificate of the texts that the words `page RULES DEMAND PROOF` name, or with
/// `table` or `coverage` in place of `page` the table of its roster, or of how it covers each need, under the
/// labels text that a fifth word names, and a page beside the roster of the certificate that a sixth names;
/// or with `calendar` and a sixth word, a day as `2026-01-31`, the calendar of its roster, and with a seventh
/// that of the shift of this number alone. In place of each certificate may stand a report, whose roster is
/// valued and not proved. Returns the status:
///
/// | status | comes |
/// |---|---|
/// | 0 | the certificate is accepted, or the roster of the report allowed; what shows the roster is said |
/// | 1 | the certificate is refused, or the roster of the report not allowed |
/// | 2 | the words are of no form |
/// | 3 | the rules text is refused |
/// | 4 | the demand text is refused |
/// | 5 | another text is refused, or a calendar has no clock or no such shift |
/// | 6 | the shelf refused a call |
/// | 7 | memory did not suffice |
///
/// Nothing is stored. With 1, 3, 4 and 5 what `check` of the roster program says is said, or of a report what
/// `value` says, or one line of the labels text, as `labels: line 2: said twice`, or of the old text, as
/// `old: shift 2: wrong length`; with 2 one line that begins with `words: ` and has the forms. With 6 and 7
/// no more is said than a front of an answer.
pub fn run<S: Shelf>(alloc: Global, shelf: &mut S, words: &[String]) -> u8
    ensures { Does (map string_bytes words.now) (S.told shelf.old) (S.told shelf.new) result }
{
    match form_of(words) {
        Form::Shown {
            word,
            rules,
            demand,
            proof,
        } => draw(alloc, shelf, word, rules, demand, proof),
        Form::Labelled {
            word,
            rules,
            demand,
            proof,
            labels,
        } => draw_labelled(alloc, shelf, word, rules, demand, proof, labels),
        Form::Beside {
            rules,
            demand,
            proof,
            labels,
            old,
        } => draw_beside(alloc, shelf, rules, demand, proof, labels, old),
        Form::Dated {
            day,
            rules,
            demand,
            proof,
            labels,
        } => draw_dated(alloc, shelf, day, rules, demand, proof, labels),
        Form::None => refuse_words(shelf),
    }
}
