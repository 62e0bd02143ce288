//! A page beside an old roster.

ghost use Rattle.std.specs.Prelude.{[], ◌∷◌};
ghost use Rattle.command_answers.specs.Reader.{IsReader};
ghost use Rattle.page_command.specs.Check.{AnswersBeside, AnswersBesideRules, AnswersOldText};

use crate::asking::ask_request;
use crate::limits::{MOST_LABELS, MOST_OLD};
use crate::request::Request;
use command_answers::{MOST_RULES, fetched};
use command_shelf::Shelf;
use page_views::FirstWord;
use std::alloc::Global;

// Says the page of a roster under a labels text and beside an old text that is still to be fetched, by a
// rules text and the demand and proof texts under names.
fn draw_by_labels<S: Shelf>(
    alloc: Global,
    shelf: &mut S,
    rules: &[u8],
    labels: &[u8],
    demand: &str,
    proof: &str,
    old: &str,
) -> u8
    ensures { IsReader (AnswersOldText (S.told shelf.old).held
        rules.now labels.now demand.now proof.now old.now)
        (old.now ∷ demand.now ∷ proof.now ∷ []) (S.told shelf.old) (S.told shelf.new) result }
{
    match fetched(alloc, shelf, old, MOST_OLD) {
        Ok(text) => {
            let old = text.as_slice();
            let request = Request {
                word: FirstWord::Page,
                rules,
                labels: Some(labels),
                old: Some(old),
            };
            ask_request(alloc, shelf, request, demand, proof)
        }
        Err(status) => status,
    }
}

// The same, where the labels text is still to be fetched.
fn draw_by_rules<S: Shelf>(
    alloc: Global,
    shelf: &mut S,
    rules: &[u8],
    demand: &str,
    proof: &str,
    labels: &str,
    old: &str,
) -> u8
    ensures { IsReader (AnswersBesideRules (S.told shelf.old).held
        rules.now demand.now proof.now labels.now old.now)
        (labels.now ∷ old.now ∷ demand.now ∷ proof.now ∷ []) (S.told shelf.old) (S.told shelf.new) result }
{
    match fetched(alloc, shelf, labels, MOST_LABELS) {
        Ok(text) => draw_by_labels(alloc, shelf, rules, text.as_slice(), demand, proof, old),
        Err(status) => status,
    }
}

/// Says the page of a roster under labels and beside an old roster, by the rules, demand, proof, labels and
/// old texts under names, or why a text or the roster is refused. The rules text is fetched first, then the
/// labels text, the old text, the demand text and the proof text; a fault of the labels text comes behind one
/// of the proof text, and one of the old text last.
pub fn draw_beside<S: Shelf>(
    alloc: Global,
    shelf: &mut S,
    rules: &str,
    demand: &str,
    proof: &str,
    labels: &str,
    old: &str,
) -> u8
    ensures { IsReader (AnswersBeside (S.told shelf.old).held
        rules.now demand.now proof.now labels.now old.now)
        (rules.now ∷ labels.now ∷ old.now ∷ demand.now ∷ proof.now ∷ []) (S.told shelf.old) (S.told shelf.new)
        result }
{
    match fetched(alloc, shelf, rules, MOST_RULES) {
        Ok(text) => draw_by_rules(alloc, shelf, text.as_slice(), demand, proof, labels, old),
        Err(status) => status,
    }
}
