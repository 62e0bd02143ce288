//! A page or a table, without labels and under them, and what is answered to their texts.

ghost use Rattle.std.specs.Prelude.{[], ◌∷◌, IfOk};
ghost use Rattle.std.specs.Option.{option_copied};
ghost use Rattle.model_rosters.specs.SoundInstance.{IsSoundInstance};
ghost use Rattle.command_answers.specs.Reader.{IsReader};
ghost use Rattle.page_command.specs.Check.{
  AnswersLabelled,
  AnswersLabelsText,
  AnswersShown,
  BesideAnswers,
  LabelAnswers,
  OldAnswers,
};

use crate::asking::ask_request;
use crate::judgement::judgement;
use crate::limits::MOST_LABELS;
use crate::old::{read_old, refused_old};
use crate::refused::refused_labels;
use crate::request::Request;
use command_answers::{Answer, MOST_RULES, fetched};
use command_shelf::Shelf;
use model_rosters::{Instance, Memory};
use page_labels::{Labels, read_labels};
use page_views::{FirstWord, Kind};
use std::alloc::Global;

// What is answered to a proof text or a report under labels and beside an old text.
fn answer_beside(
    alloc: Global,
    kind: Kind,
    instance: &Instance,
    labels: &Labels,
    old: &[u8],
    text: &[u8],
) -> Result<Answer, Memory>
    requires { IsSoundInstance instance.now }
    ensures { IfOk result (λ a. OldAnswers kind labels.now old.now instance.now text.now a.status a.output) }
{
    match read_old(alloc, instance, old) {
        Ok(shifts) => judgement(alloc, kind, instance, labels, Some(shifts.as_slice()), text),
        Err(fault) => refused_old(alloc, instance, text, old, fault),
    }
}

/// The same, where there may be no old text.
///
/// # Errors
///
/// `Memory` where memory runs out; there is no answer then.
pub(crate) fn answer_with(
    alloc: Global,
    kind: Kind,
    instance: &Instance,
    labels: &Labels,
    old: Option<&[u8]>,
    text: &[u8],
) -> Result<Answer, Memory>
    requires { IsSoundInstance instance.now }
    ensures { IfOk result (λ a. BesideAnswers kind labels.now (option_copied old.entry) instance.now text.now
        a.status a.output) }
{
    match old {
        None => judgement(alloc, kind, instance, labels, None, text),
        Some(old) => answer_beside(alloc, kind, instance, labels, old, text),
    }
}

/// What is answered to a proof text or a report under a labels text, and beside an old text where there is
/// one.
///
/// # Errors
///
/// `Memory` where memory runs out; there is no answer then.
pub(crate) fn answer_under(
    alloc: Global,
    kind: Kind,
    instance: &Instance,
    labels: &[u8],
    old: Option<&[u8]>,
    text: &[u8],
) -> Result<Answer, Memory>
    requires { IsSoundInstance instance.now }
    ensures { IfOk result (λ a. LabelAnswers kind labels.now (option_copied old.entry) instance.now text.now
        a.status a.output) }
{
    match read_labels(alloc, instance, labels) {
        Ok(said) => answer_with(alloc, kind, instance, &said, old, text),
        Err(fault) => refused_labels(alloc, instance, text, labels, fault),
    }
}

/// Says what shows a roster, by the rules, demand and proof texts under names, or why a text or the roster is
/// refused. The texts are fetched and read in this order.
pub fn draw<S: Shelf>(
    alloc: Global,
    shelf: &mut S,
    word: FirstWord,
    rules: &str,
    demand: &str,
    proof: &str,
) -> u8
    ensures { IsReader (AnswersShown word (S.told shelf.old).held rules.now demand.now proof.now)
        (rules.now ∷ demand.now ∷ proof.now ∷ []) (S.told shelf.old) (S.told shelf.new) result }
{
    match fetched(alloc, shelf, rules, MOST_RULES) {
        Ok(text) => {
            let rules = text.as_slice();
            let request = Request {
                word,
                rules,
                labels: None,
                old: None,
            };
            ask_request(alloc, shelf, request, demand, proof)
        }
        Err(status) => status,
    }
}

// Says what shows a roster under a labels text that is still to be fetched, by a rules text and the demand
// and proof texts under names.
fn draw_by_rules<S: Shelf>(
    alloc: Global,
    shelf: &mut S,
    word: FirstWord,
    rules: &[u8],
    demand: &str,
    proof: &str,
    labels: &str,
) -> u8
    ensures { IsReader (AnswersLabelsText word (S.told shelf.old).held rules.now demand.now proof.now
        labels.now)
        (labels.now ∷ demand.now ∷ proof.now ∷ []) (S.told shelf.old) (S.told shelf.new) result }
{
    match fetched(alloc, shelf, labels, MOST_LABELS) {
        Ok(text) => {
            let labels = text.as_slice();
            let request = Request {
                word,
                rules,
                labels: Some(labels),
                old: None,
            };
            ask_request(alloc, shelf, request, demand, proof)
        }
        Err(status) => status,
    }
}

/// Says what shows a roster under labels, by the rules, demand, proof and labels texts under names, or why a
/// text or the roster is refused. The rules text is fetched first, then the labels text, the demand text and
/// the proof text; a fault of the labels text comes last.
pub fn draw_labelled<S: Shelf>(
    alloc: Global,
    shelf: &mut S,
    word: FirstWord,
    rules: &str,
    demand: &str,
    proof: &str,
    labels: &str,
) -> u8
    ensures { IsReader (AnswersLabelled word (S.told shelf.old).held rules.now demand.now proof.now
        labels.now)
        (rules.now ∷ labels.now ∷ demand.now ∷ proof.now ∷ []) (S.told shelf.old) (S.told shelf.new) result }
{
    match fetched(alloc, shelf, rules, MOST_RULES) {
        Ok(text) => draw_by_rules(alloc, shelf, word, text.as_slice(), demand, proof, labels),
        Err(status) => status,
    }
}
