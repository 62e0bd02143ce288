//! What is asked of a third text under labels, as `command_answers` asks it, with notes on the events of its
//! shifts.

ghost use Rattle.std.specs.Prelude.{[], ◌∷◌};
ghost use Rattle.model_rosters.specs.Sound.{IsPlain, IsSound};
ghost use Rattle.model_rosters.specs.SoundInstance.{IsSoundInstance};
ghost use Rattle.command_answers.specs.Asked.{AnswersThird, DemandAnswers, TextsAnswers};
ghost use Rattle.command_answers.specs.Reader.{IsReader};
ghost use Rattle.page_command.specs.Check.{AnswersDemand, AnswersRequest};
ghost use Rattle.page_command.specs.Requests.{request_of};

use crate::events_note::note_events;
use crate::request::{Drawing, Request};
use command_answers::{
    MOST_DEMAND, Question, demand_refusal, fetched, rules_refusal, say_remarked, status_of_answer,
};
use command_shelf::Shelf;
use model_rosters::{Grammar, Instance};
use std::alloc::Global;
use text_demand::read_demand;
use text_fault_notes::{demand_note, rules_note};
use text_rules::read_rules;

// Asks something of the third text under a name.
fn ask_third<S: Shelf, Q: Question>(
    alloc: Global,
    shelf: &mut S,
    instance: &Instance,
    third: &str,
    labels: Option<&[u8]>,
    question: &Q,
) -> u8
    requires { IsSoundInstance instance.now }
    ensures { IsReader (AnswersThird (Q.answers question.now) (S.told shelf.old).held instance.now third.now)
        (third.now ∷ []) (S.told shelf.old) (S.told shelf.new) result }
{
    match fetched(alloc, shelf, third, question.most()) {
        Ok(text) => {
            let text = text.as_slice();
            let said = question.answer(alloc, instance, text);
            let remark = question.remark(alloc, instance, text, status_of_answer(&said));
            let status = say_remarked(shelf, text, said, remark);
            note_events(alloc, shelf, instance, labels, text, status);
            status
        }
        Err(status) => status,
    }
}

// Asks something of the third text under a name by a demand text.
fn ask_demand_text<S: Shelf, Q: Question>(
    alloc: Global,
    shelf: &mut S,
    grammar: Grammar,
    text: &[u8],
    third: &str,
    labels: Option<&[u8]>,
    question: &Q,
) -> u8
    requires sound { IsSound grammar }
    requires plain { IsPlain grammar }
    ensures { IsReader (DemandAnswers (Q.answers question.now) (S.told shelf.old).held
        grammar text.now third.now) (third.now ∷ []) (S.told shelf.old) (S.told shelf.new) result }
{
    let periods = grammar.periods;
    match read_demand(alloc, grammar, text) {
        Ok(instance) => ask_third(alloc, shelf, &instance, third, labels, question),
        Err(fault) => {
            let note = demand_note(alloc, text, periods, fault);
            say_remarked(shelf, text, demand_refusal(alloc, fault), note)
        }
    }
}

/// Asks something of the third text under a name by a rules text and a demand text, and says the answer, or
/// why a text is refused; notes what the events of its shifts have under a labels text that a reader may not
/// expect. The texts are read in this order.
pub(crate) fn ask_texts<S: Shelf, Q: Question>(
    alloc: Global,
    shelf: &mut S,
    rules: &[u8],
    demand: &[u8],
    third: &str,
    labels: Option<&[u8]>,
    question: &Q,
) -> u8
    ensures { IsReader (TextsAnswers (Q.answers question.now) (S.told shelf.old).held
        rules.now demand.now third.now) (third.now ∷ []) (S.told shelf.old) (S.told shelf.new) result }
{
    match read_rules(alloc, rules) {
        Ok(grammar) => ask_demand_text(alloc, shelf, grammar, demand, third, labels, question),
        Err(fault) => {
            let note = rules_note(alloc, rules, fault);
            say_remarked(shelf, rules, rules_refusal(alloc, fault), note)
        }
    }
}

// Asks for what shows the roster of the third text under a name by the demand text under another.
fn ask_demand<S: Shelf>(
    alloc: Global,
    shelf: &mut S,
    grammar: Grammar,
    request: Request<'_, '_, '_>,
    demand: &str,
    third: &str,
) -> u8
    requires sound { IsSound grammar }
    requires plain { IsPlain grammar }
    ensures { IsReader (AnswersDemand (request_of request.entry) (S.told shelf.old).held
        grammar demand.now third.now)
        (demand.now ∷ third.now ∷ []) (S.told shelf.old) (S.told shelf.new) result }
{
    match fetched(alloc, shelf, demand, MOST_DEMAND) {
        Ok(text) => {
            let demand = text.as_slice();
            let labels = request.labels;
            let drawing = Drawing { request, demand };
            ask_demand_text(alloc, shelf, grammar, demand, third, labels, &drawing)
        }
        Err(status) => status,
    }
}

/// Asks for what shows the roster of the third text under a name by the demand text under another, and says
/// it, or why a text is refused; notes the same. The texts are read in this order.
pub(crate) fn ask_request<S: Shelf>(
    alloc: Global,
    shelf: &mut S,
    request: Request<'_, '_, '_>,
    demand: &str,
    third: &str,
) -> u8
    ensures { IsReader (AnswersRequest (request_of request.entry) (S.told shelf.old).held
        demand.now third.now)
        (demand.now ∷ third.now ∷ []) (S.told shelf.old) (S.told shelf.new) result }
{
    match read_rules(alloc, request.rules) {
        Ok(grammar) => ask_demand(alloc, shelf, grammar, request, demand, third),
        Err(fault) => {
            let note = rules_note(alloc, request.rules, fault);
            say_remarked(shelf, request.rules, rules_refusal(alloc, fault), note)
        }
    }
}
