//! Something asked of a third text by a day.

ghost use Rattle.std.specs.Prelude.{[], ◌∷◌};
ghost use Rattle.model_rosters.specs.Sound.{IsPlain, IsSound};
ghost use Rattle.model_rosters.specs.SoundInstance.{IsSoundInstance};
ghost use Rattle.command_answers.specs.Asked.{AnswersDemand, AnswersThird, DemandAnswers, RulesAnswers, TextsAnswers};
ghost use Rattle.command_answers.specs.Reader.{IsReader};
ghost use Rattle.command_answers.specs.TextCommands.{TextCommand};

use crate::answer::Answer;
use crate::fetch::{fetched, say_remarked, status_of_answer};
use crate::limits::{MOST_DEMAND, MOST_RULES};
use crate::question::Question;
use crate::refusals::{demand_refusal, rules_refusal};
use command_shelf::Shelf;
use model_rosters::{Grammar, Instance};
use std::alloc::Global;
use text_demand::read_demand;
use text_fault_notes::{demand_note, rules_note};
use text_rules::read_rules;

// Asks something of the third text under a name.
fn ask_third<S: Shelf, Q: Question>(
    alloc: Global,
    shelf: &mut S,
    instance: &Instance,
    third: &str,
    question: &Q,
) -> u8
    requires { IsSoundInstance instance.now }
    ensures { IsReader (AnswersThird (Q.answers question.now) (S.told shelf.old).held instance.now third.now)
        (third.now ∷ []) (S.told shelf.old) (S.told shelf.new) result }
{
    match fetched(alloc, shelf, third, question.most()) {
        Ok(text) => {
            let text = text.as_slice();
            let said = question.answer(alloc, instance, text);
            let remark = question.remark(alloc, instance, text, status_of_answer(&said));
            say_remarked(shelf, text, said, remark)
        }
        Err(status) => status,
    }
}

// Asks something of the third text under a name by a demand text.
fn ask_demand_text<S: Shelf, Q: Question>(
    alloc: Global,
    shelf: &mut S,
    grammar: Grammar,
    text: &[u8],
    third: &str,
    question: &Q,
) -> u8
    requires sound { IsSound grammar }
    requires plain { IsPlain grammar }
    ensures { IsReader (DemandAnswers (Q.answers question.now) (S.told shelf.old).held
        grammar text.now third.now) (third.now ∷ []) (S.told shelf.old) (S.told shelf.new) result }
{
    let periods = grammar.periods;
    match read_demand(alloc, grammar, text) {
        Ok(instance) => ask_third(alloc, shelf, &instance, third, question),
        Err(fault) => {
            let note = demand_note(alloc, text, periods, fault);
            say_remarked(shelf, text, demand_refusal(alloc, fault), note)
        }
    }
}

/// Asks something of the third text under a name by a rules text and a demand text, and says the answer, or
/// why a text is refused. The texts are read in this order.
pub fn ask_texts<S: Shelf, Q: Question>(
    alloc: Global,
    shelf: &mut S,
    rules: &[u8],
    demand: &[u8],
    third: &str,
    question: &Q,
) -> u8
    ensures { IsReader (TextsAnswers (Q.answers question.now) (S.told shelf.old).held
        rules.now demand.now third.now) (third.now ∷ []) (S.told shelf.old) (S.told shelf.new) result }
{
    match read_rules(alloc, rules) {
        Ok(grammar) => ask_demand_text(alloc, shelf, grammar, demand, third, question),
        Err(fault) => {
            let note = rules_note(alloc, rules, fault);
            say_remarked(shelf, rules, rules_refusal(alloc, fault), note)
        }
    }
}

// Asks something of the third text under a name by the demand text under another.
fn ask_demand<S: Shelf, Q: Question>(
    alloc: Global,
    shelf: &mut S,
    grammar: Grammar,
    demand: &str,
    third: &str,
    question: &Q,
) -> u8
    requires sound { IsSound grammar }
    requires plain { IsPlain grammar }
    ensures { IsReader (AnswersDemand (Q.answers question.now) (S.told shelf.old).held
        grammar demand.now third.now)
        (demand.now ∷ third.now ∷ []) (S.told shelf.old) (S.told shelf.new) result }
{
    match fetched(alloc, shelf, demand, MOST_DEMAND) {
        Ok(text) => ask_demand_text(alloc, shelf, grammar, text.as_slice(), third, question),
        Err(status) => status,
    }
}

/// Asks something of the third text under a name by a rules text and the demand text under a name, and says
/// the answer, or why a text is refused. The texts are read in this order.
pub fn ask_rules_text<S: Shelf, Q: Question>(
    alloc: Global,
    shelf: &mut S,
    text: &[u8],
    demand: &str,
    third: &str,
    question: &Q,
) -> u8
    ensures { IsReader (RulesAnswers (Q.answers question.now) (S.told shelf.old).held
        text.now demand.now third.now)
        (demand.now ∷ third.now ∷ []) (S.told shelf.old) (S.told shelf.new) result }
{
    match read_rules(alloc, text) {
        Ok(grammar) => ask_demand(alloc, shelf, grammar, demand, third, question),
        Err(fault) => {
            let note = rules_note(alloc, text, fault);
            say_remarked(shelf, text, rules_refusal(alloc, fault), note)
        }
    }
}

/// Asks something of a third text, as a proof text, by the rules and demand texts, all under names, and says
/// the answer, or why a text is refused. The texts are fetched and read in this order.
pub fn ask<S: Shelf, Q: Question>(
    alloc: Global,
    shelf: &mut S,
    rules: &str,
    demand: &str,
    third: &str,
    question: &Q,
) -> u8
    ensures { IsReader (TextCommand (Q.answers question.now) (S.told shelf.old).held
        rules.now demand.now third.now)
        (rules.now ∷ demand.now ∷ third.now ∷ []) (S.told shelf.old) (S.told shelf.new) result }
{
    match fetched(alloc, shelf, rules, MOST_RULES) {
        Ok(text) => ask_rules_text(alloc, shelf, text.as_slice(), demand, third, question),
        Err(status) => status,
    }
}
