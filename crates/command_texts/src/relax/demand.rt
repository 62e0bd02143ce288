//! A day whose floors, or ceilings, are counted.

ghost use Rattle.std.specs.Prelude.{[], ◌∷◌, IfOk};
ghost use Rattle.model_rosters.specs.Sound.{IsPlain, IsSound};
ghost use Rattle.model_rosters.specs.SoundInstance.{IsSoundInstance};
ghost use Rattle.command_answers.specs.Reader.{IsReader};
ghost use Rattle.command_texts.specs.relax.Answers.{RelaxedDemand};
ghost use Rattle.command_texts.specs.relax.DayCommands.{AnswersUnder, DayCommand, DemandAnswer, RulesAnswer};

use command_answers::{
    Answer, MOST_DEMAND, MOST_RULES, demand_refusal, fetched, rules_refusal, say_answer,
    say_remarked,
};
use command_shelf::Shelf;
use model_rosters::{Grammar, Instance, Memory};
use std::alloc::Global;
use text_demand::read_demand;
use text_fault_notes::{demand_note, rules_note};
use text_relaxed_days::{Kind, write_relaxed_demand};
use text_rules::read_rules;

// Says the relaxed day of a day.
fn relaxed(alloc: Global, kind: Kind, instance: Instance) -> Result<Answer, Memory>
    requires { IsSoundInstance instance }
    ensures { IfOk result (λ a. RelaxedDemand kind instance a.status a.output) }
{
    let output = write_relaxed_demand(alloc, kind, instance)?;
    Ok(Answer { status: 0, output })
}

// Says the relaxed day of a demand text, or why the text is refused.
fn say_relaxed<S: Shelf>(
    alloc: Global,
    shelf: &mut S,
    kind: Kind,
    grammar: Grammar,
    text: &[u8],
) -> u8
    requires sound { IsSound grammar }
    requires plain { IsPlain grammar }
    ensures { IsReader (λ s o. DemandAnswer (RelaxedDemand kind) grammar text.now s o) []
        (S.told shelf.old) (S.told shelf.new) result }
{
    let periods = grammar.periods;
    match read_demand(alloc, grammar, text) {
        Ok(instance) => say_answer(shelf, relaxed(alloc, kind, instance)),
        Err(fault) => {
            let note = demand_note(alloc, text, periods, fault);
            say_remarked(shelf, text, demand_refusal(alloc, fault), note)
        }
    }
}

// Says what is answered to the demand text under a name.
fn relax_under<S: Shelf>(
    alloc: Global,
    shelf: &mut S,
    kind: Kind,
    grammar: Grammar,
    demand: &str,
) -> u8
    requires sound { IsSound grammar }
    requires plain { IsPlain grammar }
    ensures { IsReader (AnswersUnder (RelaxedDemand kind) (S.told shelf.old).held grammar demand.now)
        (demand.now ∷ []) (S.told shelf.old) (S.told shelf.new) result }
{
    match fetched(alloc, shelf, demand, MOST_DEMAND) {
        Ok(text) => say_relaxed(alloc, shelf, kind, grammar, text.as_slice()),
        Err(status) => status,
    }
}

// Says what is answered to a rules text and the demand text under a name.
fn relax_by_rules<S: Shelf>(
    alloc: Global,
    shelf: &mut S,
    kind: Kind,
    text: &[u8],
    demand: &str,
) -> u8
    ensures { IsReader (RulesAnswer (RelaxedDemand kind) (S.told shelf.old).held text.now demand.now)
        (demand.now ∷ []) (S.told shelf.old) (S.told shelf.new) result }
{
    match read_rules(alloc, text) {
        Ok(grammar) => relax_under(alloc, shelf, kind, grammar, demand),
        Err(fault) => {
            let note = rules_note(alloc, text, fault);
            say_remarked(shelf, text, rules_refusal(alloc, fault), note)
        }
    }
}

/// Says the demand text of the day of the rules and demand texts under names, with the floors, or the
/// ceilings, counted in place of being strict; or why a text is refused. The texts are fetched and read in
/// this order.
pub fn relax_demand<S: Shelf>(
    alloc: Global,
    shelf: &mut S,
    kind: Kind,
    rules: &str,
    demand: &str,
) -> u8
    ensures { IsReader (DayCommand (RelaxedDemand kind) (S.told shelf.old).held rules.now demand.now)
        (rules.now ∷ demand.now ∷ []) (S.told shelf.old) (S.told shelf.new) result }
{
    match fetched(alloc, shelf, rules, MOST_RULES) {
        Ok(text) => relax_by_rules(alloc, shelf, kind, text.as_slice(), demand),
        Err(status) => status,
    }
}
