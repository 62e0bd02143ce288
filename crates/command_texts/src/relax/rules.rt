//! Rules at no cost.

ghost use Rattle.std.specs.Prelude.{[], ◌∷◌, IfOk};
ghost use Rattle.model_rosters.specs.Sound.{IsPlain, IsSound};
ghost use Rattle.command_answers.specs.Reader.{IsReader};
ghost use Rattle.command_answers.specs.RulesCommands.{RulesCommand};
ghost use Rattle.command_texts.specs.Days.{DayAnswer};
ghost use Rattle.command_texts.specs.relax.Answers.{RelaxedRules};

use command_answers::{Answer, MOST_RULES, fetched, rules_refusal, say_answer, say_remarked};
use command_shelf::Shelf;
use model_rosters::{Grammar, Memory};
use std::alloc::Global;
use text_fault_notes::rules_note;
use text_relaxed_days::write_free_rules;
use text_rules::read_rules;

// Says a grammar at no cost.
fn freed(alloc: Global, grammar: Grammar) -> Result<Answer, Memory>
    requires sound { IsSound grammar }
    requires plain { IsPlain grammar }
    ensures { IfOk result (λ a. RelaxedRules grammar a.status a.output) }
{
    let output = write_free_rules(alloc, grammar)?;
    Ok(Answer { status: 0, output })
}

// Says the rules of a text at no cost, or why the text is refused.
fn say_freed<S: Shelf>(alloc: Global, shelf: &mut S, text: &[u8]) -> u8
    ensures { IsReader (λ s o. DayAnswer RelaxedRules text.now s o) []
        (S.told shelf.old) (S.told shelf.new) result }
{
    match read_rules(alloc, text) {
        Ok(grammar) => say_answer(shelf, freed(alloc, grammar)),
        Err(fault) => {
            let note = rules_note(alloc, text, fault);
            say_remarked(shelf, text, rules_refusal(alloc, fault), note)
        }
    }
}

/// Says the rules text under a name with each cost 0, or why the text is refused.
pub fn relax_rules<S: Shelf>(alloc: Global, shelf: &mut S, rules: &str) -> u8
    ensures { IsReader (RulesCommand RelaxedRules (S.told shelf.old).held rules.now) (rules.now ∷ [])
        (S.told shelf.old) (S.told shelf.new) result }
{
    match fetched(alloc, shelf, rules, MOST_RULES) {
        Ok(text) => say_freed(alloc, shelf, text.as_slice()),
        Err(status) => status,
    }
}
