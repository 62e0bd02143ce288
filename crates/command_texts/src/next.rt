//! Which codes may follow a prefix.

ghost use Rattle.std.specs.Prelude.{◌≢◌, ◌≤◌, ◌∷◌, [], IfOk, IfSome};
ghost use Rattle.std.specs.Option.{option_copied};
ghost use Rattle.tree_questions.specs.Next.{NextAnswer};
ghost use Rattle.model_rosters.specs.Sound.{IsSound};
ghost use Rattle.command_texts.specs.Days.{DayAnswer, NextFrom};
ghost use Rattle.command_answers.specs.Reader.{IsReader};
ghost use Rattle.command_answers.specs.RulesCommands.{RulesCommand};
ghost use Rattle.command_texts.specs.Start.{AnswersOf};

use crate::start::{grammar_from, no_form, note_refused};
use command_answers::{Answer, MEMORY, MOST_RULES, fetched, rules_refusal, say};
use command_shelf::Shelf;
use model_rosters::{Grammar, Memory};
use std::alloc::Global;
use text_rules::read_rules;
use tree_questions::next_answer;

// What is answered to a prefix by a sound grammar.
fn following_by(alloc: Global, grammar: &Grammar, prefix: &[u8]) -> Result<Answer, Memory>
    requires { IsSound grammar.now }
    ensures { IfOk result (λ a. NextAnswer grammar.now prefix.now a.status a.output) }
{
    match next_answer(alloc, grammar, prefix) {
        Ok(answer) => Ok(Answer {
            status: answer.status,
            output: answer.output,
        }),
        Err(Memory) => Err(Memory),
    }
}

// What is answered to a prefix by a sound grammar, if there is one.
fn following_from(alloc: Global, grammar: Option<Grammar>, prefix: &[u8]) -> Result<Answer, Memory>
    requires sound { IfSome grammar IsSound }
    ensures { IfOk result (λ a. AnswersOf (λ g s o. NextAnswer g prefix.now s o) grammar a.status a.output) }
{
    match grammar {
        Some(grammar) => following_by(alloc, &grammar, prefix),
        None => no_form(alloc),
    }
}

// What is answered to a rules text and a prefix, from the start name or from another name on.
fn following(
    alloc: Global,
    text: &[u8],
    prefix: &[u8],
    start: Option<&str>,
) -> Result<Answer, Memory>
    ensures { IfOk result (λ a. DayAnswer (λ g s o. NextFrom prefix.now (option_copied start.entry) g s o) text.now
        a.status a.output) }
{
    match read_rules(alloc, text) {
        Ok(grammar) => following_from(alloc, grammar_from(grammar, start), prefix),
        Err(fault) => rules_refusal(alloc, fault),
    }
}

// Says what is answered to a rules text.
fn say_following<S: Shelf>(
    alloc: Global,
    shelf: &mut S,
    text: &[u8],
    prefix: &[u8],
    start: Option<&str>,
) -> u8
    ensures { IsReader (λ s o. DayAnswer (λ g s o. NextFrom prefix.now (option_copied start.entry) g s o)
        text.now s o) [] (S.told shelf.old) (S.told shelf.new) result }
{
    match following(alloc, text, prefix, start) {
        Ok(answer) => {
            note_refused(alloc, shelf, text, start, answer.status);
            say(shelf, answer.output.as_slice(), answer.status)
        }
        Err(Memory) => MEMORY,
    }
}

/// Says the codes that may follow a prefix by the rules text under a name, from the start
/// name or from another name on.
pub fn next<S: Shelf>(
    alloc: Global,
    shelf: &mut S,
    rules: &str,
    prefix: &str,
    start: Option<&str>,
) -> u8
    ensures { IsReader (RulesCommand (λ g s o. NextFrom prefix.now (option_copied start.entry) g s o)
        (S.told shelf.old).held rules.now) (rules.now ∷ []) (S.told shelf.old) (S.told shelf.new) result }
{
    match fetched(alloc, shelf, rules, MOST_RULES) {
        Ok(text) => say_following(alloc, shelf, text.as_slice(), prefix.as_bytes(), start),
        Err(status) => status,
    }
}
