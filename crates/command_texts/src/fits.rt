//! Which shifts fit a pattern.

ghost use Rattle.std.specs.Prelude.{◌≢◌, ◌≤◌, ◌∷◌, [], IfOk, IfSome};
ghost use Rattle.std.specs.Option.{option_copied};
ghost use Rattle.tree_questions.specs.Fitting.{FitsAnswer};
ghost use Rattle.model_rosters.specs.Sound.{IsSound};
ghost use Rattle.command_texts.specs.Days.{DayAnswer, FitsFrom};
ghost use Rattle.command_answers.specs.Reader.{IsReader};
ghost use Rattle.command_answers.specs.RulesCommands.{RulesCommand};
ghost use Rattle.command_texts.specs.Start.{AnswersOf};

use crate::start::{grammar_from, no_form};
use crate::unfit::{ANY, note_unfit};
use command_answers::{Answer, MEMORY, MOST_RULES, fetched, rules_refusal, say};
use command_shelf::Shelf;
use model_rosters::{Grammar, Memory};
use std::alloc::Global;
use text_rules::read_rules;
use tree_questions::fits_answer;

// What is answered to a pattern by a sound grammar.
fn fitting_by(alloc: Global, grammar: &Grammar, pattern: &[u8]) -> Result<Answer, Memory>
    requires { IsSound grammar.now }
    ensures { IfOk result (λ a. FitsAnswer grammar.now pattern.now a.status a.output) }
{
    match fits_answer(alloc, grammar, pattern) {
        Ok(answer) => Ok(Answer {
            status: answer.status,
            output: answer.output,
        }),
        Err(Memory) => Err(Memory),
    }
}

// What is answered to a pattern by a sound grammar, if there is one.
fn fitting_from(alloc: Global, grammar: Option<Grammar>, pattern: &[u8]) -> Result<Answer, Memory>
    requires sound { IfSome grammar IsSound }
    ensures { IfOk result (λ a. AnswersOf (λ g s o. FitsAnswer g pattern.now s o) grammar a.status a.output) }
{
    match grammar {
        Some(grammar) => fitting_by(alloc, &grammar, pattern),
        None => no_form(alloc),
    }
}

// What is answered to a rules text and a pattern, from the start name or from another name on.
fn fitting(
    alloc: Global,
    text: &[u8],
    pattern: &[u8],
    start: Option<&str>,
) -> Result<Answer, Memory>
    ensures { IfOk result (λ a. DayAnswer (λ g s o. FitsFrom pattern.now (option_copied start.entry) g s o) text.now
        a.status a.output) }
{
    match read_rules(alloc, text) {
        Ok(grammar) => fitting_from(alloc, grammar_from(grammar, start), pattern),
        Err(fault) => rules_refusal(alloc, fault),
    }
}

// Says what is answered to a rules text.
fn say_fitting<S: Shelf>(
    alloc: Global,
    shelf: &mut S,
    text: &[u8],
    pattern: &[u8],
    start: Option<&str>,
) -> u8
    ensures { IsReader (λ s o. DayAnswer (λ g s o. FitsFrom pattern.now (option_copied start.entry) g s o)
        text.now s o) [] (S.told shelf.old) (S.told shelf.new) result }
{
    match fitting(alloc, text, pattern, start) {
        Ok(answer) => {
            note_unfit(alloc, shelf, text, Some(ANY), pattern, start, answer.status);
            say(shelf, answer.output.as_slice(), answer.status)
        }
        Err(Memory) => MEMORY,
    }
}

/// Says the shifts that fit a pattern by the rules text under a name, from the start
/// name or from another name on.
pub fn fits<S: Shelf>(
    alloc: Global,
    shelf: &mut S,
    rules: &str,
    pattern: &str,
    start: Option<&str>,
) -> u8
    ensures { IsReader (RulesCommand (λ g s o. FitsFrom pattern.now (option_copied start.entry) g s o)
        (S.told shelf.old).held rules.now) (rules.now ∷ []) (S.told shelf.old) (S.told shelf.new) result }
{
    match fetched(alloc, shelf, rules, MOST_RULES) {
        Ok(text) => say_fitting(alloc, shelf, text.as_slice(), pattern.as_bytes(), start),
        Err(status) => status,
    }
}
