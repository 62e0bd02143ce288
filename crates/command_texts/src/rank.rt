//! The first trees by cost.

ghost use Rattle.std.specs.Prelude.{◌≡◌, ◌≤◌, ◌∷◌, [], IfOk, IfSome};
ghost use Rattle.std.specs.Option.{option_copied};
ghost use Rattle.tree_questions.specs.Ranked.{RankedAnswer};
ghost use Rattle.model_rosters.specs.Sound.{IsSound};
ghost use Rattle.command_texts.specs.Days.{DayAnswer, RankFrom};
ghost use Rattle.command_answers.specs.Reader.{IsReader};
ghost use Rattle.command_answers.specs.RulesCommands.{RulesCommand};
ghost use Rattle.command_texts.specs.Start.{AnswersOf};

use crate::findings::note_rules;
use crate::start::{grammar_from, no_form, note_refused};
use command_answers::{Answer, MEMORY, MOST_RULES, fetched, rules_refusal, say};
use command_shelf::Shelf;
use model_rosters::{Grammar, Memory};
use std::alloc::Global;
use text_rules::read_rules;
use tree_questions::ranked_answer;

// What is answered to a number of trees by a sound grammar.
fn ranking_by(alloc: Global, grammar: &Grammar, most: u32) -> Result<Answer, Memory>
    requires sound { IsSound grammar.now }
    requires some { 1 ≤ most }
    requires few { most ≤ 1000 }
    ensures { IfOk result (λ a. RankedAnswer grammar.now most a.status a.output) }
{
    match ranked_answer(alloc, grammar, most) {
        Ok(answer) => Ok(Answer {
            status: answer.status,
            output: answer.output,
        }),
        Err(Memory) => Err(Memory),
    }
}

// What is answered to a number of trees by a sound grammar, if there is one.
fn ranking_from(alloc: Global, grammar: Option<Grammar>, most: u32) -> Result<Answer, Memory>
    requires sound { IfSome grammar IsSound }
    requires some { 1 ≤ most }
    requires few { most ≤ 1000 }
    ensures { IfOk result (λ a. AnswersOf (λ g s o. RankedAnswer g most s o) grammar a.status a.output) }
{
    match grammar {
        Some(grammar) => ranking_by(alloc, &grammar, most),
        None => no_form(alloc),
    }
}

// What is answered to a rules text and a number of trees, from the start name or from another name on.
fn ranking(alloc: Global, text: &[u8], most: u32, start: Option<&str>) -> Result<Answer, Memory>
    requires some { 1 ≤ most }
    requires few { most ≤ 1000 }
    ensures { IfOk result (λ a. DayAnswer (λ g s o. RankFrom most (option_copied start.entry) g s o) text.now
        a.status a.output) }
{
    match read_rules(alloc, text) {
        Ok(grammar) => ranking_from(alloc, grammar_from(grammar, start), most),
        Err(fault) => rules_refusal(alloc, fault),
    }
}

// Notes what is odd about a rules text, and why it, or a name to begin at, is refused.
fn note_ranked<S: Shelf>(alloc: Global, shelf: &mut S, text: &[u8], start: Option<&str>, status: u8)
    ensures { S.told shelf.new ≡ S.told shelf.old }
{
    note_rules(alloc, shelf, text);
    note_refused(alloc, shelf, text, start, status);
}

// Says what is answered to a rules text.
fn say_ranking<S: Shelf>(
    alloc: Global,
    shelf: &mut S,
    text: &[u8],
    most: u32,
    start: Option<&str>,
) -> u8
    requires some { 1 ≤ most }
    requires few { most ≤ 1000 }
    ensures { IsReader (λ s o. DayAnswer (λ g s o. RankFrom most (option_copied start.entry) g s o)
        text.now s o) [] (S.told shelf.old) (S.told shelf.new) result }
{
    match ranking(alloc, text, most, start) {
        Ok(answer) => {
            note_ranked(alloc, shelf, text, start, answer.status);
            say(shelf, answer.output.as_slice(), answer.status)
        }
        Err(Memory) => MEMORY,
    }
}

/// Says the first trees of the day by cost, at most so many, by the rules text under a name, from the start
/// name or from another name on.
pub fn rank<S: Shelf>(
    alloc: Global,
    shelf: &mut S,
    rules: &str,
    most: u32,
    start: Option<&str>,
) -> u8
    requires some { 1 ≤ most }
    requires few { most ≤ 1000 }
    ensures { IsReader (RulesCommand (λ g s o. RankFrom most (option_copied start.entry) g s o)
        (S.told shelf.old).held rules.now) (rules.now ∷ []) (S.told shelf.old) (S.told shelf.new) result }
{
    match fetched(alloc, shelf, rules, MOST_RULES) {
        Ok(text) => say_ranking(alloc, shelf, text.as_slice(), most, start),
        Err(status) => status,
    }
}
