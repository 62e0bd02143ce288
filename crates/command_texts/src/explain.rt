//! The price of a word, and a tree of it.

ghost use Rattle.std.specs.Prelude.{◌≡◌, ◌≢◌, [], ◌∷◌, IfOk, IfSome, length, codes};
ghost use Rattle.std.specs.Option.{option_copied};
ghost use Rattle.model_rosters.specs.Shifts.{IsPrice};
ghost use Rattle.model_rosters.specs.Sound.{IsSound};
ghost use Rattle.tree_span_table.specs.Tables.{IsMadeFor, IsFilled};
ghost use Rattle.model_rosters.specs.word_prices.Prices.{word_view};
ghost use Rattle.command_texts.specs.Days.{DayAnswer};
ghost use Rattle.command_texts.specs.Explain.{Derivation, DerivationFrom, SaysTree};
ghost use Rattle.command_answers.specs.Reader.{IsReader};
ghost use Rattle.command_answers.specs.RulesCommands.{RulesCommand};
ghost use Rattle.command_texts.specs.Start.{AnswersOf};

use crate::findings::note_rules;
use crate::start::{grammar_from, no_form};
use crate::unfit::note_unfit;
use command_answers::{Answer, MEMORY, MOST_RULES, fetched, rules_refusal, say};
use command_shelf::Shelf;
use model_rosters::{Grammar, List, Memory, TreeRoom, WordPrices};
use std::alloc::Global;
use text_answers::write_tree;
use text_rules::read_rules;
use tree_span_table::Table;

const NO_DERIVATION: &[u8] = b"no derivation\n";

// Says that there is no derivation.
fn no_derivation(alloc: Global) -> Result<Answer, Memory>
    ensures { IfOk result (λ a. (a.status ≡ 1) × (a.output ≡ codes "no derivation\n")) }
{
    let bytes = Vec::from_slice(alloc, NO_DERIVATION)?;
    Ok(Answer {
        status: 1,
        output: List::from_vec(bytes),
    })
}

// Says the price of a word, and the tree of least sum that a filled table has for it.
fn tree(alloc: Global, prices: &WordPrices<'_>, table: &Table, price: u64) -> Result<Answer, Memory>
    requires sound { IsSound prices.now.grammar.now }
    requires made { IsMadeFor prices.now.grammar.now table.now }
    requires filled { IsFilled prices.now.grammar.now (word_view prices.now.grammar.now prices.now.word.now)
        table.now }
    requires length { length prices.now.word.now ≡ prices.now.grammar.now.periods }
    requires price { IsPrice prices.now.grammar.now prices.now.grammar.now.start prices.now.word.now price }
    ensures { IfOk result (λ a. (a.status ≡ 0) × SaysTree prices.now.grammar.now prices.now.word.now
        a.output) }
{
    let grammar = prices.grammar;
    let mut room = TreeRoom::for_grammar(alloc, grammar)?;
    table.tree(grammar, prices, &mut room);
    Ok(Answer {
        status: 0,
        output: write_tree(alloc, grammar, prices.word, price, room.steps())?,
    })
}

// Says the price of a word and a tree of that cost, by a table for its grammar, or that there is none.
fn derivation_by(
    alloc: Global,
    prices: &WordPrices<'_>,
    table: &mut Table,
) -> Result<Answer, Memory>
    requires sound { IsSound prices.now.grammar.now }
    requires made { IsMadeFor prices.now.grammar.now table.old }
    requires length { length prices.now.word.now ≡ prices.now.grammar.now.periods }
    ensures { IfOk result (λ a. Derivation prices.now.grammar.now prices.now.word.now a.status a.output) }
{
    let grammar = prices.grammar;
    let least = table.least(grammar, prices);
    match prices.price(grammar.start, least) {
        Some(price) => tree(alloc, prices, table, price),
        None => no_derivation(alloc),
    }
}

/// Says the price of a word by a sound grammar and a tree of that cost, or that there is none.
///
/// # Errors
///
/// `Memory` where memory runs out; there is no answer then.
pub fn derivation(alloc: Global, grammar: &Grammar, word: &[u8]) -> Result<Answer, Memory>
    requires { IsSound grammar.now }
    ensures { IfOk result (λ a. Derivation grammar.now word.now a.status a.output) }
{
    if word.len() != grammar.periods as usize {
        return no_derivation(alloc);
    }
    let prices = WordPrices::new(grammar, word);
    let mut table = Table::for_instance(alloc, grammar)?;
    derivation_by(alloc, &prices, &mut table)
}

// What is answered to a word by a sound grammar, if there is one.
fn derivation_from(alloc: Global, grammar: Option<Grammar>, word: &[u8]) -> Result<Answer, Memory>
    requires { IfSome grammar IsSound }
    ensures { IfOk result (λ a. AnswersOf (λ g s o. Derivation g word.now s o) grammar a.status a.output) }
{
    match grammar {
        Some(grammar) => derivation(alloc, &grammar, word),
        None => no_form(alloc),
    }
}

// What is answered to a rules text and a word, from the start name or from another name on.
fn explanation(
    alloc: Global,
    text: &[u8],
    word: &[u8],
    start: Option<&str>,
) -> Result<Answer, Memory>
    ensures { IfOk result
        (λ a. DayAnswer (λ g s o. DerivationFrom word.now (option_copied start.entry) g s o) text.now
        a.status a.output) }
{
    match read_rules(alloc, text) {
        Ok(grammar) => derivation_from(alloc, grammar_from(grammar, start), word),
        Err(fault) => rules_refusal(alloc, fault),
    }
}

// Notes what is odd about a rules text, and why a word is no shift.
fn note_explained<S: Shelf>(
    alloc: Global,
    shelf: &mut S,
    text: &[u8],
    word: &[u8],
    start: Option<&str>,
    status: u8,
)
    ensures { S.told shelf.new ≡ S.told shelf.old }
{
    note_rules(alloc, shelf, text);
    note_unfit(alloc, shelf, text, None, word, start, status);
}

// Says what is answered to a rules text and a word.
fn say_explanation<S: Shelf>(
    alloc: Global,
    shelf: &mut S,
    text: &[u8],
    word: &[u8],
    start: Option<&str>,
) -> u8
    ensures { IsReader (λ s o. DayAnswer (λ g s o. DerivationFrom word.now (option_copied start.entry) g s o)
        text.now s o) [] (S.told shelf.old) (S.told shelf.new) result }
{
    match explanation(alloc, text, word, start) {
        Ok(answer) => {
            note_explained(alloc, shelf, text, word, start, answer.status);
            say(shelf, answer.output.as_slice(), answer.status)
        }
        Err(Memory) => MEMORY,
    }
}

/// Says the price of a word by the rules text under a name, and a tree of that cost, from the start name or
/// from another name on.
pub fn explain<S: Shelf>(
    alloc: Global,
    shelf: &mut S,
    rules: &str,
    word: &str,
    start: Option<&str>,
) -> u8
    ensures { IsReader (RulesCommand (λ g s o. DerivationFrom word.now (option_copied start.entry) g s o)
        (S.told shelf.old).held rules.now) (rules.now ∷ []) (S.told shelf.old) (S.told shelf.new) result }
{
    match fetched(alloc, shelf, rules, MOST_RULES) {
        Ok(text) => say_explanation(alloc, shelf, text.as_slice(), word.as_bytes(), start),
        Err(status) => status,
    }
}
