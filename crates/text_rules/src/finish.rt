//! The grammar of all lines, and its cycles.

ghost use Rattle.std.specs.Prelude.{◌≡◌, ◌+◌, ◌≤◌, ◌^◌, ◌<◌, Ok, length, IfOk};
ghost use Rattle.model_rosters.specs.Sound.{has_rule, IsSound, IsPlain};
ghost use Rattle.text_rules.specs.Drafts.{IsParsed};
ghost use Rattle.text_rules.specs.RulesOf.{unruled, parsed, with_start, finish, IsValue};
ghost use Rattle.text_rules.specs.Steps.{Reads};

use crate::draft::{Draft, Parsed};
use crate::fault::RulesFault;
use crate::place::Place;
use crate::rules::Rules;
use model_rosters::{Grammar, Rule, unit_ranks};
use std::alloc::Global;

// Says whether some rule makes the name.
fn has_rule(rules: &[Rule], name: usize) -> bool
    ensures { result ≡ has_rule rules.now name }
{
    rules.iter().any(|rule| rule.left as usize == name)
}

// The place of the first name with no rule.
fn unruled(rules: &[Rule], places: &[Place]) -> Option<Place>
    ensures { result ≡ unruled rules.now 0 places.now }
{
    for (x, place) in places.iter().enumerate() {
        if !has_rule(rules, x) {
            return Some(*place);
        }
    }
    None
}

// The periods and the number of the start name, or why the lines make no grammar.
#[tactic(auto, unfolding(crate::specs::RulesOf::finish))]
fn start_of(draft: &Draft) -> Result<(u8, u8), RulesFault>
    ensures { finish draft.now ≡ with_start draft.now result }
{
    let Some(periods) = draft.periods else {
        return Err(RulesFault::NoPeriods);
    };
    let Some(start) = &draft.start else {
        return Err(RulesFault::NoStart);
    };
    let names = &draft.rules.names;
    if let Some(Place { line, word }) = unruled(draft.rules.rules.as_slice(), names.places()) {
        return Err(RulesFault::NoRule { line, word });
    }
    match names.place(start.name.as_slice()) {
        Some(first) => Ok((periods, first)),
        None => Err(RulesFault::NoRule {
            line: start.line,
            word: 2,
        }),
    }
}

// Makes a grammar of the draft's lists.
fn parsed(alloc: Global, draft: Draft, periods: u8, start: u8) -> Result<Parsed, RulesFault>
    ensures { Reads (λ p. p) result (Ok (parsed draft periods start)) }
{
    let Draft { codes, rules, .. } = draft;
    let Rules { names, rules } = rules;
    let (names, places) = names.into_lists(alloc)?;
    let grammar = Grammar {
        periods,
        codes: codes.into_list(),
        names,
        rules,
        start,
    };
    Ok(Parsed { grammar, places })
}

/// Makes the grammar of all lines.
///
/// # Errors
///
/// The fault that `finish` says of the lines, the first of: no `periods` line, no `start` line, a name with
/// no rule. `Memory` may come at any time.
pub fn finish(alloc: Global, draft: Draft) -> Result<Parsed, RulesFault>
    ensures { Reads (λ p. p) result (finish draft) }
{
    match start_of(&draft) {
        Ok((periods, start)) => parsed(alloc, draft, periods, start),
        Err(fault) => Err(fault),
    }
}

/// Refuses a grammar whose one-symbol rules lead from a name back to it.
///
/// # Errors
///
/// `UnitCycle` with the place of the first name on such a cycle.
pub fn without_cycle(parsed: Parsed) -> Result<Grammar, RulesFault>
    requires { IsParsed parsed }
    ensures value { IsValue parsed result }
    ensures sound { IfOk result IsSound }
    ensures plain { IfOk result IsPlain }
{
    let Parsed { grammar, places } = parsed;
    match unit_ranks(&grammar) {
        Ok(_) => Ok(grammar),
        Err(name) => {
            let Place { line, word } = places.as_slice()[name as usize];
            Err(RulesFault::UnitCycle { line, word })
        }
    }
}
