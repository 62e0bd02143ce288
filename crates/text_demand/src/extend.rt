//! The grammar of a day with groups.

ghost use Rattle.std.specs.Prelude.{◌≡◌, ◌≤◌, ◌++◌, ◌∷◌, [], length, map, IfOk, OnOk};
ghost use Rattle.model_rosters.specs.Extension.{any_window, group_rule, extended};
ghost use Rattle.model_rosters.specs.Names.{added_name};
ghost use Rattle.model_rosters.specs.Sound.{IsPlain};
ghost use Rattle.text_demand.specs.InstanceOf.{day_grammar};

use model_rosters::{Grammar, Group, List, Memory, Rule, Sym, Window};
use std::alloc::Global;

// The window that contains every length and every period.
const ANY: Window = Window { lo: 1, hi: 96 };

// Returns the name that groups add.
fn added_name(alloc: Global) -> Result<List<u8>, Memory>
    ensures { IfOk result (λ name. name ≡ added_name) }
{
    let mut name = List::new(alloc);
    name.push(b'*')?;
    Ok(name)
}

// The rule that leads from the added name to a group's name.
fn group_rule(alloc: Global, added: u8, group: &Group) -> Result<Rule, Memory>
    ensures { IfOk result (λ rule. rule ≡ group_rule added group.now) }
{
    let mut right = List::new(alloc);
    right.push(Sym::Name(group.name))?;
    Ok(Rule {
        left: added,
        cost: 0,
        right,
        span: ANY,
        first: ANY,
        last: ANY,
    })
}

// Appends the rule of each group.
fn push_rules(
    alloc: Global,
    rules: &mut List<Rule>,
    added: u8,
    groups: &[Group],
) -> Result<(), Memory>
    ensures { OnOk result (rules.new ≡ rules.old ++ map (group_rule added) groups.now) }
{
    for group in groups {
        let rule = group_rule(alloc, added, group)?;
        rules.push(rule)?;
    }
    Ok(())
}

// Returns the grammar with the name and the rules that groups add.
fn extended(alloc: Global, grammar: Grammar, groups: &[Group]) -> Result<Grammar, Memory>
    requires { IsPlain grammar }
    ensures { IfOk result (λ g. g ≡ extended grammar groups.now) }
{
    let Grammar {
        periods,
        codes,
        names,
        rules,
        ..
    } = grammar;
    let start = names.len() as u8;
    let mut names = names;
    names.push(added_name(alloc)?)?;
    let mut rules = rules;
    push_rules(alloc, &mut rules, start, groups)?;
    Ok(Grammar {
        periods,
        codes,
        names,
        rules,
        start,
    })
}

/// Returns the grammar of the day: with groups, the grammar extended by them.
///
/// # Errors
///
/// `Memory` where memory runs out; nothing is kept then.
pub fn day_grammar(alloc: Global, grammar: Grammar, groups: &[Group]) -> Result<Grammar, Memory>
    requires { IsPlain grammar }
    ensures { IfOk result (λ g. g ≡ day_grammar grammar groups.now) }
{
    if groups.is_empty() {
        return Ok(grammar);
    }
    extended(alloc, grammar, groups)
}
