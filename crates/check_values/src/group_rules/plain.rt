//! A copy of a day's grammar without what its groups add.

ghost use Rattle.std.specs.Prelude.{◌≡◌, ◌++◌, [], ◌∷◌, IfOk, OnOk};
ghost use Rattle.check_values.specs.group_rules.Plain.{added_names, plain_from};

use model_rosters::{Grammar, Group, Instance, List, Memory, Rule};
use std::alloc::Global;

// Appends a copy of a name.
fn add_name(alloc: Global, out: &mut List<List<u8>>, name: &List<u8>) -> Result<(), Memory>
    ensures { OnOk result (out.new ≡ out.old ++ name.now ∷ []) }
{
    let mut copy = List::new(alloc);
    copy.extend_from_slice(name.as_slice())?;
    out.push(copy)
}

// Appends copies of names.
fn add_names(alloc: Global, out: &mut List<List<u8>>, names: &[List<u8>]) -> Result<(), Memory>
    ensures { OnOk result (out.new ≡ out.old ++ names.now) }
{
    for name in names {
        add_name(alloc, out, name)?;
    }
    Ok(())
}

// Appends a copy of a rule.
fn add_rule(alloc: Global, out: &mut List<Rule>, rule: &Rule) -> Result<(), Memory>
    ensures { OnOk result (out.new ≡ out.old ++ rule.now ∷ []) }
{
    let mut right = List::new(alloc);
    right.extend_from_slice(rule.right.as_slice())?;
    out.push(Rule {
        left: rule.left,
        cost: rule.cost,
        right,
        span: rule.span,
        first: rule.first,
        last: rule.last,
    })
}

// Appends copies of rules.
fn add_rules(alloc: Global, out: &mut List<Rule>, rules: &[Rule]) -> Result<(), Memory>
    ensures { OnOk result (out.new ≡ out.old ++ rules.now) }
{
    for rule in rules {
        add_rule(alloc, out, rule)?;
    }
    Ok(())
}

// How many names groups add to the grammar of a rules text.
fn added_names(groups: &[Group]) -> usize
    ensures { result ≡ added_names groups.now }
{
    if groups.is_empty() { 0 } else { 1 }
}

// Copies a day's codes, and its names and rules but for what its groups add, into a grammar without any.
fn fill(alloc: Global, grammar: &mut Grammar, instance: &Instance) -> Result<(), Memory>
    requires codes { grammar.old.codes ≡ [] }
    requires names { grammar.old.names ≡ [] }
    requires rules { grammar.old.rules ≡ [] }
    requires periods { grammar.old.periods ≡ instance.now.grammar.periods }
    ensures { OnOk result
        (grammar.new ≡ plain_from instance.now.grammar instance.now.groups grammar.old.start) }
{
    let groups = instance.groups.as_slice();
    let names = instance.grammar.names.as_slice();
    let rules = instance.grammar.rules.as_slice();
    let kept_names = names.len().saturating_sub(added_names(groups));
    let kept_rules = rules.len().saturating_sub(groups.len());
    grammar
        .codes
        .extend_from_slice(instance.grammar.codes.as_slice())?;
    add_names(alloc, &mut grammar.names, &names[..kept_names])?;
    add_rules(alloc, &mut grammar.rules, &rules[..kept_rules])
}

/// Returns a copy of a day's grammar without what its groups add, with the day's start.
///
/// # Errors
///
/// `Memory` where memory runs out.
pub fn plain_grammar(alloc: Global, instance: &Instance) -> Result<Grammar, Memory>
    ensures { IfOk result (λ g.
        g ≡ plain_from instance.now.grammar instance.now.groups instance.now.grammar.start) }
{
    let mut grammar = Grammar {
        periods: instance.grammar.periods,
        codes: List::new(alloc),
        names: List::new(alloc),
        rules: List::new(alloc),
        start: instance.grammar.start,
    };
    fill(alloc, &mut grammar, instance)?;
    Ok(grammar)
}
