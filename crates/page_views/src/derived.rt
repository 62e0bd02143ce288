//! The derivation of each row.

ghost use Rattle.std.specs.Prelude.{◌≡◌, All, length, IfOk};
ghost use Rattle.check_values.specs.group_rules.Plain.{plain_from};
ghost use Rattle.page_views.specs.Rows.{AreDerived, IsDerived, IsPricedRow, start_of};

use check_values::plain_grammar;
use model_rosters::{Grammar, Instance, List, Memory};
use page_derived_rules::derivation_with_rules;
use page_text::Row;
use std::alloc::Global;

// The name that derives the words of a group.
fn start_of(instance: &Instance, group: u8) -> u8
    ensures { result ≡ start_of instance.now group }
{
    let place = (group as usize).saturating_sub(1);
    match instance.groups.as_slice().get(place) {
        None => instance.grammar.start,
        Some(group) => group.name,
    }
}

// Returns how the rules of its group derive a row's word. The grammar gets the group's start.
fn derived(
    alloc: Global,
    instance: &Instance,
    grammar: &mut Grammar,
    row: &Row,
) -> Result<List<u8>, Memory>
    requires rules { grammar.old ≡ plain_from instance.now.grammar instance.now.groups grammar.old.start }
    requires priced { IsPricedRow instance.now row.now }
    ensures text { IfOk result (IsDerived instance.now row.now) }
    ensures rules { grammar.new ≡ plain_from instance.now.grammar instance.now.groups grammar.new.start }
{
    grammar.start = start_of(instance, row.group);
    derivation_with_rules(alloc, grammar, row.word.as_slice(), row.price)
}

// Returns for each row how the rules of its group derive its word, by the rules of the day without what its
// groups add.
fn derivations_by(
    alloc: Global,
    instance: &Instance,
    grammar: &mut Grammar,
    rows: &[Row],
) -> Result<List<List<u8>>, Memory>
    requires rules { grammar.old ≡ plain_from instance.now.grammar instance.now.groups grammar.old.start }
    requires priced { All (IsPricedRow instance.now) rows.now }
    ensures texts { IfOk result (AreDerived instance.now rows.now) }
    ensures count { IfOk result (λ texts. length texts ≡ length rows.now) }
{
    let mut texts = List::new(alloc);
    for row in rows {
        texts.push(derived(alloc, instance, grammar, row)?)?;
    }
    Ok(texts)
}

/// Returns for each row how the rules of its group derive its word: a tree of the word at the row's price,
/// and the rules that it uses.
///
/// # Errors
///
/// `Memory` where memory runs out; nothing is kept then.
pub fn derivations(
    alloc: Global,
    instance: &Instance,
    rows: &[Row],
) -> Result<List<List<u8>>, Memory>
    requires { All (IsPricedRow instance.now) rows.now }
    ensures texts { IfOk result (AreDerived instance.now rows.now) }
    ensures count { IfOk result (λ texts. length texts ≡ length rows.now) }
{
    let mut grammar = plain_grammar(alloc, instance)?;
    derivations_by(alloc, instance, &mut grammar, rows)
}
