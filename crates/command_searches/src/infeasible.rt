//! Which head counts and cells alone show that no roster is allowed.

ghost use Rattle.std.specs.Prelude.{◌≡◌, ◌<◌, ◌≤◌, length};
ghost use Rattle.tree_span_table.specs.next_codes.Views.{IsMadeFor as AreMadeFor};
ghost use Rattle.model_rosters.specs.Sound.{IsSound};
ghost use Rattle.model_rosters.specs.SoundInstance.{IsSoundInstance};
ghost use Rattle.tree_span_table.specs.Tables.{IsMadeFor};

use crate::lines::add_line;
use model_rosters::{Cell, Grammar, Group, Instance};
use std::alloc::Global;
use tree_questions::CostPrices;
use tree_span_table::{Marginals, Table};

// Whether a name derives a word of the day, by a table that is filled.
fn has_shift(grammar: &Grammar, table: &Table, name: u8) -> bool
    requires sound { IsSound grammar.now }
    requires made { IsMadeFor grammar.now table.now }
{
    if (name as usize) < grammar.names.len() {
        return table.value(grammar, name).is_some();
    }
    false
}

// Adds a line where a day without groups needs employees and has no shift.
fn add_heads(alloc: Global, instance: &Instance, table: &Table, text: &mut String) -> Option<()>
    requires sound { IsSound instance.now.grammar }
    requires made { IsMadeFor instance.now.grammar table.now }
{
    let least = instance.heads_min;
    if least == 0 || has_shift(&instance.grammar, table, instance.grammar.start) {
        return Some(());
    }
    add_line(
        text,
        format!(in alloc; "heads: at least {least}, but the rules have no shift").ok()?,
    )
}

// Returns the name of a group.
fn name_of<'a>(grammar: &'a Grammar, group: &Group) -> &'a str {
    match grammar.names.as_slice().get(group.name as usize) {
        Some(name) => str::from_utf8(name.as_slice()).unwrap_or(""),
        None => "",
    }
}

// Adds a line where a group needs employees and has no shift.
fn add_group(
    alloc: Global,
    grammar: &Grammar,
    table: &Table,
    group: &Group,
    text: &mut String,
) -> Option<()>
    requires sound { IsSound grammar.now }
    requires made { IsMadeFor grammar.now table.now }
{
    let least = group.heads_min;
    if least == 0 || has_shift(grammar, table, group.name) {
        return Some(());
    }
    let name = name_of(grammar, group);
    add_line(
        text,
        format!(in alloc;
            "group {name}: at least {least}, but the rules have no shift of it"
        ).ok()?,
    )
}

// Adds a line for each team that needs employees and has no shift.
fn add_teams(alloc: Global, instance: &Instance, table: &Table, text: &mut String) -> Option<()>
    requires sound { IsSound instance.now.grammar }
    requires made { IsMadeFor instance.now.grammar table.now }
{
    if instance.groups.is_empty() {
        return add_heads(alloc, instance, table, text);
    }
    for group in instance.groups.as_slice() {
        add_group(alloc, &instance.grammar, table, group, text)?;
    }
    Some(())
}

// Adds what `add_teams` adds, by a table of its own.
fn add_unstaffable(alloc: Global, instance: &Instance, text: &mut String) -> Option<()>
    requires { IsSound instance.now.grammar }
{
    let grammar = &instance.grammar;
    let mut table = Table::for_instance(alloc, grammar).ok()?;
    table.least(grammar, &CostPrices::new(grammar));
    add_teams(alloc, instance, &table, text)?;
    Some(())
}

/// Returns the least sum of a shift that has the code of a cell in its period, by marginals that are filled.
pub(crate) fn least_at(grammar: &Grammar, marginals: &Marginals, cell: &Cell) -> Option<i128>
    requires { AreMadeFor grammar.now marginals.now }
{
    if (cell.code as usize) < grammar.codes.len()
        && 1 <= cell.period
        && cell.period <= grammar.periods
    {
        return marginals.at(cell.code, cell.period);
    }
    None
}

/// Returns the letter of a cell's code.
pub(crate) fn letter_of(grammar: &Grammar, cell: &Cell) -> char {
    match grammar.codes.as_slice().get(cell.code as usize) {
        Some(code) => char::from(code.byte),
        None => '?',
    }
}

// Adds a line where a cell's floor is above its ceiling or above all heads, and one where no shift has the
// code there and the floor is above 0.
fn add_cell(
    alloc: Global,
    instance: &Instance,
    marginals: &Marginals,
    cell: &Cell,
    text: &mut String,
) -> Option<()>
    requires { AreMadeFor instance.now.grammar marginals.now }
{
    let letter = letter_of(&instance.grammar, cell);
    let period = cell.period;
    let floor = cell.floor;
    let most = cell.ceiling.min(instance.heads_max);
    if most < floor {
        add_line(
            text,
            format!(in alloc; "floor {letter} period {period}: {floor}, at most {most}").ok()?,
        )?;
    }
    if 0 < floor && least_at(&instance.grammar, marginals, cell).is_none() {
        add_line(
            text,
            format!(in alloc;
                "floor {letter} period {period}: {floor}, but no shift has {letter} there"
            ).ok()?,
        )?;
    }
    Some(())
}

// Adds these lines of each cell.
fn add_cells(
    alloc: Global,
    instance: &Instance,
    marginals: &Marginals,
    text: &mut String,
) -> Option<()>
    requires { AreMadeFor instance.now.grammar marginals.now }
{
    for cell in instance.cells.as_slice() {
        add_cell(alloc, instance, marginals, cell, text)?;
    }
    Some(())
}

// Adds what `add_cells` adds, by marginals of its own.
fn add_unmeetable(alloc: Global, instance: &Instance, text: &mut String) -> Option<()>
    requires { IsSound instance.now.grammar }
{
    let grammar = &instance.grammar;
    let mut marginals = Marginals::for_instance(alloc, grammar).ok()?;
    marginals.fill(grammar, &CostPrices::new(grammar));
    add_cells(alloc, instance, &marginals, text)?;
    Some(())
}

/// Returns, one a line, why the head counts or a cell alone show that no roster is allowed: teams that need
/// employees and have no shift, floors above the ceiling or above all heads, and floors above 0 where no
/// shift has the code. The text is empty where there is no such reason; there is none after want of memory.
pub(crate) fn infeasible_text(alloc: Global, instance: &Instance) -> Option<String>
    requires { IsSoundInstance instance.now }
{
    let mut text = String::new(alloc);
    add_unstaffable(alloc, instance, &mut text)?;
    add_unmeetable(alloc, instance, &mut text)?;
    Some(text)
}
