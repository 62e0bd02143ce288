//! At which codes of need nobody works, and what a shift with one costs at least.

ghost use Rattle.tree_span_table.specs.next_codes.Views.{IsMadeFor as AreMadeFor};
ghost use Rattle.model_rosters.specs.Sound.{IsSound};
ghost use Rattle.model_rosters.specs.SoundInstance.{IsSoundInstance};

use crate::infeasible::{least_at, letter_of};
use crate::lines::add_line;
use check_certificates::Cert;
use command_texts::text_places::{Mark, marked_line};
use model_rosters::{Cell, Grammar, Instance, Shift};
use std::alloc::Global;
use tree_questions::CostPrices;
use tree_span_table::Marginals;

// Returns the byte of a cell's code.
fn byte_of(grammar: &Grammar, cell: &Cell) -> Option<u8> {
    match grammar.codes.as_slice().get(cell.code as usize) {
        Some(code) => Some(code.byte),
        None => None,
    }
}

// Whether a shift has a letter.
fn has_letter(shift: &Shift, byte: u8) -> bool {
    shift.word.as_slice().iter().any(|letter| *letter == byte)
}

// Whether nobody works at the code of a cell in any period.
fn is_idle(grammar: &Grammar, shifts: &[Shift], cell: &Cell) -> bool {
    match byte_of(grammar, cell) {
        Some(byte) => !shifts.iter().any(|shift| has_letter(shift, byte)),
        None => false,
    }
}

// Whether somebody is needed in a cell of the same code.
fn is_needed(cells: &[Cell], code: u8) -> bool {
    cells.iter().any(|cell| cell.code == code && 0 < cell.need)
}

// Lists a cell of each code at which nobody works, though somebody is needed.
fn idle_cells(alloc: Global, instance: &Instance, shifts: &[Shift]) -> Option<Vec<Cell>> {
    let cells = instance.cells.as_slice();
    let mut idle = Vec::new(alloc);
    for cell in cells {
        if cell.period == 1
            && is_needed(cells, cell.code)
            && is_idle(&instance.grammar, shifts, cell)
        {
            idle.push(*cell).ok()?;
        }
    }
    Some(idle)
}

// Returns the lesser one of two sums that may be none.
fn lesser(least: Option<i128>, sum: Option<i128>) -> Option<i128> {
    match (least, sum) {
        (Some(least), Some(sum)) => Some(least.min(sum)),
        (None, sum) => sum,
        (least, None) => least,
    }
}

// Returns the least price of a shift that has a code in a period in which somebody is needed at it.
fn least_price(instance: &Instance, marginals: &Marginals, code: u8) -> Option<i128>
    requires { AreMadeFor instance.now.grammar marginals.now }
{
    let mut least = None;
    for cell in instance.cells.as_slice() {
        if cell.code == code && 0 < cell.need {
            least = lesser(least, least_at(&instance.grammar, marginals, cell));
        }
    }
    least
}

// Returns what is noted of a code at which nobody works.
fn idle_text(
    alloc: Global,
    instance: &Instance,
    marginals: &Marginals,
    cell: &Cell,
) -> Option<String>
    requires { AreMadeFor instance.now.grammar marginals.now }
{
    let letter = letter_of(&instance.grammar, cell);
    let missing = cell.under;
    match least_price(instance, marginals, cell.code) {
        Some(price) => format!(in alloc;
            "nobody works at {letter}: a shift with it in a period of need costs {price} at least, \
            a missing one {missing} a period"
        )
        .ok(),
        None => format!(in alloc;
            "nobody works at {letter}: no shift has it in a period of need, \
            a missing one costs {missing} a period"
        )
        .ok(),
    }
}

// Returns the line of a code's needs in the demand text.
fn need_line(demand: &[u8], grammar: &Grammar, cell: &Cell) -> Option<u32> {
    let word = [byte_of(grammar, cell)?];
    marked_line(demand, b"need", Mark::Second(&word))
}

// Adds the note on a code at which nobody works.
fn add_idle(
    alloc: Global,
    demand: &[u8],
    instance: &Instance,
    marginals: &Marginals,
    cell: &Cell,
    text: &mut String,
) -> Option<()>
    requires { AreMadeFor instance.now.grammar marginals.now }
{
    let said = idle_text(alloc, instance, marginals, cell)?;
    let line = need_line(demand, &instance.grammar, cell)?;
    add_line(text, format!(in alloc; "demand: line {line}: {said}").ok()?)
}

// Adds the notes on the codes of these cells.
fn add_all_idle(
    alloc: Global,
    demand: &[u8],
    instance: &Instance,
    marginals: &Marginals,
    idle: &[Cell],
    text: &mut String,
) -> Option<()>
    requires { AreMadeFor instance.now.grammar marginals.now }
{
    for cell in idle {
        add_idle(alloc, demand, instance, marginals, cell, text)?;
    }
    Some(())
}

// Returns the notes on the codes of these cells.
fn noted(alloc: Global, demand: &[u8], instance: &Instance, idle: &[Cell]) -> Option<String>
    requires { IsSound instance.now.grammar }
{
    let grammar = &instance.grammar;
    let mut marginals = Marginals::for_instance(alloc, grammar).ok()?;
    marginals.fill(grammar, &CostPrices::new(grammar));
    let mut text = String::new(alloc);
    add_all_idle(alloc, demand, instance, &marginals, idle, &mut text)?;
    Some(text)
}

/// Returns, one a line, at which codes of need nobody works in the roster of a certificate, what a shift with
/// the code costs at least, and what a missing employee costs. There is no text where there is no such code
/// or no roster, nor after want of memory.
pub(crate) fn idle_codes_text(
    alloc: Global,
    demand: &[u8],
    instance: &Instance,
    cert: &Cert,
) -> Option<String>
    requires { IsSoundInstance instance.now }
{
    if cert.cost.is_none() {
        return None;
    }
    let idle = idle_cells(alloc, instance, cert.shifts.as_slice())?;
    if idle.is_empty() {
        return None;
    }
    noted(alloc, demand, instance, idle.as_slice())
}
