//! The cells of the first line as headings.

ghost use Rattle.std.specs.Prelude.{◌≡◌, ◌++◌, ◌∷◌, drop, nat_eq, IfOk};
ghost use Rattle.std.specs.List.{list_any};
ghost use Rattle.plan_forecast.specs.Headings.{first_cell, goes_with, is_bound, is_one_word, titles};

use model_rosters::{List, Memory};
use std::alloc::Global;
use text_lines::put;

/// Returns the first cell, which is empty where there is none.
pub(crate) fn first_cell(cells: &[List<u8>]) -> &[u8]
    ensures { result.now ≡ first_cell cells.now }
{
    match cells {
        [first, ..] => first.as_slice(),
        [] => b"",
    }
}

/// Returns the cells behind the first.
pub(crate) fn further_cells(cells: &[List<u8>]) -> &[List<u8>]
    ensures { result.now ≡ drop 1 cells.now }
{
    match cells {
        [_, rest @ ..] => rest,
        [] => cells,
    }
}

/// Copies bytes.
///
/// # Errors
///
/// `Memory` where memory runs out.
pub(crate) fn copied(alloc: Global, bytes: &[u8]) -> Result<List<u8>, Memory>
    ensures { IfOk result (λ copy. copy ≡ bytes.now) }
{
    let mut copy = List::new(alloc);
    put(&mut copy, bytes)?;
    Ok(copy)
}

// Whether a space stands in it.
fn has_space(text: &[u8]) -> bool
    ensures { result ≡ list_any (λ b. nat_eq b 32) text.now }
{
    text.iter().any(|byte| *byte == b' ')
}

// Whether this is one word.
#[tactic(auto, unfolding(crate::specs::Headings::is_one_word))]
fn is_one_word(text: &[u8]) -> bool
    ensures { result ≡ is_one_word text.now }
{
    0 < text.len() && !has_space(text)
}

// Whether this is `least` or `most`.
#[tactic(auto, unfolding(crate::specs::Headings::is_bound))]
fn is_bound(text: &[u8]) -> bool
    ensures { result ≡ is_bound text.now }
{
    text == b"least".as_slice() || text == b"most".as_slice()
}

// Whether the next cell goes with the heading before it.
fn goes_with(separator: u8, title: &[u8], next: &[u8]) -> bool
    ensures { result ≡ goes_with separator title.now next.now }
{
    separator == b' ' && is_one_word(title) && is_bound(next)
}

// Joins two cells by a space.
fn both(alloc: Global, title: &[u8], next: &[u8]) -> Result<List<u8>, Memory>
    ensures { IfOk result (λ text. text ≡ title.now ++ 32 ∷ next.now) }
{
    let mut text = copied(alloc, title)?;
    text.push(b' ')?;
    put(&mut text, next)?;
    Ok(text)
}

/// Returns the headings of cells: where spaces part cells, `least` and `most` go with the heading of one word
/// before.
///
/// # Errors
///
/// `Memory` where memory runs out.
pub(crate) fn titles(
    alloc: Global,
    separator: u8,
    cells: &[List<u8>],
) -> Result<List<List<u8>>, Memory>
    ensures { IfOk result (λ ts. ts ≡ titles separator cells.now) }
{
    let mut all = List::new(alloc);
    let mut left = cells;
    while let [first, rest @ ..] = left {
        match rest {
            [next, after @ ..] if goes_with(separator, first.as_slice(), next.as_slice()) => {
                all.push(both(alloc, first.as_slice(), next.as_slice())?)?;
                left = after;
            }
            _ => {
                all.push(copied(alloc, first.as_slice())?)?;
                left = rest;
            }
        }
    }
    Ok(all)
}
