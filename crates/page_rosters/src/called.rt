//! What codes and groups are called.

ghost use Rattle.std.specs.Prelude.{◌≡◌, ◌++◌, [], ◌∷◌, IfOk};
ghost use Rattle.page_rosters.specs.Called.{called, code_called, code_text, group_called, row_called};

use model_rosters::{CodeDef, Instance, List, Memory};
use page_labels::{Labels, code_words, group_words, shift_name};
use std::alloc::Global;
use text_certificates::group_name;
use text_lines::put;

/// Returns a copy of bytes.
///
/// # Errors
///
/// `Memory` where memory runs out; nothing is kept then.
pub fn copied(alloc: Global, bytes: &[u8]) -> Result<List<u8>, Memory>
    ensures { IfOk result (λ copy. copy ≡ bytes.now) }
{
    let mut copy = List::new(alloc);
    put(&mut copy, bytes)?;
    Ok(copy)
}

// Returns words, or a name where there are none.
#[tactic(auto, unfolding(crate::specs::Called::called))]
fn called<'a>(words: &'a [u8], name: &'a [u8]) -> &'a [u8]
    ensures { result.now ≡ called words.now name.now }
{
    if words.len() > 0 { words } else { name }
}

/// Returns what a group is called: by its label, or by its name.
///
/// # Errors
///
/// `Memory` where memory runs out; nothing is kept then.
pub fn group_called(
    alloc: Global,
    instance: &Instance,
    labels: &Labels,
    group: u8,
) -> Result<List<u8>, Memory>
    ensures { IfOk result (λ text. text ≡ group_called instance.now labels.now group) }
{
    let words = group_words(labels.groups.as_slice(), group);
    copied(alloc, called(words, group_name(instance, group)))
}

/// Returns who works the shift with a number, from 1, where it is said, else what its group is called.
///
/// # Errors
///
/// `Memory` where memory runs out; nothing is kept then.
pub fn row_called(
    alloc: Global,
    instance: &Instance,
    labels: &Labels,
    number: u32,
    group: u8,
) -> Result<List<u8>, Memory>
    ensures { IfOk result (λ text. text ≡ row_called instance.now labels.now number group) }
{
    let words = group_words(labels.groups.as_slice(), group);
    let name = called(words, group_name(instance, group));
    copied(
        alloc,
        called(shift_name(labels.shifts.as_slice(), number), name),
    )
}

// Returns the byte of a code with its words.
#[tactic(auto, unfolding(crate::specs::Called::code_text))]
fn code_text(alloc: Global, byte: u8, words: &[u8]) -> Result<List<u8>, Memory>
    ensures { IfOk result (λ text. text ≡ code_text byte words.now) }
{
    let mut text = List::new(alloc);
    text.push(byte)?;
    if words.len() > 0 {
        text.push(b' ')?;
        put(&mut text, words)?;
    }
    Ok(text)
}

/// Returns what the code at a place is called: its byte, and behind it its label, where it has one.
///
/// # Errors
///
/// `Memory` where memory runs out; nothing is kept then.
pub fn code_called(
    alloc: Global,
    codes: &[CodeDef],
    labels: &Labels,
    place: u8,
) -> Result<List<u8>, Memory>
    ensures { IfOk result (λ text. text ≡ code_called codes.now labels.now place) }
{
    match codes.get(place as usize) {
        None => Ok(List::new(alloc)),
        Some(code) => code_text(alloc, code.byte, code_words(labels.codes.as_slice(), place)),
    }
}
