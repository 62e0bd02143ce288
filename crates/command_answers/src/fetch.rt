//! A text fetched, and an answer said.

ghost use Rattle.std.specs.Prelude.{◌≡◌, ◌≢◌, ◌∷◌, [], IfOk, IfErr};
ghost use Rattle.command_answers.specs.Fetch.{IsAnswer, IsFetchTo, NoAnswer};
ghost use Rattle.command_answers.specs.Reader.{IsReader};

use crate::answer::Answer;
use crate::encoding::note_encoding;
use crate::saying::{MEMORY, say, status_of};
use command_shelf::Shelf;
use model_rosters::Memory;
use std::alloc::Global;

/// Returns the first bytes of the text under a name, up to one above the most bytes that such a text may
/// have, or the status of a refusal. So a text that is too long is read no further than shows it.
///
/// # Errors
///
/// The status of the refusal: 6 where the shelf refuses the call, and 7 where memory runs out.
pub fn fetched<S: Shelf>(
    alloc: Global,
    shelf: &mut S,
    name: &str,
    most: usize,
) -> Result<Vec<u8>, u8>
    ensures text { IfOk result (λ text. IsFetchTo most name.now (S.told shelf.old) (S.told shelf.new) text.items) }
    ensures refusal { IfErr result (λ status. IsReader NoAnswer (name.now ∷ []) (S.told shelf.old)
        (S.told shelf.new) status) }
{
    let mut text = Vec::new(alloc);
    if let Err(fault) = shelf.fetch(name, most, &mut text) {
        return Err(status_of(fault));
    }
    Ok(text)
}

/// Says an answer at once, and returns its status, or that of a refusal.
pub fn say_answer<S: Shelf>(shelf: &mut S, answer: Result<Answer, Memory>) -> u8
    requires { IfOk answer (λ a. (a.status ≢ 6) × (a.status ≢ 7)) }
    ensures { IsReader (IsAnswer answer) [] (S.told shelf.old) (S.told shelf.new) result }
{
    match answer {
        Ok(answer) => say(shelf, answer.output.as_slice(), answer.status),
        Err(Memory) => MEMORY,
    }
}

/// Returns the status of an answer, or that of want of memory.
pub fn status_of_answer(answer: &Result<Answer, Memory>) -> u8 {
    match answer {
        Ok(answer) => answer.status,
        Err(Memory) => MEMORY,
    }
}

/// Says an answer to a text as `say_answer` does; where it refuses the text, what the first bytes show of its
/// encoding is noted before.
pub fn say_answer_to<S: Shelf>(shelf: &mut S, text: &[u8], answer: Result<Answer, Memory>) -> u8
    requires { IfOk answer (λ a. (a.status ≢ 6) × (a.status ≢ 7)) }
    ensures { IsReader (IsAnswer answer) [] (S.told shelf.old) (S.told shelf.new) result }
{
    note_encoding(shelf, text, status_of_answer(&answer));
    say_answer(shelf, answer)
}

/// Notes a remark, where there is one.
pub fn note_remark<S: Shelf>(shelf: &mut S, remark: Option<String>)
    ensures { S.told shelf.new ≡ S.told shelf.old }
{
    match remark {
        Some(note) => shelf.note(note.as_str()),
        None => {}
    }
}

/// Says an answer to a text as `say_answer_to` does, and notes a remark on the text before, where there is
/// one.
pub fn say_remarked<S: Shelf>(
    shelf: &mut S,
    text: &[u8],
    answer: Result<Answer, Memory>,
    remark: Option<String>,
) -> u8
    requires { IfOk answer (λ a. (a.status ≢ 6) × (a.status ≢ 7)) }
    ensures { IsReader (IsAnswer answer) [] (S.told shelf.old) (S.told shelf.new) result }
{
    note_remark(shelf, remark);
    say_answer_to(shelf, text, answer)
}
