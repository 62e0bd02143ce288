//! A text stored, and then an answer said.

ghost use Rattle.std.specs.Prelude.{◌≡◌, ◌≢◌, ◌≤◌, [], IfOk, IfSome, IsSomeAnd, IsTrue, MatchResult};
ghost use Rattle.command_shelf.specs.Shelf.{SaidPart};
ghost use Rattle.command_answers.specs.Reader.{MayStore};
ghost use Rattle.command_searches.specs.Writer.{IsAsked, IsStoredAnswer, IsTurnedDown, IsWriter};

use command_answers::{Answer, FAILED, MEMORY, say, status_of};
use command_shelf::{Shelf, ShelfFault};
use model_rosters::Memory;

/// Asks whether a text may be stored under a name, or returns the status of a refusal.
///
/// # Errors
///
/// The status of a refusal: 6 where the name may not be stored under or the shelf fails, 7 for want of
/// memory.
pub(crate) fn ask_name<S: Shelf>(shelf: &mut S, name: &str) -> Result<(), u8>
    ensures { MatchResult result
        (λ _. IsAsked (MayStore name.now) (S.told shelf.old) (S.told shelf.new))
        (IsTurnedDown (MayStore name.now) (S.told shelf.old) (S.told shelf.new)) }
{
    match shelf.may_store(name) {
        Ok(()) => Ok(()),
        Err(fault) => Err(status_of(fault)),
    }
}

// Says an answer whose text the shelf refused to store, so that what was searched is not lost, and returns
// the status of that refusal, whatever becomes of what is said.
fn say_unstored<S: Shelf>(shelf: &mut S, output: &[u8]) -> u8
    ensures status { result ≡ 6 }
    ensures part { IfSome (S.told shelf.old).said (λ s. IsSomeAnd (S.told shelf.new).said
        (SaidPart output.now s)) }
    ensures held { (S.told shelf.new).held ≡ (S.told shelf.old).held }
    ensures never_falls { (S.told shelf.old).faults ≤ (S.told shelf.new).faults }
    ensures quiet { IsTrue (S.told shelf.old).steady → (S.told shelf.new).faults ≡ (S.told shelf.old).faults }
{
    let _ = shelf.say(output);
    FAILED
}

// Stores a text under a name, says an answer at once, and returns its status, or that of a refusal. Where the
// shelf refuses to store the text, the answer is said all the same.
#[tactic(auto, using(crate::proofs::Writers::keeps_stored))]
fn store_answer<S: Shelf>(shelf: &mut S, name: &str, text: &[u8], answer: &Answer) -> u8
    requires { (answer.now.status ≢ 6) × (answer.now.status ≢ 7) }
    ensures { IsWriter (IsStoredAnswer (Ok answer.now) text.now) [] name.now (S.told shelf.old)
        (S.told shelf.new) result }
{
    match shelf.store(name, text) {
        Ok(()) => say(shelf, answer.output.as_slice(), answer.status),
        Err(ShelfFault::Failed) => say_unstored(shelf, answer.output.as_slice()),
        Err(ShelfFault::Memory) => MEMORY,
    }
}

/// Stores a text under a name, says an answer at once, and returns its status, or that of a refusal. Where
/// the shelf refuses to store the text, the answer is said all the same. Where there is no answer for want of
/// memory nothing is stored or said.
#[tactic(auto, using(crate::proofs::Writers::keeps_same))]
pub fn store_and_say<S: Shelf>(
    shelf: &mut S,
    name: &str,
    text: &[u8],
    answer: Result<Answer, Memory>,
) -> u8
    requires { IfOk answer (λ a. (a.status ≢ 6) × (a.status ≢ 7)) }
    ensures { IsWriter (IsStoredAnswer answer text.now) [] name.now (S.told shelf.old) (S.told shelf.new)
        result }
{
    match answer {
        Ok(answer) => store_answer(shelf, name, text, &answer),
        Err(Memory) => MEMORY,
    }
}
