//! What may be asked of a third text.

ghost use Rattle.std.specs.Prelude.{ℕ, List, ◌≡◌, ◌≢◌, IfOk};
ghost use Rattle.model_rosters.specs.declared.instance.Instance.{Instance as Day};
ghost use Rattle.model_rosters.specs.SoundInstance.{IsSoundInstance};
ghost use Rattle.command_answers.specs.Asked.{TextAnswers};
ghost use Rattle.command_shelf.specs.Shelf.{front_to};

use crate::answer::Answer;
use model_rosters::{Instance, Memory};
use std::alloc::Global;

/// What is asked of a third text by the day of a rules and a demand text, as of a proof text.
pub trait Question {
    // The answers to each text by an instance.
    ghost answers: { Self → TextAnswers };

    // How many bytes a text has at most.
    ghost limit: { Self → ℕ };

    /// Returns how many bytes a text has at most; a longer one is refused, whatever its bytes are.
    fn most(&self) -> usize
        ensures { result ≡ limit self.now };

    /// Answers to a text, or says why it is refused.
    ///
    /// # Errors
    ///
    /// `Memory` where memory runs out.
    fn answer(&self, alloc: Global, instance: &Instance, text: &[u8]) -> Result<Answer, Memory>
        requires { IsSoundInstance instance.now }
        ensures { IfOk result (λ a. answers self.now instance.now text.now a.status a.output) };

    /// Returns what is noted to a person of a text beside the answer of this status, where anything is. No
    /// clause speaks of it.
    fn remark(
        &self,
        _alloc: Global,
        instance: &Instance,
        _text: &[u8],
        _status: u8,
    ) -> Option<String>
        requires { IsSoundInstance instance.now }
    {
        let _ = instance;
        None
    }

    // No answer has the status of a refusal.
    ghost ends: { (q : Self) (i : Day) (text : List ℕ) (status : ℕ) (output : List ℕ)
        → answers q i text status output → (status ≢ 6) × (status ≢ 7) };

    // What is answered to the first bytes of a text, up to one above the limit, is an answer to the text.
    ghost fronts: { (q : Self) (i : Day) (text : List ℕ) (status : ℕ) (output : List ℕ)
        → answers q i (front_to (limit q) text) status output → answers q i text status output };
}
