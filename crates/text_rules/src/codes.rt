//! The codes so far.

ghost use Rattle.std.specs.Prelude.{◌≡◌, ◌≤◌, [], length, count_by};
ghost use Rattle.text_rules.specs.Lines.{is_declared, declare_at};
ghost use Rattle.text_rules.specs.Steps.{Reads};

use crate::fault::{Limit, RulesFault};
use model_rosters::{CodeDef, List, is_code_byte};
use std::alloc::Global;
use std::marker::Model;

/// The codes so far.
#[derive(Drop)]
pub struct Codes {
    list: List<CodeDef>,
}

impl Model for Codes {
    ghost use Rattle.std.specs.Prelude.{◌≤◌, List, length};
    ghost use Rattle.model_rosters.specs.declared.grammar.CodeDef.{CodeDef};

    ghost Value = { List CodeDef };

    ghost view = { λ c. c.list };

    ghost invariant = { λ c. length c.list ≤ 32 };
}

// Returns how many codes are of work.
fn work_count(codes: &[CodeDef]) -> usize
    ensures { result ≡ count_by (λ d. d.work) codes.now }
{
    codes.iter().filter(|def| def.work).count()
}

// Says whether a code has this byte.
fn is_declared(codes: &[CodeDef], byte: u8) -> bool
    ensures { result ≡ is_declared codes.now byte }
{
    codes.iter().any(|def| def.byte == byte)
}

impl Codes {
    /// Returns no codes.
    pub fn new(alloc: Global) -> Codes
        ensures { result ≡ [] }
    {
        Codes {
            list: List::new(alloc),
        }
    }

    /// Returns the codes in order.
    pub fn as_slice(&self) -> &[CodeDef]
        ensures value { result.now ≡ self.now }
        ensures few { length result.now ≤ 32 }
    {
        self.list.as_slice()
    }

    /// Returns the codes in order.
    pub fn into_list(self) -> List<CodeDef>
        ensures { result ≡ self }
    {
        let Codes { list } = self;
        list
    }

    /// Declares a code.
    ///
    /// # Errors
    ///
    /// `BadName` where the word is no byte for a code, `Twice` where a code has it already, `TooMany` past 32
    /// codes and past 8 of work, each with the line; `Memory` where memory runs out. Nothing is said of the
    /// codes then.
    #[tactic(auto, unfolding(crate::specs::Lines::declare_at))]
    pub fn declare(&mut self, line: u32, work: bool, word: &[u8]) -> Result<(), RulesFault>
        ensures value { Reads (λ _. (self.new)) result (declare_at line work self.old word.now) }
    {
        if word.len() != 1 || !is_code_byte(word[0]) {
            return Err(RulesFault::BadName { line });
        }
        let byte = word[0];
        let codes = self.list.as_slice();
        if is_declared(codes, byte) {
            return Err(RulesFault::Twice { line });
        }
        if 32 <= codes.len() {
            return Err(RulesFault::TooMany {
                line,
                what: Limit::Codes,
                most: 32,
            });
        }
        if work && 8 <= work_count(codes) {
            return Err(RulesFault::TooMany {
                line,
                what: Limit::Work,
                most: 8,
            });
        }
        self.list.push(CodeDef { byte, work })?;
        Ok(())
    }
}
