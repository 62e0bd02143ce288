//! The rules of each name.

ghost use Rattle.std.specs.Prelude.{IfOk};
ghost use Rattle.model_rosters.specs.Sound.{IsSound};
ghost use Rattle.tree_span_cells.specs.Chains.{AreChained};

use model_rosters::{Grammar, Memory, rule_of};
use std::alloc::Global;

/// The rules of each name, by rising numbers: where there is no further one, the number is one past
/// that of the last rule of all.
#[derive(Drop)]
pub struct Chains {
    /// For each name its first rule.
    pub first: Vec<u8>,
    /// For each rule the next one of its name.
    pub next: Vec<u8>,
}

impl Chains {
    /// Returns the chains of a grammar's rules.
    ///
    /// # Errors
    ///
    /// `Memory` where memory runs out; nothing is kept then.
    pub fn new(alloc: Global, grammar: &Grammar) -> Result<Chains, Memory>
        requires { IsSound grammar.now }
        ensures { IfOk result (AreChained grammar.now) }
    {
        let rules = grammar.rules.len();
        let none = rules as u8 + 1;
        let mut first = vec![in alloc; none; grammar.names.len()]?;
        let mut next = vec![in alloc; none; rules]?;
        for index in (0..rules).rev() {
            let number = index as u8 + 1;
            let left = rule_of(grammar, number).left as usize;
            next[index] = first[left];
            first[left] = number;
        }
        Ok(Chains { first, next })
    }
}
