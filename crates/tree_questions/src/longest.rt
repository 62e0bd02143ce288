//! How many letters of a prefix some shift begins with.

ghost use Rattle.std.specs.Prelude.{ℕ, ◌≡◌, ◌<◌, ◌≤◌, ◌^◌, ◌∷◌, [], Some, IfOk, pos, codes};
ghost use Rattle.model_rosters.specs.Sound.{IsSound};
ghost use Rattle.model_rosters.specs.Sums.{IsLeast, tree_sum};
ghost use Rattle.model_rosters.specs.Trees.{IsDayTree};
ghost use Rattle.text_lines.specs.Numbers.{number_text};
ghost use Rattle.text_lines.specs.Written.{written};
ghost use Rattle.tree_questions.specs.Next.{LongestText};
ghost use Rattle.tree_questions.specs.Prices.{miss_view};
ghost use Rattle.tree_questions.specs.Shifts.{IsLongest};

use crate::day_answer::{DayAnswer, no_shift};
use crate::least::least_sum;
use crate::miss_prices::MissPrices;
use model_rosters::{Grammar, List, Memory};
use std::alloc::Global;
use text_lines::{field, put};

// Returns how many bits a number has.
fn bits(number: u128) -> u8
    ensures within { number < 2 ^ result }
    ensures least { (k : ℕ) → number < 2 ^ k → result ≤ k }
{
    128 - number.leading_zeros() as u8
}

// Returns the length of the longest prefix of the prefix that begins some shift, from the least sum of its
// misses.
fn longest_of(grammar: &Grammar, prefix: &[u8], sum: i128) -> usize
    requires sound { IsSound grammar.now }
    requires least { IsLeast (IsDayTree grammar.now) (tree_sum (miss_view grammar.now prefix.now) 1)
        (Some sum) }
    ensures { IsLongest grammar.now prefix.now result }
{
    let behind = bits(sum as u128);
    let agrees = grammar.periods - behind;
    prefix.len().min(agrees as usize)
}

// Says the length of the longest prefix.
fn longest_line(alloc: Global, length: usize) -> Result<DayAnswer, Memory>
    ensures { IfOk result (λ a. (a.status ≡ 1)
        × (a.output ≡ written ((codes "longest" ∷ number_text (pos length) ∷ []) ∷ []))) }
{
    let mut output = List::new(alloc);
    put(&mut output, b"longest")?;
    field(&mut output, length as u64)?;
    output.push(b'\n')?;
    Ok(DayAnswer { status: 1, output })
}

/// Says how many letters of the prefix some shift begins with, or that there is no shift.
///
/// # Errors
///
/// `Memory` where memory runs out; there is no answer then.
pub fn longest_answer(alloc: Global, grammar: &Grammar, prefix: &[u8]) -> Result<DayAnswer, Memory>
    requires { IsSound grammar.now }
    ensures { IfOk result (λ a. (a.status ≡ 1) × LongestText grammar.now prefix.now a.output) }
{
    let prices = MissPrices::new(grammar, prefix);
    match least_sum(alloc, grammar, &prices)? {
        Some(sum) => longest_line(alloc, longest_of(grammar, prefix, sum)),
        None => no_shift(alloc),
    }
}
