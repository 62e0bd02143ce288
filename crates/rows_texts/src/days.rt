//! The days of the rows, each of a rules text and a demand text.

ghost use Rattle.std.specs.Prelude.{IfOk};
ghost use Rattle.model_rosters.specs.SoundInstance.{IsSoundInstance};

use model_rosters::Instance;
use std::alloc::Global;
use std::test::Fail;
use text_demand::read_demand;
use text_rules::read_rules;

/// A rules text and a demand text.
pub type DayTexts<'a> = (&'a str, &'a str);

/// One block of two or three of four working periods, with rest around it.
pub const BLOCKS: &'static str = "periods 4
work a
idle .
start S
rule S 0 = W
rule S 0 = R W
rule S 0 = W R
rule S 0 = R W R
rule W 2 = A len 2 3
rule A 1 = 'a'
rule A 1 = 'a' A
rule R 0 = '.'
rule R 0 = '.' R
";

/// The demand of that day, as it is written.
pub const BLOCK_NEEDS: &'static str = "heads 0 2\nneed a 10 3 1 2 2 1\n";

/// Returns the day of two texts.
pub fn day(alloc: Global, texts: &DayTexts<'_>) -> Result<Instance, Fail>
    ensures { IfOk result IsSoundInstance }
{
    let (rules, demand) = texts;
    let grammar = read_rules(alloc, rules.as_bytes())?;
    Ok(read_demand(alloc, grammar, demand.as_bytes())?)
}
