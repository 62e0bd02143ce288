//! A rules text, read from its first line to its end.

ghost use Rattle.std.specs.Prelude.{◌≡◌, ◌≢◌, ◌<◌, ◌^◌, Ok, Err, length, IfOk, MatchResult};
ghost use Rattle.model_rosters.specs.Sound.{IsSound, IsPlain};
ghost use Rattle.text_lines.specs.Lines.{text_items};
ghost use Rattle.text_rules.specs.Lines.{item_at};
ghost use Rattle.text_rules.specs.RulesOf.{no_draft, parsed_of, IsReading};
ghost use Rattle.text_rules.specs.Steps.{Reads, each};

use crate::codes::Codes;
use crate::draft::{Draft, Parsed};
use crate::fault::RulesFault;
use crate::finish::{finish, without_cycle};
use crate::line::line;
use crate::names::Names;
use crate::rules::Rules;
use model_rosters::{Grammar, List};
use std::alloc::Global;
use text_lines::{BadByte, Line, Lines};

// Returns the draft before any line.
fn no_draft(alloc: Global) -> Draft
    ensures { result ≡ no_draft }
{
    Draft {
        periods: None,
        codes: Codes::new(alloc),
        start: None,
        rules: Rules {
            names: Names::new(alloc),
            rules: List::new(alloc),
        },
    }
}

// Reads a line, or refuses it for a bad byte.
fn item(alloc: Global, draft: &mut Draft, item: Result<Line<'_>, BadByte>) -> Result<(), RulesFault>
    ensures value { Reads (λ _. (draft.new)) result (item_at draft.old item.entry) }
{
    match item {
        Ok(words) => line(alloc, draft, &words),
        Err(BadByte { line }) => Err(RulesFault::BadByte { line }),
    }
}

// Reads all lines of a text.
fn lines(alloc: Global, draft: &mut Draft, text: &[u8]) -> Result<(), RulesFault>
    requires { length text.now < 2 ^ 32 }
    ensures { Reads (λ _. (draft.new)) result (each item_at draft.old (text_items text.now)) }
{
    let mut lines = Lines::new(text);
    while let Some(next) = lines.next() {
        item(alloc, draft, next)?;
    }
    Ok(())
}

// Reads a text as far as its names' last rule: all but the cycles.
#[tactic(auto, unfolding(crate::specs::RulesOf::parsed_of))]
fn parsed(alloc: Global, text: &[u8]) -> Result<Parsed, RulesFault>
    ensures { Reads (λ p. p) result (parsed_of text.now) }
{
    if 1_048_576 < text.len() {
        return Err(RulesFault::TooLong);
    }
    let mut draft = no_draft(alloc);
    lines(alloc, &mut draft, text)?;
    finish(alloc, draft)
}

/// Reads a rules text: its grammar, which is sound and has at most 32 names and 64 rules, or its
/// first fault.
///
/// A text that is too long is refused before all else. Then the lines are read in order, and the first that
/// cannot stand gives the fault; in a line a bad byte comes first, then its form, then its words from left to
/// right. The faults of the whole text come last: no `periods` line, no `start` line, a name with no rule, a
/// cycle of one-symbol rules.
///
/// # Errors
///
/// The first fault of the text, in this order; `Memory` may come at any time, and then nothing is said of the
/// text.
pub fn read_rules(alloc: Global, text: &[u8]) -> Result<Grammar, RulesFault>
    ensures value { MatchResult result
        (λ g. IsReading text.now (Ok g))
        (λ e. e ≢ RulesFault.Memory → IsReading text.now (Err e)) }
    ensures sound { IfOk result IsSound }
    ensures plain { IfOk result IsPlain }
{
    without_cycle(parsed(alloc, text)?)
}
