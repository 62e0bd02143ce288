//! Heads and group lines.

ghost use Rattle.std.specs.Prelude.{◌≡◌, ◌-◌, ◌≤◌, length};
ghost use Rattle.model_rosters.specs.Sound.{IsPlain};
ghost use Rattle.text_demand_lines.specs.Fields.{range_at};
ghost use Rattle.text_demand_lines.specs.Teams.{has_group, most_heads, heads_at, group_of, group_at};
ghost use Rattle.text_demand_lines.specs.Steps.{Reads};

use crate::code::name;
use crate::draft::{Draft, Heads};
use crate::fault::DemandFault;
use crate::field::number;
use model_rosters::{Grammar, Group, List, most_heads};
use text_lines::Words;

// Reads how many employees may work, at most so many.
#[tactic(auto, unfolding(crate::specs::Fields::range_at))]
fn range(line: u32, limit: u32, low: &[u8], high: &[u8]) -> Result<Heads, DemandFault>
    ensures { result ≡ range_at line limit low.now high.now }
{
    let least = number(line, 0, 64, low)?;
    let most = number(line, least.max(1), limit, high)?;
    Ok(Heads { least, most })
}

/// Reads a heads line, behind its first word: how many employees may work, where no group was named. Takes no
/// memory.
///
/// # Errors
///
/// The first fault in the order of `heads_at`, with the line; nothing is said of the draft then.
#[tactic(auto, unfolding(crate::specs::Teams::heads_at))]
pub fn read_heads(draft: &mut Draft, line: u32, words: &mut Words<'_>) -> Result<(), DemandFault>
    ensures value { Reads (λ _. (draft.new)) result (heads_at line draft.old words.old) }
{
    let Some(low) = words.next() else {
        return Err(DemandFault::UnknownLine { line });
    };
    let Some(high) = words.next() else {
        return Err(DemandFault::UnknownLine { line });
    };
    if let Some(_) = words.next() {
        return Err(DemandFault::UnknownLine { line });
    }
    if !draft.groups.is_empty() {
        return Err(DemandFault::Mixed { line });
    }
    let range = range(line, 64, low, high)?;
    if draft.heads.is_some() {
        return Err(DemandFault::Twice { line });
    }
    draft.heads = Some(range);
    Ok(())
}

// Says whether a group has the name of this number.
fn has_group(groups: &[Group], name: u8) -> bool
    ensures { result ≡ has_group groups.now name }
{
    groups.iter().any(|group| group.name == name)
}

// How many employees there may be beside those of the groups.
fn free_heads(groups: &[Group]) -> u32
    requires { length groups.now ≤ 8 }
    ensures { result ≡ 64 - most_heads groups.now }
{
    64u64.saturating_sub(most_heads(groups)) as u32
}

// Reads a group line, which has the words that must stand there.
#[tactic(auto, unfolding(crate::specs::Teams::group_of))]
fn group_of(
    grammar: &Grammar,
    groups: &mut List<Group>,
    line: u32,
    word: &[u8],
    low: &[u8],
    high: &[u8],
) -> Result<(), DemandFault>
    requires { IsPlain grammar.now }
    ensures value { Reads (λ _. (groups.new)) result
        (group_of line grammar.now groups.old word.now low.now high.now) }
{
    if 8 <= groups.len() {
        return Err(DemandFault::TooManyGroups { line });
    }
    let name = name(line, grammar.names.as_slice(), word)?;
    if has_group(groups.as_slice(), name) {
        return Err(DemandFault::Twice { line });
    }
    let free = free_heads(groups.as_slice());
    let range = range(line, free, low, high)?;
    let group = Group {
        name,
        heads_min: range.least,
        heads_max: range.most,
    };
    groups.push(group)?;
    Ok(())
}

/// Reads a group line, behind its first word: a name of the rules that no group has, and how many employees
/// of it may work, where no heads line was said.
///
/// # Errors
///
/// The first fault in the order of `group_at`, with the line; `Memory` may come at any time. Nothing is said
/// of the draft then.
#[tactic(auto, unfolding(crate::specs::Teams::group_at))]
pub fn read_group(
    grammar: &Grammar,
    draft: &mut Draft,
    line: u32,
    words: &mut Words<'_>,
) -> Result<(), DemandFault>
    requires { IsPlain grammar.now }
    ensures value { Reads (λ _. (draft.new)) result (group_at line grammar.now draft.old words.old) }
{
    let Some(word) = words.next() else {
        return Err(DemandFault::UnknownLine { line });
    };
    let Some(low) = words.next() else {
        return Err(DemandFault::UnknownLine { line });
    };
    let Some(high) = words.next() else {
        return Err(DemandFault::UnknownLine { line });
    };
    if let Some(_) = words.next() {
        return Err(DemandFault::UnknownLine { line });
    }
    if draft.heads.is_some() {
        return Err(DemandFault::Mixed { line });
    }
    group_of(grammar, &mut draft.groups, line, word, low, high)
}
