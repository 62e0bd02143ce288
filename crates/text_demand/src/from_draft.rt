//! The instance of all lines.

ghost use Rattle.std.specs.Prelude.{◌≡◌, ◌≤◌, All, length, IfOk};
ghost use Rattle.model_rosters.specs.Sound.{IsSound, IsPlain};
ghost use Rattle.model_rosters.specs.SoundInstance.{IsSoundInstance};
ghost use Rattle.text_demand_lines.specs.declared.draft.Need.{Need};
ghost use Rattle.text_demand_lines.specs.Teams.{most_heads};
ghost use Rattle.text_demand_lines.specs.Steps.{Reads};
ghost use Rattle.text_demand.specs.Drafts.{IsDraft};
ghost use Rattle.text_demand.specs.InstanceOf.{least_heads, heads_of, cells_of, instance_with, finish};

use crate::cells::cells;
use crate::extend::day_grammar;
use model_rosters::{Cell, Grammar, Group, Instance, List, Memory, least_heads, most_heads};
use std::alloc::Global;
use text_demand_lines::{DemandFault, Draft, Heads};

// How many employees may work, with groups and without.
fn heads_of(heads: Option<Heads>, groups: &[Group]) -> Result<Heads, DemandFault>
    requires few { length groups.now ≤ 8 }
    requires least { least_heads groups.now ≤ 64 }
    requires most { most_heads groups.now ≤ 64 }
    ensures { result ≡ heads_of heads groups.now }
{
    if !groups.is_empty() {
        return Ok(Heads {
            least: least_heads(groups) as u32,
            most: most_heads(groups) as u32,
        });
    }
    match heads {
        Some(heads) => Ok(heads),
        None => Err(DemandFault::NoHeads),
    }
}

// Makes the instance of its parts.
fn with_day_grammar(
    alloc: Global,
    grammar: Grammar,
    groups: List<Group>,
    heads: Heads,
    cells: List<Cell>,
) -> Result<Instance, Memory>
    requires { IsPlain grammar }
    ensures { IfOk result (λ i. i ≡ instance_with grammar groups heads cells) }
{
    let grammar = day_grammar(alloc, grammar, groups.as_slice())?;
    Ok(Instance {
        grammar,
        heads_min: heads.least,
        heads_max: heads.most,
        groups,
        cells,
    })
}

// Returns the cells of all need lines.
fn cells_of(alloc: Global, draft: &Draft) -> Result<List<Cell>, Memory>
    requires { All (λ (n : Need). length n.counts ≤ 96) draft.now.needs }
    ensures { IfOk result (λ cells. cells ≡ cells_of draft.now) }
{
    cells(
        alloc,
        draft.needs.as_slice(),
        draft.least.as_slice(),
        draft.most.as_slice(),
    )
}

/// Makes the instance of all lines.
///
/// # Errors
///
/// `NoHeads` where neither a heads nor a group line was said. `Memory` may come at any time.
#[tactic(auto, unfolding(crate::specs::InstanceOf::finish))]
pub fn finish(alloc: Global, grammar: Grammar, draft: Draft) -> Result<Instance, DemandFault>
    requires sound { IsSound grammar }
    requires plain { IsPlain grammar }
    requires draft { IsDraft grammar draft }
    ensures value { Reads (λ i. i) result (finish grammar draft) }
    ensures sound { IfOk result IsSoundInstance }
{
    let heads = heads_of(draft.heads, draft.groups.as_slice())?;
    let cells = cells_of(alloc, &draft)?;
    let Draft { groups, .. } = draft;
    let instance = with_day_grammar(alloc, grammar, groups, heads, cells)?;
    Ok(instance)
}
