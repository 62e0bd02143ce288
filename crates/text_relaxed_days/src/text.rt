//! The texts of relaxed rules and days.

ghost use Rattle.std.specs.Prelude.{IfOk};
ghost use Rattle.model_rosters.specs.Sound.{IsPlain, IsSound};
ghost use Rattle.model_rosters.specs.SoundInstance.{IsSoundInstance};
ghost use Rattle.text_relaxed_days.specs.Said.{AreFreeRulesSaid, IsRelaxedSaid};

use crate::day::relaxed_demand;
use crate::kind::Kind;
use crate::laws::relaxed_days_tell;
use crate::rules::free_rules;
use model_rosters::{Grammar, Instance, List, Memory};
use std::alloc::Global;
use text_demand::write_demand;
use text_rules::write_rules;

/// Writes the rules text of a grammar at no cost.
///
/// # Errors
///
/// `Memory` where memory runs out; there is no text then.
pub fn write_free_rules(alloc: Global, grammar: Grammar) -> Result<List<u8>, Memory>
    requires sound { IsSound grammar }
    requires plain { IsPlain grammar }
    ensures { IfOk result (AreFreeRulesSaid grammar) }
{
    text_rules::written_again();
    let free = free_rules(alloc, grammar)?;
    write_rules(alloc, &free)
}

/// Writes the demand text of a day whose floors, or ceilings, are counted in place of being strict.
///
/// # Errors
///
/// `Memory` where memory runs out; there is no text then.
pub fn write_relaxed_demand(
    alloc: Global,
    kind: Kind,
    instance: Instance,
) -> Result<List<u8>, Memory>
    requires { IsSoundInstance instance }
    ensures { IfOk result (IsRelaxedSaid kind instance) }
{
    text_demand::written_again();
    relaxed_days_tell();
    let day = relaxed_demand(alloc, kind, instance)?;
    write_demand(alloc, &day)
}
