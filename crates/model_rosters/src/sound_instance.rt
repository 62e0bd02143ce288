//! Whether an instance is sound.

ghost use Rattle.std.specs.Prelude.{◌↔◌, IsTrue};
ghost use Rattle.model_rosters.specs.Sound.{IsSound};
ghost use Rattle.model_rosters.specs.SoundInstance.{HasGroups, IsSoundInstance};

use crate::demands::are_cells;
use crate::groups::is_grouped;
use crate::instance::Instance;
use crate::sound::{is_plain, is_sound};

/// Returns whether the instance is sound: a sound grammar, 0 to 64 and 1 to 64 employees, groups
/// with which the grammar was extended or none and the grammar of a rules text, and for each
/// demanded work code one cell a period. Takes no memory.
pub fn is_sound_instance(instance: &Instance) -> bool
    ensures { IsTrue result ↔ IsSoundInstance instance.now }
{
    is_sound(&instance.grammar)
        && instance.heads_min <= instance.heads_max
        && 1 <= instance.heads_max
        && instance.heads_max <= 64
        && has_groups(instance)
        && are_cells(&instance.grammar, instance.cells.as_slice())
}

/// Says whether the instance has no groups and a plain grammar, or sound groups.
fn has_groups(instance: &Instance) -> bool
    requires { IsSound instance.now.grammar }
    ensures { IsTrue result ↔ HasGroups instance.now instance.now.groups }
{
    if instance.groups.is_empty() {
        is_plain(&instance.grammar)
    } else {
        is_grouped(instance)
    }
}
