//! Staff lines.

ghost use Rattle.std.specs.Prelude.{◌≡◌, ◌≤◌, length, IfOk, OnOk, ◌++◌};
ghost use Rattle.std.specs.List.{position_or_len};
ghost use Rattle.std.specs.Str.{bytes_eq};
ghost use Rattle.plan_demand.specs.Demands.{group_of, groups_by, heads_by, name_place};

use model_rosters::{Grammar, Group, List, Memory};
use plan_meaning::Staff;
use std::alloc::Global;
use text_demand_lines::Heads;

/// Returns how many employees work, where a staff line without a name says it.
pub(crate) fn heads(staff: &[Staff]) -> Option<Heads>
    ensures { result ≡ heads_by staff.now }
{
    match staff {
        [
            Staff {
                name: None,
                least,
                greatest,
                ..
            },
            ..
        ] => Some(Heads {
            least: *least as u32,
            most: *greatest as u32,
        }),
        _ => None,
    }
}

// Returns the place of a name, or their number.
fn name_place(grammar: &Grammar, name: &[u8]) -> usize
    ensures place { result ≡ name_place grammar.now name.now }
    ensures bound { result ≤ length grammar.now.names }
{
    let names = grammar.names.as_slice();
    for (place, other) in names.iter().enumerate() {
        if name == other.as_slice() {
            return place;
        }
    }
    names.len()
}

// Adds the group of a staff line with a name.
fn group(grammar: &Grammar, groups: &mut List<Group>, staff: &Staff) -> Result<(), Memory>
    requires { length grammar.now.names ≤ 32 }
    ensures { OnOk result (groups.new ≡ groups.old ++ group_of grammar.now staff.now staff.now.name) }
{
    let Some(name) = &staff.name else {
        return Ok(());
    };
    groups.push(Group {
        name: name_place(grammar, name.as_slice()) as u8,
        heads_min: staff.least as u32,
        heads_max: staff.greatest as u32,
    })
}

/// Returns the groups of the staff lines with names, in their order.
///
/// # Errors
///
/// `Memory` where memory runs out.
pub(crate) fn groups(
    alloc: Global,
    grammar: &Grammar,
    staff: &[Staff],
) -> Result<List<Group>, Memory>
    requires { length grammar.now.names ≤ 32 }
    ensures { IfOk result (λ gs. gs ≡ groups_by grammar.now staff.now) }
{
    let mut groups = List::new(alloc);
    for line in staff {
        group(grammar, &mut groups, line)?;
    }
    Ok(groups)
}
