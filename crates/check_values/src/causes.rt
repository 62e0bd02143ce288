//! All causes, by the prices that were found.

ghost use Rattle.std.specs.Prelude.{◌≡◌, ◌≤◌, ◌++◌, All, IfOk, OnOk, count_by, length, nat_eq};
ghost use Rattle.model_rosters.specs.Limits.{IsDayCell};
ghost use Rattle.model_rosters.specs.SoundInstance.{IsSoundInstance};
ghost use Rattle.model_rosters.specs.Teams.{teams};
ghost use Rattle.check_certificates.specs.RosterCauses.{duties};
ghost use Rattle.check_parts.specs.roster_part.TeamViews.{team_view};
ghost use Rattle.check_values.specs.Causes.{
  only_if,
  gathered,
  shift_cause,
  shift_causes,
  range_causes,
  team_causes,
  limit_causes,
  cell_causes,
  causes_of,
};

use crate::cause::Cause;
use check_parts::{Team, team_at, team_count};
use model_rosters::{Cell, Grammar, Instance, List, Memory, Shift, covered};
use std::alloc::Global;

// Appends a cause, where the test holds.
fn add_if(out: &mut List<Cause>, test: bool, cause: Cause) -> Result<(), Memory>
    ensures { OnOk result (out.new ≡ out.old ++ only_if test cause) }
{
    if test {
        return out.push(cause);
    }
    Ok(())
}

// Appends that a shift has no price, where it has none.
fn add_shift_cause(out: &mut List<Cause>, number: u32, price: &Option<u64>) -> Result<(), Memory>
    ensures { OnOk result (out.new ≡ out.old ++ shift_cause number price.now) }
{
    match price {
        Some(_) => Ok(()),
        None => out.push(Cause::NoShift { shift: number }),
    }
}

// Appends the shifts without a price.
fn add_shift_causes(out: &mut List<Cause>, found: &[Option<u64>]) -> Result<(), Memory>
    requires { length found.now ≤ 64 }
    ensures { OnOk result (out.new ≡ out.old ++ shift_causes 1 found.now) }
{
    for (place, price) in found.iter().enumerate() {
        add_shift_cause(out, place as u32 + 1, price)?;
    }
    Ok(())
}

// Returns how many of the shifts are of the team of a number.
fn members(shifts: &[Shift], number: u8) -> usize
    ensures { result ≡ count_by (λ shift. nat_eq shift.group number) shifts.now }
{
    shifts.iter().filter(|shift| shift.group == number).count()
}

// Appends the causes of a team, where so many of its employees work.
fn add_range_causes(out: &mut List<Cause>, team: &Team, count: u32) -> Result<(), Memory>
    ensures { OnOk result (out.new ≡ out.old ++ range_causes team.now.number count team.now.least team.now.most) }
{
    let group = team.number;
    let least = team.least;
    let most = team.most;
    add_if(
        out,
        count < least,
        Cause::TooFew {
            group,
            count,
            least,
        },
    )?;
    add_if(out, most < count, Cause::TooMany { group, count, most })
}

// Appends the causes of a team.
fn add_team_causes(out: &mut List<Cause>, team: &Team, shifts: &[Shift]) -> Result<(), Memory>
    requires { length shifts.now ≤ 64 }
    ensures { OnOk result (out.new ≡ out.old ++ team_causes (duties shifts.now) (team_view team.now)) }
{
    let count = members(shifts, team.number) as u32;
    add_range_causes(out, team, count)
}

// Appends the causes of all teams.
fn add_heads_causes(
    out: &mut List<Cause>,
    instance: &Instance,
    shifts: &[Shift],
) -> Result<(), Memory>
    requires sound { IsSoundInstance instance.now }
    requires few { length shifts.now ≤ 64 }
    ensures { OnOk result (out.new ≡ out.old
        ++ gathered (team_causes (duties shifts.now)) (teams instance.now)) }
{
    for place in 0..team_count(instance) {
        let team = team_at(instance, place);
        add_team_causes(out, &team, shifts)?;
    }
    Ok(())
}

// Appends the causes of a cell, where so many employees work at it. The code is given by its byte.
fn add_limit_causes(out: &mut List<Cause>, code: u8, cell: &Cell, have: u32) -> Result<(), Memory>
    ensures { OnOk result (out.new ≡ out.old
        ++ limit_causes code cell.now.period have cell.now.floor cell.now.ceiling) }
{
    let period = cell.period;
    let floor = cell.floor;
    let ceiling = cell.ceiling;
    let below = Cause::BelowFloor {
        code,
        period,
        have,
        floor,
    };
    let above = Cause::AboveCeiling {
        code,
        period,
        have,
        ceiling,
    };
    add_if(out, have < floor, below)?;
    add_if(out, ceiling < have, above)
}

// Appends the causes of a cell.
fn add_cell_causes(
    out: &mut List<Cause>,
    grammar: &Grammar,
    shifts: &[Shift],
    cell: &Cell,
) -> Result<(), Memory>
    requires few { length shifts.now ≤ 64 }
    requires cell { IsDayCell grammar.now cell.now }
    ensures { OnOk result (out.new ≡ out.old ++ cell_causes grammar.now (duties shifts.now) cell.now) }
{
    let code = grammar.codes.as_slice()[cell.code as usize].byte;
    let have = covered(grammar, shifts, cell);
    add_limit_causes(out, code, cell, have)
}

// Appends the causes of all cells.
fn add_coverage_causes(
    out: &mut List<Cause>,
    grammar: &Grammar,
    cells: &[Cell],
    shifts: &[Shift],
) -> Result<(), Memory>
    requires cells { All (IsDayCell grammar.now) cells.now }
    requires few { length shifts.now ≤ 64 }
    ensures { OnOk result (out.new ≡ out.old
        ++ gathered (cell_causes grammar.now (duties shifts.now)) cells.now) }
{
    for cell in cells {
        add_cell_causes(out, grammar, shifts, cell)?;
    }
    Ok(())
}

/// Returns all causes for which a roster is not allowed, where these are the prices of its words: those of
/// the shifts, of the teams and of the cells, each in their order.
///
/// # Errors
///
/// `Memory` where memory runs out.
pub fn causes_of(
    alloc: Global,
    instance: &Instance,
    shifts: &[Shift],
    found: &[Option<u64>],
) -> Result<List<Cause>, Memory>
    requires sound { IsSoundInstance instance.now }
    requires few { length shifts.now ≤ 64 }
    requires found { length found.now ≤ 64 }
    ensures { IfOk result (λ causes. causes ≡ causes_of instance.now (duties shifts.now) found.now) }
{
    let mut causes = List::new(alloc);
    add_shift_causes(&mut causes, found)?;
    add_heads_causes(&mut causes, instance, shifts)?;
    let cells = instance.cells.as_slice();
    add_coverage_causes(&mut causes, &instance.grammar, cells, shifts)?;
    Ok(causes)
}
