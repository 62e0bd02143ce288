//! A sound instance, written.

ghost use Rattle.std.specs.Prelude.{◌≡◌, ◌≤◌, ◌<◌, ◌++◌, [], ◌∷◌, List as Items, All, codes as text, length, map, IfOk, OnOk};
ghost use Rattle.std.specs.Fmt.{decimal};
ghost use Rattle.text_lines.specs.Names.{name_of};
ghost use Rattle.text_lines.specs.Written.{written, tail};
ghost use Rattle.model_rosters.specs.Demands.{Demand, IsDemand, all_cells, AreCells, IsOneDemand};
ghost use Rattle.model_rosters.specs.Folds.{Each};
ghost use Rattle.model_rosters.specs.Sound.{IsSound};
ghost use Rattle.model_rosters.specs.SoundInstance.{IsGroup, IsSoundInstance};
ghost use Rattle.text_demand.specs.Written.{
  code_byte,
  heads_line,
  group_line,
  team_lines,
  need_line,
  bound_lines,
  code_lines,
  demand_lines,
  demand_text,
  HasName,
  AreDemandsOf,
};

use crate::number_of::{NumberOf, are_all, numbers};
use model_rosters::{Cell, CodeDef, Grammar, Group, Instance, List, Memory};
use std::alloc::Global;
use text_lines::{field, put, word};

// Appends the heads line.
fn heads_line(out: &mut List<u8>, least: u32, most: u32) -> Result<(), Memory>
    ensures { OnOk result (out.new ≡ out.old ++ written (heads_line least most ∷ [])) }
{
    put(out, b"heads")?;
    field(out, least as u64)?;
    field(out, most as u64)?;
    out.push(b'\n')
}

// Appends a name.
fn name(out: &mut List<u8>, names: &[List<u8>], number: u8) -> Result<(), Memory>
    requires { number < length names.now }
    ensures { OnOk result (out.new ≡ out.old ++ tail (name_of names.now number ∷ [])) }
{
    word(out, names[number as usize].as_slice())
}

// Appends the line of a group.
fn group_line(out: &mut List<u8>, names: &[List<u8>], group: &Group) -> Result<(), Memory>
    requires { HasName names.now group.now }
    ensures { OnOk result (out.new ≡ out.old ++ written (group_line names.now group.now ∷ [])) }
{
    put(out, b"group")?;
    name(out, names, group.name)?;
    field(out, group.heads_min as u64)?;
    field(out, group.heads_max as u64)?;
    out.push(b'\n')
}

// Appends a line for each group.
fn group_lines(out: &mut List<u8>, names: &[List<u8>], groups: &[Group]) -> Result<(), Memory>
    requires { All (HasName names.now) groups.now }
    ensures { OnOk result (out.new ≡ out.old ++ written (map (group_line names.now) groups.now)) }
{
    for group in groups {
        group_line(out, names, group)?;
    }
    Ok(())
}

// Writes how many employees work.
fn team_lines(out: &mut List<u8>, instance: &Instance) -> Result<(), Memory>
    requires { All (HasName instance.now.grammar.names) instance.now.groups }
    ensures { OnOk result (out.new ≡ out.old ++ written (team_lines instance.now instance.now.groups)) }
{
    let groups = instance.groups.as_slice();
    if groups.is_empty() {
        heads_line(out, instance.heads_min, instance.heads_max)
    } else {
        group_lines(out, instance.grammar.names.as_slice(), groups)
    }
}

// Appends the need line of a code.
fn need_line(
    out: &mut List<u8>,
    code: u8,
    under: u32,
    over: u32,
    cells: &[Cell],
) -> Result<(), Memory>
    ensures { OnOk result (out.new ≡ out.old ++ written (need_line code under over cells.now ∷ [])) }
{
    put(out, b"need")?;
    word(out, &[code])?;
    field(out, under as u64)?;
    field(out, over as u64)?;
    numbers(out, NumberOf::Need, cells)?;
    out.push(b'\n')
}

// Writes the line of a bound, where it is not this number in every cell.
fn bound_line(
    out: &mut List<u8>,
    first: &[u8],
    code: u8,
    which: NumberOf,
    free: u32,
    cells: &[Cell],
) -> Result<(), Memory>
    ensures { OnOk result (out.new ≡ out.old ++ written (bound_lines first.now code which free cells.now)) }
{
    if are_all(which, free, cells) {
        return Ok(());
    }
    put(out, first)?;
    word(out, &[code])?;
    numbers(out, which, cells)?;
    out.push(b'\n')
}

// Writes the lines of the cells of one demand.
fn code_lines(out: &mut List<u8>, grammar: &Grammar, cells: &[Cell]) -> Result<(), Memory>
    requires sound { IsSound grammar.now }
    requires one { IsOneDemand grammar.now cells.now }
    ensures { OnOk result (out.new ≡ out.old ++ written (code_lines grammar.now.codes cells.now)) }
{
    let first = cells[0];
    let code = grammar.codes.as_slice()[first.code as usize].byte;
    need_line(out, code, first.under, first.over, cells)?;
    bound_line(out, b"least", code, NumberOf::Floor, 0, cells)?;
    bound_line(out, b"most", code, NumberOf::Ceiling, 64, cells)
}

// Writes the lines of the cells of all demands.
fn demand_lines(out: &mut List<u8>, grammar: &Grammar, cells: &[Cell]) -> Result<(), Memory>
    requires sound { IsSound grammar.now }
    requires cells { AreCells grammar.now cells.now }
    ensures { OnOk result ((ds : Items Demand) → Each (IsDemand grammar.now) ds → cells.now ≡ all_cells ds
        → out.new ≡ out.old ++ written (demand_lines grammar.now.codes ds)) }
{
    let mut rest = cells;
    while !rest.is_empty() {
        let (first, others) = rest.split_at(grammar.periods as usize);
        code_lines(out, grammar, first)?;
        rest = others;
    }
    Ok(())
}

/// Writes the text of a sound instance: the heads line or the group lines, and for each demanded code its
/// need line, its `least` line where some floor is not 0, and its `most` line where some ceiling is not 64.
///
/// # Errors
///
/// `Memory` where memory runs out; there is no text then.
pub fn write_demand(alloc: Global, instance: &Instance) -> Result<List<u8>, Memory>
    requires { IsSoundInstance instance.now }
    ensures { IfOk result (λ text. (ds : Items Demand) → AreDemandsOf instance.now ds
        → text ≡ demand_text instance.now ds) }
{
    let mut out = List::new(alloc);
    team_lines(&mut out, instance)?;
    demand_lines(&mut out, &instance.grammar, instance.cells.as_slice())?;
    Ok(out)
}
