//! The lines of employees.

ghost use Rattle.std.specs.Prelude.{◌≡◌, ◌≤◌, ◌+◌, ◌++◌, [], ◌∷◌, IfOk, length};
ghost use Rattle.page_rosters.specs.HeadLines.{all_heads, group_line, heads_of};

use crate::called::{copied, group_called};
use model_rosters::{Group, Instance, List, Memory, Shift};
use model_shift_figures::group_count;
use page_labels::Labels;
use page_tables::HeadLine;
use std::alloc::Global;

// Returns the line of all employees.
fn all_heads(alloc: Global, instance: &Instance, shifts: &[Shift]) -> Result<HeadLine, Memory>
    ensures { IfOk result (λ l. l ≡ all_heads instance.now shifts.now) }
{
    Ok(HeadLine {
        group: copied(alloc, b"all")?,
        count: shifts.len() as u64,
        least: instance.heads_min,
        most: instance.heads_max,
    })
}

// Returns the line of a group.
fn group_line(
    alloc: Global,
    instance: &Instance,
    labels: &Labels,
    shifts: &[Shift],
    number: u8,
    group: &Group,
) -> Result<HeadLine, Memory>
    ensures { IfOk result (λ l. l ≡ group_line instance.now labels.now shifts.now number group.now) }
{
    Ok(HeadLine {
        group: group_called(alloc, instance, labels, number)?,
        count: group_count(number, shifts) as u64,
        least: group.heads_min,
        most: group.heads_max,
    })
}

/// Returns a line for all employees, and behind it one for each group.
///
/// # Errors
///
/// `Memory` where memory runs out; nothing is kept then.
pub fn heads_of(
    alloc: Global,
    instance: &Instance,
    labels: &Labels,
    shifts: &[Shift],
) -> Result<List<HeadLine>, Memory>
    requires { length instance.now.groups ≤ 8 }
    ensures { IfOk result (λ lines. lines ≡ heads_of instance.now labels.now shifts.now) }
{
    let mut lines = List::new(alloc);
    lines.push(all_heads(alloc, instance, shifts)?)?;
    let mut number: u8 = 1;
    for group in instance.groups.as_slice() {
        lines.push(group_line(alloc, instance, labels, shifts, number, group)?)?;
        number += 1;
    }
    Ok(lines)
}
