//! Staff lines.

ghost use Rattle.std.specs.Prelude.{◌≡◌, ◌≤◌, ◌<◌, length};
ghost use Rattle.plan_fields.specs.Steps.{Reads};
ghost use Rattle.plan_lines.specs.StaffLines.{
  all_staff,
  begins_number,
  employees,
  has_duty,
  has_staff,
  has_unnamed,
  is_called,
  is_named,
  named_staff,
  named_words,
  new_staff,
  staff_line,
  staff_name,
  staff_words,
  with_staff,
};

use crate::day::{miscounted, second};
use model_rosters::List;
use plan_faults::{Kind, LineFault, NameFault, StaffFault, StandFault};
use plan_fields::{Draft, count, name_of, numbers, plan_name};
use plan_meaning::{Duty, Staff};
use std::alloc::Global;
use text_lines::Words;

/// The name of the employees of a duty has at most so many bytes.
const MOST_BYTES: usize = 60;

/// There are at most so many staff lines.
const MOST_LINES: usize = 8;

/// At most so many employees work.
const MOST_EMPLOYEES: u32 = 64;

// Whether a staff line has a name.
fn is_named(staff: &Staff) -> bool
    ensures { result ≡ is_named staff.now }
{
    staff.name.is_some()
}

/// Whether a staff line without a name stands above.
pub(crate) fn has_unnamed(staff: &[Staff]) -> bool
    ensures { result ≡ has_unnamed staff.now }
{
    staff.iter().any(|line| !is_named(line))
}

// Whether the name of a staff line is this one.
#[tactic(auto, unfolding(crate::specs::StaffLines::is_called))]
fn is_called(staff: &Staff, name: &[u8]) -> bool
    ensures { result ≡ is_called name.now staff.now }
{
    match &staff.name {
        Some(own) => own.as_slice() == name,
        None => false,
    }
}

/// Whether a staff line of the name stands above.
pub(crate) fn has_staff(staff: &[Staff], name: &[u8]) -> bool
    ensures { result ≡ has_staff name.now staff.now }
{
    staff.iter().any(|line| is_called(line, name))
}

// Whether a duty line of the name stands above.
fn has_duty(duties: &[Duty], name: &[u8]) -> bool
    ensures { result ≡ has_duty name.now duties.now }
{
    duties.iter().any(|duty| duty.name.as_slice() == name)
}

// Returns how many employees work at most by some staff lines.
fn employees(staff: &[Staff]) -> u32
    requires { length staff.now ≤ 8 }
    ensures { result ≡ employees staff.now }
{
    let mut sum: u32 = 0;
    for line in staff {
        sum += line.greatest as u32;
    }
    sum
}

// Adds a staff line, where at most 64 employees work with it.
#[tactic(auto, unfolding(crate::specs::StaffLines::with_staff))]
fn with_staff(staff: &mut List<Staff>, line: Staff) -> Result<(), LineFault>
    requires { length staff.old < 8 }
    ensures { Reads (λ _. (staff.new)) result (with_staff staff.old line) }
{
    staff.push(line)?;
    let employees = employees(staff.as_slice());
    if MOST_EMPLOYEES < employees {
        return Err(LineFault::Staff {
            fault: StaffFault::Many { employees },
        });
    }
    Ok(())
}

// Reads a staff line without a name, behind its first word.
#[tactic(auto, unfolding(crate::specs::StaffLines::all_staff))]
fn all_staff(alloc: Global, staff: &mut List<Staff>, words: &mut Words<'_>) -> Result<(), LineFault>
    requires { length staff.old < 8 }
    ensures { Reads (λ _. (staff.new)) result (all_staff staff.old words.old) }
{
    let found = count(words);
    let Some(least) = words.next() else {
        return Err(miscounted(found, 2, Some(2)));
    };
    let Some(greatest) = words.next() else {
        return Err(miscounted(found, 2, Some(2)));
    };
    if let Some(_) = words.next() {
        return Err(miscounted(found, 2, Some(2)));
    }
    if 0 < staff.len() {
        return Err(second(Kind::Staff));
    }
    let (least, greatest) = numbers(alloc, least, greatest)?;
    with_staff(
        staff,
        Staff {
            name: None,
            least,
            greatest,
            words: List::new(alloc),
        },
    )
}

// Reads the name of a duty above that no staff line above has.
#[tactic(auto, unfolding(crate::specs::StaffLines::staff_name))]
fn staff_name(alloc: Global, draft: &Draft, word: &[u8]) -> Result<List<u8>, LineFault>
    ensures { Reads (λ n. n) result (staff_name draft.now word.now) }
{
    let name = plan_name(alloc, word)?;
    if !has_duty(draft.duties.as_slice(), name.as_slice()) {
        return Err(LineFault::Name {
            name,
            fault: NameFault::NoDuty,
        });
    }
    if has_staff(draft.staff.as_slice(), name.as_slice()) {
        return Err(LineFault::Stand {
            fault: StandFault::SecondStaff { name },
        });
    }
    Ok(name)
}

// Reads what employees are called, where it is said.
#[tactic(auto, unfolding(crate::specs::StaffLines::staff_words))]
fn staff_words(alloc: Global, words: &mut Words<'_>) -> Result<List<u8>, LineFault>
    ensures { Reads (λ n. n) result (staff_words words.old) }
{
    if count(words) == 0 {
        return Ok(List::new(alloc));
    }
    name_of(alloc, MOST_BYTES, words)
}

// Reads a name, two numbers, and what employees are called.
#[tactic(auto, unfolding(crate::specs::StaffLines::named_words))]
fn named_words(
    alloc: Global,
    draft: &Draft,
    name: &[u8],
    least: &[u8],
    greatest: &[u8],
    words: &mut Words<'_>,
) -> Result<Staff, LineFault>
    ensures { Reads (λ x. x) result (named_words draft.now name.now least.now greatest.now words.old) }
{
    let name = staff_name(alloc, draft, name)?;
    let (least, greatest) = numbers(alloc, least, greatest)?;
    let words = staff_words(alloc, words)?;
    Ok(Staff {
        name: Some(name),
        least,
        greatest,
        words,
    })
}

// Reads a staff line with a name, behind its first word.
#[tactic(auto, unfolding(crate::specs::StaffLines::named_staff))]
fn named_staff(alloc: Global, draft: &mut Draft, words: &mut Words<'_>) -> Result<(), LineFault>
    requires { length draft.old.staff < 8 }
    ensures { Reads (λ _. (draft.new)) result (named_staff draft.old words.old) }
{
    let found = count(words);
    let Some(name) = words.next() else {
        return Err(miscounted(found, 3, None));
    };
    let Some(least) = words.next() else {
        return Err(miscounted(found, 3, None));
    };
    let Some(greatest) = words.next() else {
        return Err(miscounted(found, 3, None));
    };
    let line = named_words(alloc, draft, name, least, greatest, words)?;
    with_staff(&mut draft.staff, line)
}

// Whether a word begins with a digit, as no name does.
fn begins_number(word: &[u8]) -> bool
    ensures { result ≡ begins_number word.now }
{
    0 < word.len() && b'0' <= word[0] && word[0] <= b'9'
}

// Reads a staff line with a name or without, behind its first word.
#[tactic(auto, unfolding(crate::specs::StaffLines::new_staff))]
fn new_staff(alloc: Global, draft: &mut Draft, words: &mut Words<'_>) -> Result<(), LineFault>
    requires { length draft.old.staff < 8 }
    ensures { Reads (λ _. (draft.new)) result (new_staff draft.old words.old) }
{
    match words.again().next() {
        Some(word) if begins_number(word) => all_staff(alloc, &mut draft.staff, words),
        Some(_) => named_staff(alloc, draft, words),
        None => Err(miscounted(0, 2, None)),
    }
}

/// Reads a staff line, behind its first word.
///
/// # Errors
///
/// That one without a name, or eight, stand above; then the first fault of the words, and that they are too
/// many employees.
#[tactic(auto, unfolding(crate::specs::StaffLines::staff_line))]
pub(crate) fn staff_line(
    alloc: Global,
    draft: &mut Draft,
    words: &mut Words<'_>,
) -> Result<(), LineFault>
    ensures { Reads (λ _. (draft.new)) result (staff_line draft.old words.old) }
{
    if has_unnamed(draft.staff.as_slice()) {
        return Err(second(Kind::Staff));
    }
    if MOST_LINES <= draft.staff.len() {
        return Err(LineFault::Stand {
            fault: StandFault::ManyStaff,
        });
    }
    new_staff(alloc, draft, words)
}
