//! Which old shift each new one has, and what differs.

ghost use Rattle.std.specs.Prelude.{◌≤◌, length};

use crate::days::{ShiftParts, roster};
use model_rosters::{Memory, Shift};
use model_shift_figures::{changed_periods, changed_shifts, changes_of};
use std::alloc::Global;
use std::test::Fail;

/// Two rosters of a day of four periods, the old shift of each new one, and how many periods and shifts
/// differ.
type Case<'a> = (
    &'a [ShiftParts<'a>],
    &'a [ShiftParts<'a>],
    &'a [Option<u8>],
    u32,
    u32,
);

static CASES: [Case<'static>; 4] = [
    // A shift that begins one period later differs in its first period and in the one behind its last.
    (
        &[(0, "aa.."), (0, "..aa")],
        &[(0, ".aa."), (0, "..aa")],
        &[Some(0), Some(1)],
        2,
        1,
    ),
    // A further shift is left over, and the order of shifts is no change.
    (
        &[(0, "aa..")],
        &[(0, "..aa"), (0, "aa..")],
        &[None, Some(0)],
        4,
        1,
    ),
    // The words would fit the other way round, and the second group has one shift too many.
    (
        &[(1, "aa.."), (2, "..aa")],
        &[(2, "aa.."), (1, "..aa"), (2, "..aa")],
        &[None, Some(0), Some(1)],
        8,
        2,
    ),
    // Both matchings differ in two periods: one in two shifts, the other in one.
    (
        &[(0, "aaa."), (0, "aaaa")],
        &[(0, "aaaa"), (0, ".aaa")],
        &[Some(1), Some(0)],
        2,
        1,
    ),
];

// Whether between two rosters this matching and so many periods and shifts are told.
fn are_changes(
    alloc: Global,
    old: &[Shift],
    new: &[Shift],
    matching: &[Option<u8>],
    periods: u32,
    shifts: u32,
) -> Result<bool, Memory>
    requires few_old { length old.now ≤ 64 }
    requires few_new { length new.now ≤ 64 }
{
    let found = changes_of(alloc, 4, old, new)?;
    let told = found.as_slice();
    Ok(
        told == matching
            && changed_periods(4, old, new, told) == periods
            && changed_shifts(4, old, new, told) == shifts,
    )
}

// The same of a case.
fn is_told(alloc: Global, case: &Case<'_>) -> Result<bool, Fail> {
    let (old, new, matching, periods, shifts) = case;
    let before = roster(alloc, old)?;
    let after = roster(alloc, new)?;
    if before.len() > 64 || after.len() > 64 {
        return Ok(false);
    }
    let told = are_changes(
        alloc,
        before.as_slice(),
        after.as_slice(),
        matching,
        *periods,
        *shifts,
    )?;
    Ok(told)
}

#[test]
fn changes(rt: HostRuntime) -> Result<(), Fail> {
    for case in &CASES {
        assert!(rt; is_told(rt.alloc(), case)?, "{} shifts", case.4);
    }
    Ok(())
}

// Whether each of these shifts is matched with one of the same.
fn are_matched(alloc: Global, shifts: &[Shift]) -> Result<bool, Memory> {
    if shifts.len() > 64 {
        return Ok(false);
    }
    let matching = changes_of(alloc, 4, shifts, shifts)?;
    Ok(matching.as_slice().iter().all(|place| place.is_some()))
}

// There are far too many matchings to try each.
#[test]
fn many_shifts_of_one_word(rt: HostRuntime) -> Result<(), Fail> {
    let shifts = roster(rt.alloc(), &[(0, "aa.."); 20])?;
    assert!(rt; are_matched(rt.alloc(), shifts.as_slice())?);
    Ok(())
}
