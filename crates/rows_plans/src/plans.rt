//! Plans, as values.

ghost use Rattle.std.specs.Prelude.{◌↔◌, IsTrue};
ghost use Rattle.plan_words.specs.Days.{IsSoundDay};

use model_rosters::{List, Memory};
use plan_meaning::{Duty, Extra, Lengths, Money, Need, Plan, PlanCode, PlanDay, Staff, Time};
use plan_words::day_length;
use std::alloc::Global;

/// A code, whether it is one of work, the least and the greatest minutes of a block, what an hour costs, and
/// its words.
type CodeRow = (u8, bool, u32, u32, u32, &'static str);

/// A duty name, the least and the greatest number of employees, and what they are called.
type StaffRow = (&'static str, u8, u8, &'static str);

/// A code, and what an hour of a missing and of a needless employee costs.
type NeedRow = (u8, u32, u32);

/// The lines of a plan that labels and forecasts go by; amounts are cents.
#[derive(Drop)]
struct Rows<'a> {
    title: &'a str,
    day: PlanDay,
    codes: &'a [CodeRow],
    staff: &'a [StaffRow],
    needs: &'a [NeedRow],
}

// Makes a list of bytes.
fn bytes(alloc: Global, text: &str) -> Result<List<u8>, Memory> {
    let mut list = List::new(alloc);
    list.extend_from_slice(text.as_bytes())?;
    Ok(list)
}

// Makes the code of a row.
fn code(alloc: Global, row: &CodeRow) -> Result<PlanCode, Memory> {
    let (code, work, least, greatest, hour, words) = *row;
    let words = bytes(alloc, words)?;
    Ok(PlanCode {
        code,
        work,
        lasts: Lengths { least, greatest },
        hour,
        words,
    })
}

// Makes the codes of rows.
fn codes(alloc: Global, rows: &[CodeRow]) -> Result<List<PlanCode>, Memory> {
    let mut list = List::new(alloc);
    for row in rows {
        list.push(code(alloc, row)?)?;
    }
    Ok(list)
}

// Makes a duty name, or none of an empty one.
fn name(alloc: Global, name: &str) -> Result<Option<List<u8>>, Memory> {
    if name.is_empty() {
        return Ok(None);
    }
    Ok(Some(bytes(alloc, name)?))
}

// Makes the staff line of a row.
fn staff_line(alloc: Global, row: &StaffRow) -> Result<Staff, Memory> {
    let name = name(alloc, row.0)?;
    let words = bytes(alloc, row.3)?;
    Ok(Staff {
        name,
        least: row.1,
        greatest: row.2,
        words,
    })
}

// Makes the staff lines of rows.
fn staff(alloc: Global, rows: &[StaffRow]) -> Result<List<Staff>, Memory> {
    let mut list = List::new(alloc);
    for row in rows {
        list.push(staff_line(alloc, row)?)?;
    }
    Ok(list)
}

// Makes the need lines of rows.
fn needs(alloc: Global, rows: &[NeedRow]) -> Result<List<Need>, Memory> {
    let mut list = List::new(alloc);
    for (code, missing, needless) in rows {
        list.push(Need {
            code: *code,
            missing: *missing,
            needless: *needless,
        })?;
    }
    Ok(list)
}

// Makes what amounts are counted in: euros with cents.
fn euros(alloc: Global) -> Result<Option<Money>, Memory> {
    let name = bytes(alloc, "EUR")?;
    Ok(Some(Money { name, decimals: 2 }))
}

// Makes a plan of rows, without duty lines.
fn plan(alloc: Global, rows: &Rows<'_>) -> Result<Plan, Memory> {
    let extras: List<Extra> = List::new(alloc);
    let duties: List<Duty> = List::new(alloc);
    let title = bytes(alloc, rows.title)?;
    let money = euros(alloc)?;
    let codes = codes(alloc, rows.codes)?;
    let staff = staff(alloc, rows.staff)?;
    let needs = needs(alloc, rows.needs)?;
    Ok(Plan {
        title,
        day: rows.day,
        money,
        codes,
        extras,
        change: Some(100),
        stretch: Lengths {
            least: 120,
            greatest: 300,
        },
        starts: None,
        duties,
        staff,
        needs,
    })
}

/// Returns whether a day has 1 to 96 whole periods of 1 to 720 minutes.
pub fn is_sound_day(day: &PlanDay) -> bool
    ensures { IsTrue result ↔ IsSoundDay day.now }
{
    1 <= day.minutes
        && day.minutes <= 720
        && day.end.minute <= 1440
        && day_length(day) % day.minutes == 0
        && day_length(day) / day.minutes <= 96
}

// Makes a day of periods of so many minutes.
fn day(begin: u32, end: u32, next_day: bool, minutes: u32) -> PlanDay {
    PlanDay {
        begin,
        end: Time {
            minute: end,
            next_day,
        },
        minutes,
    }
}

/// Makes a desk from 9:00 to 12:00 by hours, with three codes of work, of which one has no need line.
pub fn desk(alloc: Global) -> Result<Plan, Memory> {
    plan(
        alloc,
        &Rows {
            title: "Desk",
            day: day(540, 720, false, 60),
            codes: &[
                (b't', true, 60, 180, 1500, "till"),
                (b'c', true, 60, 180, 1500, "desk \"A\" calls"),
                (b'm', false, 60, 60, 0, "meal"),
                (b'x', true, 60, 180, 1500, "late calls"),
            ],
            staff: &[("", 2, 4, "")],
            needs: &[(b't', 6000, 500), (b'c', 4000, 500)],
        },
    )
}

/// Makes a shop from 9:00 to 21:00 by hours, whose staff line names no duty.
pub fn shop(alloc: Global) -> Result<Plan, Memory> {
    plan(
        alloc,
        &Rows {
            title: "Shop, Saturday",
            day: day(540, 1260, false, 60),
            codes: &[
                (b't', true, 120, 300, 1500, "till"),
                (b'c', true, 120, 300, 1500, "counter"),
                (b's', true, 120, 300, 1500, "shelves"),
                (b'm', false, 60, 60, 0, "meal"),
            ],
            staff: &[("", 2, 4, "")],
            needs: &[(b't', 6000, 500), (b'c', 4000, 500), (b's', 2500, 500)],
        },
    )
}

/// Makes a ward from 6:00 to 7:00 of the next day by half-hours, with nurses and aides.
pub fn ward(alloc: Global) -> Result<Plan, Memory> {
    plan(
        alloc,
        &Rows {
            title: "Ward, Sunday",
            day: day(360, 420, true, 30),
            codes: &[
                (b'n', true, 120, 300, 3200, "care"),
                (b'd', true, 30, 60, 3200, "files"),
                (b'a', true, 60, 300, 1900, "help"),
                (b'h', false, 30, 30, 3200, "handover"),
                (b'i', false, 30, 30, 1900, "aides' handover"),
                (b'm', false, 30, 30, 0, "meal"),
            ],
            staff: &[("Nurse", 5, 9, "nurses"), ("Aide", 1, 4, "aides")],
            needs: &[(b'n', 9000, 500), (b'd', 2000, 500), (b'a', 3600, 500)],
        },
    )
}
