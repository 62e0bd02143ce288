//! Calendars with folded and escaped lines, equal shifts and time off; dates.
//!
//! A calendar with folded and escaped lines and two equal shifts, one of shifts that stayed under other
//! labels, one of a day without work, one with time off, a name and a fold before a character of two bytes,
//! one of a single shift; dates.

ghost use Rattle.std.specs.Prelude.{◌≤◌, ◌↔◌, All, IsTrue, length};
ghost use Rattle.model_rosters.specs.SoundInstance.{IsSoundInstance};

use crate::days::{ShiftParts, day, roster};
use model_rosters::{Instance, Shift};
use page_csv::{Setting, calendar_of, date_of};
use page_labels::{Clock, Labels, read_labels};
use std::alloc::Global;
use std::test::Fail;

/// A demand text, a labels text, a date, the number of the one shift that is asked for, shifts, and their
/// calendar.
type Row<'a> = (
    &'a str,
    &'a str,
    &'a str,
    Option<u32>,
    &'a [ShiftParts<'a>],
    &'a str,
);

/// A night with labels in which signs stand that a calendar escapes, a line of more than 75 bytes, and two
/// equal shifts; the night under other labels with two shifts that stayed, whose UIDs are as they were; no
/// work; a night with time off, a shift with a name, lines that are folded before a character of two bytes
/// and within words, and a shift that is all time off; the second of two equal shifts alone.
const ROWS: [Row<'static>; 5] = [
    (
        "group S 0 4\n",
        "title Ward 7\nclock 22:00 90\ncode a =desk, phone\ngroup S night; day\n",
        "2024-02-28",
        None,
        &[(1, "apa."), (1, "...."), (1, ".aa."), (1, "apa.")],
        "\
BEGIN:VCALENDAR\r\n\
VERSION:2.0\r\n\
PRODID:-//Lubishon//roster//EN\r\n\
BEGIN:VEVENT\r\n\
UID:20240228-1-a3e350d1b7db085fb35a7a9d931c4884@roster\r\n\
DTSTAMP:20240228T000000Z\r\n\
DTSTART:20240228T220000\r\n\
DTEND:20240229T023000\r\n\
SUMMARY:night\\; day: shift 1\r\n\
DESCRIPTION:22:00-23:30 =desk\\, phone\\n23:30-1:00 +1 p\\n1:00 +1-2:30 +1 =de\r\n \
sk\\, phone\r\n\
END:VEVENT\r\n\
BEGIN:VEVENT\r\n\
UID:20240228-1-ed2cad7c99693167bda04c4f8c01ec92@roster\r\n\
DTSTAMP:20240228T000000Z\r\n\
DTSTART:20240228T233000\r\n\
DTEND:20240229T023000\r\n\
SUMMARY:night\\; day: shift 3\r\n\
DESCRIPTION:23:30-2:30 +1 =desk\\, phone\r\n\
END:VEVENT\r\n\
BEGIN:VEVENT\r\n\
UID:20240228-2-a3e350d1b7db085fb35a7a9d931c4884@roster\r\n\
DTSTAMP:20240228T000000Z\r\n\
DTSTART:20240228T220000\r\n\
DTEND:20240229T023000\r\n\
SUMMARY:night\\; day: shift 4\r\n\
DESCRIPTION:22:00-23:30 =desk\\, phone\\n23:30-1:00 +1 p\\n1:00 +1-2:30 +1 =de\r\n \
sk\\, phone\r\n\
END:VEVENT\r\n\
END:VCALENDAR\r\n",
    ),
    (
        "group S 0 4\n",
        "clock 22:00 90\ntitle Ward 7\n",
        "2024-02-28",
        None,
        &[(1, ".aa."), (1, "apa.")],
        "\
BEGIN:VCALENDAR\r\n\
VERSION:2.0\r\n\
PRODID:-//Lubishon//roster//EN\r\n\
BEGIN:VEVENT\r\n\
UID:20240228-1-ed2cad7c99693167bda04c4f8c01ec92@roster\r\n\
DTSTAMP:20240228T000000Z\r\n\
DTSTART:20240228T233000\r\n\
DTEND:20240229T023000\r\n\
SUMMARY:S: shift 1\r\n\
DESCRIPTION:23:30-2:30 +1 a\r\n\
END:VEVENT\r\n\
BEGIN:VEVENT\r\n\
UID:20240228-1-a3e350d1b7db085fb35a7a9d931c4884@roster\r\n\
DTSTAMP:20240228T000000Z\r\n\
DTSTART:20240228T220000\r\n\
DTEND:20240229T023000\r\n\
SUMMARY:S: shift 2\r\n\
DESCRIPTION:22:00-23:30 a\\n23:30-1:00 +1 p\\n1:00 +1-2:30 +1 a\r\n\
END:VEVENT\r\n\
END:VCALENDAR\r\n",
    ),
    (
        "heads 0 4\n",
        "clock 7:00 60\n",
        "2025-06-01",
        None,
        &[(0, "....")],
        "\
BEGIN:VCALENDAR\r\n\
VERSION:2.0\r\n\
PRODID:-//Lubishon//roster//EN\r\n\
BEGIN:VEVENT\r\n\
UID:20250601-0-9d908ecfb6b256def8b49a7c504e6c88@roster\r\n\
DTSTAMP:20250601T000000Z\r\n\
DTSTART;VALUE=DATE:20250601\r\n\
SUMMARY:no shifts\r\n\
END:VEVENT\r\n\
END:VCALENDAR\r\n",
    ),
    (
        "group S 0 4\n",
        "title Nacht\nclock 22:00 90\ncode a yyyyyyyyyyyyyyyyyyyyyyyyyyyyyyyyyyyyyyüber\noff .\nshift 1 S a..a Jörg M.\n",
        "2024-02-28",
        None,
        &[(1, "a..a"), (1, "....")],
        "\
BEGIN:VCALENDAR\r\n\
VERSION:2.0\r\n\
PRODID:-//Lubishon//roster//EN\r\n\
BEGIN:VEVENT\r\n\
UID:20240228-1-1-21444f1762a12d33606dcc964716a27c@roster\r\n\
DTSTAMP:20240228T000000Z\r\n\
DTSTART:20240228T220000\r\n\
DTEND:20240228T233000\r\n\
SUMMARY:Jörg M.\r\n\
DESCRIPTION:S: shift 1\\n22:00-23:30 yyyyyyyyyyyyyyyyyyyyyyyyyyyyyyyyyyyyyy\r\n \
über\r\n\
END:VEVENT\r\n\
BEGIN:VEVENT\r\n\
UID:20240228-1-4-21444f1762a12d33606dcc964716a27c@roster\r\n\
DTSTAMP:20240228T000000Z\r\n\
DTSTART:20240229T023000\r\n\
DTEND:20240229T040000\r\n\
SUMMARY:Jörg M.\r\n\
DESCRIPTION:S: shift 1\\n2:30 +1-4:00 +1 yyyyyyyyyyyyyyyyyyyyyyyyyyyyyyyyyyy\r\n \
yyyüber\r\n\
END:VEVENT\r\n\
END:VCALENDAR\r\n",
    ),
    (
        "group S 0 4\n",
        "title Nacht\nclock 22:00 90\noff .\n",
        "2024-02-28",
        Some(2),
        &[(1, "a..a"), (1, "a..a"), (1, ".p.a")],
        "\
BEGIN:VCALENDAR\r\n\
VERSION:2.0\r\n\
PRODID:-//Lubishon//roster//EN\r\n\
BEGIN:VEVENT\r\n\
UID:20240228-2-1-21444f1762a12d33606dcc964716a27c@roster\r\n\
DTSTAMP:20240228T000000Z\r\n\
DTSTART:20240228T220000\r\n\
DTEND:20240228T233000\r\n\
SUMMARY:S: shift 2\r\n\
DESCRIPTION:22:00-23:30 a\r\n\
END:VEVENT\r\n\
BEGIN:VEVENT\r\n\
UID:20240228-2-4-21444f1762a12d33606dcc964716a27c@roster\r\n\
DTSTAMP:20240228T000000Z\r\n\
DTSTART:20240229T023000\r\n\
DTEND:20240229T040000\r\n\
SUMMARY:S: shift 2\r\n\
DESCRIPTION:2:30 +1-4:00 +1 a\r\n\
END:VEVENT\r\n\
END:VCALENDAR\r\n",
    ),
];

// Whether all words have at most 96 letters.
fn are_short(shifts: &[Shift]) -> bool
    ensures { IsTrue result ↔ All (λ s. length s.word ≤ 96) shifts.now }
{
    shifts.iter().all(|shift| shift.word.len() <= 96)
}

// Returns what all events of a day share.
fn setting(clock: Clock, date: &str) -> Result<Setting, Fail> {
    let Some(date) = date_of(date.as_bytes()) else {
        return Err(Fail::from("date"));
    };
    Ok(Setting { date, clock })
}

// Whether the calendar of shifts under labels is this.
fn is_calendar(
    alloc: Global,
    instance: &Instance,
    labels: &Labels,
    setting: &Setting,
    only: Option<u32>,
    shifts: &[Shift],
    text: &str,
) -> bool
    requires { IsSoundInstance instance.now }
{
    if 64 < shifts.len() {
        return false;
    }
    if !are_short(shifts) {
        return false;
    }
    match calendar_of(alloc, instance, labels, setting, only, shifts) {
        Ok(said) => said.as_slice() == text.as_bytes(),
        Err(_) => false,
    }
}

// Whether the calendar of a row is as it should be, on its day.
fn holds_on(alloc: Global, instance: &Instance, row: &Row<'_>) -> Result<bool, Fail>
    requires { IsSoundInstance instance.now }
{
    let (_, labels, date, only, parts, text) = *row;
    let Ok(labels) = read_labels(alloc, instance, labels.as_bytes()) else {
        return Err(Fail::from("labels"));
    };
    let Some(clock) = labels.clock else {
        return Err(Fail::from("clock"));
    };
    let setting = setting(clock, date)?;
    let shifts = roster(alloc, parts)?;
    Ok(is_calendar(
        alloc,
        instance,
        &labels,
        &setting,
        only,
        shifts.as_slice(),
        text,
    ))
}

// Whether the calendar of a row is as it should be.
fn holds(alloc: Global, row: &Row<'_>) -> Result<bool, Fail> {
    let instance = day(alloc, row.0)?;
    let holds = holds_on(alloc, &instance, row);
    drop(instance);
    holds
}

#[test]
fn calendars(rt: HostRuntime) -> Result<(), Fail> {
    for row in &ROWS {
        assert!(rt; holds(rt.alloc(), row)?, "{}", row.2);
    }
    Ok(())
}

/// Texts, and whether they say a day.
const DATES: [(&str, bool); 5] = [
    ("2024-02-29", true),
    ("1900-02-29", false),
    ("2000-02-29", true),
    ("9999-01-01", false),
    ("2024-2-29", false),
];

#[test]
fn dates(rt: HostRuntime) {
    for (text, says) in &DATES {
        assert!(rt; date_of(text.as_bytes()).is_some() == *says, "{text}");
    }
}
