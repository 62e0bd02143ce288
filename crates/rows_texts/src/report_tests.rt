//! A report that is read, and the faults of three that are refused; the summary of a made day.

ghost use Rattle.std.specs.Prelude.{◌≤◌, length};
ghost use Rattle.model_rosters.specs.SoundInstance.{IsSoundInstance};

use crate::days::{BLOCK_NEEDS, BLOCKS, day};
use model_rosters::{Done, Instance};
use std::alloc::Global;
use std::test::Fail;
use text_reports::{Cover, Report, ReportFault, Summary, read_report, write_summary};

/// The lines of a report of a day of one block, but for the last.
const FRONT: &str = "report 1\n\
    result optimal\n\
    cost 10\n\
    bound 10\n\
    processed 1\n\
    failed 0\n\
    shifts 2\n\
    shift .aaa 5\n\
    shift aaa. 5\n\
    paid 10\n\
    penalty 0\n\
    need a 1 2 2 1\n\
    have a 1 2 2 1\n\
    short a 0 0 0 0\n";

const SECOND: Cover = Cover {
    need: 2,
    have: 2,
    short: 0,
    over: 0,
};

// Whether the report is that of two shifts at 5.
fn is_of_two_shifts(report: &Report) -> bool {
    report.done == Done::Equal
        && report.cost == Some(10)
        && report.shifts.len() == 2
        && report.cover.as_slice().get(1) == Some(&SECOND)
}

// Whether a text is accepted, as a report of two shifts, or refused for this fault.
fn is_read(alloc: Global, day: &Instance, text: &[u8], fault: Option<ReportFault>) -> bool
    requires sound { IsSoundInstance day.now }
    requires short { length text.now ≤ 1000 }
{
    match read_report(alloc, day, text) {
        Ok(report) => fault.is_none() && is_of_two_shifts(&report),
        Err(found) => fault == Some(found),
    }
}

/// A text in two parts, and for which fault it is refused.
type Row<'a> = (&'a str, &'a str, Option<ReportFault>);

static ROWS: [Row<'static>; 4] = [
    (FRONT, "over a 0 0 0 0\n", None),
    (FRONT, "", Some(ReportFault::CutShort)),
    (
        FRONT,
        "over a 0 0 0 0\nend\n",
        Some(ReportFault::Trailing { line: 16 }),
    ),
    ("report 2\n", FRONT, Some(ReportFault::BadLine { line: 1 })),
];

fn is_right(alloc: Global, day: &Instance, row: &Row<'_>) -> Result<bool, Fail>
    requires { IsSoundInstance day.now }
{
    let (front, end, fault) = row;
    let joined = [*front, *end].concat(alloc)?;
    let text = joined.as_bytes();
    Ok(text.len() <= 1000 && is_read(alloc, day, text, *fault))
}

fn show_all(alloc: Global, day: &Instance, rows: &[Row<'_>]) -> Result<(), Fail>
    requires { IsSoundInstance day.now }
{
    for row in rows {
        if !is_right(alloc, day, row)? {
            return Err(Fail::from(row.1));
        }
    }
    Ok(())
}

#[test]
fn reports_are_read(rt: HostRuntime) -> Result<(), Fail> {
    let day = day(rt.alloc(), &(BLOCKS, BLOCK_NEEDS))?;
    show_all(rt.alloc(), &day, &ROWS)
}

const SUMMARY: Summary = Summary {
    number: 7,
    periods: 26,
    arcs: 65126,
    done: Done::NoRoster,
    cost: None,
    bound: None,
    processed: 1,
    failed: 0,
};

const SUMMARY_LINES: &str = "make 7\n\
    periods 26\n\
    arcs 65126\n\
    result none\n\
    cost none\n\
    bound none\n\
    processed 1\n\
    failed 0\n";

#[test]
fn summary_without_a_roster(rt: HostRuntime) -> Result<(), Fail> {
    let text = write_summary(rt.alloc(), &SUMMARY)?;
    assert!(rt; text.as_slice() == SUMMARY_LINES.as_bytes());
    Ok(())
}
