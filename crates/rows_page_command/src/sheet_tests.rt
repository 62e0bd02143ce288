//! Tables of coverage, tables with names and decimals, and calendars of one shift.
//!
//! Tables of coverage, tables with names and decimals, names that stand at another shift, calendars of one
//! shift.

use crate::transcripts::{answer, have_answers, shelf_of};
use std::alloc::Global;
use std::test::Fail;

/// Tables of coverage: under labels; with surplus, a lack, a floor, a ceiling, decimals and words that are no
/// ASCII; of two codes in the order of their need lines; and of no roster.
const COVERAGES: &str = "
~ coverage g1 two best called
0
code,name,period,begin,end,need,have,short,over,floor,ceiling,penalty,amount
a,\"'=desk, phone\",1,7:00,7:30,1,1,0,0,0,,0,0
a,\"'=desk, phone\",2,7:30,8:00,2,2,0,0,0,,0,0
a,\"'=desk, phone\",3,8:00,8:30,2,2,0,0,0,,0,0
a,\"'=desk, phone\",4,8:30,9:00,1,1,0,0,0,,0,0
~ coverage g1 tight report fine
0
\u{feff}code,name,period,begin,end,need,have,short,over,floor,ceiling,penalty,amount
a,Gespr\u{e4}ch,1,7:00,7:30,0,1,0,1,0,,3,0.03
a,Gespr\u{e4}ch,2,7:30,8:00,2,2,0,0,1,2,0,0.00
a,Gespr\u{e4}ch,3,8:00,8:30,2,2,0,0,0,,0,0.00
a,Gespr\u{e4}ch,4,8:30,9:00,2,1,1,0,0,1,10,0.10
~ coverage ab both pairs
0
code,name,period,begin,end,need,have,short,over,floor,ceiling,penalty,amount
b,,1,,,1,0,1,0,0,1,5,5
a,,1,,,1,2,0,1,1,,2,2
~ coverage pair some none
0
code,name,period,begin,end,need,have,short,over,floor,ceiling,penalty,amount
~ coverage g1 two high
1
no 8 bound too high: said 11 shown 10
";

#[test]
fn coverages_have_a_record_for_each_need(rt: HostRuntime) -> Result<(), Fail> {
    have_answers(rt.alloc(), COVERAGES)
}

/// Tables with names and decimals.
const NAMED: &str = "
~ table g1 tight report fine
0
\u{feff}shift,group,code,name,first,last,begin,end,price,employee,amount
1,,.,,1,1,7:00,7:30,5,Zo\u{eb},0.05
1,,a,Gespr\u{e4}ch,2,4,7:30,9:00,,Zo\u{eb},
2,,a,Gespr\u{e4}ch,1,3,7:00,8:30,5,\"'=Ann, B.\",0.05
2,,.,,4,4,8:30,9:00,,\"'=Ann, B.\",
~ table halves groups staff staffed
0
shift,group,code,name,first,last,begin,end,price,employee,amount
1,F,a,,1,2,,,3,Ann,3
2,H,a,,1,1,,,1,Bo,1
2,H,.,,2,2,,,,Bo,
";

#[test]
fn tables_tell_who_works_a_shift(rt: HostRuntime) -> Result<(), Fail> {
    have_answers(rt.alloc(), NAMED)
}

/// Names that stand at another shift, or at none, for each command; they are compared last, and not without a
/// roster.
const MISNAMED: &str = "
~ page g1 two best swapped
5
labels: line 2: another shift
~ table g1 two report swapped
5
labels: line 2: another shift
~ coverage g1 two best third
5
labels: line 2: no such shift
~ calendar g1 two best swapped 2026-02-28
5
labels: line 2: another shift
~ table halves groups staff regrouped
5
labels: line 1: another shift
~ page g1 two best third_twice
5
labels: line 4: said twice
~ table g1 two high swapped
1
no 8 bound too high: said 11 shown 10
~ page g1 two best swapped cut
5
old: shift 2: wrong length
~ table pair some none stray
0
shift,group,code,name,first,last,begin,end,price,employee,amount
";

#[test]
fn names_stand_at_their_shifts_alone(rt: HostRuntime) -> Result<(), Fail> {
    have_answers(rt.alloc(), MISNAMED)
}

/// Calendars of one shift, whose event is that of the whole calendar, and numbers of shifts that there are
/// not.
const SINGLE: &str = "
~ calendar g1 two best called 2026-02-28 2
0
BEGIN:VCALENDAR\r
VERSION:2.0\r
PRODID:-//Lubishon//roster//EN\r
BEGIN:VEVENT\r
UID:20260228-1-218789bf8dcd9bf28124e96dd7a66125@roster\r
DTSTAMP:20260228T000000Z\r
DTSTART:20260228T070000\r
DTEND:20260228T083000\r
SUMMARY:Shift 2\r
DESCRIPTION:7:00-8:30 =desk\\, phone\r
END:VEVENT\r
END:VCALENDAR\r
~ calendar g1 two best called 2026-02-28 3
5
calendar: no such shift
~ calendar g1 two best third 2026-02-28 3
5
labels: line 2: no such shift
~ calendar pair some none stray 2026-02-28 1
5
calendar: no such shift
~ calendar g1 two best called 2026-02-28 0
2
words: page RULES DEMAND PROOF [LABELS [OLD]] | table RULES DEMAND PROOF [LABELS] \
| coverage RULES DEMAND PROOF [LABELS] | calendar RULES DEMAND PROOF LABELS DATE [SHIFT]
~ table g1 two best called 2026-02-28 1
2
words: page RULES DEMAND PROOF [LABELS [OLD]] | table RULES DEMAND PROOF [LABELS] \
| coverage RULES DEMAND PROOF [LABELS] | calendar RULES DEMAND PROOF LABELS DATE [SHIFT]
";

#[test]
fn a_calendar_may_be_of_one_shift(rt: HostRuntime) -> Result<(), Fail> {
    have_answers(rt.alloc(), SINGLE)
}

/// What is noted of a shift with eight hours without work between its work.
const GAP: &str = "shift 1 has 8 hours or more without work between its work, \
and one event over them: the labels have no line off C, which says the code of time off\n";

/// What is noted of a shift that begins with a paid code that is no work.
const PAID: &str = "shift 1 begins or ends with a paid code that is no work, \
which its event leaves out: the labels have no line off C, which says the code of time off\n";

/// Whether something is said, and these notes are made.
fn notes(alloc: Global, words: &str, notes: &str) -> Result<bool, Fail> {
    let mut shelf = shelf_of(alloc, &[])?;
    let status = answer(alloc, &mut shelf, words)?;
    Ok(status == 0 && shelf.notes() == notes.as_bytes())
}

#[test]
fn events_are_noted_where_no_code_is_time_off(rt: HostRuntime) -> Result<(), Fail> {
    assert!(rt; notes(rt.alloc(), "table split one night long_day", GAP)?);
    assert!(rt;
        notes(
            rt.alloc(),
            "calendar split one early long_day 2026-02-28",
            PAID
        )?
    );
    assert!(rt; notes(rt.alloc(), "table split one night long_off", "")?);
    assert!(rt; notes(rt.alloc(), "table split one night", "")?);
    Ok(())
}
