//! Labels texts with each kind of line, and refused ones; times and durations.
//!
//! Labels texts with each kind of line, also in UTF-8; refused ones, with bytes that are no UTF-8; names that
//! do not stand at a roster's shifts; times and durations.

ghost use Rattle.model_rosters.specs.SoundInstance.{IsSoundInstance};

use crate::days::{ShiftParts, day, roster};
use model_rosters::{Instance, List};
use page_labels::{
    Clock, Labels, code_words, decimals_of, fault_line, group_words, put_duration, put_time,
    read_labels, refused_shift, shift_name,
};
use std::alloc::Global;
use std::test::Fail;

// Whether the labels of a text are these.
fn says_all(alloc: Global, instance: &Instance) -> bool
    requires { IsSoundInstance instance.now }
{
    let text =
        b"code  p\tlunch  break # not now\ngroup S day nurses\nclock 23:45 15\npaid p yes\nmoney EUR\n";
    let Ok(labels) = read_labels(alloc, instance, text) else {
        return false;
    };
    let Some(clock) = labels.clock else {
        return false;
    };
    clock.begin == 1425
        && clock.minutes == 15
        && code_words(labels.codes.as_slice(), 2) == b"lunch break".as_slice()
        && code_words(labels.codes.as_slice(), 0).is_empty()
        && group_words(labels.groups.as_slice(), 1) == b"day nurses".as_slice()
        && labels.title.is_empty()
        && labels.money.as_slice() == b"EUR".as_slice()
}

// Whether the further labels of a text are these.
fn says_more(alloc: Global, instance: &Instance) -> bool
    requires { IsSoundInstance instance.now }
{
    let text =
        "\u{feff}off .\ntitle Früh\u{a0}日\ndecimals 2\nshift 3 S apa. Jörg Maß # or\npaid p yes\n";
    let Ok(labels) = read_labels(alloc, instance, text.as_bytes()) else {
        return false;
    };
    labels.off == Some(b'.')
        && labels.title.as_slice() == "Früh\u{a0}日".as_bytes()
        && decimals_of(&labels) == 2
        && shift_name(labels.shifts.as_slice(), 3) == "Jörg Maß".as_bytes()
        && shift_name(labels.shifts.as_slice(), 1).is_empty()
}

#[test]
fn further_lines(rt: HostRuntime) -> Result<(), Fail> {
    let instance = day(rt.alloc(), "group S 0 4\n")?;
    let says = says_more(rt.alloc(), &instance);
    drop(instance);
    assert!(rt; says);
    Ok(())
}

/// Texts of a day with a group, and the line of the fault of each.
const FAULTS: [(&str, &str); 12] = [
    ("off a\n", "labels: line 1: bad name\n"),
    ("paid p yes\noff p\n", "labels: line 2: bad name\n"),
    ("off p\npaid p yes\n", "labels: line 2: bad name\n"),
    ("off p\npaid p no\noff .\n", "labels: line 3: said twice\n"),
    ("off ä\n", "labels: line 1: unknown code\n"),
    ("decimals 5\n", "labels: line 1: out of range\n"),
    ("decimals 0\ndecimals 0\n", "labels: line 2: said twice\n"),
    ("shift 1 S apa.\n", "labels: line 1: unknown line\n"),
    ("shift 0 S apa. A\n", "labels: line 1: out of range\n"),
    ("shift 1 T apa. A\n", "labels: line 1: no such name\n"),
    (
        "shift 1 S apa. A\nshift 1 S .aa. B\n",
        "labels: line 2: said twice\n",
    ),
    ("title a\u{202e}b\n", "labels: line 1: bad byte\n"),
];

/// Titles that are no UTF-8, or have a character that none may have: an overlong slash, an overlong letter in
/// three bytes, a surrogate, a number above the last character, a byte that goes on alone, a character cut
/// off, U+0085, and U+007F.
const BYTES: [&[u8]; 8] = [
    b"title a\xc0\xaf\n",
    b"title \xe0\x81\xa1\n",
    b"title \xed\xa0\x80\n",
    b"title \xf4\x90\x80\x80\n",
    b"title \x80\n",
    b"title \xe2\x82\n",
    b"title \xc2\x85\n",
    b"title \x7f\n",
];

// Whether a text is refused with this line.
fn is_refused(alloc: Global, instance: &Instance, text: &[u8], said: &str) -> bool
    requires { IsSoundInstance instance.now }
{
    match read_labels(alloc, instance, text) {
        Ok(_) => false,
        Err(fault) => match fault_line(alloc, &fault) {
            Ok(line) => line.as_slice() == said.as_bytes(),
            Err(_) => false,
        },
    }
}

// Whether all texts are refused with their lines.
fn are_refused(alloc: Global, instance: &Instance) -> bool
    requires { IsSoundInstance instance.now }
{
    for (text, said) in &FAULTS {
        if !is_refused(alloc, instance, text.as_bytes(), said) {
            return false;
        }
    }
    for text in &BYTES {
        if !is_refused(alloc, instance, text, "labels: line 1: bad byte\n") {
            return false;
        }
    }
    true
}

#[test]
fn faults(rt: HostRuntime) -> Result<(), Fail> {
    let instance = day(rt.alloc(), "group S 0 4\n")?;
    let refused = are_refused(rt.alloc(), &instance);
    drop(instance);
    assert!(rt; refused);
    Ok(())
}

/// The roster of the rows of names.
const SHIFTS: [ShiftParts<'static>; 2] = [(1, "apa."), (1, ".aa.")];

/// Texts that name shifts, and the line of the fault of the first that is not the roster's.
const NAMES: [(&str, &str); 4] = [
    ("shift 2 S .aa. A\nshift 1 S apa. B\n", ""),
    (
        "shift 1 S apa. A\nshift 2 S apa. B\n",
        "labels: line 2: another shift\n",
    ),
    ("\nshift 3 S apa. A\n", "labels: line 2: no such shift\n"),
    (
        "shift 70 S apa. A\nshift 2 S apa. B\n",
        "labels: line 1: no such shift\n",
    ),
];

// Whether the names of labels are refused with this line, or stand where it is empty.
fn are_names(alloc: Global, labels: &Labels, said: &str) -> Result<bool, Fail> {
    let shifts = roster(alloc, &SHIFTS)?;
    match refused_shift(labels.shifts.as_slice(), shifts.as_slice()) {
        None => Ok(said.is_empty()),
        Some(fault) => {
            let line = fault_line(alloc, &fault)?;
            Ok(line.as_slice() == said.as_bytes())
        }
    }
}

// Whether the names of all texts are refused as they should be.
fn all_names(alloc: Global, instance: &Instance) -> Result<bool, Fail>
    requires { IsSoundInstance instance.now }
{
    for (text, said) in &NAMES {
        let Ok(labels) = read_labels(alloc, instance, text.as_bytes()) else {
            return Ok(false);
        };
        if !are_names(alloc, &labels, said)? {
            return Ok(false);
        }
    }
    Ok(true)
}

#[test]
fn names(rt: HostRuntime) -> Result<(), Fail> {
    let instance = day(rt.alloc(), "group S 0 4\n")?;
    let holds = all_names(rt.alloc(), &instance);
    drop(instance);
    assert!(rt; holds?);
    Ok(())
}

#[test]
fn all_lines(rt: HostRuntime) -> Result<(), Fail> {
    let instance = day(rt.alloc(), "group S 0 4\n")?;
    let says = says_all(rt.alloc(), &instance);
    drop(instance);
    assert!(rt; says);
    Ok(())
}

// Whether the time behind so many periods is this.
fn is_time(alloc: Global, clock: Clock, passed: u8, text: &str) -> bool {
    let mut out = List::new(alloc);
    put_time(&mut out, clock, passed).is_ok() && out.as_slice() == text.as_bytes()
}

/// Periods of a quarter of an hour from 23:30 on, and the time behind each.
const TIMES: [(u8, &str); 3] = [(0, "23:30"), (2, "0:00 +1"), (96, "23:30 +1")];

#[test]
fn times(rt: HostRuntime) {
    let clock = Clock {
        begin: 1410,
        minutes: 15,
    };
    for (passed, text) in &TIMES {
        assert!(rt; is_time(rt.alloc(), clock, *passed, text));
    }
}

// Whether so many periods are this long.
fn is_long(alloc: Global, clock: Clock, periods: u8, text: &str) -> bool {
    let mut out = List::new(alloc);
    put_duration(&mut out, clock, periods).is_ok() && out.as_slice() == text.as_bytes()
}

#[test]
fn durations(rt: HostRuntime) {
    let clock = Clock {
        begin: 0,
        minutes: 15,
    };
    assert!(rt; is_long(rt.alloc(), clock, 30, "7:30"));
    assert!(rt; is_long(rt.alloc(), clock, 0, "0:00"));
}
