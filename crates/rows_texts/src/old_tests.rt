//! The shifts of old texts on other days, the certificates with which a search begins, and refused texts.

ghost use Rattle.model_rosters.specs.SoundInstance.{IsSoundInstance};

use crate::days::{BLOCK_NEEDS, BLOCKS, DayTexts, day};
use model_rosters::{Instance, Shift};
use std::alloc::{AllocError, Global};
use std::test::Fail;
use text_old_shifts::{SaidShifts, fitting, read_from, read_shifts};
use text_proof_pieces::fault_line;

/// A day of four periods without groups.
static PLAIN: DayTexts<'static> = (BLOCKS, BLOCK_NEEDS);

/// A day of two periods with the groups `F` and `H`.
static GROUPED: DayTexts<'static> = (
    "periods 2
work a
idle .
start S
rule S 0 = F
rule S 0 = H
rule F 3 = 'a' 'a'
rule H 1 = 'a' '.'
rule H 1 = '.' 'a'
",
    "group F 0 1\ngroup H 1 2\nneed a 10 2 2 1\n",
);

// Adds the group and the word of a shift, and its price where it has one.
fn add_shift(alloc: Global, out: &mut String, shift: &Shift) -> Result<(), AllocError> {
    let word = str::from_utf8(shift.word.as_slice()).unwrap_or("?");
    let group = shift.group;
    out.push_str(format!(in alloc; " {group} {word}")?.as_str())?;
    if shift.price != 0 {
        out.push_str(" priced")?;
    }
    Ok(())
}

// How many lines are passed over, and the shifts that are read.
fn listed(alloc: Global, said: &SaidShifts) -> Result<String, AllocError> {
    let mut out = format!(in alloc; "{} passed", said.passed)?;
    for shift in said.shifts.as_slice() {
        add_shift(alloc, &mut out, shift)?;
    }
    Ok(out)
}

// What is read of a text, or why it is refused.
fn answer(alloc: Global, day: &Instance, text: &[u8]) -> Result<String, AllocError>
    requires { IsSoundInstance day.now }
{
    match read_shifts(alloc, day, text) {
        Ok(said) => listed(alloc, &said),
        Err(fault) => format!(in alloc; "{fault}"),
    }
}

/// A text, and what is read of it.
type Row<'a> = (&'a str, &'a str);

// Whether of each text this is read.
fn are_read(alloc: Global, day: &Instance, rows: &[Row]) -> Result<(), Fail>
    requires { IsSoundInstance day.now }
{
    for (text, want) in rows {
        if answer(alloc, day, text.as_bytes())?.as_str() != *want {
            return Err(Fail::from(*text));
        }
    }
    Ok(())
}

/// Texts on a day without groups: names and numbers are dropped, and what stands behind a node is not read.
const WITHOUT_GROUPS: [Row; 15] = [
    (
        "report 1\ncost 9\nshift aa.. 5\nshift .aaa\nover a 0\n",
        "0 passed 0 aa.. 0 .aaa",
    ),
    (
        "proof 2\ncost 4\nshift Nurse aa. 2\nshift Aide .bb 2\npriced 1\nshift\n",
        "0 passed 0 aa. 0 .bb",
    ),
    (
        "proof 1\nshift aa..\nbare\nshift \u{e4}\n",
        "0 passed 0 aa..",
    ),
    ("proof 1\ncost none\n", "0 passed"),
    (
        "report 1\nshift a 99999999999999999999999999\n",
        "0 passed 0 a",
    ),
    ("report 2\nshift aa.\n", "line 2: unknown line"),
    ("proof 1\nshift\n", "line 2: unknown line"),
    ("proof 1\nshift a b c\n", "line 2: unknown line"),
    ("prof 1\nshift aa..\n", "line 1: bad header"),
    ("proof 3\nshift aa..\n", "line 1: bad header"),
    ("", "the text ends early"),
    ("report 1\ncost none\n", "line 2: no roster"),
    ("proof 1\nshift aa.. two\n", "line 2: bad number"),
    ("proof 1\nshift aa.. -1\n", "line 2: bad number"),
    ("proof 1\nshift \u{e4}\n", "line 2: bad byte"),
];

/// Texts on a day with groups: lines without a name of one are passed over.
const WITH_GROUPS: [Row; 3] = [
    (
        "report 2\nshift F aa 3\nshift K a. 1\nshift H a 1\n",
        "1 passed 1 aa 2 a",
    ),
    ("proof 1\ncost 3\nshift aa 3\nbare\n", "1 passed"),
    ("proof 2\nshift f aa 3\nshift S aa 3\n", "2 passed"),
];

#[test]
fn shifts_are_read(rt: HostRuntime) -> Result<(), Fail> {
    let plain = day(rt.alloc(), &PLAIN)?;
    are_read(rt.alloc(), &plain, &WITHOUT_GROUPS)?;
    let grouped = day(rt.alloc(), &GROUPED)?;
    are_read(rt.alloc(), &grouped, &WITH_GROUPS)
}

// What is read of a line that stands so many times behind a first line of version 2, and of a last one.
fn repeated(
    alloc: Global,
    day: &Instance,
    line: &str,
    count: usize,
    last: &str,
) -> Result<String, Fail>
    requires { IsSoundInstance day.now }
{
    let lines = line.repeat(alloc, count)?;
    let text = ["report 2\n", lines.as_str(), last].concat(alloc)?;
    Ok(answer(alloc, day, text.as_bytes())?)
}

#[test]
fn passed_lines_count_among_64(rt: HostRuntime) -> Result<(), Fail> {
    let day = day(rt.alloc(), &GROUPED)?;
    let most = repeated(rt.alloc(), &day, "shift K a\n", 63, "shift F aa\n")?;
    assert!(rt; most.as_str() == "63 passed 1 aa");
    let more = repeated(rt.alloc(), &day, "shift K a\n", 64, "shift F aa\n")?;
    assert!(rt; more.as_str() == "line 66: too many shifts, at most 64");
    Ok(())
}

// What is read of a word of so many letters.
fn of_letters(alloc: Global, day: &Instance, count: usize) -> Result<String, Fail>
    requires { IsSoundInstance day.now }
{
    let word = "a".repeat(alloc, count)?;
    let text = ["proof 1\nshift ", word.as_str(), "\n"].concat(alloc)?;
    Ok(answer(alloc, day, text.as_bytes())?)
}

#[test]
fn words_have_at_most_96_letters(rt: HostRuntime) -> Result<(), Fail> {
    let day = day(rt.alloc(), &PLAIN)?;
    let most = of_letters(rt.alloc(), &day, 96)?;
    assert!(rt; most.as_str().starts_with("0 passed 0 aaa"));
    let more = of_letters(rt.alloc(), &day, 97)?;
    assert!(rt; more.as_str() == "line 2: out of range");
    Ok(())
}

// How many nodes and shifts a search begins with, or why its text is refused.
fn beginning(alloc: Global, day: &Instance, text: &str) -> Result<String, Fail>
    requires { IsSoundInstance day.now }
{
    match read_from(alloc, day, text.as_bytes()) {
        Ok(cert) => {
            let (nodes, shifts) = (cert.nodes.len(), cert.shifts.len());
            Ok(format!(in alloc; "{nodes} nodes, {shifts} shifts")?)
        }
        Err(fault) => {
            let line = fault_line(alloc, &fault)?;
            Ok(String::from_str(alloc, str::from_utf8(line.as_slice()).unwrap_or("?"))?)
        }
    }
}

/// Texts with which a search begins: one of the day with its nodes, one with a node of another day, one
/// without splits, a report, and refused ones, with the fault of a proof text.
const BEGINNINGS: [Row; 6] = [
    (
        "proof 1\ncost 5\nbound 0\nshift aa.. 5\nsplit 1 0 1 4 1 0\nbare\nbare\nend\n",
        "3 nodes, 1 shifts",
    ),
    (
        "proof 1\ncost 5\nbound 0\nshift aa.. 5\npriced 1\nprice q 1 2 2 1\nend\n",
        "1 nodes, 1 shifts",
    ),
    (
        "proof 1\ncost 5\nbound 0\nshift aa.. 5\nbare\nend\n",
        "1 nodes, 1 shifts",
    ),
    (
        "report 1\ncost 9\nshift aa..\nshift ..aa\n",
        "1 nodes, 2 shifts",
    ),
    ("report 1\ncost none\n", "proof: line 1: bad header\n"),
    ("prof 1\nshift aa..\n", "proof: line 1: bad header\n"),
];

#[test]
fn searches_begin_with_old_texts(rt: HostRuntime) -> Result<(), Fail> {
    let day = day(rt.alloc(), &PLAIN)?;
    for (text, want) in &BEGINNINGS {
        if beginning(rt.alloc(), &day, text)?.as_str() != *want {
            return Err(Fail::from(*text));
        }
    }
    Ok(())
}

#[test]
fn words_of_another_length_do_not_fit(rt: HostRuntime) -> Result<(), Fail> {
    let day = day(rt.alloc(), &PLAIN)?;
    let said = read_shifts(
        rt.alloc(),
        &day,
        b"report 1\nshift aa.\nshift aa..\nshift aa...\n",
    )
    .ok();
    let Some(said) = said else {
        return Err(Fail::from("refused"));
    };
    let kept = fitting(rt.alloc(), 4, said.shifts.as_slice())?;
    assert!(rt; kept.len() == 1);
    Ok(())
}
