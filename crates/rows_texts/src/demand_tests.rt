//! Demand texts that are read, and refused ones with their faults.

ghost use Rattle.std.specs.Prelude.{IfOk};
ghost use Rattle.model_rosters.specs.Sound.{IsSound, IsPlain};

use crate::days::{BLOCK_NEEDS, day};
use model_rosters::{Grammar, List, Memory};
use std::alloc::Global;
use std::test::Fail;
use text_demand::{DemandFault, fault_line, read_demand, write_demand};
use text_rules::read_rules;

/// A day of four periods and two work codes, with names for eight groups.
const RULES: &'static str = "periods 4
work a b
idle .
start S
rule S 1 = F H I J K L M
rule F 1 = 'a'
rule H 1 = 'a'
rule I 1 = 'a'
rule J 1 = 'a'
rule K 1 = 'a'
rule L 1 = 'a'
rule M 1 = 'a'
";

// The grammar of that day.
fn rules(alloc: Global) -> Result<Grammar, Fail>
    ensures sound { IfOk result IsSound }
    ensures plain { IfOk result IsPlain }
{
    Ok(read_rules(alloc, RULES.as_bytes())?)
}

// The fault line of a text by a grammar, if it is refused; nothing if it is accepted.
fn answer_by(alloc: Global, grammar: Grammar, text: &[u8]) -> Result<List<u8>, Memory>
    requires sound { IsSound grammar }
    requires plain { IsPlain grammar }
{
    match read_demand(alloc, grammar, text) {
        Ok(_) => Ok(List::new(alloc)),
        Err(fault) => fault_line(alloc, &fault),
    }
}

// The same by the grammar of the day.
fn answer(alloc: Global, text: &[u8]) -> Result<List<u8>, Fail> {
    let grammar = rules(alloc)?;
    Ok(answer_by(alloc, grammar, text)?)
}

// Whether a text has this fault line; an accepted text has none.
fn is_answered(alloc: Global, text: &[u8], want: &str) -> Result<bool, Fail> {
    let said = answer(alloc, text)?;
    Ok(said.as_slice() == want.as_bytes())
}

/// A text, and its fault line; an accepted text has none.
type Row<'a> = (&'a str, &'a str);

/// Whole texts, head counts and groups.
const TEAMS: [Row<'static>; 10] = [
    ("", "demand: no heads line\n"),
    ("heads 0 2", ""),
    ("heads 0", "demand: line 1: unknown line\n"),
    ("heads 0 \u{e9}", "demand: line 1: bad byte\n"),
    ("heads 0 1\nheads 0 65", "demand: line 2: out of range\n"),
    ("heads 0 1\nheads 0 1", "demand: line 2: said twice\n"),
    (
        "group F 0 1\nheads x 3",
        "demand: line 2: heads and groups together\n",
    ),
    (
        "heads 0 1\ngroup 1 x y",
        "demand: line 2: heads and groups together\n",
    ),
    ("group * 0 1", "demand: line 1: no such name\n"),
    (
        "group S 0 1\ngroup F 0 1\ngroup H 0 1\ngroup I 0 1\ngroup J 0 1\ngroup K 0 1\ngroup L 0 1\ngroup M 0 1\ngroup Q x y",
        "demand: line 9: too many groups, at most 8\n",
    ),
];

/// Needs, floors and ceilings.
const NEEDS: [Row<'static>; 8] = [
    ("need a x 3 1", "demand: line 1: bad number\n"),
    ("need a 10 10001 1", "demand: line 1: out of range\n"),
    (
        "need a 10 3 65 2 2 1 1",
        "demand: line 1: wrong count of needs\n",
    ),
    ("least . 1", "demand: line 1: not a work code\n"),
    ("least a 1", "demand: line 1: no need line before\n"),
    (
        "need a 0 0 0 0 0 0\nleast a 1 1 1 1\nleast a",
        "demand: line 3: said twice\n",
    ),
    (
        "need a 0 0 0 0 0 0\nleast a x",
        "demand: line 2: wrong count of needs\n",
    ),
    (
        "need a 0 0 0 0 0 0\nleast a 0 0 0 x",
        "demand: line 2: bad number\n",
    ),
];

// Whether the texts have these fault lines.
fn compare(alloc: Global, rows: &[Row<'_>]) -> Result<(), Fail> {
    for (text, want) in rows {
        if !is_answered(alloc, text.as_bytes(), want)? {
            return Err(Fail::from(*text));
        }
    }
    Ok(())
}

#[test]
fn faults(rt: HostRuntime) -> Result<(), Fail> {
    compare(rt.alloc(), &TEAMS)?;
    compare(rt.alloc(), &NEEDS)
}

/// Each kind of line: groups and needs in the order of their lines, then floors, then ceilings.
#[test]
fn limit_of_bytes(rt: HostRuntime) -> Result<(), Fail> {
    let said = fault_line(rt.alloc(), &DemandFault::TooLong)?;
    assert!(rt; said.as_slice() == b"demand: the text is too long\n".as_slice());
    Ok(())
}

const WRITTEN: [&'static str; 2] = [
    BLOCK_NEEDS,
    "group H 1 2\ngroup F 0 1\nneed b 0 0 0 0 0 0\nmost b 64 64 64 63\nneed a 1 2 3 4 5 6\nleast a 0 0 0 1\nmost a 0 0 0 0\n",
];

// The text of the day that a text says.
fn again(alloc: Global, text: &str) -> Result<List<u8>, Fail> {
    let instance = day(alloc, &(RULES, text))?;
    Ok(write_demand(alloc, &instance)?)
}

// Whether the day of a text is written as the same text.
fn is_written_again(alloc: Global, text: &str) -> Result<bool, Fail> {
    let written = again(alloc, text)?;
    Ok(written.as_slice() == text.as_bytes())
}

fn are_written_again(alloc: Global, texts: &[&str]) -> Result<(), Fail> {
    for text in texts {
        if !is_written_again(alloc, text)? {
            return Err(Fail::from(*text));
        }
    }
    Ok(())
}

#[test]
fn written_texts(rt: HostRuntime) -> Result<(), Fail> {
    are_written_again(rt.alloc(), &WRITTEN)
}
