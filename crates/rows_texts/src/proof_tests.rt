//! Proof texts that are read, and refused ones with their faults.

ghost use Rattle.model_rosters.specs.SoundInstance.{IsSoundInstance};

use crate::days::{DayTexts, day};
use model_rosters::{Instance, List};
use std::alloc::Global;
use std::test::Fail;
use text_certificates::{PieceFault, ProofFault, fault_line, read_cert, write_cert};

const PAIRS: &'static str = "periods 3
work a b
idle .
start S
rule S 2 = 'a' 'a' '.'
rule S 2 = '.' 'a' 'a'
rule S 2 = 'a' '.' 'a'
";

/// A day of three periods, of whose two work codes one is demanded.
static PLAIN: DayTexts<'static> = (PAIRS, "heads 0 3\nneed a 10 0 1 1 1\n");

/// The same day with both work codes demanded.
static BOTH_DEMANDED: DayTexts<'static> = (
    PAIRS,
    "heads 0 3\nneed b 10 0 1 1 1\nneed a 10 0 1 1 1\n",
);

/// A day of two periods with groups. Its base cuts are a Low and a High one of each but the High one of `F`.
static GROUPED: DayTexts<'static> = (
    "periods 2
work a
idle .
start S
rule S 0 = F
rule S 0 = H
rule F 3 = 'a' 'a'
rule H 1 = 'a' '.'
rule H 1 = '.' 'a'
",
    "group F 0 1\ngroup H 1 2\nneed a 10 2 2 1\n",
);

// The fault line of a text that is refused; nothing for one that is accepted.
fn answer(alloc: Global, instance: &Instance, text: &[u8]) -> Result<List<u8>, Fail>
    requires { IsSoundInstance instance.now }
{
    match read_cert(alloc, instance, text) {
        Ok(_) => Ok(List::new(alloc)),
        Err(fault) => Ok(fault_line(alloc, &fault)?),
    }
}

/// A text behind some first lines, and its fault line; an accepted text has none.
type Row<'a> = (&'a str, &'a str);

// Whether the text of these two parts has this fault line.
fn is_answered(
    alloc: Global,
    instance: &Instance,
    head: &str,
    lines: &str,
    want: &str,
) -> Result<bool, Fail>
    requires { IsSoundInstance instance.now }
{
    let text = [head, lines].concat(alloc)?;
    let said = answer(alloc, instance, text.as_bytes())?;
    Ok(said.as_slice() == want.as_bytes())
}

// Whether the texts, all behind the same first lines, have these fault lines.
fn all_answer(alloc: Global, instance: &Instance, head: &str, rows: &[Row]) -> Result<(), Fail>
    requires { IsSoundInstance instance.now }
{
    for (lines, want) in rows {
        if !is_answered(alloc, instance, head, lines, want)? {
            return Err(Fail::from(*lines));
        }
    }
    Ok(())
}

// The same for the texts of a day.
fn compare(alloc: Global, texts: &DayTexts, head: &str, rows: &[Row]) -> Result<(), Fail> {
    let instance = day(alloc, texts)?;
    all_answer(alloc, &instance, head, rows)
}

/// The lines before those of shifts and nodes.
const HEAD: &'static str = "proof 1\ncost 1\nbound 1\n";

/// Lines at places where they may not stand.
const PLACES: [Row; 10] = [
    ("end", "proof: line 4: unknown line\n"),
    ("end x", "proof: line 4: unknown line\n"),
    ("bare\nend x", "proof: line 5: text after the end\n"),
    ("bare\nbare", "proof: line 5: text after the end\n"),
    ("bare\n\u{e9}", "proof: line 5: bad byte\n"),
    ("bare\nend\n\n# x\n\u{7f}", "proof: line 8: bad byte\n"),
    ("bare\nshift a 1", "proof: line 5: text after the end\n"),
    (
        "split 1 0 1 3 1 0\nshift a 1",
        "proof: line 5: unknown line\n",
    ),
    ("priced 1\nprice a 1 2", "proof: line 5: unknown line\n"),
    ("priced 1\nprice b 1 2 3", "proof: line 5: unknown line\n"),
];

/// Multipliers.
const MULTS: [Row; 7] = [
    (
        "priced 1\nprice a 1 2 3\nmult x 1",
        "proof: line 6: bad number\n",
    ),
    (
        "priced 1\nprice a 1 2 3\nmult 1",
        "proof: line 6: text after the end\n",
    ),
    (
        "priced 1\nprice a 1 2 3\nmult 1 1 1",
        "proof: line 6: text after the end\n",
    ),
    (
        "priced 1\nprice a 1 2 3\nmult 1 x",
        "proof: line 6: out of range\n",
    ),
    (
        "split 1 0 1 3 1 0 1\nprice a 1 2 3\nmult 1 1",
        "proof: line 6: out of range\n",
    ),
    (
        "split 1 0 1 3 1 0\nsplit 1 0 1 3 1 0 1\nprice a 1 2 3\nmult 1 1\nmult 1 x",
        "proof: line 8: out of range\n",
    ),
    (
        "split 1 0 1 3 1 0\nsplit 1 0 1 3 1 0\npriced 1\nprice a 1 2 3\nmult 2 1\nmult 1 x",
        "proof: line 9: out of range\n",
    ),
];

const WITHOUT_COST: [Row; 1] = [(
    "proof 1\ncost none\nbound none\nshift aaa 1",
    "proof: line 4: unknown line\n",
)];

const ORDERS: [Row; 1] = [(
    "priced 1\nprice a 1 2 3\nprice b 4 5 6\nend",
    "proof: line 5: unknown line\n",
)];

const GROUPS: [Row; 2] = [
    (
        "proof 2\ncost none\nbound 4\nsplit 72 0 1 2 2 0\nbare\nbare\nend",
        "",
    ),
    (
        "proof 2\ncost none\nbound 4\nsplit 73 0 1 2 2 0",
        "proof: line 4: out of range\n",
    ),
];

#[test]
fn faults(rt: HostRuntime) -> Result<(), Fail> {
    compare(rt.alloc(), &PLAIN, HEAD, &PLACES)?;
    compare(rt.alloc(), &PLAIN, HEAD, &MULTS)?;
    compare(rt.alloc(), &PLAIN, "", &WITHOUT_COST)
}

#[test]
fn faults_on_further_days(rt: HostRuntime) -> Result<(), Fail> {
    compare(rt.alloc(), &BOTH_DEMANDED, HEAD, &ORDERS)?;
    compare(rt.alloc(), &GROUPED, "", &GROUPS)
}

// Whether the lines behind a part that stands so many times have these fault lines.
fn compare_repeated(
    alloc: Global,
    head: &str,
    part: &str,
    times: usize,
    rows: &[Row],
) -> Result<(), Fail> {
    let parts = part.repeat(alloc, times)?;
    let text = [head, parts.as_str()].concat(alloc)?;
    compare(alloc, &PLAIN, text.as_str(), rows)
}

/// Lines behind 64 shifts.
const SHIFTS: [Row; 3] = [
    ("shift a x\n", "proof: line 68: out of range\n"),
    ("shift a\n", "proof: line 68: unknown line\n"),
    ("shift a \u{e9}\n", "proof: line 68: bad byte\n"),
];

#[test]
fn limit_of_shifts(rt: HostRuntime) -> Result<(), Fail> {
    compare_repeated(rt.alloc(), HEAD, "shift aa. 2\n", 64, &SHIFTS)
}

/// Lines behind 20,001 nodes.
const NODES: [Row; 3] = [
    (
        "bare\nbare\nend\n",
        "proof: line 20005: too many nodes, at most 20001\n",
    ),
    (
        "priced 0\n",
        "proof: line 20005: too many nodes, at most 20001\n",
    ),
    ("split 1 0\n", "proof: line 20005: unknown line\n"),
];

#[test]
fn limit_of_nodes(rt: HostRuntime) -> Result<(), Fail> {
    let splits = "split 1 0 1 3 1 0\n".repeat(rt.alloc(), 10_001)?;
    let head = ["proof 1\ncost none\nbound 0\n", splits.as_str()].concat(rt.alloc())?;
    compare_repeated(rt.alloc(), head.as_str(), "bare\n", 10_000, &NODES)
}

#[test]
fn limit_of_bytes(rt: HostRuntime) -> Result<(), Fail> {
    let said = fault_line(rt.alloc(), &ProofFault::from(PieceFault::TooLong))?;
    assert!(rt; said.as_slice() == b"proof: the text is too long\n".as_slice());
    Ok(())
}

/// A split with prices, and a leaf of each other kind.
const WRITTEN: &'static str = "proof 2\ncost none\nbound none\nsplit 7 0 1 2 2 1 3
price a 3 -3\nmult 2 1\nbare\npinned\nend\n";

// The text of the certificate that a text says.
fn again(alloc: Global, instance: &Instance, text: &[u8]) -> Result<List<u8>, Fail>
    requires { IsSoundInstance instance.now }
{
    let cert = read_cert(alloc, instance, text)?;
    Ok(write_cert(alloc, instance, &cert)?)
}

// Whether the certificate that a text of the grouped day says is written as the same text.
fn is_written_again(alloc: Global, text: &str) -> Result<bool, Fail> {
    let instance = day(alloc, &GROUPED)?;
    let written = again(alloc, &instance, text.as_bytes())?;
    Ok(written.as_slice() == text.as_bytes())
}

#[test]
fn written_texts(rt: HostRuntime) -> Result<(), Fail> {
    assert!(rt; is_written_again(rt.alloc(), WRITTEN)?);
    Ok(())
}
