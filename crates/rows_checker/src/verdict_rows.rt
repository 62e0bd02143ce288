//! Certificates that are judged whole and piece by piece, with the same answer.
//!
//! A bound that stands for none, as a number; a text without its end; a chain of 10,000 splits.

ghost use Rattle.std.specs.Prelude.{◌≡◌, ◌≤◌, length};
ghost use Rattle.model_rosters.specs.SoundInstance.{IsSoundInstance};
ghost use Rattle.check_certificates.specs.Sound.{IsSoundCert};
ghost use Rattle.check_proofs.specs.Benches.{IsBenchFor, node_room};

use check_certificates::{Cert, Why};
use check_proofs::{Bench, Judged, Verdict};
use model_rosters::{ArcKey, Cell, Instance, Memory};
use model_sample_days::{BLOCK_PARTS, CELL, DayParts, FULL_DAYS, ONE_PARTS, PAIR_PARTS, sound_day};
use std::alloc::{AllocError, Global};
use std::test::Fail;
use text_certificates::read_cert;
use text_proof_pieces::{CertRoom, PieceFault};

/// One block of two or three of four periods, where the inner periods need two employees.
static BLOCK_DAY: DayParts<'static> = BLOCK_PARTS;

const FULL_CELLS: [Cell; 2] = [CELL, Cell { period: 2, ..CELL }];

/// Both of two periods at 5 or at 3, for one employee, where each period needs one.
static FULL_DAY: DayParts<'static> = DayParts {
    periods: 2,
    names: &["S", "T"],
    rules: &FULL_DAYS,
    start: 0,
    heads: (1, 1),
    groups: &[],
    cells: &FULL_CELLS,
};

/// One period, where each shift has two or three, for one or two employees. A roster costs at most 26.
static ONE_DAY: DayParts<'static> = ONE_PARTS;

/// Two of three periods at 2, where each period needs one employee.
static PAIR_DAY: DayParts<'static> = PAIR_PARTS;

/// A proof text, and the verdict on its certificate.
type Case<'a> = (&'a str, Verdict);

/// Whether a text is judged piece by piece as it is to be.
fn judges_text(
    day: &Instance,
    bench: &mut Bench,
    room: &mut CertRoom,
    text: &str,
    want: &Judged,
) -> bool
    requires day { IsSoundInstance day.now }
    requires bench { IsBenchFor day.now bench.old }
    requires nodes { node_room bench.old ≡ 20001 }
    requires made { length day.now.cells ≤ room.old.most }
{
    bench.judge_text(day, text.as_bytes(), room) == *want
}

/// Whether a text is judged so at a bench of its own, in a room.
fn judges_in(
    alloc: Global,
    day: &Instance,
    room: &mut CertRoom,
    text: &str,
    want: &Judged,
) -> Result<bool, Memory>
    requires day { IsSoundInstance day.now }
    requires made { length day.now.cells ≤ room.old.most }
{
    let mut bench = Bench::for_texts(alloc, day)?;
    Ok(judges_text(day, &mut bench, room, text, want))
}

/// Whether a text is judged so at a bench and in a room of its own.
fn judges_pieces(alloc: Global, day: &Instance, text: &str, want: &Judged) -> Result<bool, Fail>
    requires { IsSoundInstance day.now }
{
    let mut room = CertRoom::for_instance(alloc, day)?;
    Ok(judges_in(alloc, day, &mut room, text, want)?)
}

/// Whether a certificate is judged as it is to be.
fn judges_at(day: &Instance, bench: &mut Bench, cert: &Cert, want: &Verdict) -> bool
    requires day { IsSoundInstance day.now }
    requires cert { IsSoundCert day.now cert.now }
    requires bench { IsBenchFor day.now bench.old }
    requires room { length cert.now.nodes ≤ node_room bench.old }
{
    bench.judge(day, cert) == *want
}

/// Whether a certificate is judged so at a bench of its own.
fn judges_cert(alloc: Global, day: &Instance, cert: &Cert, want: &Verdict) -> Result<bool, Memory>
    requires day { IsSoundInstance day.now }
    requires cert { IsSoundCert day.now cert.now }
{
    let mut bench = Bench::for_proof(alloc, day, cert)?;
    Ok(judges_at(day, &mut bench, cert, want))
}

/// Whether the certificate of a text is judged so.
fn judges_read(alloc: Global, day: &Instance, text: &str, want: &Verdict) -> Result<bool, Fail>
    requires { IsSoundInstance day.now }
{
    let cert = read_cert(alloc, day, text.as_bytes())?;
    Ok(judges_cert(alloc, day, &cert, want)?)
}

/// Judges the certificate of one text, and then the text itself.
fn judge_case(alloc: Global, day: &Instance, text: &str, want: &Verdict) -> Result<(), Fail>
    requires { IsSoundInstance day.now }
{
    if judges_read(alloc, day, text, want)?
        && judges_pieces(alloc, day, text, &Judged::Said(*want))?
    {
        return Ok(());
    }
    Err(Fail::from(text))
}

/// Judges each case on a day.
fn judge_on(alloc: Global, day: &Instance, cases: &[Case<'_>]) -> Result<(), Fail>
    requires { IsSoundInstance day.now }
{
    for (text, want) in cases {
        judge_case(alloc, day, text, want)?;
    }
    Ok(())
}

/// Judges each case on a sample day.
fn judge_all(alloc: Global, parts: &DayParts, cases: &[Case<'_>]) -> Result<(), Fail> {
    let day = sound_day(alloc, parts)?;
    judge_on(alloc, &day, cases)
}

static BLOCK_CASES: [Case<'static>; 4] = [
    (
        "proof 1\ncost 10\nbound 10\nshift .aaa 5\nshift aaa. 5\npriced 1\nprice a 1 2 2 1\nend\n",
        Verdict::Yes {
            cost: Some(10),
            bound: Some(10),
        },
    ),
    (
        "proof 1\ncost 10\nbound 11\nshift .aaa 5\nshift aaa. 5\npriced 1\nprice a 1 2 2 1\nend\n",
        Verdict::No(Why::BoundTooHigh {
            said: Some(11),
            shown: Some(10),
        }),
    ),
    (
        "proof 1\ncost 9\nbound 10\nshift .aaa 5\nshift aaa. 5\npriced 1\nprice a 1 2 2 1\nend\n",
        Verdict::No(Why::WrongCost { said: 9, found: 10 }),
    ),
    (
        "proof 1\ncost 10\nbound 10\nshift aaaa 6\nshift aaa. 5\npriced 1\nprice a 1 2 2 1\nend\n",
        Verdict::No(Why::NotAShift { shift: 1 }),
    ),
];

static FULL_CASES: [Case<'static>; 3] = [
    (
        "proof 1\ncost 5\nbound 3\nshift aa 5\npriced 1\nprice a 0 0\nend\n",
        Verdict::No(Why::ShiftCost {
            shift: 1,
            said: 5,
            least: 3,
        }),
    ),
    (
        "proof 1\ncost 3\nbound 3\nshift aa 3\npriced 1\nprice a 0 0\nend\n",
        Verdict::Yes {
            cost: Some(3),
            bound: Some(3),
        },
    ),
    (
        "proof 1\ncost 20\nbound 3\npriced 1\nprice a 0 0\nend\n",
        Verdict::No(Why::WrongHeads { group: 0, count: 0 }),
    ),
];

// No roster is allowed: the bound may be 27 at most, which stands for none.
static ONE_CASES: [Case<'static>; 2] = [
    (
        "proof 1\ncost none\nbound 27\npriced 1\nprice a 0\nend\n",
        Verdict::Yes {
            cost: None,
            bound: Some(27),
        },
    ),
    (
        "proof 1\ncost none\nbound 28\npriced 1\nprice a 0\nend\n",
        Verdict::No(Why::BoundTooHigh {
            said: Some(28),
            shown: None,
        }),
    ),
];

const ARC: ArcKey = ArcKey {
    rule: 1,
    suffix: 0,
    start: 1,
    len: 3,
    part: 1,
};

static PAIR_CASES: [Case<'static>; 7] = [
    (
        "proof 1\ncost 4\nbound 4\nshift .aa 2\nshift aa. 2\nsplit 1 0 1 3 1 0\npriced 1\nprice a 2 2 0\nmult 1 2\npriced 1\nprice a 0 0 2\nmult 1 2\nend\n",
        Verdict::Yes {
            cost: Some(4),
            bound: Some(4),
        },
    ),
    (
        "proof 1\ncost 4\nbound 4\nshift .aa 2\nshift aa. 2\nsplit 1 0 1 3 1 0\npriced 1\nprice a 2 2 0\nmult 1 2\npriced 1\nprice a 0 0 2\nend\n",
        Verdict::No(Why::BoundTooHigh {
            said: Some(4),
            shown: Some(2),
        }),
    ),
    (
        "proof 1\ncost 4\nbound 3\nshift .aa 2\nshift aa. 2\nsplit 1 0 1 3 1 0 1\nprice a 1 1 1\nbare\nbare\nend\n",
        Verdict::Yes {
            cost: Some(4),
            bound: Some(3),
        },
    ),
    (
        "proof 1\ncost 4\nbound 0\nshift .aa 2\nshift aa. 2\npriced 1073741824\nprice a 1208925819614629174706176 1208925819614629174706176 1208925819614629174706176\nend\n",
        Verdict::Yes {
            cost: Some(4),
            bound: Some(0),
        },
    ),
    (
        "proof 1\ncost 4\nbound 0\nshift .aa 2\nshift aa. 2\nsplit 1 0 1 3 1 3\nbare\nbare\nend\n",
        Verdict::No(Why::EmptyHalf { node: 1 }),
    ),
    (
        "proof 1\ncost 4\nbound 0\nshift .aa 2\nshift aa. 2\nsplit 1 0 1 3 2 0\nbare\nbare\nend\n",
        Verdict::No(Why::NotAnArc { node: 1 }),
    ),
    (
        "proof 1\ncost 4\nbound 0\nshift .aa 2\nshift aa. 2\npinned\nend\n",
        Verdict::No(Why::NotPinned { node: 1, arc: ARC }),
    ),
];

#[test]
fn verdicts_on_blocks(rt: HostRuntime) -> Result<(), Fail> {
    judge_all(rt.alloc(), &BLOCK_DAY, &BLOCK_CASES)
}

#[test]
fn verdicts_on_full_days(rt: HostRuntime) -> Result<(), Fail> {
    judge_all(rt.alloc(), &FULL_DAY, &FULL_CASES)
}

#[test]
fn verdicts_where_no_roster_is_allowed(rt: HostRuntime) -> Result<(), Fail> {
    judge_all(rt.alloc(), &ONE_DAY, &ONE_CASES)
}

#[test]
fn verdicts_on_pairs(rt: HostRuntime) -> Result<(), Fail> {
    judge_all(rt.alloc(), &PAIR_DAY, &PAIR_CASES)
}

/// Whether a text is judged so, piece by piece, on the day of pairs.
fn judges_pairs(alloc: Global, text: &str, want: &Judged) -> Result<bool, Fail> {
    match sound_day(alloc, &PAIR_DAY) {
        Ok(day) => judges_pieces(alloc, &day, text, want),
        Err(fail) => Err(fail),
    }
}

#[test]
fn a_fault_comes_before_a_no(rt: HostRuntime) -> Result<(), Fail> {
    // The split is on no arc.
    let text =
        "proof 1\ncost 4\nbound 4\nshift .aa 2\nshift aa. 2\nsplit 1 0 1 3 2 0\npriced 1\nprice a 2 2 0\nmult 1 2\npriced 1\nprice a 0 0 2\nmult 1 2\n";
    assert!(rt; judges_pairs(rt.alloc(), text, &Judged::Fault(PieceFault::CutShort))?);
    Ok(())
}

/// The text of so many splits and one more leaf.
fn text_of_splits(alloc: Global, splits: usize) -> Result<String, AllocError>
    requires { splits ≤ 10000 }
{
    let inner = "split 1 0 1 3 1 0\n".repeat(alloc, splits)?;
    let leaves = "bare\n".repeat(alloc, splits + 1)?;
    let head = "proof 1\ncost none\nbound 0\n";
    [head, inner.as_str(), leaves.as_str(), "end\n"].concat(alloc)
}

#[test]
fn ten_thousand_splits(rt: HostRuntime) -> Result<(), Fail> {
    let text = text_of_splits(rt.alloc(), 10_000)?;
    let want = Judged::Said(Verdict::No(Why::EmptyHalf { node: 2 }));
    assert!(rt; judges_pairs(rt.alloc(), text.as_str(), &want)?);
    Ok(())
}
