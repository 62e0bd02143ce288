//! Transcripts of `solve`, `curve` and `make`.
//!
//! `solve`, `curve` and `make`: reports by status, an old certificate, groups, a day with more trees than any
//! list could hold; curves by status; the same words twice, and seconds counted as turns; stored certificates
//! that are checked; the shifts of a report, each explained at its price.

use crate::shelves::{Outcome, answer, end_alike, is_said, run_on, shelf_of};
use crate::transcripts::have_answers;
use std::alloc::Global;
use std::test::Fail;

/// Searches of a day.
///
/// The day `many` has more trees than any list could hold: 2^60 words of 60 periods, each with C(118, 59) /
/// 60 trees, 468022714570105222979864805612385715318007175053312 in all. A tree has 59 cuts at 1, a letter
/// `a` costs 2, and a letter `.` 1. Whoever works more of what is needed saves 10 each time, so that two
/// employees work, one of them all day and the other in the odd periods: 59 + 120 and 59 + 60 + 30.
const SEARCHES: &str = "
> solve g1 q1 p 10
< 0
report 1
result optimal
cost 10
bound 10
processed 1
failed 0
shifts 2
shift .aaa 5
shift aaa. 5
paid 10
penalty 0
need a 1 2 2 1
have a 1 2 2 1
short a 0 0 0 0
over a 0 0 0 0
!
rules: line 5: no shift uses this rule
> solve one some p 10
< 1
report 1
result none
cost none
bound none
processed 1
failed 0
!
rules: line 9: len 2 3, but the last period is 1
rules: there is no shift
heads: at least 1, but the rules have no shift
how much is missing, relax-rules RULES and relax-demand RULES DEMAND floors tell, or ceilings
> solve one any p 10
< 0
report 1
result optimal
cost 10
bound 10
processed 1
failed 0
shifts 0
paid 0
penalty 10
need a 1
have a 0
short a 1
over a 0
> solve g2 q2 p 10
< 0 ..
result optimal
cost 4
bound 4
failed 0
shifts 2
paid 4
penalty 0
> solve g2 q2 p 1
< 8 ..
result turns
cost 4
bound 3
processed 1
failed 0
!
> solve g2 q2 p 1 halves
< 8 ..
result turns
cost 4
bound 3
processed 1
shift .aa 2
shift aa. 2
> solve g2 exact p 8191
< 1 ..
result none
cost none
bound none
!
how much is missing, relax-rules RULES and relax-demand RULES DEMAND floors tell, or ceilings
> solve g2 crowd p 10
< 1
report 1
result none
cost none
bound none
processed 1
failed 0
!
floor a period 1: 4, at most 3
how much is missing, relax-rules RULES and relax-demand RULES DEMAND floors tell, or ceilings
> solve g6 q7 p 2047
< 0 ..
report 2
cost 4
bound 4
failed 0
shift F aa 3
shift H a. 1
paid 4
penalty 0
have a 2 1
> solve short_full_days needed p 10
< 1
report 2
result none
cost none
bound none
processed 1
failed 0
!
rules: line 5: no shift uses this rule
rules: line 7: no shift uses the name F
group F: at least 1, but the rules have no shift of it
how much is missing, relax-rules RULES and relax-demand RULES DEMAND floors tell, or ceilings
> solve many many_needs p 10
< 0 ..
report 1
result optimal
cost 328
bound 328
shifts 2
paid 328
penalty 0
have a 2 1 2 1 2 1 2 1 2 1 2 1 2 1 2 1 2 1 2 1 2 1 2 1 2 1 2 1 2 1 2 1 2 1 2 1 2 1 2 1 2 1 2 1 2 1 2 1 2 1 2 1 2 1 2 1 2 1 2 1
> solve g3 q3 p 1
< 0 8 ..
report 1
processed 1
> make 7 p 50
< 0 8 ..
make 7
periods 26
> solve g1 fallen p 10
< 4
demand: line 1: out of range
> solve g2 q2 p 10 q2
< 5
proof: line 1: bad header
> solve absent q1 p 10
< 6
!
absent: no such file
> solve g5 one_head p 10
< 9
graph: 147536 arcs, at most 100000
";

#[test]
fn rosters_are_found(rt: HostRuntime) -> Result<(), Fail> {
    have_answers(rt.alloc(), SEARCHES)
}

/// Old texts with which a search begins: a report, one of a day with groups where this one has none, and
/// where it has some one with a name of none of them, and one without names.
const OLD_TEXTS: &str = "
> solve g2 q2 p 1 proof
report 1; result stated; cost 9; shift aa. 5; shift .aa; over a 0 1 0
< 8 ..
result turns
cost 4
bound 3
shift .aa 2
shift aa. 2
!
> solve g2 q2 p 1 proof
proof 2; cost 4; bound 4; shift Nurse aa. 2; shift Aide .aa 2; priced 1; price b 1 1 1; end
< 8 ..
cost 4
bound 3
!
> solve g6 needed p 10 proof
report 2; shift F aa 3; shift K a. 1
< 0 ..
result optimal
!
proof: 1 of 2 shifts passed over, which have no name of a group of the demand
> solve g6 needed p 10 proof
proof 1; cost 3; bound 0; shift aa 3; bare; end
< 0 ..
result optimal
!
proof: 1 of 1 shifts passed over, which have no name of a group of the demand
";

#[test]
fn searches_begin_with_old_texts(rt: HostRuntime) -> Result<(), Fail> {
    have_answers(rt.alloc(), OLD_TEXTS)
}

/// Searches of each point of a curve.
const CURVES: &str = "
> curve g1 q1 p 10
< 0
curve 2
heads 1 cost 35 bound 35 processed 1 failed 0
heads 2 cost 10 bound 10 processed 1 failed 0
!
rules: line 5: no shift uses this rule
> curve one some p 10
< 1
curve 2
heads 1 cost none bound none processed 1 failed 0
heads 2 cost none bound none processed 1 failed 0
> curve one lasting p 10 W
< 1
curve 2
group W 1 cost none bound none processed 1 failed 0
group W 2 cost none bound none processed 1 failed 0
> curve g6 q7 p 10 S
< 2
words: none of the forms
> curve g6 q7 p 10
< 4
demand: groups have no curve
> curve g2 q2 p 1
< 8
curve 3
heads 1 cost 12 bound 12 processed 1 failed 0
heads 2 cost 4 bound 3 processed 1 failed 0
heads 3 cost 4 bound 3 processed 1 failed 0
> curve g5 one_group p 10
< 4
demand: groups have no curve
> curve g5 one_head p 10
< 9
graph: 147536 arcs, at most 100000
";

#[test]
fn curves_have_their_points(rt: HostRuntime) -> Result<(), Fail> {
    have_answers(rt.alloc(), CURVES)
}

/// Whether three full days and one half day cost 18, and have one of the two coverages that cost that.
fn is_covered(alloc: Global) -> Result<bool, Fail> {
    let mut shelf = shelf_of(alloc, &[])?;
    let status = answer(alloc, &mut shelf, "solve g6 full p 6249")?;
    let said = shelf.said();
    Ok(
        status == 0
            && is_said(said, "cost 18")
            && is_said(said, "bound 18")
            && is_said(said, "have a 4 3") != is_said(said, "have a 3 4"),
    )
}

#[test]
fn full_days_and_a_half_day_cover(rt: HostRuntime) -> Result<(), Fail> {
    assert!(rt; is_covered(rt.alloc())?);
    Ok(())
}

/// Words of two searches that say and store the same: the same words twice; and those of one that a watch
/// stops after some turns, which it counts as seconds, and of one with as many turns.
const ALIKE: &str = "make 7 p 50 > make 7 p 50
make 7 p 1s > make 7 p 1
solve g6 q7 p 2s > solve g6 q7 p 2
curve g2 q2 p 1s > curve g2 q2 p 1
";

/// Runs the program on a shelf of its own.
fn run(alloc: Global, words: &str) -> Result<Outcome, Fail> {
    let shelf = shelf_of(alloc, &[])?;
    Ok(run_on(alloc, shelf, words)?)
}

/// Whether both searches say and store the same.
fn are_alike(alloc: Global, one: &str, other: &str) -> Result<bool, Fail> {
    let first = run(alloc, one)?;
    let second = run(alloc, other)?;
    Ok(end_alike(&first, &second))
}

#[test]
fn searches_say_the_same_twice(rt: HostRuntime) -> Result<(), Fail> {
    for line in ALIKE.lines() {
        let (one, other) = line.split_once('>').unwrap_or((line, ""));
        if !are_alike(rt.alloc(), one, other)? {
            return Err(Fail::from(line));
        }
    }
    Ok(())
}

/// The words of a search, and those that check a certificate that it stored.
const CHECKED: &str = "solve g2 q2 p 1 > check g2 q2 p
curve g1 q1 p 10 > check g1 q1_one p.1
curve g1 q1 p 10 > check g1 q1 p.2
";

/// Whether the certificate that a search stores is accepted.
fn is_accepted(alloc: Global, search: &str, check: &str) -> Result<bool, Fail> {
    let mut shelf = shelf_of(alloc, &[])?;
    answer(alloc, &mut shelf, search)?;
    Ok(answer(alloc, &mut shelf, check)? == 0)
}

#[test]
fn stored_certificates_are_accepted(rt: HostRuntime) -> Result<(), Fail> {
    for line in CHECKED.lines() {
        let (search, check) = line.split_once('>').unwrap_or((line, ""));
        if !is_accepted(rt.alloc(), search, check)? {
            return Err(Fail::from(line));
        }
    }
    Ok(())
}

/// Whether the words have an answer that begins so.
fn begins(alloc: Global, words: &str, first: &str) -> Result<bool, Fail> {
    let run = run(alloc, words)?;
    Ok(run.status == 0 && run.shelf.said().starts_with(first.as_bytes()))
}

/// Whether the line of a call centre's shift, a word and its price, is explained at this price.
fn is_explained(alloc: Global, shift: &str) -> Result<bool, Fail> {
    let (word, price) = shift.split_once(' ').unwrap_or((shift, ""));
    let words = ["explain g3 ", word].concat(alloc)?;
    let first = ["word ", word, "\ncost ", price, "\n"].concat(alloc)?;
    begins(alloc, words.as_str(), first.as_str())
}

/// Whether each shift that a report tells is explained, and there is one.
fn are_explained(alloc: Global, report: &str) -> Result<bool, Fail> {
    let mut is_told = false;
    for line in report.lines() {
        if let Some(shift) = line.strip_prefix("shift ") {
            if !is_explained(alloc, shift)? {
                return Ok(false);
            }
            is_told = true;
        }
    }
    Ok(is_told)
}

/// Whether a search on the call centre's day ends, its certificate is accepted, and each shift that it prints
/// is explained at its price.
fn is_search_explained(alloc: Global) -> Result<bool, Fail> {
    let mut shelf = shelf_of(alloc, &[])?;
    let status = answer(alloc, &mut shelf, "solve g3 q3 p 50")?;
    let checked = answer(alloc, &mut shelf, "check g3 q3 p")?;
    if (status != 0 && status != 8) || checked != 0 {
        return Ok(false);
    }
    match str::from_utf8(shelf.said()) {
        Ok(said) => are_explained(alloc, said),
        Err(_) => Ok(false),
    }
}

#[test]
fn each_shift_of_a_report_is_explained(rt: HostRuntime) -> Result<(), Fail> {
    assert!(rt; is_search_explained(rt.alloc())?);
    Ok(())
}
