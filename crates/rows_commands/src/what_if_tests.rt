//! Transcripts of `value`, `rest`, `relax-rules` and `relax-demand`.
//!
//! `value`, `rest`, `relax-rules` and `relax-demand`: what stated rosters and a report come to, kept shifts
//! and the demand that they leave, and causes; rules at no cost, days whose floors or ceilings are counted.

use crate::transcripts::have_answers;
use std::test::Fail;

/// Stated rosters, and what each comes to or why it is not allowed. In the day `q7` the group `F` is one
/// employee at most, and `H` one or two; the day `limits` has `least a 1 2 0 0` and `most a 64 64 1 0`.
const STATED: &str = "
> value g1 q1 proof
report 1; result optimal; cost 10; bound 10; processed 1; failed 0; shifts 2; shift .aaa 5; paid 10; penalty 0
need a 1 2 2 1; have a 1 2 2 1; short a 0 0 0 0; over a 0 0 0 0
< 0
report 1
result stated
cost 35
shifts 1
shift .aaa 5
paid 5
penalty 30
need a 1 2 2 1
have a 0 1 1 1
short a 1 1 1 0
over a 0 0 0 0
> value g6 q7 proof
shift H .a 5; shift F aa; shift H a.
< 0
report 2
result stated
cost 7
shifts 3
shift H .a 1
shift F aa 3
shift H a. 1
paid 5
penalty 2
need a 2 1
have a 2 2
short a 0 0
over a 0 1
> value g6 q7 proof
shift F aa; shift F a.
< 1
shift 2 a.: no shift
group F 2: at most 1
group H 0: at least 1
need a 2 1
have a 2 1
short a 0 0
over a 0 0
> value g1 limits proof
shift aa..; shift aaaa 7; shift aa..; shift aa..
< 1
shift 2 aaaa: no shift
heads 4: at most 3
ceiling a period 4: 1 of 0
need a 1 2 2 1
have a 4 4 1 1
short a 0 0 1 0
over a 3 2 0 0
> value g1 q1 proof
shift .aaa x
< 5
roster: line 1: bad number
> value g1 q1 proof
shift .aaa; report 1
< 5
roster: line 2: unknown line
> value g1 q1 proof
report 1; result none; cost none; bound none; processed 1; failed 0
< 5
roster: line 3: no roster
> value g6 q7 proof
report 1; shift aa 3
< 5
roster: line 2: no such name
> value g6 q7 proof
shift aa
< 5
roster: line 1: unknown line
";

#[test]
fn stated_rosters_have_their_cost(rt: HostRuntime) -> Result<(), Fail> {
    have_answers(rt.alloc(), STATED)
}

/// Kept shifts, and the demand that they leave or why they leave none; what is noted of a report from which
/// shifts are gone.
const KEPT: &str = "
> rest g1 limits proof
shift aa..
< 0
# kept shifts 1, paid 4, penalty 0
heads 0 2
need a 10 3 0 1 2 1
least a 0 1 0 0
most a 64 64 1 0
> rest g6 q7 proof
shift F aa
< 0
# kept shifts 1, paid 3, penalty 0
group H 1 2
need a 10 2 1 0
> rest g1 q1 pair
< 1
nobody left
> rest g1 limits proof
shift aaaa; shift a.a.; shift aa..; shift aa..
< 1
shift 1 aaaa: no shift
shift 2 a.a.: no shift
heads 4: at most 3
ceiling a period 3: 2 of 1
ceiling a period 4: 1 of 0
> rest g1 q1 proof
report 1; result optimal; shifts 2; shift .aaa 5; shift aaa. 5
< 1
nobody left
!
> rest g1 q1 proof
report 1; result optimal; shifts 2; shift .aaa 5
< 0 ..
heads 0 1
!
roster: line 3: 1 of 2 shifts gone, and the heads line still lets 2 work
> rest g6 q7 proof
report 2; shifts 3; shift F aa 3
< 0 ..
group H 1 2
!
roster: line 2: 2 of 3 shifts gone, and the group lines still let 3 work
> rest g1 q1 proof
report 1; shifts 3; shift .aaa 5
< 0 ..
heads 0 1
!
> rest g1 q1 proof
shift .aaa; shift
< 5
roster: line 2: unknown line
";

#[test]
fn kept_shifts_leave_a_demand(rt: HostRuntime) -> Result<(), Fail> {
    have_answers(rt.alloc(), KEPT)
}

/// Rules at no cost, and days whose floors or ceilings are counted in place of being strict.
const RELAXED: &str = "
> relax-rules g1
< 0
periods 4
work a
idle .
start S
rule S 0 = W
rule S 0 = R W
rule S 0 = W R
rule S 0 = R W R
rule W 0 = A len 2 3
rule A 0 = 'a'
rule A 0 = 'a' A
rule R 0 = '.'
rule R 0 = '.' R
> relax-rules proof
periods 1; periods 2
< 3
rules: line 2: said twice
> relax-demand g1 limits floors
< 0
heads 0 3
need a 1 0 1 2 0 0
most a 64 64 1 0
> relax-demand g1 limits ceilings
< 0
heads 0 3
need a 0 1 64 64 1 0
least a 1 2 0 0
> relax-demand g6 q7 floors
< 0
group F 0 1
group H 1 2
need a 1 0 0 0
> relax-demand proof nowhere floors
periods 1; periods 2
< 3
rules: line 2: said twice
> relax-demand g1 proof ceilings
heads 2 1
< 4
demand: line 1: out of range
";

#[test]
fn a_relaxed_day_counts_what_is_missing(rt: HostRuntime) -> Result<(), Fail> {
    have_answers(rt.alloc(), RELAXED)
}
