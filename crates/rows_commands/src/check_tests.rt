//! Transcripts of `check` and `reuse`, with each cause for which a certificate is refused.
//!
//! `check` and `reuse`: certificates, accepted and with each cause for which one is refused; texts that are
//! refused before; a certificate cut to each length.

use crate::shelves::{answer, shelf_of};
use crate::transcripts::have_answers;
use std::alloc::Global;
use std::test::Fail;

/// Certificates, and what is said of each.
const CERTIFICATES: &str = "
> check g1 q1 proof
proof 1; cost 10; bound 10; shift .aaa 5; shift aaa. 5; priced 1; price a 1 2 2 1; end
< 0
yes
cost 10
bound 10
> check g1 q1 proof
proof 1; cost 10; bound 11; shift .aaa 5; shift aaa. 5; priced 1; price a 1 2 2 1; end
< 1
no 8 bound too high: said 11 shown 10
> check g1 q1 proof
proof 1; cost 9; bound 10; shift .aaa 5; shift aaa. 5; priced 1; price a 1 2 2 1; end
< 1
no 4 wrong cost: said 9 found 10
> check g1 q1 proof
proof 1; cost 10; bound 10; shift aaaa 6; shift aaa. 5; priced 1; price a 1 2 2 1; end
< 1
no 1 not a shift: shift 1
> check g1 q1 proof
proof 1; cost none; bound 0; bare; end
< 0
yes
cost none
bound 0
> check g1 q1 proof
proof 1; cost 10; bound 0; shift .aaa 5; shift aaa. 5; bare; end
< 0
yes
cost 10
bound 0
> check g1 q1 proof
proof 1; cost 10; bound 1; shift .aaa 5; shift aaa. 5; bare; end
< 1
no 8 bound too high: said 1 shown 0
> check g1 q1 proof
proof 1; cost 9; bound 1; shift .aaa 5; shift aaa. 5; bare; end
< 1
no 4 wrong cost: said 9 found 10
> check g1 q1 proof
proof 1; cost 10; bound 0; shift .aaa 5; shift aaa. 5; bare; end; bare
< 5
proof: line 8: text after the end
> check g1 q1 proof
proof 1; cost 010; bound 0; shift .aaa 5; shift aaa. 5; bare; end
< 5
proof: line 2: bad number
> check g4 q4 proof
proof 1; cost 5; bound 0; shift aa 5; bare; end
< 1
no 2 shift cost: shift 1 said 5 least 3
> check g4 q4 proof
proof 1; cost 3; bound 3; shift aa 3; priced 1; price a 0 0; end
< 0
yes
cost 3
bound 3
> check g4 q4 proof
proof 1; cost 20; bound 0; bare; end
< 1
no 3 wrong heads: count 0
> check one some proof
proof 1; cost none; bound none; priced 1; price a 0; end
< 0
yes
cost none
bound none
> check one any proof
proof 1; cost 10; bound 10; priced 1; price a 10; end
< 0
yes
cost 10
bound 10
> check one any proof
proof 1; cost 10; bound 10; priced 1; price a 0; end
< 1
no 8 bound too high: said 10 shown 0
> check g2 q2 proof
proof 1; cost 4; bound 4; shift .aa 2; shift aa. 2; split 1 0 1 3 1 0; priced 1; price a 2 2 0
mult 1 2; priced 1; price a 0 0 2; mult 1 2; end
< 0
yes
cost 4
bound 4
> check g2 q2 proof
proof 1; cost 4; bound 4; shift .aa 2; shift aa. 2; split 1 0 1 3 1 0; priced 1; price a 2 2 0
mult 1 2; priced 1; price a 0 0 2; end
< 1
no 8 bound too high: said 4 shown 2
> check g2 q2 proof
proof 1; cost 4; bound 4; shift .aa 2; shift aa. 2; split 1 0 1 3 1 0; priced 1; price a 2 2 0; mult 1 2
priced 1; price a 0 0 2; mult 1 2; end; bare
< 5
proof: line 14: text after the end
> check g2 q2 proof
proof 1; cost 4; bound 0; shift .aa 2; shift aa. 2; priced 0; price a 0 0 0; end
< 5
proof: line 6: out of range
> check g2 q2 proof
proof 1; cost 4; bound 0; shift .aa 2; shift aa. 2; priced 1; price a 1208925819614629174706177 0 0
end
< 5
proof: line 7: out of range
> check g2 q2 proof
proof 1; cost 4; bound 0; shift .aa 2; shift aa. 2; priced 1073741824
price a 1208925819614629174706176 1208925819614629174706176 1208925819614629174706176; end
< 0
yes
cost 4
bound 0
> check g2 q2 proof
proof 1; cost 4; bound 1; shift .aa 2; shift aa. 2; priced 1073741824
price a 1208925819614629174706176 1208925819614629174706176 1208925819614629174706176; end
< 1
no 8 bound too high: said 1 shown 0
> check g2 q2 proof
proof 1; cost 4; bound 4; shift .aa 2; shift aa. 2; split 1 0 1 3 1 0; priced 1; price a 2 2 0
mult 1 2; priced 1
< 5
proof: the text ends early
> check g2 q2 proof
proof 1; cost 4; bound 4; shift .aa 2; shift aa. 2; split 1 0 1 3 1 0; priced 1; price a 2 2 0
mult 1 2; split 1 0 1 3 1 1; priced 1; price a 0 0 2; mult 1 2; priced 1; price a 0 0 2; mult 1 2
mult 2 2; end
< 1
no 8 bound too high: said 4 shown 2
> check g2 q2 proof
proof 1; cost 4; bound 0; shift .aa 2; shift aa. 2; split 1 0 1 3 1 3; bare; bare; end
< 1
no 6 empty half: node 1
> check g2 q2 proof
proof 1; cost 4; bound 0; shift .aa 2; shift aa. 2; split 1 0 1 3 2 0; bare; bare; end
< 1
no 5 not an arc: node 1
> check g2 q2 proof
proof 1; cost 4; bound 0; shift .aa 2; shift aa. 2; split 1 0 1 3 2 0; bare; bare
< 5
proof: the text ends early
> check g2 q2 proof
proof 1; cost 4; bound 0; shift .aa 2; shift aa. 2; pinned; end
< 1
no 7 not pinned: node 1 arc 1 0 1 3 1
> check g1 q1 bad_byte
< 5
proof: line 4: bad byte
> check g2 q2 empty
< 5
proof: the text ends early
> check g2 q2 proof
proof 7; cost 4
< 5
proof: line 1: bad header
> check g2 floors proof
proof 1; cost 4; bound 4; shift .aa 2; shift aa. 2; split 1 0 1 3 1 0; priced 1; price a 2 2 0
mult 1 2; priced 1; price a 0 0 2; mult 1 2; end
< 0
yes
cost 4
bound 4
> check g2 exact proof
proof 1; cost 4; bound 0; shift .aa 2; shift aa. 2; bare; end
< 1
no 9 outside floor or ceiling: code a period 2 have 2
> check g2 exact proof
proof 1; cost 4; bound 1; shift .aa 2; shift aa. 2; bare; end
< 1
no 8 bound too high: said 1 shown 0
> check g2 exact proof
proof 1; cost none; bound none; split 1 0 1 3 1 0; priced 1; price a 59 59 -57; mult 1 116; priced 1
price a -57 -57 59; mult 1 116; end
< 0
yes
cost none
bound none
> check g2 exact proof
proof 1; cost none; bound none; split 1 0 1 3 1 0; priced 1; price a 59 59 -57; mult 1 115; priced 1
price a -57 -57 59; mult 1 116; end
< 1
no 8 bound too high: said none shown 58
> check g6 q7 proof
proof 2; cost 4; bound 4; shift F aa 3; shift H a. 1; priced 2; price a 3 3; mult 2 1; end
< 0
yes
cost 4
bound 4
> check g6 q7 proof
proof 2; cost 4; bound 4; shift F aa 3; shift H a. 1; priced 2; price a 3 3; end
< 1
no 8 bound too high: said 4 shown 3
> check g6 q7 proof
proof 2; cost 4; bound 4; shift H aa 3; shift H a. 1; priced 2; price a 3 3; mult 2 1; end
< 1
no 1 not a shift: shift 1
> check g6 q7 proof
proof 2; cost 13; bound 4; shift F aa 3; priced 2; price a 3 3; mult 2 1; end
< 1
no 3 wrong heads: group 2 count 0
> check g6 q7 proof
proof 1; cost 4; bound 4; shift F aa 3; shift H a. 1; priced 2; price a 3 3; mult 2 1; end
< 5
proof: line 1: bad header
> check g6 q7 proof
proof 2; cost none; bound 0; split 7 0 1 2 2 0; bare; bare; end
< 1
no 6 empty half: node 1
> check short_full_days needed proof
proof 2; cost none; bound 139; priced 1; price a 0 0; end
< 0
yes
cost none
bound 139
> check short_full_days needed proof
proof 2; cost none; bound 140; priced 1; price a 0 0; end
< 1
no 8 bound too high: said 140 shown none
> check one_pair one_worker proof
proof 1; cost 12; bound 12; shift aa. 2; split 1 0 1 3 1 0; split 1 1 2 2 1 0; pinned; pinned
split 1 1 2 2 1 0; pinned; pinned; end
< 0
yes
cost 12
bound 12
> check one_pair one_worker proof
proof 1; cost 12; bound 13; shift aa. 2; split 1 0 1 3 1 0; split 1 1 2 2 1 0; pinned; pinned
split 1 1 2 2 1 0; pinned; pinned; end
< 1
no 8 bound too high: said 13 shown 12
";

#[test]
fn certificates_have_their_answers(rt: HostRuntime) -> Result<(), Fail> {
    have_answers(rt.alloc(), CERTIFICATES)
}

/// Texts that are refused before the certificate is fetched, and old certificates for another day.
const OTHERS: &str = "
> check cycle absent absent
< 3
rules: line 3: a name leads back to itself by one-symbol rules
> check g1 short absent
< 4
demand: line 2: wrong count of needs
> check g1 idle absent
< 4
demand: line 2: not a work code
> check g2 early absent
< 4
demand: line 2: no need line before
> check g6 mixed absent
< 4
demand: line 4: heads and groups together
> reuse g2 two_each halves
< 0
bound 6
> reuse g2 two_each empty_half
< 1
no 6 empty half: node 1
> reuse g2 two_each empty
< 5
proof: the text ends early
";

#[test]
fn other_texts_have_their_answers(rt: HostRuntime) -> Result<(), Fail> {
    have_answers(rt.alloc(), OTHERS)
}

/// Returns the status at which a text is checked.
fn status_of(alloc: Global, proof: &[u8]) -> Result<u8, Fail> {
    let mut shelf = shelf_of(alloc, &[])?;
    shelf.put("proof", proof)?;
    Ok(answer(alloc, &mut shelf, "check g2 q2 proof")?)
}

/// Whether a front of a certificate is accepted from its last word on, and the text ends early before.
fn ends_early(alloc: Global, whole: &[u8]) -> Result<bool, Fail> {
    for length in 0..whole.len() {
        let expected = if length + 1 < whole.len() { 5 } else { 0 };
        if status_of(alloc, &whole[..length])? != expected {
            return Ok(false);
        }
    }
    Ok(true)
}

/// Whether it is so of the certificate under `halves`, which has 133 bytes.
fn are_refused(alloc: Global) -> Result<bool, Fail> {
    let shelf = shelf_of(alloc, &[])?;
    match shelf.text("halves") {
        Some(whole) => Ok(whole.len() == 133 && ends_early(alloc, whole)?),
        None => Ok(false),
    }
}

#[test]
fn cut_texts_are_refused(rt: HostRuntime) -> Result<(), Fail> {
    assert!(rt; are_refused(rt.alloc())?);
    Ok(())
}
