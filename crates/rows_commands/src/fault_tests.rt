//! What is noted of each fault of rules, demand, proof and roster texts.

use crate::transcripts::have_answers;
use std::test::Fail;

/// Faults of rules texts, and what is noted of each.
const RULES: &str = "
> explain proof a
periods 1; work \u{e4}
< 3
rules: line 2: bad byte
!
rules: line 2, word 2: the byte 195 is no printable ASCII; only a comment may hold it
> explain proof a
periods 1; rules S 0 = 'a'
< 3
rules: line 2: unknown line
!
rules: line 2, word 1: rules begins no line; the lines begin with periods, work, idle, start and rule
> explain proof a
periods 1 2
< 3
rules: line 1: unknown line
!
rules: line 1: 3 words; the form is periods N
> explain proof a
rule S 0 'a'
< 3
rules: line 1: unknown line
!
rules: line 1, word 4: 'a' stands where = is wanted
> explain proof a
work a; rule S 0 = 'a' len 2
< 3
rules: line 2: unknown line
!
rules: line 2, word 6: len: from here on the form is len A B, begin A B or end A B
> explain proof a
work
< 3
rules: line 1: unknown line
!
rules: line 1: a code is wanted behind the first word
> explain proof a
periods 08
< 3
rules: line 1: bad number
!
rules: line 1, word 2: 08 is no number, which is of digits alone, the first of them 0 only in 0
> explain proof a
work a; rule S 1.5 = 'a'
< 3
rules: line 2: bad number
!
rules: line 2, word 3: 1.5 is no number, which is of digits alone, the first of them 0 only in 0
> explain proof a
periods 97
< 3
rules: line 1: out of range
!
rules: line 1, word 2: 97: at most 96
> explain proof a
work a; rule S 0 = 'a' begin 1 9 len 9 8
< 3
rules: line 2: out of range
!
rules: line 2, word 11: 8: at least 9
> explain proof a
work a p; rule S 0 = 'a' \"p\"
< 3
rules: line 2: bad name
!
rules: line 2, word 6: \"p\" is no name; a code stands in single quotes
> explain proof a
work a; rule S 0 = 'aa'
< 3
rules: line 2: bad name
!
rules: line 2, word 5: 'aa' is no code, which is one byte between two '
> explain proof a
work a bc
< 3
rules: line 1: bad name
!
rules: line 1, word 3: bc is no code, which is one byte other than ' and #
> explain proof a
start 1st
< 3
rules: line 1: bad name
!
rules: line 1, word 2: 1st is no name, which is a letter and then letters, digits and _, 32 bytes at most, and not len, begin or end
> explain proof a
periods 1; start S; periods 2
< 3
rules: line 3: said twice
!
rules: line 3, word 1: periods stands in line 1 already
> explain proof a
work a b; idle . b
< 3
rules: line 2: said twice
!
rules: line 2, word 3: b is declared in line 1
> explain proof a
work a b a
< 3
rules: line 1: said twice
!
rules: line 1, word 4: a is declared before in this line
> explain proof a
work a; rule S 0 = 'a' len 1 2 end 1 1 len 1 1
< 3
rules: line 2: said twice
!
rules: line 2, word 12: len stands before in this line
> explain proof a
work a; rule S 0 = 'a' 'm'
< 3
rules: line 2: unknown code
!
rules: line 2, word 6: 'm': no work or idle line above declares the code
> explain proof a
work a b c d e f g h i
< 3
rules: line 1: too many work codes, at most 8
!
rules: line 1: the 9th work code is declared here
> explain proof a
work a; rule S 0 = T T T T T T T T T len 1 2
< 3
rules: line 2: too many symbols, at most 8
!
rules: line 2: 9 symbols, a rule has 8 at most
> explain proof a
work a; rule S 0 = len 1 2
< 3
rules: line 2: empty right side
!
rules: line 2, word 5: len stands right behind =, where a name or a code is wanted
> explain proof a
work a; rule S 0 =
< 3
rules: line 2: empty right side
!
rules: line 2: a name or a code is wanted behind =
> explain proof a
work a; start S; rule S 0 = 'a'
< 3
rules: no periods line
!
rules: a line periods N is wanted, N from 1 to 96
> explain proof a
periods 1; work a; rule S 0 = 'a'
< 3
rules: no start line
!
rules: a line start NAME is wanted
> explain proof a
periods 1; work a; start S; rule S 0 = 'a' a
< 3
rules: line 4: a name has no rule
!
rules: line 4, word 6: a is the name of no rule; the code stands in single quotes
> explain proof a
periods 1; work a; start S; rule S 0 = 'a' T
< 3
rules: line 4: a name has no rule
!
rules: line 4, word 6: T is the name of no rule
> explain cycle a
< 3
rules: line 3: a name leads back to itself by one-symbol rules
!
rules: line 3, word 2: A: rules of one symbol lead from this name back to it
> relax-rules proof
periods x
< 3
rules: line 1: bad number
!
rules: line 1, word 2: x is no number, which is of digits alone, the first of them 0 only in 0
> rank proof 1
periods 0
< 3
rules: line 1: out of range
!
rules: line 1, word 2: 0: at least 1
> check proof q1 pair
periods 0
< 3
rules: line 1: out of range
!
rules: line 1, word 2: 0: at least 1
> solve proof q1 p 1
periods 0
< 3
rules: line 1: out of range
!
rules: line 1, word 2: 0: at least 1
> curve proof q1 p 1
periods 0
< 3
rules: line 1: out of range
!
rules: line 1, word 2: 0: at least 1
";

#[test]
fn faults_of_rules_are_noted(rt: HostRuntime) -> Result<(), Fail> {
    have_answers(rt.alloc(), RULES)
}

/// Faults of demand texts for days of four periods, and what is noted of each.
const DEMAND: &str = "
> relax-demand g1 proof floors
heads 0 2; need \u{e4} 1 1 0 0 0 0
< 4
demand: line 2: bad byte
!
demand: line 2, word 2: the byte 195 is no printable ASCII; only a comment may hold it
> relax-demand g1 proof floors
head 0 2
< 4
demand: line 1: unknown line
!
demand: line 1, word 1: head begins no line; the lines begin with heads, group, need, least and most
> relax-demand g1 proof floors
heads 2
< 4
demand: line 1: unknown line
!
demand: line 1: 2 words; the form is heads A B
> relax-demand g1 proof floors
heads 0 2; need a 1 -1 0 0 0 0
< 4
demand: line 2: bad number
!
demand: line 2, word 4: -1 is no number, which is of digits alone, the first of them 0 only in 0
> relax-demand g1 proof floors
heads 0 80
< 4
demand: line 1: out of range
!
demand: line 1, word 3: 80: at most 64
> relax-demand g1 proof floors
heads 2 1
< 4
demand: line 1: out of range
!
demand: line 1, word 3: 1: at least 2
> relax-demand g6 proof floors
group F 0 60; group H 0 5
< 4
demand: line 2: out of range
!
demand: line 2, word 4: 5: at most 4
> relax-demand g1 proof floors
heads 0 2; need . 1 1 0 0 0 0
< 4
demand: line 2: not a work code
!
demand: line 2, word 2: .: no work line of the rules declares the code
> relax-demand g1 proof floors
heads 0 2; need phone 1 1 0 0 0 0
< 4
demand: line 2: not a work code
!
demand: line 2, word 2: phone is no code, which is one byte
> relax-demand g1 proof floors
heads 0 2; heads 0 3
< 4
demand: line 2: said twice
!
demand: line 2, word 1: heads stands in line 1 already
> relax-demand g1 proof floors
heads 0 2; need a 1 1 0 0 0 0; need a 1 1 0 0 0 0
< 4
demand: line 3: said twice
!
demand: line 3, word 2: a has such a line already, line 2
> relax-demand g1 proof floors
heads 0 2; need a 1 1 0 0 0
< 4
demand: line 2: wrong count of needs
!
demand: line 2: 3 numbers, the day has 4 periods
> relax-demand g1 proof floors
need a 1 1 0 0 0 0
< 4
demand: no heads line
!
demand: a line heads A B is wanted, or a line group NAME A B of each group
> relax-demand g1 proof floors
least a 0 0 0 0
< 4
demand: line 1: no need line before
!
demand: line 1, word 2: a: no need line of the code stands above
> relax-demand g1 proof floors
group Night 0 1
< 4
demand: line 1: no such name
!
demand: line 1, word 2: Night is no name of the rules
> relax-demand g6 proof floors
group F 0 1; heads 0 2
< 4
demand: line 2: heads and groups together
!
demand: line 2, word 1: heads: line 1 begins with group; a day has either
> check g1 proof pair
heads 0 80
< 4
demand: line 1: out of range
!
demand: line 1, word 3: 80: at most 64
> solve g1 proof p 1
heads 0 80
< 4
demand: line 1: out of range
!
demand: line 1, word 3: 80: at most 64
> curve g1 proof p 1
heads 0 80
< 4
demand: line 1: out of range
!
demand: line 1, word 3: 80: at most 64
";

#[test]
fn faults_of_demands_are_noted(rt: HostRuntime) -> Result<(), Fail> {
    have_answers(rt.alloc(), DEMAND)
}

/// Faults of proof texts, and what is noted of each.
const PROOFS: &str = "
> check g1 q1 proof
proof 2
< 5
proof: line 1: bad header
!
proof: line 1: proof 2 stands first; proof 1 is wanted, since the day has no groups
> check g1 q1 bad_byte
< 5
proof: line 4: bad byte
!
proof: line 4, word 3: the byte 255 is no printable ASCII; only a comment may hold it
> check g1 q1 proof
proof 1; bound 4
< 5
proof: line 2: unknown line
!
proof: line 2, word 1: bound stands where cost X is wanted
> check g1 q1 proof
proof 1; cost 4; bound 4; shift .aaa; pinned; end
< 5
proof: line 4: unknown line
!
proof: line 4: 2 words; the form is shift WORD PRICE
> check g1 q1 proof
proof 1; cost 4; bound 4; leaf
< 5
proof: line 4: unknown line
!
proof: line 4, word 1: leaf begins no line that may stand here: one of a shift, a node or its prices
> check g1 q1 proof
proof 1; cost many
< 5
proof: line 2: bad number
!
proof: line 2, word 2: many is no number, which is of digits alone, the first of them 0 only in 0
> check g1 q1 proof
proof 1; cost 4; bound 4; shift .aaa 5; split 65 0 1 3 1 0
< 5
proof: line 5: out of range
!
proof: line 5, word 2: 65: at most 64
> check g6 q7 proof
proof 2; cost 4; bound 4; shift K aa 5; bare; end
< 5
proof: line 4: out of range
!
proof: line 4, word 2: K is no group of the demand
> check g1 q1 proof
proof 1; cost none; bound 4; priced 1; price a 1 x 2 3
< 5
proof: line 5: bad number
!
proof: line 5, word 4: x is no number
> check g1 q1 proof
proof 1; cost none; bound 0; bare; bare; end
< 5
proof: line 5: text after the end
!
proof: line 5, word 1: bare: the tree of nodes is whole, and end is the last line
> check g1 q1 proof
proof 1; cost none; bound 0; bare
< 5
proof: the text ends early
!
proof: the last line is line 4, and a line end is wanted
> reuse g1 q1 proof
report 1
< 5
proof: line 1: bad header
!
proof: line 1: report 1 stands first; proof 1 is wanted, since the day has no groups
> solve g2 q2 p 1 proof
reports 1
< 5
proof: line 1: bad header
!
proof: line 1: reports 1 stands first; proof 1 is wanted, since the day has no groups
> solve g2 q2 p 1 proof
proof 1; shift aa. 2 \u{e4}
< 5
proof: line 2: bad byte
!
proof: line 2, word 4: the byte 195 is no printable ASCII; only a comment may hold it
> solve g2 q2 p 1 proof
proof 1; cost 4; bound 3; shift aa. two
< 5
proof: line 4: bad number
!
proof: line 4, word 3: two stands where a number may
> solve g2 q2 p 1 proof
report 2; cost 4; shift aa.
< 5
proof: line 1: bad header
!
proof: line 3: 2 words; the form is shift WORD, or with a number behind it; \
behind proof 2 and report 2 a name stands before WORD
> solve g2 q2 p 1 proof
report 1; result none; cost none
< 5
proof: line 1: bad header
!
proof: line 3: the report says that there is no roster
";

#[test]
fn faults_of_proofs_are_noted(rt: HostRuntime) -> Result<(), Fail> {
    have_answers(rt.alloc(), PROOFS)
}

/// Faults of roster texts, and what is noted of each.
const ROSTERS: &str = "
> value g1 q1 proof
shift .aaa; shifts aaa.
< 5
roster: line 2: unknown line
!
roster: line 2, word 1: shifts begins no line of a roster, whose lines begin with shift
> rest g6 q7 proof
shift F
< 5
roster: line 1: unknown line
!
roster: line 1: 2 words; the form is shift NAME WORD, or with a number behind it
> value g1 q1 proof
shift .aaa 5e
< 5
roster: line 1: bad number
!
roster: line 1, word 3: 5e stands where a number may
> rest g6 q7 proof
shift K aa
< 5
roster: line 1: no such name
!
roster: line 1, word 2: K is no group of the demand
> value g1 q1 proof
report 1; result none; cost none
< 5
roster: line 3: no roster
!
roster: line 3: the report says that there is no roster
> value g1 q1 proof
shift aa#a
< 1 ..
shift 1 aa: no shift
!
roster: line 1: a # stands in a word; what follows it is a comment
> value g1 q1 proof
shift aaa. # ill
< 0 ..
shift aaa. 5
!
";

#[test]
fn faults_of_rosters_are_noted(rt: HostRuntime) -> Result<(), Fail> {
    have_answers(rt.alloc(), ROSTERS)
}
