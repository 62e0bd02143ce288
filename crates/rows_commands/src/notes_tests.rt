//! What is noted of odd rules and demands, of texts in other encodings, and of words without a form.

use crate::shelves::{answer, first_line, shelf_of};
use crate::transcripts::have_answers;
use std::alloc::Global;
use std::test::Fail;

/// What is odd about rules, and about a demand beside them.
const ODDITIES: &str = "
> rank beyond 1
< 0
trees 1
tree 1 0 aaa
!
rules: line 6: len 4 5, but the last period is 3
rules: line 7: begin 4 4, but the last period is 3
rules: line 8: end 5 9, but the last period is 3
rules: line 3: no shift has the code .
> explain idle_parts aa
< 0
word aa
cost 1
use 1 S 1 2
!
rules: line 6: no shift uses this rule
rules: line 7: no shift uses the name M
rules: line 2: no shift has the code b
rules: line 3: no shift has the code .
> rank teams 1
< 0
trees 1
tree 1 1 a.
!
rules: line 9: no shift uses the name K
> solve teams two_teams p 10
< 0 ..
report 2
!
demand: line 2: no shift of S is one of K
rules: line 6: no group has the name H
> solve late early_floors p 10
< 1 ..
result none
!
demand: line 2: no shift has a in period 1
floor a period 1: 2, at most 1
floor a period 1: 2, but no shift has a there
how much is missing, relax-rules RULES and relax-demand RULES DEMAND floors tell, or ceilings
> solve free_pairs pairs p 2
< 8 ..
result turns
!
nothing is proved yet: give more turns or seconds, or make the rules simpler
> solve two_jobs two_needs p 10
< 0 ..
cost 11
!
demand: line 3: nobody works at b: a shift with it in a period of need costs 30 at least, a missing one 10 a period
> solve long_idle one_head p 1
< 9 ..
!
> rank repeated 1
< 0
trees 1
tree 1 0 a
!
rules: line 5: the same rule as in line 4
rules: line 6: the same rule as in line 4
rules: line 7: the same rule as in line 4
rules: line 8: the same rule as in line 4
rules: line 9: the same rule as in line 4
rules: line 10: the same rule as in line 4
rules: line 11: the same rule as in line 4
rules: line 12: the same rule as in line 4
rules: line 13: the same rule as in line 4
rules: line 14: the same rule as in line 4
rules: line 15: the same rule as in line 4
rules: line 16: the same rule as in line 4
and 2 more
";

#[test]
fn what_is_odd_is_named(rt: HostRuntime) -> Result<(), Fail> {
    have_answers(rt.alloc(), ODDITIES)
}

/// Texts in other encodings: as rules, as a demand and as a certificate.
const ENCODINGS: &str = "
> explain marked aa
< 3
rules: line 1: bad byte
!
the text begins with a byte order mark: save it as UTF-8 without one
> fits high a
< 3
rules: line 1: bad byte
!
the text is in UTF-16: save it as UTF-8 without a byte order mark
> check bare q1 halves
< 3
rules: line 1: bad byte
!
the text is in UTF-16: save it as UTF-8 without a byte order mark
> solve g1 low p 1
< 4
demand: line 1: bad byte
!
the text is in UTF-16: save it as UTF-8 without a byte order mark
> reuse g1 q1 marked
< 5
proof: line 1: bad byte
!
the text begins with a byte order mark: save it as UTF-8 without one
";

#[test]
fn another_encoding_is_named(rt: HostRuntime) -> Result<(), Fail> {
    have_answers(rt.alloc(), ENCODINGS)
}

/// What is noted to words that have no form.
const FORMS: &str = "\
the forms are:
explain RULES WORD [NAME]
rank RULES MOST [NAME]
next RULES PREFIX [NAME]
fits RULES PATTERN [NAME]
check RULES DEMAND PROOF
value RULES DEMAND ROSTER
rest RULES DEMAND ROSTER
relax-rules RULES
relax-demand RULES DEMAND KIND
reuse RULES DEMAND PROOF
solve RULES DEMAND PROOF LIMIT [FROM]
curve RULES DEMAND PROOF LIMIT [NAME]
make NUMBER PROOF LIMIT
LIMIT is 1 to 10000 turns, or 1s to 86400s for seconds; MOST 1 to 1000, NUMBER 0 to 4294967295;
KIND is floors or ceilings; FROM is an old proof or report to begin with;
NAME is a name of the rules to begin at, in place of the start name; of curve the name of a group
";

/// Words without a form, each behind `>`, and what is noted behind the forms.
const NO_FORMS: &str = "
>
> check g1
> rank g1 0
MOST is a number from 1 to 1000
> rank g1 0 W
MOST is a number from 1 to 1000
> relax-rules
> relax-demand g1 q1
> relax-demand g1 q1 floor
KIND is floors or ceilings
> solve g1 q1 p 0
LIMIT is a number of turns from 1 to 10000, or of seconds from 1s to 86400s
> solve g1 q1 p 010
LIMIT is a number of turns from 1 to 10000, or of seconds from 1s to 86400s
> curve g1 q1 p 86401s q
LIMIT is a number of turns from 1 to 10000, or of seconds from 1s to 86400s
> make 4294967296 p 1
NUMBER is a number from 0 to 4294967295
> make 7 p 0
LIMIT is a number of turns from 1 to 10000, or of seconds from 1s to 86400s
> make 7 p 10001
LIMIT is a number of turns from 1 to 10000, or of seconds from 1s to 86400s
> make -1 p 0
NUMBER is a number from 0 to 4294967295
LIMIT is a number of turns from 1 to 10000, or of seconds from 1s to 86400s
";

/// Whether it is said that the words have no form, and the forms are noted and this behind them.
fn notes_forms(alloc: Global, words: &str, more: &str) -> Result<bool, Fail> {
    let mut shelf = shelf_of(alloc, &[])?;
    let status = answer(alloc, &mut shelf, words)?;
    let wanted = [FORMS, more].concat(alloc)?;
    Ok(
        status == 2
            && shelf.said() == b"words: none of the forms\n".as_slice()
            && shelf.notes() == wanted.as_bytes(),
    )
}

#[test]
fn words_without_a_form_are_told_the_forms(rt: HostRuntime) -> Result<(), Fail> {
    for text in NO_FORMS.split('>').skip(1) {
        let (words, more) = first_line(text);
        if !notes_forms(rt.alloc(), words, more)? {
            return Err(Fail::from(text));
        }
    }
    Ok(())
}
