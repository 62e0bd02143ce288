//! Transcripts of `explain`, `rank`, `next` and `fits`.
//!
//! `explain`, `rank`, `next` and `fits`: derivations and why a word has none, ranked trees (1,000 of one
//! word), codes that may follow, shifts that fit, a name to begin at.

use crate::shelves::{answer, shelf_of};
use crate::transcripts::have_answers;
use std::alloc::{AllocError, Global};
use std::test::Fail;

/// Derivations, and why a word has none.
const DERIVATIONS: &str = "
> explain g4 aa
< 0
word aa
cost 3
use 2 S 1 2
use 3 T 1 1
use 3 T 2 1
> explain g1 aaaa
< 1
no derivation
!
rules: line 5: no shift uses this rule
the first 3 of 4 letters begin a shift, and no more
> explain g1 a...
< 1
no derivation
!
rules: line 5: no shift uses this rule
the first 1 of 4 letters begin a shift, and no more
> explain g1 .aa
< 1
no derivation
!
rules: line 5: no shift uses this rule
3 letters, the day has 4
> explain g1 ''
< 1
no derivation
!
rules: line 5: no shift uses this rule
0 letters, the day has 4
> explain g1 .a#.
< 1
no derivation
!
rules: line 5: no shift uses this rule
# is no code
> explain one a
< 1
no derivation
!
rules: line 9: len 2 3, but the last period is 1
rules: there is no shift
the rules have no shift
> explain g6 aa F
< 0
word aa
cost 3
use 3 F 1 2
> explain g6 aa X
< 2
words: none of the forms
> explain empty aa
< 3
rules: no periods line
> explain absent aa
< 6
!
absent: no such file
";

#[test]
fn words_have_their_derivations(rt: HostRuntime) -> Result<(), Fail> {
    have_answers(rt.alloc(), DERIVATIONS)
}

/// Trees of a day, codes that may follow, and shifts that fit.
const QUESTIONS: &str = "
> rank g1 10
< 0
trees 5
tree 1 4 ..aa
tree 2 4 aa..
tree 3 4 .aa.
tree 4 5 .aaa
tree 5 5 aaa.
> rank g4 5
< 0
trees 2
tree 1 3 aa
tree 2 5 aa
> rank equal_rules 5
< 0
trees 2
tree 1 3 aa
tree 2 3 aa
!
rules: line 5: the same rule as in line 4
> rank one 3
< 1
trees 0
!
rules: line 9: len 2 3, but the last period is 1
rules: there is no shift
> next g1 .aa
< 0
code a 5
code . 4
> next g1 ''
< 0
code a 4
code . 4
> next g1 ..
< 0
code a 4
> next g1 a.
< 1
longest 1
> next g1 aaaa
< 1
longest 3
> next g1 .aa.
< 1
longest 4
> next g1 .aa.a
< 1
longest 4
> fits g1 #a#.
< 0
least 4
at 1 a 4
at 1 . 4
at 3 a 4
at 3 . 4
> fits g1 .aa.
< 0
least 4
> fits g1 a##a
< 1
no shift
!
the first 3 of 4 letters begin a shift, and no more
> fits g1 ##
< 1
no shift
!
2 letters, the day has 4
> fits g1 b##a
< 1
no shift
!
b is no code
> fits one #
< 1
no shift
!
the rules have no shift
";

#[test]
fn questions_on_a_day_have_their_answers(rt: HostRuntime) -> Result<(), Fail> {
    have_answers(rt.alloc(), QUESTIONS)
}

/// Returns how many lines tell a rule use.
fn uses(text: &[u8]) -> usize {
    text.split(|byte| *byte == b'\n')
        .filter(|line| line.starts_with(b"use "))
        .count()
}

/// Whether a shift of the call centre costs 28, by 27 rule uses.
fn has_27_uses(alloc: Global) -> Result<bool, Fail> {
    let mut shelf = shelf_of(alloc, &[])?;
    let status = answer(alloc, &mut shelf, "explain g3 ....aaaammaapaa.........")?;
    let said = shelf.said();
    Ok(
        status == 0
            && said.starts_with(b"word ....aaaammaapaa.........\ncost 28\n")
            && uses(said) == 27,
    )
}

#[test]
fn a_call_centres_shift_has_its_cost(rt: HostRuntime) -> Result<(), Fail> {
    assert!(rt; has_27_uses(rt.alloc())?);
    Ok(())
}

/// A word of 96 letters.
const LONG_WORD: &str = "aaaaaaaaaaaaaaaaaaaaaaaaaaaaaaaaaaaaaaaaaaaaaaaa\
aaaaaaaaaaaaaaaaaaaaaaaaaaaaaaaaaaaaaaaaaaaaaaaa";

/// Returns what is said of 1,000 trees of a word, each at 0.
fn thousand_trees(alloc: Global, word: &str) -> Result<String, AllocError> {
    let mut text = String::from_str(alloc, "trees 1000\n")?;
    for number in 1..=1000u32 {
        let line = format!(in alloc; "tree {number} 0 {word}\n")?;
        text.push_str(line.as_str())?;
    }
    Ok(text)
}

/// Whether the first 1,000 trees of the only word of a day are told.
fn ranks(alloc: Global) -> Result<bool, Fail> {
    let wanted = thousand_trees(alloc, LONG_WORD)?;
    let mut shelf = shelf_of(alloc, &[])?;
    let status = answer(alloc, &mut shelf, "rank g5 1000")?;
    Ok(status == 0 && shelf.said() == wanted.as_bytes())
}

#[test]
fn a_thousand_trees_of_one_word(rt: HostRuntime) -> Result<(), Fail> {
    assert!(rt; ranks(rt.alloc())?);
    Ok(())
}
