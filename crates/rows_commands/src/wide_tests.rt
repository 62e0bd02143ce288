//! A turn on a day whose root has an exact path with numbers above 2^56.
//!
//! One turn on a day whose root has an exact path with numbers above 2^56 leaves no node without prices, and
//! a bound above 0.

use crate::shelves::{answer, is_said, shelf_of};
use command_shelf::MemoryShelf;
use std::alloc::Global;
use std::test::Fail;

/// The rules of a shop of one activity over 28 periods whose root has an exact path with numbers above 2^56.
///
/// A word is seven of twenty blocks of four periods. Blocks, words and costs were drawn at random, as were
/// those of other days, until the exact path of a root was given up for a number above 2^56; then rules were
/// taken out while it still was. Of 300 such days of 24 to 27 periods and one activity none had such a root.
const WIDE: &str = "periods 28
work a
idle .
start S
rule S 8045 = N0 N3 N18 N1 N12 N18 N11
rule S 2096 = N0 N18 N17 N18 N15 N11 N0
rule S 6016 = N1 N11 N15 N17 N16 N18 N12
rule S 171 = N1 N18 N12 N0 N7 N11 N3
rule S 9795 = N2 N3 N19 N7 N13 N12 N17
rule S 7949 = N2 N10 N1 N10 N9 N16 N11
rule S 8714 = N3 N9 N12 N18 N2 N18 N5
rule S 381 = N3 N10 N6 N19 N6 N3 N11
rule S 5121 = N4 N2 N2 N6 N12 N10 N18
rule S 4722 = N4 N6 N12 N16 N5 N15 N12
rule S 7518 = N4 N14 N9 N6 N7 N14 N11
rule S 7219 = N4 N15 N9 N11 N14 N10 N8
rule S 4488 = N5 N13 N6 N9 N13 N13 N8
rule S 7779 = N5 N16 N19 N8 N17 N3 N10
rule S 4623 = N6 N2 N17 N9 N11 N9 N3
rule S 870 = N6 N13 N6 N9 N2 N3 N3
rule S 1334 = N6 N13 N14 N8 N16 N7 N9
rule S 1456 = N6 N17 N15 N18 N10 N12 N6
rule S 137 = N7 N5 N1 N4 N1 N9 N14
rule S 3882 = N7 N13 N12 N16 N3 N19 N13
rule S 3199 = N8 N2 N17 N11 N2 N18 N8
rule S 4921 = N8 N18 N9 N10 N8 N17 N4
rule S 520 = N9 N1 N19 N10 N15 N8 N14
rule S 6913 = N10 N2 N2 N3 N16 N2 N1
rule S 2890 = N10 N10 N10 N10 N18 N3 N9
rule S 5963 = N10 N13 N3 N3 N4 N7 N1
rule S 6940 = N11 N10 N10 N11 N0 N5 N2
rule S 5088 = N15 N0 N8 N7 N11 N2 N3
rule N0 7840 = 'a' '.' 'a' '.'
rule N1 5355 = 'a' '.' '.' 'a'
rule N2 4683 = 'a' 'a' '.' '.'
rule N3 5228 = '.' '.' 'a' '.'
rule N4 7392 = 'a' '.' '.' 'a'
rule N5 8976 = '.' 'a' 'a' 'a'
rule N6 8583 = '.' 'a' '.' 'a'
rule N7 8377 = '.' '.' '.' 'a'
rule N8 788 = '.' 'a' '.' '.'
rule N9 6887 = 'a' '.' '.' 'a'
rule N10 1248 = '.' 'a' 'a' 'a'
rule N11 8185 = '.' '.' 'a' '.'
rule N12 3441 = 'a' '.' '.' '.'
rule N13 6360 = 'a' 'a' 'a' '.'
rule N14 572 = 'a' 'a' '.' 'a'
rule N15 5325 = '.' '.' 'a' 'a'
rule N16 3984 = 'a' 'a' '.' '.'
rule N17 7981 = '.' 'a' 'a' '.'
rule N18 7201 = 'a' '.' 'a' 'a'
rule N19 4452 = 'a' 'a' 'a' '.'
";

/// What is needed: 60 times the share of the drawn words that work in a period, of which at most one may be
/// missing.
const WIDE_NEEDS: &str = "heads 0 64
need a 97 9967 26 30 29 38 35 37 38 20 34 33 31 30 27 23 30 35 35 30 22 26 27 22 33 25 26 23 31 27
least a 25 29 28 37 34 36 37 19 33 32 30 29 26 22 29 34 34 29 21 25 26 21 32 24 25 22 30 26
";

/// Returns a shelf with the texts of the tests and the day.
fn wide_shelf(alloc: Global) -> Result<MemoryShelf, Fail> {
    let mut shelf = shelf_of(alloc, &[])?;
    shelf.put("wide", WIDE.as_bytes())?;
    shelf.put("wide_needs", WIDE_NEEDS.as_bytes())?;
    Ok(shelf)
}

/// Whether no node was left without prices, and the bound is not 0.
fn is_bounded(report: &[u8]) -> bool {
    is_said(report, "failed 0") && !is_said(report, "bound 0")
}

/// Whether one turn leaves the root prices that show a bound above 0, and its certificate is accepted.
fn has_root_prices(alloc: Global) -> Result<bool, Fail> {
    let mut shelf = wide_shelf(alloc)?;
    let status = answer(alloc, &mut shelf, "solve wide wide_needs p 1")?;
    if (status != 0 && status != 8) || !is_bounded(shelf.said()) {
        return Ok(false);
    }
    Ok(answer(alloc, &mut shelf, "check wide wide_needs p")? == 0)
}

#[test]
fn a_root_with_a_wide_exact_path_has_prices(rt: HostRuntime) -> Result<(), Fail> {
    assert!(rt; has_root_prices(rt.alloc())?);
    Ok(())
}
