//! Numbers at the ends of their range and words that are none; carriage returns, comments and bad bytes.

use std::test::Fail;
use text_lines::{Lines, NumberFault, read_natural, read_number};

const GREATEST: i128 = 170141183460469231731687303715884105727;

/// A word, and the number that it is read as.
type NumberRow = (&'static [u8], Result<i128, NumberFault>);

const NUMBERS: [NumberRow; 9] = [
    (b"-17", Ok(-17)),
    (b"170141183460469231731687303715884105727", Ok(GREATEST)),
    (
        b"170141183460469231731687303715884105728",
        Err(NumberFault::Wide),
    ),
    (
        b"-170141183460469231731687303715884105728",
        Err(NumberFault::Wide),
    ),
    (b"-0", Err(NumberFault::Form)),
    (b"00", Err(NumberFault::Form)),
    (b"-01", Err(NumberFault::Form)),
    (b"+1", Err(NumberFault::Form)),
    (
        b"0170141183460469231731687303715884105728",
        Err(NumberFault::Form),
    ),
];

// Whether the words are read as these numbers.
fn are_read(rows: &[NumberRow]) -> bool {
    for (word, want) in rows {
        if read_number(word) != *want {
            return false;
        }
    }
    true
}

// Where no sign may stand, a wide number below 0 is no number.
#[test]
fn numbers_are_read(rt: HostRuntime) {
    assert!(rt; are_read(&NUMBERS));
    let word = b"-170141183460469231731687303715884105728";
    assert!(rt; read_natural(word) == Err(NumberFault::Form));
}

/// The number of a line, and how many words it has; none where it has a bad byte.
type LineRow = (u32, Option<usize>);

/// A carriage return is dropped before a line feed alone, and a comment may hold any byte.
const LINES: [LineRow; 6] = [
    (1, Some(2)),
    (4, None),
    (5, Some(1)),
    (6, None),
    (7, None),
    (8, None),
];

// The next line.
fn next_line(lines: &mut Lines<'_>) -> Option<LineRow> {
    match lines.next() {
        None => None,
        Some(Ok(line)) => Some((line.number(), Some(line.count()))),
        Some(Err(fault)) => Some((fault.line, None)),
    }
}

// Whether these are the lines, and no further ones.
fn are_lines(lines: &mut Lines<'_>, rows: &[LineRow]) -> bool {
    for want in rows {
        if next_line(lines) != Some(*want) {
            return false;
        }
    }
    next_line(lines).is_none()
}

#[test]
fn lines_have_words(rt: HostRuntime) {
    let mut lines = Lines::new(b"one\ttwo \r\n\n # \xff\n\xff\n last# a\r b\r\nlast\r#\nx\r\r\n\r");
    assert!(rt; are_lines(&mut lines, &LINES));
}
