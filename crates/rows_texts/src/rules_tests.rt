//! Rules texts that are read, and refused ones with their faults.

use crate::days::BLOCKS;
use model_rosters::{List, Memory};
use std::alloc::{AllocError, Global};
use std::test::Fail;
use text_rules::{fault_line, read_rules, write_rules};

// The lines of [`BLOCKS`], laid out otherwise.
const SPREAD: &'static str =
    "# a day\r\n\n\tperiods\t4 # \u{e9}\r\nwork a\nidle .\r\n\n start  S\nrule S 0 = W
rule S 0 = R W
rule S 0 = W R\t#
rule S 0 = R W R
\x20 \t
rule W 2 = A len 2 3
rule A 1 = 'a'
rule A 1 = 'a' A
rule R 0 = '.'
rule R 0 = '.' R";

const PAIRS: &'static str = "periods 2
work a
start S
rule S 5 = 'a' 'a'
rule S 3 = T T
rule T 0 = 'a'
";

// The fault line of a text that is refused; nothing for one that is accepted.
fn answer(alloc: Global, text: &[u8]) -> Result<List<u8>, Memory> {
    match read_rules(alloc, text) {
        Ok(_) => Ok(List::new(alloc)),
        Err(fault) => fault_line(alloc, &fault),
    }
}

// Whether a text has this fault line; an accepted text has none.
fn is_answered(alloc: Global, text: &[u8], want: &str) -> Result<bool, Fail> {
    let said = answer(alloc, text)?;
    Ok(said.as_slice() == want.as_bytes())
}

/// A text, and its fault line; an accepted text has none.
type Row<'a> = (&'a str, &'a str);

/// Whole texts.
const WHOLE: [Row<'static>; 4] = [
    ("periods 4\n", "rules: no start line\n"),
    (
        "periods 4\nstart A\nrule A 0 =",
        "rules: line 3: empty right side\n",
    ),
    (
        "periods 4\nstart A\nrule B 0 = C\nrule C 0 = D\nrule C 0 = C",
        "rules: line 4: a name has no rule\n",
    ),
    ("\u{feff}periods 4", "rules: line 1: bad byte\n"),
];

/// The lines before the others.
const HEAD: &str = "periods 4\nwork a\nstart A\n";

/// Which fault of a line comes first.
const ORDERS: [Row<'static>; 13] = [
    ("periods 4", "rules: line 4: said twice\n"),
    ("periods 97", "rules: line 4: out of range\n"),
    ("start 1", "rules: line 4: bad name\n"),
    ("rule 1 x = 'a' len 1 2 3", "rules: line 4: unknown line\n"),
    ("rule A 0 = 'a' len begin 2", "rules: line 4: bad number\n"),
    ("rule A x =", "rules: line 4: bad number\n"),
    ("rule A -1 = 'a'", "rules: line 4: bad number\n"),
    (
        "rule A 340282366920938463463374607431768211456 = 'a'",
        "rules: line 4: out of range\n",
    ),
    ("rule A 0 = len 1 2", "rules: line 4: empty right side\n"),
    ("rule A 0 = A A 1 A A A A A A", "rules: line 4: bad name\n"),
    ("rule A 0 = 'b' 1", "rules: line 4: unknown code\n"),
    // `A` and `D` lead to the cycle.
    (
        "rule A 0 = D\nrule D 0 = B\nrule B 0 = B",
        "rules: line 5: a name leads back to itself by one-symbol rules\n",
    ),
    ("idle = \"\nrule A 0 = '='", ""),
];

/// Limits.
const LIMITS: [Row<'static>; 6] = [
    (
        "work 1 2 3 4 5 6 7 8",
        "rules: line 4: too many work codes, at most 8\n",
    ),
    (
        "idle b c d e f g h i j k l m n o p q r s t u v w x y\nwork 1 2 3 4 5 6 7 8",
        "rules: line 5: too many codes, at most 32\n",
    ),
    (
        "rule A 0 = B C D E F G H I\nrule A 0 = J K L M N O P Q\nrule A 0 = R S T U V W X Y
rule A 0 = Z b c d e f g h",
        "rules: line 7: too many names, at most 32\n",
    ),
    (
        "rule A 0 = A A A A A A A A 1",
        "rules: line 4: too many symbols, at most 8\n",
    ),
    ("rule A 0 = 'a' len 2 2 begin 4 4", ""),
    ("rule A 10000 = 'a' A end 1 96 len 96 96 begin 1 1", ""),
];

// Whether lines behind some first ones have this fault line.
fn is_answered_after(alloc: Global, head: &str, lines: &str, want: &str) -> Result<bool, Fail> {
    let text = [head, lines].concat(alloc)?;
    is_answered(alloc, text.as_bytes(), want)
}

// Whether the texts, all behind the same first lines, have these fault lines.
fn compare(alloc: Global, head: &str, rows: &[Row<'_>]) -> Result<(), Fail> {
    for (lines, want) in rows {
        if !is_answered_after(alloc, head, lines, want)? {
            return Err(Fail::from(*lines));
        }
    }
    Ok(())
}

#[test]
fn faults(rt: HostRuntime) -> Result<(), Fail> {
    compare(rt.alloc(), "", &WHOLE)?;
    compare(rt.alloc(), HEAD, &ORDERS)?;
    compare(rt.alloc(), HEAD, &LIMITS)
}

/// Lines behind 64 rules.
const LAST: [Row<'static>; 3] = [
    ("", ""),
    (
        "rule 1 x = '.'\n",
        "rules: line 69: too many rules, at most 64\n",
    ),
    ("rule A 0 = 'a' len 1\n", "rules: line 69: unknown line\n"),
];

// The blocks with further rules, 64 in all.
fn many_rules(alloc: Global) -> Result<String, AllocError> {
    let rules = "rule R 0 = '.'\n".repeat(alloc, 55)?;
    [BLOCKS, rules.as_str()].concat(alloc)
}

#[test]
fn limit_of_rules(rt: HostRuntime) -> Result<(), Fail> {
    let rules = many_rules(rt.alloc())?;
    compare(rt.alloc(), rules.as_str(), &LAST)
}

// Whether a comment of so many bytes has this fault line.
fn is_comment(alloc: Global, count: usize, want: &str) -> Result<bool, Fail> {
    let long = vec![in alloc; b'#'; count]?;
    is_answered(alloc, &long, want)
}

#[test]
fn limit_of_bytes(rt: HostRuntime) -> Result<(), Fail> {
    assert!(rt; is_comment(rt.alloc(), 1_048_577, "rules: the text is too long\n")?);
    assert!(rt; is_comment(rt.alloc(), 1_048_576, "rules: no periods line\n")?);
    Ok(())
}

// The text of the grammar that a text says.
fn again(alloc: Global, text: &str) -> Result<List<u8>, Fail> {
    let grammar = read_rules(alloc, text.as_bytes())?;
    Ok(write_rules(alloc, &grammar)?)
}

// Whether the grammar of a text is written so.
fn is_written(alloc: Global, text: &str, want: &str) -> Result<bool, Fail> {
    let written = again(alloc, text)?;
    Ok(written.as_slice() == want.as_bytes())
}

#[test]
fn written_texts(rt: HostRuntime) -> Result<(), Fail> {
    assert!(rt; is_written(rt.alloc(), PAIRS, PAIRS)?);
    assert!(rt; is_written(rt.alloc(), SPREAD, BLOCKS)?);
    Ok(())
}
