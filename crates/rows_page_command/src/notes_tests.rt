//! What is noted where a labels text, a proof text, a report or an old text is refused.

use crate::transcripts::{answer, have_answers_to_own, shelf_of};
use std::alloc::Global;
use std::test::Fail;

/// Faults of labels texts by their bytes, forms and numbers, and what is noted of each.
const LABELS: &str = "
~ title a; code a Gespr\u{e4}ch a\u{85}b
<
page g1 two best own
5
labels: line 2: bad byte
!
labels: line 2, word 4: the character U+0085 may stand in no line; only a comment may hold it
~ titel Saturday
<
page g1 two best own
5
labels: line 1: unknown line
!
labels: line 1, word 1: titel begins no line; \
the lines begin with title, clock, code, group, money, decimals, paid, off and shift
~ \u{2014} a
<
page g1 two best own
5
labels: line 1: unknown line
!
labels: line 1, word 1: a word that is not all printable ASCII begins no line; \
the lines begin with title, clock, code, group, money, decimals, paid, off and shift
~ title
<
page g1 two best own
5
labels: line 1: unknown line
!
labels: line 1: 1 words; the form is title WORDS
~ title a; clock 7:00
<
page g1 two best own
5
labels: line 2: unknown line
!
labels: line 2: 2 words; the form is clock TIME MINUTES
~ code a
<
page g1 two best own
5
labels: line 1: unknown line
!
labels: line 1: 2 words; the form is code C WORDS
~ group F
<
page halves groups staff own
5
labels: line 1: unknown line
!
labels: line 1: 2 words; the form is group NAME WORDS
~ money
<
page g1 two best own
5
labels: line 1: unknown line
!
labels: line 1: 1 words; the form is money WORDS
~ decimals 2 3
<
page g1 two best own
5
labels: line 1: unknown line
!
labels: line 1: 3 words; the form is decimals N
~ paid .
<
page g1 two best own
5
labels: line 1: unknown line
!
labels: line 1: 2 words; the form is paid C yes, or paid C no
~ paid . maybe
<
page g1 two best own
5
labels: line 1: unknown line
!
labels: line 1, word 3: maybe stands where yes or no is wanted
~ off . a
<
page g1 two best own
5
labels: line 1: unknown line
!
labels: line 1: 3 words; the form is off C
~ shift 1 .aaa
<
page g1 two best own
5
labels: line 1: unknown line
!
labels: line 1: 3 words; the form is shift N WORD WORDS
~ shift 1 F aa
<
page halves groups staff own
5
labels: line 1: unknown line
!
labels: line 1: 4 words; the form is shift N GROUP WORD WORDS
~ clock 7.00 60
<
page g1 two best own
5
labels: line 1: bad number
!
labels: line 1, word 2: 7.00 is no time, which is H:MM or HH:MM
~ clock 7:00 1h
<
page g1 two best own
5
labels: line 1: bad number
!
labels: line 1, word 3: 1h is no number, which is of digits alone, the first of them 0 only in 0
~ clock 24:00 60
<
page g1 two best own
5
labels: line 1: out of range
!
labels: line 1, word 2: 24:00: at most 23 hours and 59 minutes
~ clock 23:60 60
<
page g1 two best own
5
labels: line 1: out of range
!
labels: line 1, word 2: 23:60: at most 23 hours and 59 minutes
~ clock 23:59 1441
<
page g1 two best own
5
labels: line 1: out of range
!
labels: line 1, word 3: 1441: at most 1440
~ clock 0:00 0
<
page g1 two best own
5
labels: line 1: out of range
!
labels: line 1, word 3: 0: at least 1
~ decimals 5
<
page g1 two best own
5
labels: line 1: out of range
!
labels: line 1, word 2: 5: at most 4
~ shift 0 .aaa Ann
<
page g1 two best own
5
labels: line 1: out of range
!
labels: line 1, word 2: 0: at least 1
~ shift 4294967296 .aaa Ann
<
page g1 two best own
5
labels: line 1: out of range
!
labels: line 1, word 2: 4294967296: at most 4294967295
~ code a 123456789 123456789 123456789 123456789 123456789 123456789 1
<
page g1 two best own
5
labels: line 1: out of range
!
labels: line 1: words of 61 bytes: at most 60
~ shift 1 F aa 123456789 123456789 123456789 123456789 123456789 \u{e4}2345678 1
<
page halves groups staff own
5
labels: line 1: out of range
!
labels: line 1: words of 61 bytes: at most 60
";

#[test]
fn what_is_wrong_with_labels_is_noted(rt: HostRuntime) -> Result<(), Fail> {
    have_answers_to_own(rt.alloc(), LABELS)
}

/// Faults of labels texts beside a day and a roster, and what is noted of each.
const NAMES: &str = "
~ code b desk
<
page g1 two best own
5
labels: line 1: unknown code
!
labels: line 1, word 2: b: no work or idle line of the rules declares the code
~ off 'a'
<
page g1 two best own
5
labels: line 1: unknown code
!
labels: line 1, word 2: 'a' is no code, which is one byte
~ group W people
<
page halves groups staff own
5
labels: line 1: no such name
!
labels: line 1, word 2: W is no group of the demand
~ shift 1 K aa Ann
<
page halves groups staff own
5
labels: line 1: no such name
!
labels: line 1, word 3: K is no group of the demand
~ paid a no
<
page g1 two best own
5
labels: line 1: bad name
!
labels: line 1, word 2: a is a code of work, whose periods count as paid
~ off a
<
page g1 two best own
5
labels: line 1: bad name
!
labels: line 1, word 2: a is a code of work, and no time off
~ # the idle one; paid . yes; off .
<
page g1 two best own
5
labels: line 3: bad name
!
labels: line 3, word 2: . counts as paid by line 2, and is no time off
~ off .; paid . yes
<
page g1 two best own
5
labels: line 2: bad name
!
labels: line 2, word 2: . is time off by line 1, which does not count as paid
~ money \u{20ac}; title a; money EUR
<
page g1 two best own
5
labels: line 3: said twice
!
labels: line 3, word 1: money stands in line 1 already
~ code a \u{e4}; code . idle; code a desk
<
page g1 two best own
5
labels: line 3: said twice
!
labels: line 3, word 2: a has such a line already, line 1
~ shift 1 aaa. Ann; shift 2 aaa. Bo; shift 1 .aaa Cy
<
page g1 two best own
5
labels: line 3: said twice
!
labels: line 3, word 2: 1 has such a line already, line 1
~ shift 2 .aaa Ann
<
page g1 two best own
5
labels: line 1: another shift
!
labels: line 1, word 3: .aaa: shift 2 is aaa.
~ shift 1 H aa Ann
<
page halves groups staff own
5
labels: line 1: another shift
!
labels: line 1, word 3: H: shift 1 is one of F
~ shift 2 H aa Ann
<
page halves groups team_report own
5
labels: line 1: another shift
!
labels: line 1, word 4: aa: shift 2 is a.
~ shift 3 .aaa Ann
<
table g1 two best own
5
labels: line 1: no such shift
!
labels: line 1, word 2: 3: the roster has 2 shifts
~ code a desk
<
calendar g1 two best own 2026-02-28
5
labels: no clock line
!
labels: a line clock TIME MINUTES is wanted: when the first period begins, as 7:00, and how long a period is
~ clock 7:00 30
<
calendar g1 two best own 2026-02-28 3
5
calendar: no such shift
!
calendar: the roster has 2 shifts
~ title a
<
page g1 two best own
0 ..
!
";

#[test]
fn what_labels_name_is_noted(rt: HostRuntime) -> Result<(), Fail> {
    have_answers_to_own(rt.alloc(), NAMES)
}

/// Faults of the other texts, and what is noted of each: one note, of the text whose fault is said.
const OTHERS: &str = "
~ proof 1; cost 10; bound 10; shift .aaa; bare; end
<
page g1 two own twice
5
proof: line 4: unknown line
!
proof: line 4: 2 words; the form is shift WORD PRICE
~ proof 2
<
page g1 two own
5
proof: line 1: bad header
!
proof: line 1: proof 2 stands first; proof 1 is wanted, since the day has no groups
~ report 1; shift .aaa five
<
table g1 two own
5
roster: line 2: bad number
!
roster: line 2, word 3: five stands where a number may
~ report 1; shift .aa#
<
page g1 two own
1 ..
shift 1 .aa: no shift
!
roster: line 2: a # stands in a word; what follows it is a comment
~ proof 1; cost 10; bound ten
<
page g1 two best called own
5
old: line 3: bad number
!
old: line 3, word 2: ten is no number, which is of digits alone, the first of them 0 only in 0
~ report 1; shift .aaa five
<
page g1 two best called own
5
old: line 2: bad number
!
old: line 2, word 3: five stands where a number may
~ report 1; shift .aaa; shift aaa
<
page g1 two best called own
5
old: shift 2: wrong length
!
old: shift 2 has another length than the day of 4 periods
~ report 1; shift .aaa five
<
page g1 two best third own
5
old: line 2: bad number
!
old: line 2, word 3: five stands where a number may
";

#[test]
fn what_is_wrong_with_other_texts_is_noted(rt: HostRuntime) -> Result<(), Fail> {
    have_answers_to_own(rt.alloc(), OTHERS)
}

/// A labels text whose second line has a byte of no character of UTF-8, one that is in UTF-16, and one that
/// is too long, each with what is noted of it.
const BYTES: [(&[u8], &[u8]); 3] = [
    (
        b"title a\ncode a x\xc3\xa4\xff\n",
        b"labels: line 2, word 3: the byte 255 stands in no character of UTF-8; only a comment may hold it\n",
    ),
    (
        b"\xff\xfet\x00i\x00",
        b"labels: the text is in UTF-16: save it as UTF-8\n",
    ),
    (
        b"title a\rb\r\n",
        b"labels: line 1, word 2: the character U+000D may stand in no line; only a comment may hold it\n",
    ),
];

/// Whether this is noted of a labels text.
fn notes_so(alloc: Global, text: &[u8], note: &[u8]) -> Result<bool, Fail> {
    let mut shelf = shelf_of(alloc, &[])?;
    shelf.put("bytes", text)?;
    let status = answer(alloc, &mut shelf, "page g1 two best bytes")?;
    Ok(status == 5 && shelf.notes() == note)
}

#[test]
fn bytes_of_labels_are_noted(rt: HostRuntime) -> Result<(), Fail> {
    for (text, note) in BYTES {
        assert!(rt; notes_so(rt.alloc(), text, note)?);
    }
    Ok(())
}

#[test]
fn long_labels_are_noted(rt: HostRuntime) -> Result<(), Fail> {
    let long = "#".repeat(rt.alloc(), 65_537)?;
    assert!(rt;
        notes_so(
            rt.alloc(),
            long.as_bytes(),
            b"labels: more than 65536 bytes\n"
        )?
    );
    Ok(())
}
