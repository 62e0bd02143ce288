//! Plan texts that are read, and the line of the fault of others.

use model_rosters::{List, Memory};
use plan_faults::fault_line;
use plan_lines::read_plan;
use plan_meaning::{Part, Plan};
use std::alloc::Global;
use std::test::Fail;

/// The lines above the duties of a shop by hours, seven of them.
const ABOVE: &str =
    "day 9:00 21:00 60\nmoney EUR 2\nwork t 2:00 5:00 15.00 till\nwork c 2:00 5:00 15.00 counter\npause m 1:00 1:00 0 meal\nchange 1.00\nstretch 2:00 5:00\n";

/// A duty line, and lines of staff and needs.
const BELOW: &str =
    "duty Full 8:00 9:00 20.00 = work m 12:00 14:00 work begin 9:00 13:00\nstaff 2 4\nneed t 60.00 5.00\n";

// Appends a text to another.
fn joined(alloc: Global, texts: &[&str]) -> Result<List<u8>, Memory> {
    let mut all = List::new(alloc);
    for text in texts {
        all.extend_from_slice(text.as_bytes())?;
    }
    Ok(all)
}

// Whether this is what is said of a text; nothing of a plan.
fn says(alloc: Global, text: &[u8], want: &[u8]) -> bool {
    match read_plan(alloc, text) {
        Ok(_) => want.is_empty(),
        Err(fault) => match fault_line(alloc, &fault) {
            Ok(said) => said.as_slice() == want,
            Err(_) => false,
        },
    }
}

// Whether this is said of each text, which begins with the same lines.
fn say_all(alloc: Global, above: &str, rows: &[(&str, &str)]) -> bool {
    for (text, want) in rows {
        let Ok(text) = joined(alloc, &[above, *text]) else {
            return false;
        };
        if !says(alloc, text.as_slice(), want.as_bytes()) {
            return false;
        }
    }
    true
}

/// Texts that begin with no day line, and what is said of each.
const FIRST_LINES: [(&str, &str); 20] = [
    ("", "plan: no day line\n"),
    ("# nothing\n\n", "plan: no day line\n"),
    ("day 9:00 21:00 60\n", "plan: no work line\n"),
    ("\u{feff}day 9:00 21:00 60\r\n", "plan: no work line\n"),
    ("day 9:00 21:00 60\r", "plan: no work line\n"),
    (
        "day 9:00 21:00 60\nwork t 2:00 5:00 15 till\n",
        "plan: no change line\n",
    ),
    ("dutty\n", "plan: line 1: no line begins with dutty\n"),
    (
        "d\u{fc}ty\n",
        "plan: line 1: a sign that is no plain letter, as an accent or a curly quote\n",
    ),
    ("title a\u{7}\n", "plan: line 1: a control sign\n"),
    ("title T\u{202e}\n", "plan: line 1: a control sign\n"),
    (
        "money EUR 2\n",
        "plan: line 1: the day line comes first, as: day 9:00 21:00 60\n",
    ),
    (
        "title\n",
        "plan: line 1: 0 words behind the first; it wants 1 or more\n",
    ),
    (
        "title 1234567890123456789012345678901234567890123456789012345678901\n",
        "plan: line 1: a name of 61 bytes; 1 to 60 can stand\n",
    ),
    ("title A\ntitle B\n", "plan: line 2: a second title line\n"),
    (
        "day 9:00 21:00\n",
        "plan: line 1: 2 words behind the first; it wants 3\n",
    ),
    (
        "day 9:00+1 21:00 60\n",
        "plan: line 1: 9:00+1 is no time of day, as 9:00\n",
    ),
    (
        "day 9:00 25:00 60\n",
        "plan: line 1: 25:00 is no time of day, as 9:00\n",
    ),
    ("day 9:00 21:00 0\n", "plan: line 1: 0 is not 1 to 720\n"),
    (
        "day 9:00 21:00 50\n",
        "plan: line 1: from 9:00 to 21:00 are 720 minutes, which is no whole number of periods of 50\n",
    ),
    (
        "day 6:00 6:00 5\n",
        "plan: line 1: from 6:00 to 6:00 are 288 periods of 5 minutes; at most 96\n",
    ),
];

#[test]
fn first_lines(rt: HostRuntime) {
    assert!(rt; say_all(rt.alloc(), "", &FIRST_LINES));
    assert!(rt;
        says(
            rt.alloc(),
            b"title a\xff\n",
            b"plan: line 1: bytes that are no UTF-8; save the text as UTF-8\n"
        )
    );
}

/// Second lines of a text whose first is `day 9:00 21:00 60`, and what is said of each.
const CODE_LINES: [(&str, &str); 24] = [
    ("day 9:00 21:00 60\n", "plan: line 2: a second day line\n"),
    (
        "money\n",
        "plan: line 2: 0 words behind the first; it wants 1 to 2\n",
    ),
    (
        "money a b c\n",
        "plan: line 2: 3 words behind the first; it wants 1 to 2\n",
    ),
    (
        "money 123456789012345678901\n",
        "plan: line 2: a name of 21 bytes; 1 to 20 can stand\n",
    ),
    ("money EUR x\n", "plan: line 2: x is no whole number\n"),
    ("money EUR 4\n", "plan: line 2: 4 is not 0 to 3\n"),
    (
        "work t 2:00 5:00\n",
        "plan: line 2: 3 words behind the first; it wants 5 or more\n",
    ),
    (
        "work t 2:00 5:00 15\n",
        "plan: line 2: 4 words behind the first; it wants 5 or more\n",
    ),
    (
        "work till 2:00 5:00 15 till\n",
        "plan: line 2: till is no code: a code is one letter or digit\n",
    ),
    (
        "work t 2 5:00 15 till\n",
        "plan: line 2: 2 is no length of time, as 2:00\n",
    ),
    (
        "work t 2:10 5:00 15 till\n",
        "plan: line 2: 2:10 is no whole number of periods of 60 minutes; 2:00 and 3:00 are\n",
    ),
    (
        "work t 0:00 5:00 15 till\n",
        "plan: line 2: 0:00 is 0 periods; here 1 to 12 can stand\n",
    ),
    (
        "work t 5:00 2:00 15 till\n",
        "plan: line 2: 5:00 is longer than 2:00\n",
    ),
    (
        "work t 2:00 5:00 15,50 till\n",
        "plan: line 2: 15,50 is no amount, as 15 or 15.50\n",
    ),
    (
        "work t 2:00 5:00 15.50 till\n",
        "plan: line 2: 15.50 has 2 decimals, amounts have 0; say: money NAME 2\n",
    ),
    (
        "work t 2:00 5:00 12000 till\n",
        "plan: line 2: 12000 an hour is 12000 units a period; at most 10000 can stand\n",
    ),
    (
        "money EUR 2\nwork t 2:00 5:00 15.0000 till\n",
        "plan: line 3: 15.0000 has 4 decimals, amounts have 2; at most 3 can stand\n",
    ),
    (
        "work t 2:00 5:00 15 till\nmoney EUR 2\n",
        "plan: line 3: the money line comes before all amounts\n",
    ),
    (
        "change 5\nmoney EUR 2\n",
        "plan: line 3: the money line comes before all amounts\n",
    ),
    (
        "change no\nmoney EUR 2\nmoney EUR 2\n",
        "plan: line 4: a second money line\n",
    ),
    (
        "work t 2:00 5:00 15 till\npause t 2:00 5:00 15 meal\n",
        "plan: line 3: the code t stands above already\n",
    ),
    (
        "work t 2:00 5:00 15 a  till\npause m 2:00 5:00 15 a till\n",
        "plan: line 3: the name a till stands above already\n",
    ),
    (
        "work 1 1:00 1:00 0 a\nwork 2 1:00 1:00 0 b\nwork 3 1:00 1:00 0 c\nwork 4 1:00 1:00 0 d\nwork 5 1:00 1:00 0 e\nwork 6 1:00 1:00 0 f\nwork 7 1:00 1:00 0 g\nwork 8 1:00 1:00 0 h\nwork\n",
        "plan: line 10: a ninth code of work; at most 8\n",
    ),
    ("work t 2:00 5:00 15 caf\u{e9}\n", "plan: no change line\n"),
];

#[test]
fn lines_of_codes(rt: HostRuntime) {
    assert!(rt; say_all(rt.alloc(), "day 9:00 21:00 60\n", &CODE_LINES));
}

/// Second lines of a text whose first is `day 8:00 20:00 15`, and what is said of each.
const QUARTERS: [(&str, &str); 3] = [
    (
        "money EUR 2\nwork t 2:00 5:00 13.90 till\n",
        "plan: line 3: 13.90 an hour does not come out even in periods of 15 minutes; 13.88 and 13.92 do\n",
    ),
    (
        "starts 3:00\n",
        "plan: line 2: 3:00 is 12 periods; at most 8 can stand\n",
    ),
    (
        "starts 5:00\n",
        "plan: line 2: 5:00 does not divide 24 hours\n",
    ),
];

#[test]
fn lines_by_quarters(rt: HostRuntime) {
    assert!(rt; say_all(rt.alloc(), "day 8:00 20:00 15\n", &QUARTERS));
    let never = [(
        "starts 1:00\n",
        "plan: line 2: no period begins at a multiple of 1:00 by the clock\n",
    )];
    assert!(rt; say_all(rt.alloc(), "day 8:30 20:30 60\n", &never));
}

/// Eighth lines behind those of a shop, and what is said of each.
const LINES: [(&str, &str); 22] = [
    (
        "stretch 2:00 5:00\n",
        "plan: line 8: a second stretch line\n",
    ),
    ("change no\n", "plan: line 8: a second change line\n"),
    (
        "starts\n",
        "plan: line 8: 0 words behind the first; it wants 1\n",
    ),
    (
        "extra x 9:00 10:00 1\n",
        "plan: line 8: no line above has the code x\n",
    ),
    (
        "extra t 22:30 10:00 1\n",
        "plan: line 8: 22:30 is outside the day, 9:00 to 21:00\n",
    ),
    (
        "extra t 9:10 10:00 1\n",
        "plan: line 8: 9:10 is no begin of a period: they last 60 minutes from 9:00 on\n",
    ),
    (
        "extra t 14:00 12:00 1\n",
        "plan: line 8: 14:00 is not before 12:00 in this day\n",
    ),
    (
        "extra t 9:00 12:00 100.00\n",
        "plan: line 8: with this a period of t costs 11500 units; at most 10000 can stand\n",
    ),
    (
        "extra t 9:00 12:00 70.00\nextra t 10:00 11:00 20.00\n",
        "plan: line 9: with this a period of t costs 10500 units; at most 10000 can stand\n",
    ),
    (
        "duty P-1 8:00 9:00 20 = work\n",
        "plan: line 8: P-1 is no name: a letter, and up to 23 letters and digits\n",
    ),
    (
        "duty Full 8:00 9:00 120.00 = work\n",
        "plan: line 8: 120.00 is 12000 units; at most 10000 can stand\n",
    ),
    (
        "duty Full 8:00 9:00 20\n",
        "plan: line 8: 4 words behind the first; it wants 5 or more\n",
    ),
    (
        "need x 1 1\n",
        "plan: line 8: no line above has the code x\n",
    ),
    (
        "need m 1 1\n",
        "plan: line 8: m is a pause, and no code of work\n",
    ),
    (
        "need t 1 1\nneed t 1 1\n",
        "plan: line 9: a second need line of t\n",
    ),
    (
        "need t 1\n",
        "plan: line 8: 2 words behind the first; it wants 3\n",
    ),
    (
        "staff\n",
        "plan: line 8: 0 words behind the first; it wants 2 or more\n",
    ),
    (
        "staff 1 2 x\n",
        "plan: line 8: 3 words behind the first; it wants 2\n",
    ),
    (
        "staff Full 2\n",
        "plan: line 8: 2 words behind the first; it wants 3 or more\n",
    ),
    ("staff 3 2\n", "plan: line 8: 3 is more than 2\n"),
    ("staff 0 0\n", "plan: line 8: 0 is not 1 to 64\n"),
    (
        "staff Nurse 1 2\n",
        "plan: line 8: no duty line above has the name Nurse\n",
    ),
];

#[test]
fn lines_of_a_shop(rt: HostRuntime) {
    assert!(rt; say_all(rt.alloc(), ABOVE, &LINES));
}

/// Duty lines behind those of a shop, and what is said of each.
const DUTIES: [(&str, &str); 26] = [
    (
        "duty Full 8:00 9:00 20 work m work\n",
        "plan: line 8: work where the = stands, as: duty Full 8:00 9:00 20 = work m work\n",
    ),
    (
        "duty A 2:00 5:00 0 = work:tt\n",
        "plan: line 8: work:tt has a code twice, or none\n",
    ),
    (
        "duty A 2:00 5:00 0 = work:\n",
        "plan: line 8: work: has a code twice, or none\n",
    ),
    (
        "duty A 2:00 5:00 0 = work:tx\n",
        "plan: line 8: no line above has the code x\n",
    ),
    (
        "duty A 2:00 5:00 0 = work:tm\n",
        "plan: line 8: m is a pause, and no code of work\n",
    ),
    (
        "duty A 2:00 5:00 0 = t\n",
        "plan: line 8: t is a code of work; as a part of a duty it is work:t\n",
    ),
    (
        "duty A 2:00 5:00 0 = x\n",
        "plan: line 8: no line above has the code x\n",
    ),
    (
        "duty A 2:00 5:00 0 = wrok\n",
        "plan: line 8: wrok is no code: a code is one letter or digit\n",
    ),
    (
        "duty A 2:00 5:00 0 = work:t work:c\n",
        "plan: line 8: two parts of one kind side by side: two stretches of work\n",
    ),
    (
        "duty A 2:00 5:00 0 = work m m work\n",
        "plan: line 8: two parts of one kind side by side: m\n",
    ),
    (
        "duty A 2:00 5:00 0 = work m 12:00 work\n",
        "plan: line 8: behind m stands one time; two, between which it begins, or none\n",
    ),
    (
        "duty A 2:00 5:00 0 = work m 14:00 12:00 work\n",
        "plan: line 8: 14:00 is later than 12:00 in this day\n",
    ),
    (
        "duty A 2:00 5:00 0 =\n",
        "plan: line 8: nothing stands behind the =\n",
    ),
    (
        "duty A 2:00 5:00 0 = begin 9:00 10:00\n",
        "plan: line 8: nothing stands behind the =\n",
    ),
    (
        "duty A 2:00 5:00 0 = work m work m work m work m work begin\n",
        "plan: line 8: 9 parts; at most 8\n",
    ),
    (
        "duty A 2:00 5:00 0 = work begin 9:00\n",
        "plan: line 8: begin where begin, end or stretch with two times, or plus with an amount, can stand\n",
    ),
    (
        "duty A 2:00 5:00 0 = work begin 9:00 10:00 m\n",
        "plan: line 8: m where begin, end or stretch with two times, or plus with an amount, can stand\n",
    ),
    (
        "duty A 2:00 5:00 0 = work begin 9:00 10:00 begin 9:00 10:00\n",
        "plan: line 8: begin twice\n",
    ),
    (
        "duty A 2:00 5:00 0 = work end 12:00 10:00\n",
        "plan: line 8: 12:00 is later than 10:00 in this day\n",
    ),
    (
        "duty A 2:00 5:00 0 = work plus 90.00\n",
        "plan: line 8: with plus a period of t costs 10500 units; at most 10000 can stand\n",
    ),
    (
        "duty A 2:00 5:00 0 = work stretch 1:00 1:00\n",
        "plan: line 8: a block of till lasts 2:00 at least, a stretch 1:00 at most\n",
    ),
    (
        "duty A 2:00 5:00 0 = work:t stretch 6:00 7:00\n",
        "plan: line 8: a stretch of work is 6:00 to 7:00 long, and no blocks of t make one\n",
    ),
    (
        "duty A 6:00 8:00 0 = work\n",
        "plan: line 8: the parts take 2:00 to 5:00 together, the duty has 6:00 to 8:00\n",
    ),
    (
        "duty A 2:00 3:00 0 = work m work\n",
        "plan: line 8: the parts take 5:00 to 11:00 together, the duty has 2:00 to 3:00\n",
    ),
    (
        "duty A 4:00 5:00 0 = work begin 9:00 10:00 end 11:00 12:00\n",
        "plan: line 8: 4:00 to 5:00 fit nowhere between the times of begin and end\n",
    ),
    (
        "duty A 2:00 5:00 0 = work\nwork\n",
        "plan: line 9: the work line comes before the duties\n",
    ),
];

#[test]
fn duties_of_a_shop(rt: HostRuntime) {
    assert!(rt; say_all(rt.alloc(), ABOVE, &DUTIES));
}

/// Blocks of three hours make stretches of 3, 6 and 9 hours alone.
const BLOCKS: [(&str, &str); 3] = [
    (
        "change 0\nstretch 4:00 5:00\nduty A 4:00 5:00 0 = work\n",
        "plan: line 6: a stretch of work is 4:00 to 5:00 long, and no blocks of a b make one\n",
    ),
    (
        "change 0\nstretch 5:00 6:00\nduty A 6:00 6:00 0 = work\n",
        "plan: no staff line\n",
    ),
    (
        "change no\nstretch 5:00 6:00\nduty A 6:00 6:00 0 = work\n",
        "plan: line 6: a stretch of work is 5:00 to 6:00 long, and no blocks of a b make one\n",
    ),
];

#[test]
fn blocks_make_stretches(rt: HostRuntime) {
    let above = "day 9:00 21:00 60\nwork a 3:00 3:00 0 first\nwork b 3:00 3:00 0 second\n";
    assert!(rt; say_all(rt.alloc(), above, &BLOCKS));
}

/// Lines behind a shop's duty, and what is said of each.
const STAFF: [(&str, &str); 7] = [
    (
        "staff 1 2\nstaff 1 2\n",
        "plan: line 10: a second staff line\n",
    ),
    (
        "staff Full 1 2\nstaff 1 2\n",
        "plan: line 10: a second staff line\n",
    ),
    (
        "staff Full 1 2\nstaff Full 1 2\n",
        "plan: line 10: a second staff line of Full\n",
    ),
    (
        "duty Part 3:00 5:00 0 = work\nstaff Full 1 40\nstaff Part 1 30\n",
        "plan: line 11: 70 employees in all; at most 64\n",
    ),
    (
        "duty Part 3:00 5:00 0 = work\nstaff Full 1 2\nneed t 1 1\n",
        "plan: line 9: the duty Part has no staff line; staff lines are for Full\n",
    ),
    ("staff Full 1 2\n", "plan: no need line\n"),
    ("need t 1 1\n", "plan: no staff line\n"),
];

#[test]
fn staff_of_a_shop(rt: HostRuntime) -> Result<(), Fail> {
    let above = joined(rt.alloc(), &[ABOVE, "duty Full 3:00 5:00 0 = work\n"])?;
    let Ok(above) = std::str::from_utf8(above.as_slice()) else {
        return Err(Fail::new("a text"));
    };
    assert!(rt; say_all(rt.alloc(), above, &STAFF));
    Ok(())
}

// Whether the plan is that of the shop.
fn is_shop(plan: &Plan) -> bool {
    let [duty] = plan.duties.as_slice() else {
        return false;
    };
    let [first, second, third] = duty.parts.as_slice() else {
        return false;
    };
    let (Part::Work(before), Part::Pause(b'm', Some(times)), Part::Work(_)) = (first, second, third)
    else {
        return false;
    };
    plan.day.begin == 540
        && plan.change == Some(100)
        && plan.codes.len() == 3
        && duty.line == 8
        && duty.lasts.greatest == 540
        && duty.cost == 2000
        && before.as_slice() == b"tc".as_slice()
        && times.from.minute == 720
        && times.to.minute == 840
        && plan.staff.len() == 1
        && plan.needs.len() == 1
}

#[test]
fn a_shop_is_read(rt: HostRuntime) -> Result<(), Fail> {
    let text = joined(rt.alloc(), &[ABOVE, BELOW])?;
    let Ok(plan) = read_plan(rt.alloc(), text.as_slice()) else {
        return Err(Fail::new("a plan"));
    };
    assert!(rt; is_shop(&plan));
    Ok(())
}
