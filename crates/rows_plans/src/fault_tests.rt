//! Each fault of a plan text, told byte for byte.

use model_rosters::{List, Memory};
use plan_faults::{
    CodeFault, DutyFault, Kind, LineFault, NameFault, PairFault, PartFault, PlanFault, Signs,
    StaffFault, StandFault, StartsFault, fault_line,
};
use plan_meaning::Lengths;
use plan_words::{DayFault, WordFault};
use std::alloc::Global;
use std::test::Fail;

// Makes a list of the bytes of a word.
fn list(alloc: Global, bytes: &[u8]) -> Result<List<u8>, Memory> {
    let mut list = List::new(alloc);
    list.extend_from_slice(bytes)?;
    Ok(list)
}

// Whether this is what is said of a fault, as `plan: ..` with a line feed.
fn says(alloc: Global, fault: &PlanFault, want: &[u8]) -> bool {
    match fault_line(alloc, fault) {
        Ok(said) => said.as_slice() == want,
        Err(Memory) => false,
    }
}

// Whether this is what is said of a fault of line 9.
fn says_of_line(alloc: Global, fault: LineFault, want: &[u8]) -> bool {
    says(alloc, &PlanFault::Line { line: 9, fault }, want)
}

/// Faults of a word, the word, and what is said.
const WORDS: [(WordFault, &str, &str); 19] = [
    (
        WordFault::NoCode,
        "till",
        "plan: line 9: till is no code: a code is one letter or digit\n",
    ),
    (
        WordFault::NoName,
        "P-1",
        "plan: line 9: P-1 is no name: a letter, and up to 23 letters and digits\n",
    ),
    (
        WordFault::NoNumber,
        "x",
        "plan: line 9: x is no whole number\n",
    ),
    (
        WordFault::Outside { low: 1, high: 64 },
        "0",
        "plan: line 9: 0 is not 1 to 64\n",
    ),
    (
        WordFault::NoAmount,
        "15,50",
        "plan: line 9: 15,50 is no amount, as 15 or 15.50\n",
    ),
    (
        WordFault::Decimals { found: 2, have: 0 },
        "15.50",
        "plan: line 9: 15.50 has 2 decimals, amounts have 0; say: money NAME 2\n",
    ),
    (
        WordFault::Decimals { found: 4, have: 2 },
        "15.0000",
        "plan: line 9: 15.0000 has 4 decimals, amounts have 2; at most 3 can stand\n",
    ),
    (
        WordFault::Units { units: 12000 },
        "120.00",
        "plan: line 9: 120.00 is 12000 units; at most 10000 can stand\n",
    ),
    (
        WordFault::Uneven {
            minutes: 15,
            decimals: 2,
            below: 1388,
            above: 1392,
        },
        "13.90",
        "plan: line 9: 13.90 an hour does not come out even in periods of 15 minutes; 13.88 and 13.92 do\n",
    ),
    (
        WordFault::PeriodUnits { units: 12000 },
        "120.00",
        "plan: line 9: 120.00 an hour is 12000 units a period; at most 10000 can stand\n",
    ),
    (
        WordFault::NoLength,
        "2",
        "plan: line 9: 2 is no length of time, as 2:00\n",
    ),
    (
        WordFault::PartPeriod {
            minutes: 15,
            below: 120,
            above: 135,
        },
        "2:10",
        "plan: line 9: 2:10 is no whole number of periods of 15 minutes; 2:00 and 2:15 are\n",
    ),
    (
        WordFault::Periods {
            periods: 0,
            most: 12,
        },
        "0:00",
        "plan: line 9: 0:00 is 0 periods; here 1 to 12 can stand\n",
    ),
    (
        WordFault::NoTime,
        "25:00",
        "plan: line 9: 25:00 is no time of day, as 9:00\n",
    ),
    (
        WordFault::NoBegin {
            minutes: 15,
            begin: 480,
        },
        "9:10",
        "plan: line 9: 9:10 is no begin of a period: they last 15 minutes from 8:00 on\n",
    ),
    (
        WordFault::OutsideDay {
            begin: 540,
            end: 1260,
        },
        "22:30",
        "plan: line 9: 22:30 is outside the day, 9:00 to 21:00\n",
    ),
    (
        WordFault::OutsideDay {
            begin: 360,
            end: 1860,
        },
        "7:30+1",
        "plan: line 9: 7:30+1 is outside the day, 6:00 to 7:00+1\n",
    ),
    (
        WordFault::OutsideDay {
            begin: 0,
            end: 1440,
        },
        "8:00+1",
        "plan: line 9: 8:00+1 is outside the day, 0:00 to 24:00\n",
    ),
    (
        WordFault::Uneven {
            minutes: 1,
            decimals: 3,
            below: 60,
            above: 120,
        },
        "0.1",
        "plan: line 9: 0.1 an hour does not come out even in periods of 1 minute; 0.060 and 0.120 do\n",
    ),
];

#[test]
fn words_are_quoted(rt: HostRuntime) -> Result<(), Fail> {
    for (fault, word, want) in &WORDS {
        let word = list(rt.alloc(), word.as_bytes())?;
        let fault = LineFault::Word {
            word,
            fault: *fault,
        };
        assert!(rt; says_of_line(rt.alloc(), fault, want.as_bytes()));
    }
    Ok(())
}

/// Faults of pairs, their words, and what is said.
const PAIRS: [(PairFault, &str, &str, &str); 4] = [
    (
        PairFault::More,
        "3",
        "2",
        "plan: line 9: 3 is more than 2\n",
    ),
    (
        PairFault::Longer,
        "5:00",
        "2:00",
        "plan: line 9: 5:00 is longer than 2:00\n",
    ),
    (
        PairFault::Later,
        "14:00",
        "12:00",
        "plan: line 9: 14:00 is later than 12:00 in this day\n",
    ),
    (
        PairFault::NotBefore,
        "22:00",
        "6:00",
        "plan: line 9: 22:00 is not before 6:00 in this day\n",
    ),
];

#[test]
fn pairs_are_quoted(rt: HostRuntime) -> Result<(), Fail> {
    for (fault, first, second, want) in &PAIRS {
        let first = list(rt.alloc(), first.as_bytes())?;
        let second = list(rt.alloc(), second.as_bytes())?;
        let fault = LineFault::Pair {
            first,
            second,
            fault: *fault,
        };
        assert!(rt; says_of_line(rt.alloc(), fault, want.as_bytes()));
    }
    Ok(())
}

/// Faults of the day line from 9:00 to 21:00, or from 6:00 to 6:00.
#[test]
fn days_are_quoted(rt: HostRuntime) -> Result<(), Fail> {
    let part = LineFault::Day {
        begin: list(rt.alloc(), b"9:00")?,
        end: list(rt.alloc(), b"21:00")?,
        fault: DayFault::PartDay {
            length: 720,
            minutes: 50,
        },
    };
    let want =
        b"plan: line 9: from 9:00 to 21:00 are 720 minutes, which is no whole number of periods of 50\n";
    assert!(rt; says_of_line(rt.alloc(), part, want));
    let many = LineFault::Day {
        begin: list(rt.alloc(), b"6:00")?,
        end: list(rt.alloc(), b"6:00")?,
        fault: DayFault::ManyPeriods {
            periods: 288,
            minutes: 5,
        },
    };
    let want = b"plan: line 9: from 6:00 to 6:00 are 288 periods of 5 minutes; at most 96\n";
    assert!(rt; says_of_line(rt.alloc(), many, want));
    Ok(())
}

// Whether this is what is said of a line that cannot stand where it stands.
fn says_of_place(alloc: Global, fault: StandFault, want: &[u8]) -> bool {
    says_of_line(alloc, LineFault::Stand { fault }, want)
}

/// Kinds of lines, and what is said of a second one.
const SECONDS: [(Kind, &str); 6] = [
    (Kind::Change, "plan: line 9: a second change line\n"),
    (Kind::Title, "plan: line 9: a second title line\n"),
    (Kind::Day, "plan: line 9: a second day line\n"),
    (Kind::Stretch, "plan: line 9: a second stretch line\n"),
    (Kind::Starts, "plan: line 9: a second starts line\n"),
    (Kind::Staff, "plan: line 9: a second staff line\n"),
];

#[test]
fn second_lines(rt: HostRuntime) -> Result<(), Fail> {
    for (kind, want) in &SECONDS {
        let fault = StandFault::Second { kind: *kind };
        assert!(rt; says_of_place(rt.alloc(), fault, want.as_bytes()));
    }
    let need = StandFault::SecondNeed { code: b't' };
    assert!(rt; says_of_place(rt.alloc(), need, b"plan: line 9: a second need line of t\n"));
    let staff = StandFault::SecondStaff {
        name: list(rt.alloc(), b"Full")?,
    };
    assert!(rt;
        says_of_place(
            rt.alloc(),
            staff,
            b"plan: line 9: a second staff line of Full\n"
        )
    );
    Ok(())
}

/// Kinds of lines, and what is said of a late one.
const LATE: [(Kind, &str); 4] = [
    (
        Kind::Money,
        "plan: line 9: the money line comes before all amounts\n",
    ),
    (
        Kind::Work,
        "plan: line 9: the work line comes before the duties\n",
    ),
    (
        Kind::Pause,
        "plan: line 9: the pause line comes before the duties\n",
    ),
    (
        Kind::Extra,
        "plan: line 9: the extra line comes before the duties\n",
    ),
];

#[test]
fn places_of_lines(rt: HostRuntime) -> Result<(), Fail> {
    for (kind, want) in &LATE {
        let fault = StandFault::Late { kind: *kind };
        assert!(rt; says_of_place(rt.alloc(), fault, want.as_bytes()));
    }
    let none = StandFault::Unknown {
        word: list(rt.alloc(), b"dutty")?,
    };
    assert!(rt;
        says_of_place(
            rt.alloc(),
            none,
            b"plan: line 9: no line begins with dutty\n"
        )
    );
    let first = b"plan: line 9: the day line comes first, as: day 9:00 21:00 60\n";
    assert!(rt; says_of_place(rt.alloc(), StandFault::DayFirst, first));
    let ninth = b"plan: line 9: a ninth code of work; at most 8\n";
    assert!(rt; says_of_place(rt.alloc(), StandFault::ManyWork, ninth));
    let pauses = b"plan: line 9: a 24th pause; at most 23\n";
    assert!(rt; says_of_place(rt.alloc(), StandFault::ManyPauses, pauses));
    let staff = b"plan: line 9: a ninth staff line; at most 8\n";
    assert!(rt; says_of_place(rt.alloc(), StandFault::ManyStaff, staff));
    Ok(())
}

/// Signs, and what is said of them.
const SIGNS: [(Signs, &str); 3] = [
    (
        Signs::NoText,
        "plan: line 9: bytes that are no UTF-8; save the text as UTF-8\n",
    ),
    (Signs::Control, "plan: line 9: a control sign\n"),
    (
        Signs::NotPlain,
        "plan: line 9: a sign that is no plain letter, as an accent or a curly quote\n",
    ),
];

#[test]
fn signs_of_lines(rt: HostRuntime) {
    for (signs, want) in &SIGNS {
        assert!(rt;
            says_of_line(
                rt.alloc(),
                LineFault::Signs { signs: *signs },
                want.as_bytes()
            )
        );
    }
}

/// How many words stand, the least and the most, and what is said.
const COUNTS: [(u64, u64, Option<u64>, &str); 4] = [
    (
        3,
        5,
        None,
        "plan: line 9: 3 words behind the first; it wants 5 or more\n",
    ),
    (
        0,
        1,
        Some(1),
        "plan: line 9: 0 words behind the first; it wants 1\n",
    ),
    (
        3,
        1,
        Some(2),
        "plan: line 9: 3 words behind the first; it wants 1 to 2\n",
    ),
    (
        1,
        2,
        Some(2),
        "plan: line 9: 1 word behind the first; it wants 2\n",
    ),
];

#[test]
fn counts_of_words(rt: HostRuntime) {
    for (found, least, most, want) in &COUNTS {
        let fault = LineFault::Count {
            found: *found,
            least: *least,
            most: *most,
        };
        assert!(rt; says_of_line(rt.alloc(), fault, want.as_bytes()));
    }
}

/// A code, why it cannot stand, and what is said.
const CODES: [(u8, CodeFault, &str); 4] = [
    (
        b't',
        CodeFault::Stands,
        "plan: line 9: the code t stands above already\n",
    ),
    (
        b'x',
        CodeFault::Unknown,
        "plan: line 9: no line above has the code x\n",
    ),
    (
        b't',
        CodeFault::Work,
        "plan: line 9: t is a code of work; as a part of a duty it is work:t\n",
    ),
    (
        b'm',
        CodeFault::Pause,
        "plan: line 9: m is a pause, and no code of work\n",
    ),
];

#[test]
fn codes_of_lines(rt: HostRuntime) {
    for (code, fault, want) in &CODES {
        let fault = LineFault::Code {
            code: *code,
            fault: *fault,
        };
        assert!(rt; says_of_line(rt.alloc(), fault, want.as_bytes()));
    }
}

#[test]
fn names_of_lines(rt: HostRuntime) -> Result<(), Fail> {
    let stands = LineFault::Name {
        name: list(rt.alloc(), b"till")?,
        fault: NameFault::Stands,
    };
    assert!(rt;
        says_of_line(
            rt.alloc(),
            stands,
            b"plan: line 9: the name till stands above already\n"
        )
    );
    let none = LineFault::Name {
        name: list(rt.alloc(), b"Nurse")?,
        fault: NameFault::NoDuty,
    };
    assert!(rt;
        says_of_line(
            rt.alloc(),
            none,
            b"plan: line 9: no duty line above has the name Nurse\n"
        )
    );
    let bytes = LineFault::Bytes { found: 0, most: 60 };
    assert!(rt;
        says_of_line(
            rt.alloc(),
            bytes,
            b"plan: line 9: a name of 0 bytes; 1 to 60 can stand\n"
        )
    );
    Ok(())
}

#[test]
fn units_of_periods(rt: HostRuntime) {
    let extra = LineFault::Period {
        code: b'c',
        units: 12000,
    };
    let want =
        b"plan: line 9: with this a period of c costs 12000 units; at most 10000 can stand\n";
    assert!(rt; says_of_line(rt.alloc(), extra, want));
    let plus = LineFault::Plus {
        code: b't',
        units: 12000,
    };
    let want =
        b"plan: line 9: with plus a period of t costs 12000 units; at most 10000 can stand\n";
    assert!(rt; says_of_line(rt.alloc(), plus, want));
}

/// Lengths at whose multiples duties cannot start, why, and what is said.
const STARTS: [(&str, StartsFault, &str); 3] = [
    (
        "5:00",
        StartsFault::Uneven,
        "plan: line 9: 5:00 does not divide 24 hours\n",
    ),
    (
        "3:00",
        StartsFault::Many { periods: 12 },
        "plan: line 9: 3:00 is 12 periods; at most 8 can stand\n",
    ),
    (
        "1:00",
        StartsFault::Never,
        "plan: line 9: no period begins at a multiple of 1:00 by the clock\n",
    ),
];

#[test]
fn starts_of_duties(rt: HostRuntime) -> Result<(), Fail> {
    for (word, fault, want) in &STARTS {
        let word = list(rt.alloc(), word.as_bytes())?;
        let fault = LineFault::Starts {
            word,
            fault: *fault,
        };
        assert!(rt; says_of_line(rt.alloc(), fault, want.as_bytes()));
    }
    Ok(())
}

// Whether this is what is said of a duty's parts.
fn says_of_part(alloc: Global, fault: PartFault, want: &[u8]) -> bool {
    says_of_line(alloc, LineFault::Part { fault }, want)
}

#[test]
fn parts_of_duties(rt: HostRuntime) -> Result<(), Fail> {
    let equal = PartFault::NoEqual {
        word: list(rt.alloc(), b"work")?,
    };
    let want = b"plan: line 9: work where the = stands, as: duty Full 8:00 9:00 20 = work m work\n";
    assert!(rt; says_of_part(rt.alloc(), equal, want));
    let codes = PartFault::Codes {
        word: list(rt.alloc(), b"work:tt")?,
    };
    assert!(rt;
        says_of_part(
            rt.alloc(),
            codes,
            b"plan: line 9: work:tt has a code twice, or none\n"
        )
    );
    let want = b"plan: line 9: two parts of one kind side by side: two stretches of work\n";
    assert!(rt; says_of_part(rt.alloc(), PartFault::TwoStretches, want));
    let want = b"plan: line 9: two parts of one kind side by side: m\n";
    assert!(rt; says_of_part(rt.alloc(), PartFault::TwoPauses { code: b'm' }, want));
    let want = b"plan: line 9: behind m stands one time; two, between which it begins, or none\n";
    assert!(rt; says_of_part(rt.alloc(), PartFault::OneTime { code: b'm' }, want));
    assert!(rt;
        says_of_part(
            rt.alloc(),
            PartFault::NoParts,
            b"plan: line 9: nothing stands behind the =\n"
        )
    );
    assert!(rt;
        says_of_part(
            rt.alloc(),
            PartFault::ManyParts { parts: 9 },
            b"plan: line 9: 9 parts; at most 8\n"
        )
    );
    Ok(())
}

#[test]
fn words_behind_parts(rt: HostRuntime) -> Result<(), Fail> {
    let behind = PartFault::Behind {
        word: list(rt.alloc(), b"begin")?,
    };
    let want =
        b"plan: line 9: begin where begin, end or stretch with two times, or plus with an amount, can stand\n";
    assert!(rt; says_of_part(rt.alloc(), behind, want));
    let twice = PartFault::Twice {
        word: list(rt.alloc(), b"begin")?,
    };
    assert!(rt; says_of_part(rt.alloc(), twice, b"plan: line 9: begin twice\n"));
    Ok(())
}

// Two lengths in hours and minutes.
fn lengths(least: u32, greatest: u32) -> Lengths {
    Lengths { least, greatest }
}

// Whether this is what is said of a duty that cannot be.
fn says_of_duty(alloc: Global, fault: DutyFault, want: &[u8]) -> bool {
    says_of_line(alloc, LineFault::Duty { fault }, want)
}

#[test]
fn duties_that_cannot_be(rt: HostRuntime) -> Result<(), Fail> {
    let block = DutyFault::Block {
        name: list(rt.alloc(), b"goods")?,
        least: 240,
        most: 180,
    };
    let want = b"plan: line 9: a block of goods lasts 4:00 at least, a stretch 3:00 at most\n";
    assert!(rt; says_of_duty(rt.alloc(), block, want));
    let blocks = DutyFault::NoBlocks {
        stretch: lengths(120, 300),
        codes: list(rt.alloc(), b"tc")?,
    };
    let want =
        b"plan: line 9: a stretch of work is 2:00 to 5:00 long, and no blocks of t c make one\n";
    assert!(rt; says_of_duty(rt.alloc(), blocks, want));
    let sum = DutyFault::Sum {
        least: 570,
        greatest: 720,
        duty: lengths(480, 540),
    };
    let want = b"plan: line 9: the parts take 9:30 to 12:00 together, the duty has 8:00 to 9:00\n";
    assert!(rt; says_of_duty(rt.alloc(), sum, want));
    let nowhere = DutyFault::Nowhere {
        duty: lengths(480, 540),
    };
    let want = b"plan: line 9: 8:00 to 9:00 fit nowhere between the times of begin and end\n";
    assert!(rt; says_of_duty(rt.alloc(), nowhere, want));
    Ok(())
}

#[test]
fn staff_of_duties(rt: HostRuntime) -> Result<(), Fail> {
    let many = LineFault::Staff {
        fault: StaffFault::Many { employees: 70 },
    };
    assert!(rt;
        says_of_line(
            rt.alloc(),
            many,
            b"plan: line 9: 70 employees in all; at most 64\n"
        )
    );
    let mut named = List::new(rt.alloc());
    named.push(list(rt.alloc(), b"Full")?)?;
    let missing = LineFault::Staff {
        fault: StaffFault::Missing {
            name: list(rt.alloc(), b"Part")?,
            named,
        },
    };
    let want = b"plan: line 9: the duty Part has no staff line; staff lines are for Full\n";
    assert!(rt; says_of_line(rt.alloc(), missing, want));
    Ok(())
}

/// How many rules and names a plan takes, and what is said.
const MUCH: [(u64, u64, &str); 3] = [
    (
        88,
        46,
        "plan: 88 rules, at most 64; 46 names, at most 32: fewer sets of codes in work:.., fewer plus, or greatest blocks as long as the stretch\n",
    ),
    (
        65,
        32,
        "plan: 65 rules, at most 64: fewer sets of codes in work:.., fewer plus, or greatest blocks as long as the stretch\n",
    ),
    (
        64,
        33,
        "plan: 33 names, at most 32: fewer sets of codes in work:.., fewer plus, or greatest blocks as long as the stretch\n",
    ),
];

#[test]
fn texts_without_a_line(rt: HostRuntime) {
    for (rules, names, want) in &MUCH {
        let fault = PlanFault::TooMuch {
            rules: *rules,
            names: *names,
        };
        assert!(rt; says(rt.alloc(), &fault, want.as_bytes()));
    }
    assert!(rt;
        says(
            rt.alloc(),
            &PlanFault::TooLong,
            b"plan: the text is too long\n"
        )
    );
    let none = PlanFault::NoLine {
        kind: Kind::Stretch,
    };
    assert!(rt; says(rt.alloc(), &none, b"plan: no stretch line\n"));
}
