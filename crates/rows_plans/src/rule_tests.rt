//! How many names and rules plans have.

use model_rosters::{Grammar, List, Memory, Window};
use plan_laws::{Activity, NamedLines, PeriodDuty, PeriodExtra, PeriodPart, PeriodPlan};
use plan_rules::{WriteFault, rules_text_of, written_rules};
use std::alloc::Global;

/// Two numbers of periods, of which both count.
type RowWindow = (u8, u8);

/// A code, whether it is work, the least and the greatest length of a block, and what a period costs.
type RowCode = (u8, bool, u8, u8, u32);

/// A code, the periods in which it costs more, and how much.
type RowExtra = (u8, RowWindow, u32);

/// Work of these codes, or a pause and the periods that it may begin in.
#[derive(Clone, Copy)]
enum RowPart {
    Work(&'static [u8]),
    Rest(u8, Option<RowWindow>),
}

/// A duty line in numbers of periods: its length, its cost, its parts, its first and last period, its
/// stretches, and its plus.
type RowDuty = (
    RowWindow,
    u32,
    &'static [RowPart],
    RowWindow,
    RowWindow,
    RowWindow,
    u32,
);

/// A duty name and its lines.
type RowStaff = (&'static [u8], &'static [RowDuty]);

/// A plan in numbers of periods, and how many names and rules its grammar has.
struct RowPlan {
    periods: u8,
    codes: &'static [RowCode],
    extras: &'static [RowExtra],
    change: Option<u32>,
    starts: u8,
    staff: &'static [RowStaff],
    names: usize,
    rules: usize,
}

/// A window that is left open.
const OPEN: RowWindow = (1, 96);

/// Three periods, of which a duty has two.
const SMALL: RowPlan = RowPlan {
    periods: 3,
    codes: &[(b't', true, 1, 2, 5)],
    extras: &[],
    change: Some(0),
    starts: 1,
    staff: &[(
        b"",
        &[((2, 2), 1, &[RowPart::Work(b"t")], OPEN, OPEN, (1, 2), 0)],
    )],
    names: 6,
    rules: 9,
};

/// The rules text of these, by hand.
const SMALL_TEXT: &[u8] = b"periods 3
work t
idle .
start Day_0
rule Day_0 0 = Off_1 Any_duty_2
rule Day_0 0 = Any_duty_2 Off_1
rule Off_1 0 = '.'
rule Off_1 0 = '.' Off_1
rule Any_duty_2 1 = Work_t_3 len 2 2
rule Work_t_3 0 = Block_t_4 len 1 2
rule Block_t_4 0 = At_t_5
rule Block_t_4 0 = At_t_5 Block_t_4 len 2 2
rule At_t_5 5 = 't'
";

/// A shop from 9:00 to 21:00 by hours.
const SHOP: RowPlan = RowPlan {
    periods: 12,
    codes: &[
        (b't', true, 2, 5, 1500),
        (b'c', true, 2, 5, 1500),
        (b's', true, 2, 5, 1500),
        (b'm', false, 1, 1, 0),
    ],
    extras: &[],
    change: Some(100),
    starts: 1,
    staff: &[(
        b"",
        &[
            (
                (8, 9),
                2000,
                &[
                    RowPart::Work(b"tcs"),
                    RowPart::Rest(b'm', Some((4, 6))),
                    RowPart::Work(b"tcs"),
                ],
                (1, 5),
                OPEN,
                (2, 5),
                0,
            ),
            (
                (3, 5),
                1200,
                &[RowPart::Work(b"tcs")],
                OPEN,
                OPEN,
                (2, 5),
                0,
            ),
        ],
    )],
    names: 14,
    rules: 24,
};

/// A call centre from 8:00 to 20:00 by quarters of an hour, whose blocks are shorter than its stretches.
const CALL: RowPlan = RowPlan {
    periods: 48,
    codes: &[
        (b'c', true, 4, 10, 420),
        (b'e', true, 4, 10, 420),
        (b'p', false, 1, 1, 420),
        (b'm', false, 2, 4, 0),
    ],
    extras: &[],
    change: Some(100),
    starts: 1,
    staff: &[
        (
            b"Full",
            &[
                (
                    (32, 36),
                    1000,
                    &[
                        RowPart::Work(b"ce"),
                        RowPart::Rest(b'p', None),
                        RowPart::Work(b"ce"),
                        RowPart::Rest(b'm', Some((15, 25))),
                        RowPart::Work(b"ce"),
                    ],
                    (1, 17),
                    OPEN,
                    (4, 12),
                    0,
                ),
                (
                    (32, 36),
                    1000,
                    &[
                        RowPart::Work(b"ce"),
                        RowPart::Rest(b'm', Some((15, 25))),
                        RowPart::Work(b"ce"),
                        RowPart::Rest(b'p', None),
                        RowPart::Work(b"ce"),
                    ],
                    (1, 17),
                    OPEN,
                    (4, 12),
                    0,
                ),
            ],
        ),
        (
            b"Part",
            &[(
                (16, 20),
                800,
                &[
                    RowPart::Work(b"c"),
                    RowPart::Rest(b'p', None),
                    RowPart::Work(b"c"),
                ],
                OPEN,
                OPEN,
                (4, 12),
                0,
            )],
        ),
    ],
    names: 20,
    rules: 34,
};

/// The shop of the literature, in which an activity changes at pauses only.
const RETAIL: RowPlan = RowPlan {
    periods: 96,
    codes: &[
        (b'a', true, 4, 20, 11),
        (b'b', true, 4, 20, 11),
        (b'c', true, 4, 20, 11),
        (b'p', false, 1, 1, 0),
        (b'm', false, 4, 4, 0),
    ],
    extras: &[],
    change: None,
    starts: 1,
    staff: &[(
        b"",
        &[
            (
                (30, 38),
                0,
                &[
                    RowPart::Work(b"abc"),
                    RowPart::Rest(b'p', None),
                    RowPart::Work(b"abc"),
                    RowPart::Rest(b'm', None),
                    RowPart::Work(b"abc"),
                    RowPart::Rest(b'p', None),
                    RowPart::Work(b"abc"),
                ],
                (25, 88),
                (25, 88),
                (4, 20),
                0,
            ),
            (
                (13, 24),
                0,
                &[
                    RowPart::Work(b"abc"),
                    RowPart::Rest(b'p', None),
                    RowPart::Work(b"abc"),
                ],
                (25, 88),
                (25, 88),
                (4, 20),
                0,
            ),
        ],
    )],
    names: 13,
    rules: 20,
};

/// A ward from 6:00 to 7:00 of the next day by half-hours, one of whose activities has short blocks.
const WARD: RowPlan = RowPlan {
    periods: 50,
    codes: &[
        (b'n', true, 4, 10, 1600),
        (b'd', true, 1, 2, 1600),
        (b'a', true, 2, 10, 950),
        (b'h', false, 1, 1, 1600),
        (b'i', false, 1, 1, 950),
        (b'm', false, 1, 1, 0),
    ],
    extras: &[],
    change: Some(50),
    starts: 1,
    staff: &[
        (
            b"Nurse",
            &[
                (
                    (16, 17),
                    500,
                    &[
                        RowPart::Rest(b'h', None),
                        RowPart::Work(b"nd"),
                        RowPart::Rest(b'm', None),
                        RowPart::Work(b"nd"),
                    ],
                    (1, 3),
                    OPEN,
                    (5, 10),
                    0,
                ),
                (
                    (16, 17),
                    500,
                    &[
                        RowPart::Rest(b'h', None),
                        RowPart::Work(b"nd"),
                        RowPart::Rest(b'm', None),
                        RowPart::Work(b"nd"),
                    ],
                    (15, 17),
                    OPEN,
                    (5, 10),
                    0,
                ),
                (
                    (18, 20),
                    4500,
                    &[
                        RowPart::Rest(b'h', None),
                        RowPart::Work(b"nd"),
                        RowPart::Rest(b'm', Some((37, 43))),
                        RowPart::Work(b"nd"),
                    ],
                    (30, 32),
                    (48, 49),
                    (5, 10),
                    0,
                ),
            ],
        ),
        (
            b"Aide",
            &[
                (
                    (14, 17),
                    500,
                    &[
                        RowPart::Rest(b'i', None),
                        RowPart::Work(b"a"),
                        RowPart::Rest(b'm', None),
                        RowPart::Work(b"a"),
                    ],
                    (2, 17),
                    OPEN,
                    (5, 10),
                    0,
                ),
                (
                    (7, 11),
                    500,
                    &[RowPart::Rest(b'i', None), RowPart::Work(b"a")],
                    (3, 23),
                    (8, 30),
                    (5, 10),
                    0,
                ),
            ],
        ),
    ],
    names: 23,
    rules: 35,
};

/// A help desk by quarters of an hour, whose duties begin at full and half hours.
const DESK: RowPlan = RowPlan {
    periods: 48,
    codes: &[
        (b'h', true, 4, 16, 560),
        (b'o', true, 4, 16, 560),
        (b'p', false, 1, 1, 560),
        (b'm', false, 3, 3, 0),
    ],
    extras: &[],
    change: Some(200),
    starts: 2,
    staff: &[
        (
            b"Full",
            &[
                (
                    (32, 36),
                    0,
                    &[
                        RowPart::Work(b"ho"),
                        RowPart::Rest(b'm', Some((17, 29))),
                        RowPart::Work(b"ho"),
                        RowPart::Rest(b'p', None),
                        RowPart::Work(b"ho"),
                    ],
                    OPEN,
                    OPEN,
                    (6, 16),
                    0,
                ),
                (
                    (32, 36),
                    0,
                    &[
                        RowPart::Work(b"ho"),
                        RowPart::Rest(b'p', None),
                        RowPart::Work(b"ho"),
                        RowPart::Rest(b'm', Some((17, 29))),
                        RowPart::Work(b"ho"),
                    ],
                    OPEN,
                    OPEN,
                    (6, 16),
                    0,
                ),
            ],
        ),
        (
            b"Half",
            &[(
                (16, 20),
                0,
                &[
                    RowPart::Work(b"ho"),
                    RowPart::Rest(b'p', None),
                    RowPart::Work(b"ho"),
                ],
                OPEN,
                OPEN,
                (6, 16),
                0,
            )],
        ),
    ],
    names: 18,
    rules: 30,
};

/// A kiosk by half-hours, whose seniors have a plus and whose late hours cost more.
const KIOSK: RowPlan = RowPlan {
    periods: 30,
    codes: &[
        (b'k', true, 2, 8, 750),
        (b'l', true, 2, 8, 750),
        (b'p', false, 1, 1, 750),
        (b'm', false, 1, 2, 0),
    ],
    extras: &[(b'k', (27, 30), 150), (b'l', (27, 30), 150)],
    change: Some(50),
    starts: 1,
    staff: &[
        (
            b"Senior",
            &[(
                (16, 18),
                1000,
                &[
                    RowPart::Work(b"kl"),
                    RowPart::Rest(b'p', None),
                    RowPart::Work(b"kl"),
                    RowPart::Rest(b'm', Some((11, 19))),
                    RowPart::Work(b"kl"),
                ],
                OPEN,
                OPEN,
                (3, 8),
                120,
            )],
        ),
        (
            b"Junior",
            &[(
                (8, 12),
                600,
                &[
                    RowPart::Work(b"kl"),
                    RowPart::Rest(b'p', None),
                    RowPart::Work(b"k"),
                ],
                (1, 21),
                OPEN,
                (3, 8),
                0,
            )],
        ),
    ],
    names: 25,
    rules: 44,
};

/// The duty names of a shop by half-hours with keyholders and minors.
const SHOP_STAFF: &[RowStaff] = &[
    (
        b"Key",
        &[(
            (16, 19),
            2500,
            &[
                RowPart::Work(b"tcbsgk"),
                RowPart::Rest(b'm', Some((7, 15))),
                RowPart::Work(b"tcbsgk"),
            ],
            OPEN,
            OPEN,
            (4, 10),
            0,
        )],
    ),
    (
        b"Staff",
        &[
            (
                (15, 18),
                2000,
                &[
                    RowPart::Work(b"tcbsg"),
                    RowPart::Rest(b'm', Some((7, 15))),
                    RowPart::Work(b"tcbsg"),
                ],
                OPEN,
                OPEN,
                (4, 10),
                0,
            ),
            (
                (6, 10),
                1200,
                &[RowPart::Work(b"tcbsg")],
                OPEN,
                OPEN,
                (4, 10),
                0,
            ),
        ],
    ),
    (
        b"Minor",
        &[(
            (4, 8),
            800,
            &[RowPart::Work(b"sg")],
            (13, 19),
            (16, 22),
            (4, 8),
            0,
        )],
    ),
];

/// A shop with five activities and keyholders, whose blocks are as long as its stretches.
const LONG_SHOP: RowPlan = RowPlan {
    periods: 24,
    codes: &[
        (b't', true, 2, 10, 780),
        (b'c', true, 2, 10, 780),
        (b'b', true, 2, 10, 780),
        (b's', true, 2, 10, 780),
        (b'g', true, 1, 10, 780),
        (b'k', true, 1, 10, 900),
        (b'm', false, 1, 2, 0),
    ],
    extras: &[],
    change: Some(100),
    starts: 1,
    staff: SHOP_STAFF,
    names: 31,
    rules: 59,
};

/// The same with short blocks, which has too many names and rules.
const SHORT_SHOP: RowPlan = RowPlan {
    periods: 24,
    codes: &[
        (b't', true, 2, 6, 780),
        (b'c', true, 2, 10, 780),
        (b'b', true, 2, 10, 780),
        (b's', true, 2, 10, 780),
        (b'g', true, 1, 4, 780),
        (b'k', true, 1, 4, 900),
        (b'm', false, 1, 2, 0),
    ],
    extras: &[],
    change: Some(100),
    starts: 1,
    staff: SHOP_STAFF,
    names: 46,
    rules: 88,
};

// Returns a window.
fn window(row: RowWindow) -> Window {
    Window {
        lo: row.0,
        hi: row.1,
    }
}

// Returns an activity.
fn activity(row: &RowCode) -> Activity {
    Activity {
        code: row.0,
        work: row.1,
        least: row.2,
        greatest: row.3,
        amount: row.4,
    }
}

// Returns the activity of a code, or one of no length.
fn coded(all: &[RowCode], code: u8) -> Activity {
    for row in all {
        if row.0 == code {
            return activity(row);
        }
    }
    activity(&(code, false, 0, 0, 0))
}

// Returns the periods in which a pause may begin, where they are said.
fn times(row: Option<RowWindow>) -> Option<Window> {
    match row {
        Some(row) => Some(window(row)),
        None => None,
    }
}

// Returns a set of activities.
fn set_of(alloc: Global, all: &[RowCode], codes: &[u8]) -> Result<List<Activity>, Memory> {
    let mut set = List::new(alloc);
    for code in codes {
        set.push(coded(all, *code))?;
    }
    Ok(set)
}

// Returns a part of a duty.
fn part_of(alloc: Global, all: &[RowCode], part: &RowPart) -> Result<PeriodPart, Memory> {
    match part {
        RowPart::Rest(code, row) => Ok(PeriodPart::Pausing(coded(all, *code), times(*row))),
        RowPart::Work(codes) => Ok(PeriodPart::Working(set_of(alloc, all, *codes)?)),
    }
}

// Returns the parts of a duty.
fn parts_of(alloc: Global, all: &[RowCode], rows: &[RowPart]) -> Result<List<PeriodPart>, Memory> {
    let mut parts = List::new(alloc);
    for part in rows {
        parts.push(part_of(alloc, all, part)?)?;
    }
    Ok(parts)
}

// Returns a duty line.
fn line_of(alloc: Global, all: &[RowCode], row: &RowDuty) -> Result<PeriodDuty, Memory> {
    let parts = parts_of(alloc, all, row.2)?;
    Ok(PeriodDuty {
        length: window(row.0),
        cost: row.1,
        parts,
        begin: window(row.3),
        end: window(row.4),
        stretch: window(row.5),
        plus: row.6,
    })
}

// Returns duty lines.
fn lines_of(alloc: Global, all: &[RowCode], rows: &[RowDuty]) -> Result<List<PeriodDuty>, Memory> {
    let mut lines = List::new(alloc);
    for row in rows {
        lines.push(line_of(alloc, all, row)?)?;
    }
    Ok(lines)
}

// Returns the lines of a duty name.
fn named_of(alloc: Global, all: &[RowCode], row: &RowStaff) -> Result<NamedLines, Memory> {
    let mut name = List::new(alloc);
    name.extend_from_slice(row.0)?;
    let lines = lines_of(alloc, all, row.1)?;
    Ok(NamedLines { name, lines })
}

// Returns the lines of all duty names.
fn staff_of(alloc: Global, row: &RowPlan) -> Result<List<NamedLines>, Memory> {
    let mut staff = List::new(alloc);
    for named in row.staff {
        staff.push(named_of(alloc, row.codes, named)?)?;
    }
    Ok(staff)
}

// Returns the activities of a plan.
fn activities_of(alloc: Global, rows: &[RowCode]) -> Result<List<Activity>, Memory> {
    let mut all = List::new(alloc);
    for row in rows {
        all.push(activity(row))?;
    }
    Ok(all)
}

// Returns the extras of a plan.
fn extras_of(alloc: Global, rows: &[RowExtra]) -> Result<List<PeriodExtra>, Memory> {
    let mut all = List::new(alloc);
    for row in rows {
        all.push(PeriodExtra {
            code: row.0,
            periods: window(row.1),
            amount: row.2,
        })?;
    }
    Ok(all)
}

// Returns the plan.
fn plan_of(alloc: Global, row: &RowPlan) -> Result<PeriodPlan, Memory> {
    let activities = activities_of(alloc, row.codes)?;
    let extras = extras_of(alloc, row.extras)?;
    Ok(PeriodPlan {
        periods: row.periods,
        off: b'.',
        activities,
        extras,
        change: row.change,
        starts: row.starts,
        first_start: 0,
    })
}

// Returns what is written for a plan.
fn written(alloc: Global, row: &RowPlan) -> Result<Grammar, WriteFault> {
    let plan = plan_of(alloc, row)?;
    let staff = staff_of(alloc, row)?;
    written_rules(alloc, &plan, staff.as_slice())
}

// Whether the grammar of a plan has so many names and rules.
fn is_written(alloc: Global, row: &RowPlan) -> bool {
    match written(alloc, row) {
        Ok(grammar) => grammar.names.len() == row.names && grammar.rules.len() == row.rules,
        Err(_) => false,
    }
}

// Returns the rules text of a plan.
fn said(alloc: Global, row: &RowPlan) -> Result<List<u8>, WriteFault> {
    let plan = plan_of(alloc, row)?;
    let staff = staff_of(alloc, row)?;
    rules_text_of(alloc, &plan, staff.as_slice())
}

// Whether this is the rules text of a plan.
fn is_said(alloc: Global, row: &RowPlan, text: &[u8]) -> bool {
    match said(alloc, row) {
        Ok(own) => own.as_slice() == text,
        Err(_) => false,
    }
}

#[test]
fn a_plan_has_its_text(rt: HostRuntime) {
    assert!(rt; is_said(rt.alloc(), &SMALL, SMALL_TEXT));
}

#[test]
fn plans_are_written(rt: HostRuntime) {
    let alloc = rt.alloc();
    assert!(rt; is_written(alloc, &SMALL));
    assert!(rt; is_written(alloc, &SHOP));
    assert!(rt; is_written(alloc, &CALL));
    assert!(rt; is_written(alloc, &RETAIL));
    assert!(rt; is_written(alloc, &WARD));
    assert!(rt; is_written(alloc, &DESK));
    assert!(rt; is_written(alloc, &KIOSK));
    assert!(rt; is_written(alloc, &LONG_SHOP));
}

#[test]
fn too_many_rules_are_told(rt: HostRuntime) {
    let refused = written(rt.alloc(), &SHORT_SHOP);
    let numbers = match refused {
        Err(WriteFault::TooManyRules { rules, names }) => (rules, names),
        _ => (0, 0),
    };
    assert!(rt; numbers == (88, 46));
}
