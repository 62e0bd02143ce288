//! Stretches, periods, shares and savings.

use model_rosters::CodeDef;
use model_shift_figures::{
    Saving, Stretch, covered_share, paid_periods, saving_at, stretch_of, work_periods,
};

/// A code of work and two that are none.
const CODES: [CodeDef; 3] = [
    CodeDef {
        byte: b'a',
        work: true,
    },
    CodeDef {
        byte: b'.',
        work: false,
    },
    CodeDef {
        byte: b'p',
        work: false,
    },
];

#[test]
fn stretches(rt: HostRuntime) {
    let work = stretch_of(&CODES, b".apa.");
    assert!(rt; work == Some(Stretch { first: 2, last: 4 }));
    assert!(rt; stretch_of(&CODES, b".p.").is_none());
    assert!(rt; work_periods(&CODES, b".apa.") == 2);
    assert!(rt; paid_periods(&CODES, b"p", b"papa.") == 4);
}

#[test]
fn shares(rt: HostRuntime) {
    assert!(rt; covered_share(3, 1) == Some(666));
    assert!(rt; covered_share(0, 0).is_none());
}

#[test]
fn savings(rt: HostRuntime) {
    assert!(rt; saving_at(0, 0) == Saving::NoneLess);
    assert!(rt; saving_at(7, 0) == Saving::Unknown);
    let third = Saving::AtMost {
        amount: 1,
        permille: 334,
    };
    assert!(rt; saving_at(3, 2) == third);
}
