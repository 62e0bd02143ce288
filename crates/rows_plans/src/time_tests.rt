//! Days, lengths, times, and what an hour costs.

ghost use Rattle.std.specs.Prelude.{◌≡◌, ◌≤◌};

use plan_meaning::{PlanDay, Time};
use plan_words::{Day, DayFault, WordFault, begin, clock_time, end, hour, length, time};
use std::process::Abort;

// A time of the first 24 hours, and of the next day.
fn at(minute: u32) -> Time
    ensures { result.minute ≡ minute }
{
    Time {
        minute,
        next_day: false,
    }
}

fn next(minute: u32) -> Time
    ensures { result.minute ≡ minute }
{
    Time {
        minute,
        next_day: true,
    }
}

// Makes a day that begins and ends then, by periods of so many minutes.
fn day(rt: &impl Abort, begin: u32, end: Time, minutes: u32) -> Day
    requires some { 1 ≤ minutes }
    requires few { minutes ≤ 720 }
    requires end { end.minute ≤ 1440 }
{
    Day::of(PlanDay {
        begin,
        end,
        minutes,
    })
    .expect(rt, "a day")
}

// A shop from 9:00 to 21:00 by quarters of an hour.
#[test]
fn lengths_are_read(rt: HostRuntime) {
    let shop = day(&rt, 540, at(1260), 15);
    let part = WordFault::PartPeriod {
        minutes: 15,
        below: 120,
        above: 135,
    };
    let none = WordFault::Periods {
        periods: 0,
        most: 48,
    };
    let many = WordFault::Periods {
        periods: 49,
        most: 48,
    };
    assert!(rt; length(&shop, b"2:00") == Ok(120));
    assert!(rt; length(&shop, b"02:15") == Ok(135));
    assert!(rt; length(&shop, b"12:00") == Ok(720));
    assert!(rt; length(&shop, b"2") == Err(WordFault::NoLength));
    assert!(rt; length(&shop, b"2:5") == Err(WordFault::NoLength));
    assert!(rt; length(&shop, b"2:60") == Err(WordFault::NoLength));
    assert!(rt; length(&shop, b"2.00") == Err(WordFault::NoLength));
    assert!(rt; length(&shop, b"2:10") == Err(part));
    assert!(rt; length(&shop, b"0:00") == Err(none));
    assert!(rt; length(&shop, b"12:15") == Err(many));
}

#[test]
fn times_are_read(rt: HostRuntime) {
    assert!(rt; time(b"9:00") == Ok(at(540)));
    assert!(rt; time(b"09:00") == Ok(at(540)));
    assert!(rt; time(b"24:00") == Ok(at(1440)));
    assert!(rt; time(b"7:00+1") == Ok(next(420)));
    assert!(rt; time(b"24:00+1") == Ok(next(1440)));
    assert!(rt; time(b"25:00") == Err(WordFault::NoTime));
    assert!(rt; time(b"24:01") == Err(WordFault::NoTime));
    assert!(rt; time(b"9") == Err(WordFault::NoTime));
    assert!(rt; time(b"9:00+2") == Err(WordFault::NoTime));
    assert!(rt; clock_time(b"9:00") == Ok(540));
    assert!(rt; clock_time(b"9:00+1") == Err(WordFault::NoTime));
}

// A shop from 9:00 to 21:00 by hours.
#[test]
fn times_lie_in_the_day(rt: HostRuntime) {
    let shop = day(&rt, 540, at(1260), 60);
    let outside = WordFault::OutsideDay {
        begin: 540,
        end: 1260,
    };
    let none = WordFault::NoBegin {
        minutes: 60,
        begin: 540,
    };
    assert!(rt; begin(&shop, b"20:00") == Ok(at(1200)));
    assert!(rt; begin(&shop, b"21:00") == Err(outside));
    assert!(rt; begin(&shop, b"22:30") == Err(outside));
    assert!(rt; begin(&shop, b"9:10") == Err(none));
    assert!(rt; end(&shop, b"21:00") == Ok(at(1260)));
    assert!(rt; end(&shop, b"9:00") == Err(outside));
    assert!(rt; end(&shop, b"20:30") == Err(none));
    assert!(rt; end(&shop, b"25:00") == Err(WordFault::NoTime));
}

// A ward from 6:00 to 7:00 of the next day by half-hours: 50 periods, of which the 48th ends at 6:00.
#[test]
fn nights_go_beyond_midnight(rt: HostRuntime) {
    let ward = day(&rt, 360, next(420), 30);
    let outside = WordFault::OutsideDay {
        begin: 360,
        end: 1860,
    };
    assert!(rt; ward.length() == 50 * 30);
    assert!(rt; ward.periods() == 50);
    assert!(rt; ward.end_behind(&next(360)) == 48 * 30);
    assert!(rt; ward.begin_behind(&at(120)) == ward.begin_behind(&next(120)));
    assert!(rt; ward.begin_behind(&at(360)) == 0);
    assert!(rt; ward.end_behind(&at(360)) == 48 * 30);
    assert!(rt; end(&ward, b"7:30+1") == Err(outside));
    assert!(rt; length(&ward, b"24:00") == Ok(1440));
    assert!(rt;
        length(&ward, b"24:30")
            == Err(WordFault::Periods {
                periods: 49,
                most: 48
            })
    );
}

#[test]
fn days_are_whole_periods(rt: HostRuntime) {
    let shop = PlanDay {
        begin: 540,
        end: at(1260),
        minutes: 50,
    };
    let part = DayFault::PartDay {
        length: 720,
        minutes: 50,
    };
    assert!(rt; Day::of(shop).err() == Some(part));
    let round = PlanDay {
        begin: 360,
        end: at(360),
        minutes: 5,
    };
    let many = DayFault::ManyPeriods {
        periods: 288,
        minutes: 5,
    };
    assert!(rt; Day::of(round).err() == Some(many));
}

// 13.90 by quarters of an hour is 347.5 units; 120.00 by hours is 12,000 units.
#[test]
fn hours_come_out_even(rt: HostRuntime) {
    let quarters = day(&rt, 480, at(1200), 15);
    let hours = day(&rt, 540, at(1260), 60);
    let uneven = WordFault::Uneven {
        minutes: 15,
        decimals: 2,
        below: 1388,
        above: 1392,
    };
    assert!(rt; hour(&quarters, 2, b"13.88") == Ok(1388));
    assert!(rt; hour(&quarters, 2, b"13.90") == Err(uneven));
    assert!(rt; hour(&hours, 2, b"120.00") == Err(WordFault::PeriodUnits { units: 12000 }));
}
