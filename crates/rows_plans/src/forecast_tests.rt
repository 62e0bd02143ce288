//! Spellings of forecasts, and their faults.

use crate::forecast_faults::{FAULTS, NIGHT_FAULTS};
use crate::plans::{desk, is_sound_day, ward};
use model_rosters::List;
use plan_forecast::{fault_line, read_forecast};
use plan_meaning::{Forecast, Plan};
use std::alloc::Global;
use std::test::Fail;

// Whether a text is refused with this line.
fn is_refused(alloc: Global, plan: &Plan, text: &[u8], said: &str) -> bool {
    if !is_sound_day(&plan.day) {
        return false;
    }
    match read_forecast(alloc, plan, text) {
        Ok(_) => false,
        Err(fault) => match fault_line(alloc, plan, &fault) {
            Ok(line) => line.as_slice() == said.as_bytes(),
            Err(_) => false,
        },
    }
}

// How many texts are refused with their lines, up to the first that is not.
fn refused(alloc: Global, plan: &Plan, rows: &[(&str, &str)]) -> usize {
    for (place, (text, said)) in rows.iter().enumerate() {
        if !is_refused(alloc, plan, text.as_bytes(), said) {
            return place;
        }
    }
    rows.len()
}

#[test]
fn faults_are_told(rt: HostRuntime) -> Result<(), Fail> {
    let plan = desk(rt.alloc())?;
    let told = refused(rt.alloc(), &plan, &FAULTS);
    let bytes = is_refused(
        rt.alloc(),
        &plan,
        b"time;t;c\n9:00;\"1;\xff;1\n",
        "forecast: line 2: bytes that are no UTF-8; save the text as UTF-8\n",
    );
    drop(plan);
    assert!(rt; told == 38);
    assert!(rt; bytes);
    Ok(())
}

#[test]
fn faults_of_nights_are_told(rt: HostRuntime) -> Result<(), Fail> {
    let plan = ward(rt.alloc())?;
    let told = refused(rt.alloc(), &plan, &NIGHT_FAULTS);
    drop(plan);
    assert!(rt; told == 4);
    Ok(())
}

#[test]
fn long_texts_are_refused(rt: HostRuntime) -> Result<(), Fail> {
    let plan = desk(rt.alloc())?;
    let mut text = List::new(rt.alloc());
    for _ in 0..16_384 {
        text.extend_from_slice(&[b' '; 64])?;
    }
    let last = is_refused(rt.alloc(), &plan, text.as_slice(), "forecast: no line\n");
    text.push(b' ')?;
    let over = is_refused(
        rt.alloc(),
        &plan,
        text.as_slice(),
        "forecast: the text is too long\n",
    );
    drop(plan);
    drop(text);
    assert!(rt; last);
    assert!(rt; over);
    Ok(())
}

/// Spellings of one forecast of the desk.
const SPELLINGS: [&str; 7] = [
    "time;t;c;t least\n9:00;1;0;1\n10:00;2;0;1\n11:00;3;4;0\n",
    "\u{feff}time,till,c,till least\r\n\r\n09:00,1,0,1\r\n ,,,\r\n10:00:00,2,0,1\r\n11:00,3,4,0\r",
    "\n time\tc\tt\tt least\t\n9:00\t0\t1\t1\n10:00\t0\t2\t1\n11:00\t4\t3\t0\n",
    "  time t least c till\n9:00  1 0 1 \n10:00 1 0 2\n\n11:00 0 4 3",
    "time;\"t\";\" desk \"\"A\"\"  calls\";\"till\tleast\"\n\"9:00\" ; \"1\";0;1\n10:00;2;0;1\n11:00;3;4;\"0\"\n",
    "time,\"desk \"\"A\"\" calls\",,t,t  least\n9:00,0,,1,1\n10:00,0,\"\",2,1\n11:00,4, ,3,0,,\n",
    "time;t least;t;c\n 9:00;1;1;0\n10:00;1;2;0\n11:00:00;0;3;4\n;;;;;\n",
];

// Whether these are the numbers.
fn are(numbers: &Option<List<u8>>, want: &[u8]) -> bool {
    match numbers {
        Some(numbers) => numbers.as_slice() == want,
        None => false,
    }
}

// Whether a forecast has these columns: what the spellings say.
fn is_spelt(forecast: &Forecast) -> bool {
    let [till, calls] = forecast.columns.as_slice() else {
        return false;
    };
    forecast.step == 60
        && till.need.as_slice() == [1, 2, 3].as_slice()
        && are(&till.least, &[1, 1, 0])
        && till.most.is_none()
        && calls.need.as_slice() == [0, 0, 4].as_slice()
        && calls.least.is_none()
        && calls.most.is_none()
}

// Whether a spelling is read so.
fn is_read_so(alloc: Global, plan: &Plan, text: &[u8]) -> bool {
    if !is_sound_day(&plan.day) {
        return false;
    }
    match read_forecast(alloc, plan, text) {
        Ok(forecast) => is_spelt(&forecast),
        Err(_) => false,
    }
}

// How many spellings are read so, up to the first that is not.
fn spelt(alloc: Global, plan: &Plan) -> usize {
    for (place, text) in SPELLINGS.iter().enumerate() {
        if !is_read_so(alloc, plan, text.as_bytes()) {
            return place;
        }
    }
    SPELLINGS.len()
}

#[test]
fn spellings_are_read(rt: HostRuntime) -> Result<(), Fail> {
    let plan = desk(rt.alloc())?;
    let count = spelt(rt.alloc(), &plan);
    drop(plan);
    assert!(rt; count == 7);
    Ok(())
}

// Whether one row alone is the whole day, of 25 hours.
fn is_whole_day(alloc: Global, plan: &Plan) -> bool {
    if !is_sound_day(&plan.day) {
        return false;
    }
    let text = b"time;n;d;a;d most\n6:00;3;0;64;0\n";
    match read_forecast(alloc, plan, text) {
        Ok(forecast) => {
            let [_, files, _] = forecast.columns.as_slice() else {
                return false;
            };
            forecast.step == 1500 && are(&files.most, &[0])
        }
        Err(_) => false,
    }
}

#[test]
fn one_row_is_the_whole_day(rt: HostRuntime) -> Result<(), Fail> {
    let plan = ward(rt.alloc())?;
    let whole = is_whole_day(rt.alloc(), &plan);
    drop(plan);
    assert!(rt; whole);
    Ok(())
}
