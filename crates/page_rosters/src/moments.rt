//! When periods begin and end, and how long they are.

ghost use Rattle.std.specs.Prelude.{◌≡◌, ◌-◌, ◌++◌, codes as text, IfOk, OnOk};
ghost use Rattle.std.specs.Fmt.{decimal};
ghost use Rattle.page_rosters.specs.Moments.{
  begin_text,
  duration,
  end_text,
  moment,
  stretch_begin,
  stretch_end,
};

use crate::called::copied;
use model_rosters::{List, Memory};
use model_shift_figures::Stretch;
use page_labels::{Clock, put_duration, put_time};
use std::alloc::Global;
use text_lines::write_number;

// Appends a number.
fn put_count(out: &mut List<u8>, value: u8) -> Result<(), Memory>
    ensures { OnOk result (out.new ≡ out.old ++ decimal value) }
{
    write_number(out, value as i128)?;
    Ok(())
}

// Appends the time behind so many periods, or without a clock the number of a period.
fn put_moment(
    out: &mut List<u8>,
    clock: Option<Clock>,
    period: u8,
    passed: u8,
) -> Result<(), Memory>
    ensures { OnOk result (out.new ≡ out.old ++ moment clock period passed) }
{
    match clock {
        None => put_count(out, period),
        Some(clock) => put_time(out, clock, passed),
    }
}

/// Returns when a period begins: the time, or without a clock its number.
///
/// # Errors
///
/// `Memory` where memory runs out; nothing is kept then.
pub fn begin_text(alloc: Global, clock: Option<Clock>, period: u8) -> Result<List<u8>, Memory>
    ensures { IfOk result (λ t. t ≡ begin_text clock period) }
{
    let mut out = List::new(alloc);
    put_moment(&mut out, clock, period, period.saturating_sub(1))?;
    Ok(out)
}

/// Returns when a period ends: the time, or without a clock its number.
///
/// # Errors
///
/// `Memory` where memory runs out; nothing is kept then.
pub fn end_text(alloc: Global, clock: Option<Clock>, period: u8) -> Result<List<u8>, Memory>
    ensures { IfOk result (λ t. t ≡ end_text clock period) }
{
    let mut out = List::new(alloc);
    put_moment(&mut out, clock, period, period)?;
    Ok(out)
}

/// Returns the time behind so many periods, or without a clock that number, which is the one of the last of
/// them.
///
/// # Errors
///
/// `Memory` where memory runs out; nothing is kept then.
pub fn moment_text(alloc: Global, clock: Option<Clock>, passed: u8) -> Result<List<u8>, Memory>
    ensures { IfOk result (λ t. t ≡ moment clock passed passed) }
{
    let mut out = List::new(alloc);
    put_moment(&mut out, clock, passed, passed)?;
    Ok(out)
}

/// Returns when the work of a stretch begins, or `-` where there is none.
///
/// # Errors
///
/// `Memory` where memory runs out; nothing is kept then.
pub fn stretch_begin(
    alloc: Global,
    clock: Option<Clock>,
    stretch: Option<Stretch>,
) -> Result<List<u8>, Memory>
    ensures { IfOk result (λ t. t ≡ stretch_begin clock stretch) }
{
    match stretch {
        None => copied(alloc, b"-"),
        Some(stretch) => begin_text(alloc, clock, stretch.first),
    }
}

/// Returns when the work of a stretch ends, or `-` where there is none.
///
/// # Errors
///
/// `Memory` where memory runs out; nothing is kept then.
pub fn stretch_end(
    alloc: Global,
    clock: Option<Clock>,
    stretch: Option<Stretch>,
) -> Result<List<u8>, Memory>
    ensures { IfOk result (λ t. t ≡ stretch_end clock stretch) }
{
    match stretch {
        None => copied(alloc, b"-"),
        Some(stretch) => end_text(alloc, clock, stretch.last),
    }
}

// Appends how long so many periods are, or without a clock how many they are.
fn put_length(out: &mut List<u8>, clock: Option<Clock>, periods: u8) -> Result<(), Memory>
    ensures { OnOk result (out.new ≡ out.old ++ duration clock periods) }
{
    match clock {
        None => put_count(out, periods),
        Some(clock) => put_duration(out, clock, periods),
    }
}

/// Returns how long so many periods are, or without a clock how many they are.
///
/// # Errors
///
/// `Memory` where memory runs out; nothing is kept then.
pub fn duration(alloc: Global, clock: Option<Clock>, periods: u8) -> Result<List<u8>, Memory>
    ensures { IfOk result (λ t. t ≡ duration clock periods) }
{
    let mut out = List::new(alloc);
    put_length(&mut out, clock, periods)?;
    Ok(out)
}
