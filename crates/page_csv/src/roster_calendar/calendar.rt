//! The text of a calendar.

ghost use Rattle.std.specs.Prelude.{◌≡◌, ◌≤◌, ◌++◌, All, IfOk, OnOk, length};
ghost use Rattle.model_rosters.specs.SoundInstance.{IsSoundInstance};
ghost use Rattle.page_csv.specs.roster_calendar.Calendars.{calendar_of, first_lines, last_lines};
ghost use Rattle.page_csv.specs.roster_calendar.Events.{events_of, events_or};

use crate::roster_calendar::event::{Placed, add_asked, add_empty_day, add_property};
use crate::roster_calendar::fold::put_lines;
use crate::roster_calendar::setting::Setting;
use model_rosters::{Instance, List, Memory, Shift};
use page_labels::Labels;
use std::alloc::Global;

// Returns the lines before the events.
fn first_lines(alloc: Global) -> Result<List<List<u8>>, Memory>
    ensures { IfOk result (λ lines. lines ≡ first_lines) }
{
    let mut lines = List::new(alloc);
    add_property(alloc, &mut lines, b"BEGIN", b"VCALENDAR")?;
    add_property(alloc, &mut lines, b"VERSION", b"2.0")?;
    add_property(alloc, &mut lines, b"PRODID", b"-//Lubishon//roster//EN")?;
    Ok(lines)
}

// Returns the line behind the events.
fn last_lines(alloc: Global) -> Result<List<List<u8>>, Memory>
    ensures { IfOk result (λ lines. lines ≡ last_lines) }
{
    let mut lines = List::new(alloc);
    add_property(alloc, &mut lines, b"END", b"VCALENDAR")?;
    Ok(lines)
}

// Returns the events of shifts, by their numbers, or of the one with a number.
fn events_of(
    alloc: Global,
    instance: &Instance,
    labels: &Labels,
    setting: &Setting,
    only: Option<u32>,
    shifts: &[Shift],
) -> Result<List<List<u8>>, Memory>
    requires codes { length instance.now.grammar.codes ≤ 32 }
    requires few { length shifts.now ≤ 64 }
    requires short { All (λ s. length s.word ≤ 96) shifts.now }
    ensures { IfOk result (λ lines. lines ≡ events_of instance.now labels.now setting.now only shifts.now) }
{
    let mut lines = List::new(alloc);
    let mut place: usize = 0;
    for shift in shifts {
        let placed = Placed {
            before: &shifts[..place],
            shift,
        };
        add_asked(alloc, &mut lines, instance, labels, setting, only, &placed)?;
        place += 1;
    }
    Ok(lines)
}

// Appends an event of the whole day, where there is none.
#[tactic(auto, unfolding(crate::specs::roster_calendar::Events::events_or))]
fn fill(
    alloc: Global,
    lines: &mut List<List<u8>>,
    labels: &Labels,
    setting: &Setting,
) -> Result<(), Memory>
    ensures { OnOk result (lines.new ≡ events_or labels.now setting.now lines.old) }
{
    if lines.len() == 0 {
        add_empty_day(alloc, lines, labels, setting)
    } else {
        Ok(())
    }
}

/// Returns a roster of at most 64 shifts as an iCalendar text (RFC 5545), under labels: by the numbers of the
/// shifts, of all or of the one with a number, from 1, an event for each stretch without time off; where the
/// labels know no time off, one for each shift that works, from its first period of work to its last. Times
/// are local, with no time zone. Where there is no such event, there is one of the whole day. Lines end with
/// a carriage return and a line feed, and are folded at 75 bytes, never within a character.
///
/// # Errors
///
/// `Memory` where memory runs out; nothing is kept then.
pub fn calendar_of(
    alloc: Global,
    instance: &Instance,
    labels: &Labels,
    setting: &Setting,
    only: Option<u32>,
    shifts: &[Shift],
) -> Result<List<u8>, Memory>
    requires sound { IsSoundInstance instance.now }
    requires few { length shifts.now ≤ 64 }
    requires short { All (λ s. length s.word ≤ 96) shifts.now }
    ensures { IfOk result (λ text. text ≡ calendar_of instance.now labels.now setting.now only shifts.now) }
{
    let first = first_lines(alloc)?;
    let mut events = events_of(alloc, instance, labels, setting, only, shifts)?;
    fill(alloc, &mut events, labels, setting)?;
    let last = last_lines(alloc)?;
    let mut out = List::new(alloc);
    put_lines(&mut out, first.as_slice())?;
    put_lines(&mut out, events.as_slice())?;
    put_lines(&mut out, last.as_slice())?;
    Ok(out)
}
