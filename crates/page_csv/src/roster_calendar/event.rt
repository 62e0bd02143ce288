//! The events of shifts.

ghost use Rattle.std.specs.Prelude.{◌≡◌, ◌≤◌, ◌+◌, ◌*◌, ◌^◌, ◌++◌, [], ◌∷◌, IfOk, OnOk, count_by, length};
ghost use Rattle.page_csv.specs.roster_calendar.Dates.{date_text};
ghost use Rattle.page_csv.specs.roster_calendar.Events.{
  asked_events,
  description_line,
  description_text,
  empty_day,
  empty_mark,
  end_line,
  event_of,
  event_stretches,
  head_lines,
  is_asked,
  is_same,
  minute_of,
  moment_text,
  number_among,
  one_stretch,
  part_of,
  part_text,
  property,
  shift_events,
  shift_mark,
  shift_text,
  stamp_of,
  summary_line,
  time_digits,
  time_lines,
  uid_of,
  whole_day_lines,
};

use crate::roster_calendar::date::{Date, day_after, put_date, put_two};
use crate::roster_calendar::escape::escaped;
use crate::roster_calendar::mark::{mark_of, put_hexadecimal};
use crate::roster_calendar::setting::Setting;
use crate::roster_calendar::words::{called, description_of, lead_of, put_number, summary_of};
use model_rosters::{CodeDef, Instance, List, Memory, Shift};
use model_shift_figures::{Stretch, stretch_of, stretches_of};
use page_labels::{Clock, Labels, shift_name};
use page_rosters::group_called;
use std::alloc::Global;
use text_certificates::group_name;
use text_lines::put;

/// A shift behind others.
#[derive(Clone, Copy, Drop)]
pub(crate) struct Placed<'a> {
    /// The shifts before it, at most 64.
    pub before: &'a [Shift],
    /// The shift, whose word has at most 96 letters.
    pub shift: &'a Shift,
}

/// Appends a line of a property.
///
/// # Errors
///
/// `Memory` where memory runs out; the lines are as before then.
#[tactic(auto, unfolding(crate::specs::roster_calendar::Events::property))]
pub(crate) fn add_property(
    alloc: Global,
    lines: &mut List<List<u8>>,
    name: &[u8],
    value: &[u8],
) -> Result<(), Memory>
    ensures { OnOk result (lines.new ≡ lines.old ++ property name.now value.now ∷ []) }
{
    let mut line = List::new(alloc);
    put(&mut line, name)?;
    put(&mut line, b":")?;
    put(&mut line, value)?;
    lines.push(line)
}

// Returns the minute behind so many periods, from the midnight that begins the day.
fn minute_of(clock: Clock, passed: u8) -> u64
    ensures value { result ≡ minute_of clock passed }
    ensures small { result ≤ 2 ^ 41 }
{
    clock.begin as u64 + clock.minutes as u64 * passed as u64
}

// Appends the time of a minute, behind its date.
#[tactic(auto, unfolding(crate::specs::roster_calendar::Events::time_digits))]
fn put_digits(out: &mut List<u8>, minute: u64) -> Result<(), Memory>
    ensures { OnOk result (out.new ≡ out.old ++ time_digits minute) }
{
    put(out, b"T")?;
    put_two(out, (minute / 60 % 24) as u8)?;
    put_two(out, (minute % 60) as u8)?;
    put(out, b"00")
}

// Returns the date and the time behind so many periods.
#[tactic(auto, unfolding(crate::specs::roster_calendar::Events::moment_text))]
fn moment(alloc: Global, setting: &Setting, passed: u8) -> Result<List<u8>, Memory>
    ensures { IfOk result (λ text. text ≡ moment_text setting.now passed) }
{
    let mut text = List::new(alloc);
    let minute = minute_of(setting.clock, passed);
    put_date(&mut text, day_after(setting.date, minute / 1440))?;
    put_digits(&mut text, minute)?;
    Ok(text)
}

// Whether two shifts have one group and one word.
fn is_same(shift: &Shift, other: &Shift) -> bool
    ensures { result ≡ is_same shift.now other.now }
{
    shift.group == other.group && shift.word.as_slice() == other.word.as_slice()
}

// How many of the shifts have the group and the word of this one.
fn count_same(shifts: &[Shift], shift: &Shift) -> usize
    ensures count { result ≡ count_by (λ t. is_same t shift.now) shifts.now }
    ensures few { result ≤ length shifts.now }
{
    shifts.iter().filter(|other| is_same(other, shift)).count()
}

// Returns the number of a shift among those of its group and its word, where these shifts stand before it.
fn number_among(before: &[Shift], shift: &Shift) -> u64
    requires { length before.now ≤ 64 }
    ensures { result ≡ number_among before.now shift.now }
{
    count_same(before, shift) as u64 + 1
}

// Returns what tells the shifts of a group and a word from those of others, under a title.
fn shift_mark(instance: &Instance, labels: &Labels, shift: &Shift) -> [u8; 16]
    ensures { result ≡ shift_mark instance.now labels.now shift.now }
{
    let group = group_name(instance, shift.group);
    mark_of(labels.title.as_slice(), group, shift.word.as_slice())
}

// Returns the same of an event that stands for no shift.
fn empty_mark(labels: &Labels) -> [u8; 16]
    ensures { result ≡ empty_mark labels.now }
{
    mark_of(labels.title.as_slice(), b"", b"")
}

// Appends what tells one event of a shift from its others.
#[tactic(auto, unfolding(crate::specs::roster_calendar::Events::part_text))]
fn put_part(out: &mut List<u8>, part: Option<u8>) -> Result<(), Memory>
    ensures { OnOk result (out.new ≡ out.old ++ part_text part) }
{
    let Some(period) = part else {
        return Ok(());
    };
    put(out, b"-")?;
    put_number(out, period as u64)
}

// Returns what tells the event of this number, this part and this mark from all others.
#[tactic(auto, unfolding(crate::specs::roster_calendar::Events::uid_of))]
fn uid_of(
    alloc: Global,
    setting: &Setting,
    number: u64,
    part: Option<u8>,
    mark: [u8; 16],
) -> Result<List<u8>, Memory>
    ensures { IfOk result (λ text. text ≡ uid_of setting.now number part mark) }
{
    let mut text = List::new(alloc);
    put_date(&mut text, setting.date)?;
    put(&mut text, b"-")?;
    put_number(&mut text, number)?;
    put_part(&mut text, part)?;
    put(&mut text, b"-")?;
    put_hexadecimal(alloc, &mut text, &mark)?;
    put(&mut text, b"@roster")?;
    Ok(text)
}

// Returns a day as a value.
fn day(alloc: Global, date: Date) -> Result<List<u8>, Memory>
    ensures { IfOk result (λ text. text ≡ date_text date) }
{
    let mut text = List::new(alloc);
    put_date(&mut text, date)?;
    Ok(text)
}

// Returns when an event is said to be made: at the midnight that begins the day.
#[tactic(auto, unfolding(crate::specs::roster_calendar::Events::stamp_of))]
fn stamp_of(alloc: Global, setting: &Setting) -> Result<List<u8>, Memory>
    ensures { IfOk result (λ text. text ≡ stamp_of setting.now) }
{
    let mut text = day(alloc, setting.date)?;
    put(&mut text, b"T000000Z")?;
    Ok(text)
}

// Appends the lines that begin an event.
#[tactic(auto, unfolding(crate::specs::roster_calendar::Events::head_lines))]
fn add_head(
    alloc: Global,
    lines: &mut List<List<u8>>,
    setting: &Setting,
    number: u64,
    part: Option<u8>,
    mark: [u8; 16],
) -> Result<(), Memory>
    ensures { OnOk result (lines.new ≡ lines.old ++ head_lines setting.now number part mark) }
{
    let uid = uid_of(alloc, setting, number, part, mark)?;
    let stamp = stamp_of(alloc, setting)?;
    add_property(alloc, lines, b"BEGIN", b"VEVENT")?;
    add_property(alloc, lines, b"UID", uid.as_slice())?;
    add_property(alloc, lines, b"DTSTAMP", stamp.as_slice())
}

// Appends when an event begins and ends.
#[tactic(auto, unfolding(crate::specs::roster_calendar::Events::time_lines))]
fn add_times(
    alloc: Global,
    lines: &mut List<List<u8>>,
    setting: &Setting,
    stretch: Stretch,
) -> Result<(), Memory>
    ensures { OnOk result (lines.new ≡ lines.old ++ time_lines setting.now stretch) }
{
    let begin = moment(alloc, setting, stretch.first.saturating_sub(1))?;
    let end = moment(alloc, setting, stretch.last)?;
    add_property(alloc, lines, b"DTSTART", begin.as_slice())?;
    add_property(alloc, lines, b"DTEND", end.as_slice())
}

// Returns a shift by its group and its number.
fn shift_text(
    alloc: Global,
    instance: &Instance,
    labels: &Labels,
    number: u32,
    shift: &Shift,
) -> Result<List<u8>, Memory>
    ensures { IfOk result (λ text. text ≡ shift_text instance.now labels.now number shift.now) }
{
    let group = group_called(alloc, instance, labels, shift.group)?;
    summary_of(alloc, group.as_slice(), number as u64)
}

// Appends who works a shift, or else what the shift is called.
#[tactic(auto, unfolding(crate::specs::roster_calendar::Events::summary_line))]
fn add_summary(
    alloc: Global,
    lines: &mut List<List<u8>>,
    instance: &Instance,
    labels: &Labels,
    number: u32,
    shift: &Shift,
) -> Result<(), Memory>
    ensures { OnOk result (lines.new ≡ lines.old ++ summary_line instance.now labels.now number shift.now ∷ []) }
{
    let text = shift_text(alloc, instance, labels, number, shift)?;
    let name = shift_name(labels.shifts.as_slice(), number);
    let value = escaped(alloc, called(name, text.as_slice()))?;
    add_property(alloc, lines, b"SUMMARY", value.as_slice())
}

// Returns what a shift has when, behind its group and its number where it is called by a name.
fn description(
    alloc: Global,
    instance: &Instance,
    labels: &Labels,
    clock: Clock,
    placed: &Placed<'_>,
    stretch: Stretch,
) -> Result<List<u8>, Memory>
    requires codes { length instance.now.grammar.codes ≤ 32 }
    requires few { length placed.now.before.now ≤ 64 }
    requires short { length placed.now.shift.now.word ≤ 96 }
    ensures { IfOk result (λ text. text
        ≡ description_text instance.now labels.now clock (length placed.now.before.now + 1) placed.now.shift.now stretch) }
{
    let number = placed.before.len() as u32 + 1;
    let shift = shift_text(alloc, instance, labels, number, placed.shift)?;
    let name = shift_name(labels.shifts.as_slice(), number);
    let mut text = lead_of(alloc, name, shift.as_slice())?;
    let codes = instance.grammar.codes.as_slice();
    let word = placed.shift.word.as_slice();
    let description = description_of(alloc, codes, labels, clock, stretch, word)?;
    put(&mut text, description.as_slice())?;
    Ok(text)
}

// Appends what a shift has when.
#[tactic(auto, unfolding(crate::specs::roster_calendar::Events::description_line))]
fn add_description(
    alloc: Global,
    lines: &mut List<List<u8>>,
    instance: &Instance,
    labels: &Labels,
    clock: Clock,
    placed: &Placed<'_>,
    stretch: Stretch,
) -> Result<(), Memory>
    requires codes { length instance.now.grammar.codes ≤ 32 }
    requires few { length placed.now.before.now ≤ 64 }
    requires short { length placed.now.shift.now.word ≤ 96 }
    ensures { OnOk result (lines.new ≡ lines.old
        ++ description_line instance.now labels.now clock (length placed.now.before.now + 1) placed.now.shift.now stretch
        ∷ []) }
{
    let text = description(alloc, instance, labels, clock, placed, stretch)?;
    let value = escaped(alloc, text.as_slice())?;
    add_property(alloc, lines, b"DESCRIPTION", value.as_slice())
}

// Appends the line that ends an event.
#[tactic(auto, unfolding(crate::specs::roster_calendar::Events::end_line))]
fn add_end(alloc: Global, lines: &mut List<List<u8>>) -> Result<(), Memory>
    ensures { OnOk result (lines.new ≡ lines.old ++ end_line ∷ []) }
{
    add_property(alloc, lines, b"END", b"VEVENT")
}

// Returns the stretches of a word that have an event.
#[tactic(auto, unfolding(crate::specs::roster_calendar::Events::event_stretches))]
fn event_stretches(
    alloc: Global,
    codes: &[CodeDef],
    off: Option<u8>,
    word: &[u8],
) -> Result<List<Stretch>, Memory>
    requires { length word.now ≤ 96 }
    ensures { IfOk result (λ stretches. stretches ≡ event_stretches codes.now off word.now) }
{
    match off {
        Some(_) => stretches_of(alloc, off, word),
        None => one_stretch(alloc, stretch_of(codes, word)),
    }
}

// Returns the stretch of work, where there is one.
fn one_stretch(alloc: Global, stretch: Option<Stretch>) -> Result<List<Stretch>, Memory>
    ensures { IfOk result (λ stretches. stretches ≡ one_stretch stretch) }
{
    let mut stretches = List::new(alloc);
    if let Some(stretch) = stretch {
        stretches.push(stretch)?;
    }
    Ok(stretches)
}

// Returns what tells the event of a stretch from those of the others: its first period, where time off is
// known.
#[tactic(auto, unfolding(crate::specs::roster_calendar::Events::part_of))]
fn part_of(off: Option<u8>, stretch: Stretch) -> Option<u8>
    ensures { result ≡ part_of off stretch }
{
    match off {
        None => None,
        Some(_) => Some(stretch.first),
    }
}

// Appends the event of a stretch of a shift behind at most 64 shifts.
#[tactic(auto, unfolding(crate::specs::roster_calendar::Events::event_of))]
fn add_event(
    alloc: Global,
    lines: &mut List<List<u8>>,
    instance: &Instance,
    labels: &Labels,
    setting: &Setting,
    placed: &Placed<'_>,
    stretch: Stretch,
) -> Result<(), Memory>
    requires codes { length instance.now.grammar.codes ≤ 32 }
    requires few { length placed.now.before.now ≤ 64 }
    requires short { length placed.now.shift.now.word ≤ 96 }
    ensures { OnOk result (lines.new
        ≡ lines.old ++ event_of instance.now labels.now setting.now placed.now.before.now placed.now.shift.now stretch) }
{
    let number = placed.before.len() as u32 + 1;
    let mark = shift_mark(instance, labels, placed.shift);
    let part = part_of(labels.off, stretch);
    add_head(
        alloc,
        lines,
        setting,
        number_among(placed.before, placed.shift),
        part,
        mark,
    )?;
    add_times(alloc, lines, setting, stretch)?;
    add_summary(alloc, lines, instance, labels, number, placed.shift)?;
    add_description(
        alloc,
        lines,
        instance,
        labels,
        setting.clock,
        placed,
        stretch,
    )?;
    add_end(alloc, lines)
}

// Appends the events of a shift behind others.
fn add_shift(
    alloc: Global,
    lines: &mut List<List<u8>>,
    instance: &Instance,
    labels: &Labels,
    setting: &Setting,
    placed: &Placed<'_>,
) -> Result<(), Memory>
    requires codes { length instance.now.grammar.codes ≤ 32 }
    requires few { length placed.now.before.now ≤ 64 }
    requires short { length placed.now.shift.now.word ≤ 96 }
    ensures { OnOk result (lines.new ≡ lines.old
        ++ shift_events instance.now labels.now setting.now placed.now.before.now placed.now.shift.now) }
{
    let codes = instance.grammar.codes.as_slice();
    let word = placed.shift.word.as_slice();
    let stretches = event_stretches(alloc, codes, labels.off, word)?;
    for stretch in stretches.as_slice() {
        add_event(alloc, lines, instance, labels, setting, placed, *stretch)?;
    }
    Ok(())
}

// Whether the shift with a number is asked for.
fn is_asked(only: Option<u32>, number: u32) -> bool
    ensures { result ≡ is_asked only number }
{
    match only {
        None => true,
        Some(asked) => asked == number,
    }
}

/// Appends the events of a shift behind others, where it is asked for: all are, or the one with a number.
///
/// # Errors
///
/// `Memory` where memory runs out; a part may stand in `lines` then.
#[tactic(auto, unfolding(crate::specs::roster_calendar::Events::asked_events))]
pub(crate) fn add_asked(
    alloc: Global,
    lines: &mut List<List<u8>>,
    instance: &Instance,
    labels: &Labels,
    setting: &Setting,
    only: Option<u32>,
    placed: &Placed<'_>,
) -> Result<(), Memory>
    requires codes { length instance.now.grammar.codes ≤ 32 }
    requires few { length placed.now.before.now ≤ 64 }
    requires short { length placed.now.shift.now.word ≤ 96 }
    ensures { OnOk result (lines.new ≡ lines.old
        ++ asked_events instance.now labels.now setting.now only placed.now.before.now placed.now.shift.now) }
{
    if is_asked(only, placed.before.len() as u32 + 1) {
        add_shift(alloc, lines, instance, labels, setting, placed)
    } else {
        Ok(())
    }
}

// Appends that an event takes the whole day, and that there is no shift.
#[tactic(auto, unfolding(crate::specs::roster_calendar::Events::whole_day_lines))]
fn add_whole_day(alloc: Global, lines: &mut List<List<u8>>, setting: &Setting) -> Result<(), Memory>
    ensures { OnOk result (lines.new ≡ lines.old ++ whole_day_lines setting.now) }
{
    let date = day(alloc, setting.date)?;
    add_property(alloc, lines, b"DTSTART;VALUE=DATE", date.as_slice())?;
    add_property(alloc, lines, b"SUMMARY", b"no shifts")
}

/// Appends an event of the whole day, which says that no shift works.
///
/// # Errors
///
/// `Memory` where memory runs out; a part may stand in `lines` then.
pub(crate) fn add_empty_day(
    alloc: Global,
    lines: &mut List<List<u8>>,
    labels: &Labels,
    setting: &Setting,
) -> Result<(), Memory>
    ensures { OnOk result (lines.new ≡ lines.old ++ empty_day labels.now setting.now) }
{
    add_head(alloc, lines, setting, 0, None, empty_mark(labels))?;
    add_whole_day(alloc, lines, setting)?;
    add_end(alloc, lines)
}
