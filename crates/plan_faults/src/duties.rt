//! What is said of duties, of their starts and of staff.

ghost use Rattle.std.specs.Prelude.{◌≡◌, ◌++◌, [], ◌∷◌, OnOk};
ghost use Rattle.text_lines.specs.Written.{tail};
ghost use Rattle.plan_faults.specs.DutyFaults.{
  duty_phrase,
  lasts_text,
  many_text,
  block_text,
  blocks_text,
  duty_text,
  lengths_text,
  missing_text,
  part_text,
  period_text,
  quoted,
  side_text,
  spaced_codes,
  staff_text,
  starts_text,
  sum_text,
};

use crate::clock::put_clock;
use crate::counts::{put_counted, put_number};
use crate::fault::{DutyFault, PartFault, StaffFault, StartsFault};
use crate::phrases::say;
use model_rosters::{List, Memory};
use plan_meaning::Lengths;
use text_lines::{put, word};

/// Fixed words of what is said.
#[derive(Clone, Copy, Drop)]
enum DutyPhrase {
    MostUnits,
    NoDivisor,
    MostStarts,
    MostParts,
    NoMultiple,
    ByClock,
    SideBySide,
    OneTime,
    NoParts,
    AtLeast,
    StretchIs,
    NoBlocks,
    PartsTake,
    DutyHas,
    FitNowhere,
    NoStaff,
    InAll,
    EqualStands,
    CodeTwice,
    BehindStands,
    TwoStretches,
}

// Returns fixed words of what is said.
#[tactic(auto, unfolding(crate::specs::DutyFaults::duty_phrase))]
fn duty_phrase(phrase: DutyPhrase) -> &'static str
    ensures { result.now ≡ duty_phrase phrase }
{
    match phrase {
        DutyPhrase::MostUnits => "; at most 10000 can stand",
        DutyPhrase::NoDivisor => " does not divide 24 hours",
        DutyPhrase::MostStarts => "; at most 8 can stand",
        DutyPhrase::MostParts => "; at most 8",
        DutyPhrase::NoMultiple => "no period begins at a multiple of ",
        DutyPhrase::ByClock => " by the clock",
        DutyPhrase::SideBySide => "two parts of one kind side by side: ",
        DutyPhrase::OneTime => " stands one time; two, between which it begins, or none",
        DutyPhrase::NoParts => "nothing stands behind the =",
        DutyPhrase::AtLeast => " at least, a stretch ",
        DutyPhrase::StretchIs => "a stretch of work is ",
        DutyPhrase::NoBlocks => " long, and no blocks of",
        DutyPhrase::PartsTake => "the parts take ",
        DutyPhrase::DutyHas => " together, the duty has ",
        DutyPhrase::FitNowhere => " fit nowhere between the times of begin and end",
        DutyPhrase::NoStaff => " has no staff line; staff lines are for",
        DutyPhrase::InAll => " in all; at most 64",
        DutyPhrase::EqualStands => " where the = stands, as: duty Full 8:00 9:00 20 = work m work",
        DutyPhrase::CodeTwice => " has a code twice, or none",
        DutyPhrase::BehindStands =>
            " where begin, end or stretch with two times, or plus with an amount, can stand",
        DutyPhrase::TwoStretches => "two stretches of work",
    }
}

/// Appends what is said of the units of a period, which this or `plus` makes too many.
///
/// # Errors
///
/// `Memory` where memory runs out; a part may stand in `out` then.
pub(crate) fn put_period(
    out: &mut List<u8>,
    with: &[u8],
    code: u8,
    units: u64,
) -> Result<(), Memory>
    ensures { OnOk result (out.new ≡ out.old ++ period_text with.now code units) }
{
    say(out, b"with ")?;
    put(out, with)?;
    say(out, b" a period of ")?;
    put(out, &[code])?;
    say(out, b" costs ")?;
    put_counted(out, units, b"unit")?;
    put(out, duty_phrase(DutyPhrase::MostUnits).as_bytes())
}

/// Appends what is said of a length at whose multiples duties start.
///
/// # Errors
///
/// `Memory` where memory runs out; a part may stand in `out` then.
#[tactic(auto, unfolding(crate::specs::DutyFaults::starts_text))]
pub(crate) fn put_starts(out: &mut List<u8>, word: &[u8], fault: StartsFault) -> Result<(), Memory>
    ensures { OnOk result (out.new ≡ out.old ++ starts_text word.now fault) }
{
    match fault {
        StartsFault::Uneven => {
            put(out, word)?;
            put(out, duty_phrase(DutyPhrase::NoDivisor).as_bytes())
        }
        StartsFault::Many { periods } => {
            put(out, word)?;
            say(out, b" is ")?;
            put_counted(out, periods as u64, b"period")?;
            put(out, duty_phrase(DutyPhrase::MostStarts).as_bytes())
        }
        StartsFault::Never => {
            put(out, duty_phrase(DutyPhrase::NoMultiple).as_bytes())?;
            put(out, word)?;
            put(out, duty_phrase(DutyPhrase::ByClock).as_bytes())
        }
    }
}

// Appends a word and what is said of it.
fn put_quoted(out: &mut List<u8>, word: &[u8], behind: DutyPhrase) -> Result<(), Memory>
    ensures { OnOk result (out.new ≡ out.old ++ quoted word.now (duty_phrase behind)) }
{
    put(out, word)?;
    put(out, duty_phrase(behind).as_bytes())
}

// Appends what is said of two parts side by side.
fn put_side(out: &mut List<u8>, parts: &[u8]) -> Result<(), Memory>
    ensures { OnOk result (out.new ≡ out.old ++ side_text parts.now) }
{
    put(out, duty_phrase(DutyPhrase::SideBySide).as_bytes())?;
    put(out, parts)
}

// Appends what is said of too many parts.
fn put_many(out: &mut List<u8>, parts: u64) -> Result<(), Memory>
    ensures { OnOk result (out.new ≡ out.old ++ many_text parts) }
{
    put_counted(out, parts, b"part")?;
    put(out, duty_phrase(DutyPhrase::MostParts).as_bytes())
}

/// Appends what is said of a duty's parts.
///
/// # Errors
///
/// `Memory` where memory runs out; a part may stand in `out` then.
#[tactic(auto, unfolding(crate::specs::DutyFaults::part_text))]
pub(crate) fn put_part(out: &mut List<u8>, fault: &PartFault) -> Result<(), Memory>
    ensures { OnOk result (out.new ≡ out.old ++ part_text fault.now) }
{
    match fault {
        PartFault::NoEqual { word } => { put_quoted(out, word.as_slice(), DutyPhrase::EqualStands) }
        PartFault::Codes { word } => { put_quoted(out, word.as_slice(), DutyPhrase::CodeTwice) }
        PartFault::TwoStretches => put_side(out, duty_phrase(DutyPhrase::TwoStretches).as_bytes()),
        PartFault::TwoPauses { code } => put_side(out, &[*code]),
        PartFault::OneTime { code } => {
            say(out, b"behind ")?;
            put(out, &[*code])?;
            put(out, duty_phrase(DutyPhrase::OneTime).as_bytes())
        }
        PartFault::NoParts => put(out, duty_phrase(DutyPhrase::NoParts).as_bytes()),
        PartFault::ManyParts { parts } => put_many(out, *parts),
        PartFault::Behind { word } => { put_quoted(out, word.as_slice(), DutyPhrase::BehindStands) }
        PartFault::Twice { word } => {
            put(out, word.as_slice())?;
            say(out, b" twice")
        },
    }
}

// Appends two lengths.
fn put_lengths(out: &mut List<u8>, lengths: Lengths) -> Result<(), Memory>
    ensures { OnOk result (out.new ≡ out.old ++ lengths_text lengths) }
{
    put_clock(out, lengths.least as u64)?;
    say(out, b" to ")?;
    put_clock(out, lengths.greatest as u64)
}

// Appends codes, each behind a space.
fn put_codes(out: &mut List<u8>, codes: &[u8]) -> Result<(), Memory>
    ensures { OnOk result (out.new ≡ out.old ++ spaced_codes codes.now) }
{
    for code in codes {
        word(out, &[*code])?;
    }
    Ok(())
}

// Appends how long a block and a stretch last.
fn put_lasts(out: &mut List<u8>, least: u32, most: u32) -> Result<(), Memory>
    ensures { OnOk result (out.new ≡ out.old ++ lasts_text least most) }
{
    say(out, b" lasts ")?;
    put_clock(out, least as u64)?;
    put(out, duty_phrase(DutyPhrase::AtLeast).as_bytes())?;
    put_clock(out, most as u64)?;
    say(out, b" at most")
}

// Appends what is said of a block that is longer than a stretch.
fn put_block(out: &mut List<u8>, name: &[u8], least: u32, most: u32) -> Result<(), Memory>
    ensures { OnOk result (out.new ≡ out.old ++ block_text name.now least most) }
{
    say(out, b"a block of ")?;
    put(out, name)?;
    put_lasts(out, least, most)
}

// Appends what is said of codes whose blocks make no stretch.
fn put_blocks(out: &mut List<u8>, stretch: Lengths, codes: &[u8]) -> Result<(), Memory>
    ensures { OnOk result (out.new ≡ out.old ++ blocks_text stretch codes.now) }
{
    put(out, duty_phrase(DutyPhrase::StretchIs).as_bytes())?;
    put_lengths(out, stretch)?;
    put(out, duty_phrase(DutyPhrase::NoBlocks).as_bytes())?;
    put_codes(out, codes)?;
    say(out, b" make one")
}

// Appends what is said of the sum of the parts.
fn put_sum(out: &mut List<u8>, least: u64, greatest: u64, duty: Lengths) -> Result<(), Memory>
    ensures { OnOk result (out.new ≡ out.old ++ sum_text least greatest duty) }
{
    put(out, duty_phrase(DutyPhrase::PartsTake).as_bytes())?;
    put_clock(out, least)?;
    say(out, b" to ")?;
    put_clock(out, greatest)?;
    put(out, duty_phrase(DutyPhrase::DutyHas).as_bytes())?;
    put_lengths(out, duty)
}

/// Appends why a duty cannot be.
///
/// # Errors
///
/// `Memory` where memory runs out; a part may stand in `out` then.
#[tactic(auto, unfolding(crate::specs::DutyFaults::duty_text))]
pub(crate) fn put_duty(out: &mut List<u8>, fault: &DutyFault) -> Result<(), Memory>
    ensures { OnOk result (out.new ≡ out.old ++ duty_text fault.now) }
{
    match fault {
        DutyFault::Block { name, least, most } => put_block(out, name.as_slice(), *least, *most),
        DutyFault::NoBlocks { stretch, codes } => put_blocks(out, *stretch, codes.as_slice()),
        DutyFault::Sum {
            least,
            greatest,
            duty,
        } => put_sum(out, *least, *greatest, *duty),
        DutyFault::Nowhere { duty } => {
            put_lengths(out, *duty)?;
            put(out, duty_phrase(DutyPhrase::FitNowhere).as_bytes())
        }
    }
}

// Appends names, each behind a space.
fn put_names(out: &mut List<u8>, names: &[List<u8>]) -> Result<(), Memory>
    ensures { OnOk result (out.new ≡ out.old ++ tail names.now) }
{
    for name in names {
        word(out, name.as_slice())?;
    }
    Ok(())
}

// Appends what is said of a duty without a staff line.
fn put_missing(out: &mut List<u8>, name: &[u8], named: &[List<u8>]) -> Result<(), Memory>
    ensures { OnOk result (out.new ≡ out.old ++ missing_text name.now named.now) }
{
    say(out, b"the duty ")?;
    put(out, name)?;
    put(out, duty_phrase(DutyPhrase::NoStaff).as_bytes())?;
    put_names(out, named)
}

/// Appends why staff lines cannot be.
///
/// # Errors
///
/// `Memory` where memory runs out; a part may stand in `out` then.
#[tactic(auto, unfolding(crate::specs::DutyFaults::staff_text))]
pub(crate) fn put_staff(out: &mut List<u8>, fault: &StaffFault) -> Result<(), Memory>
    ensures { OnOk result (out.new ≡ out.old ++ staff_text fault.now) }
{
    match fault {
        StaffFault::Many { employees } => {
            put_counted(out, *employees as u64, b"employee")?;
            put(out, duty_phrase(DutyPhrase::InAll).as_bytes())
        }
        StaffFault::Missing { name, named } => {
            put_missing(out, name.as_slice(), named.as_slice())
        }
    }
}
