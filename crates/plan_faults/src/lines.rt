//! What is said of lines and of their first words.

ghost use Rattle.std.specs.Prelude.{◌≡◌, ◌++◌, [], ◌∷◌, OnOk};
ghost use Rattle.plan_faults.specs.LineFaults.{
  line_phrase,
  bytes_text,
  code_text,
  count_text,
  day_text,
  first_word,
  late_line,
  late_text,
  name_text,
  pair_middle,
  pair_text,
  pair_today,
  second_of,
  second_text,
  signs_text,
  stand_text,
  unknown_text,
  wanted,
  whole_day_text,
};

use crate::counts::{put_counted, put_number};
use crate::fault::{CodeFault, Kind, NameFault, PairFault, Signs, StandFault};
use crate::phrases::say;
use model_rosters::{List, Memory};
use plan_words::DayFault;
use text_lines::put;

/// Fixed words of what is said.
#[derive(Clone, Copy, Drop)]
enum LinePhrase {
    NoLineBegins,
    DayFirst,
    NinthWork,
    ManyPauses,
    NinthStaff,
    BehindFirst,
    NoWhole,
    MostPeriods,
    StandsAbove,
    NoLineAbove,
    IsWork,
    IsPause,
    NoDutyAbove,
}

// Returns fixed words of what is said.
#[tactic(auto, unfolding(crate::specs::LineFaults::line_phrase))]
fn line_phrase(phrase: LinePhrase) -> &'static str
    ensures { result.now ≡ line_phrase phrase }
{
    match phrase {
        LinePhrase::NoLineBegins => "no line begins with ",
        LinePhrase::DayFirst => "the day line comes first, as: day 9:00 21:00 60",
        LinePhrase::NinthWork => "a ninth code of work; at most 8",
        LinePhrase::ManyPauses => "a 24th pause; at most 23",
        LinePhrase::NinthStaff => "a ninth staff line; at most 8",
        LinePhrase::BehindFirst => " behind the first; it wants ",
        LinePhrase::NoWhole => ", which is no whole number of periods of ",
        LinePhrase::MostPeriods => "; at most 96",
        LinePhrase::StandsAbove => " stands above already",
        LinePhrase::NoLineAbove => "no line above has the code ",
        LinePhrase::IsWork => " is a code of work; as a part of a duty it is work:",
        LinePhrase::IsPause => " is a pause, and no code of work",
        LinePhrase::NoDutyAbove => "no duty line above has the name ",
    }
}

/// Returns the first word of a line of this kind.
#[tactic(auto, unfolding(crate::specs::LineFaults::first_word))]
pub(crate) fn first_word(kind: Kind) -> &'static str
    ensures { result.now ≡ first_word kind }
{
    match kind {
        Kind::Title => "title",
        Kind::Day => "day",
        Kind::Money => "money",
        Kind::Work => "work",
        Kind::Pause => "pause",
        Kind::Extra => "extra",
        Kind::Change => "change",
        Kind::Stretch => "stretch",
        Kind::Starts => "starts",
        Kind::Duty => "duty",
        Kind::Staff => "staff",
        Kind::Need => "need",
    }
}

// Returns what is said of a line's bytes.
#[tactic(auto, unfolding(crate::specs::LineFaults::signs_text))]
fn signs_text(signs: Signs) -> &'static str
    ensures { result.now ≡ signs_text signs }
{
    match signs {
        Signs::NoText => "bytes that are no UTF-8; save the text as UTF-8",
        Signs::Control => "a control sign",
        Signs::NotPlain => "a sign that is no plain letter, as an accent or a curly quote",
    }
}

/// Appends what is said of bytes that cannot stand.
///
/// # Errors
///
/// `Memory` where memory runs out.
pub fn put_signs(out: &mut List<u8>, signs: Signs) -> Result<(), Memory>
    ensures { OnOk result (out.new ≡ out.old ++ signs_text signs) }
{
    put(out, signs_text(signs).as_bytes())
}

// Appends what is said of a line of which one stands already.
fn put_second(out: &mut List<u8>, kind: Kind) -> Result<(), Memory>
    ensures { OnOk result (out.new ≡ out.old ++ second_text kind) }
{
    say(out, b"a second ")?;
    put(out, first_word(kind).as_bytes())?;
    say(out, b" line")
}

// Appends what is said of a line of which one of this code or name stands already.
fn put_second_of(out: &mut List<u8>, kind: Kind, of: &[u8]) -> Result<(), Memory>
    ensures { OnOk result (out.new ≡ out.old ++ second_of kind of.now) }
{
    put_second(out, kind)?;
    say(out, b" of ")?;
    put(out, of)
}

// Returns what a line comes before.
#[tactic(auto, unfolding(crate::specs::LineFaults::late_text))]
fn late_text(kind: Kind) -> &'static str
    ensures { result.now ≡ late_text kind }
{
    match kind {
        Kind::Money => " line comes before all amounts",
        _ => " line comes before the duties",
    }
}

// Appends what is said of a late line.
fn put_late(out: &mut List<u8>, kind: Kind) -> Result<(), Memory>
    ensures { OnOk result (out.new ≡ out.old ++ late_line kind) }
{
    say(out, b"the ")?;
    put(out, first_word(kind).as_bytes())?;
    put(out, late_text(kind).as_bytes())
}

// Appends what is said of a line's first word.
fn put_unknown(out: &mut List<u8>, word: &[u8]) -> Result<(), Memory>
    ensures { OnOk result (out.new ≡ out.old ++ unknown_text word.now) }
{
    put(out, line_phrase(LinePhrase::NoLineBegins).as_bytes())?;
    put(out, word)
}

/// Appends why a line cannot stand where it stands.
///
/// # Errors
///
/// `Memory` where memory runs out; a part may stand in `out` then.
#[tactic(auto, unfolding(crate::specs::LineFaults::stand_text))]
pub(crate) fn put_stand(out: &mut List<u8>, fault: &StandFault) -> Result<(), Memory>
    ensures { OnOk result (out.new ≡ out.old ++ stand_text fault.now) }
{
    match fault {
        StandFault::Unknown { word } => put_unknown(out, word.as_slice()),
        StandFault::DayFirst => put(out, line_phrase(LinePhrase::DayFirst).as_bytes()),
        StandFault::Second { kind } => put_second(out, *kind),
        StandFault::SecondNeed { code } => put_second_of(out, Kind::Need, &[*code]),
        StandFault::SecondStaff { name } => put_second_of(out, Kind::Staff, name.as_slice()),
        StandFault::Late { kind } => put_late(out, *kind),
        StandFault::ManyWork => put(out, line_phrase(LinePhrase::NinthWork).as_bytes()),
        StandFault::ManyPauses => put(out, line_phrase(LinePhrase::ManyPauses).as_bytes()),
        StandFault::ManyStaff => put(out, line_phrase(LinePhrase::NinthStaff).as_bytes()),
    }
}

// Appends how many words are wanted.
#[tactic(auto, unfolding(crate::specs::LineFaults::wanted))]
fn put_wanted(out: &mut List<u8>, least: u64, most: Option<u64>) -> Result<(), Memory>
    ensures { OnOk result (out.new ≡ out.old ++ wanted least most) }
{
    put_number(out, least)?;
    match most {
        None => say(out, b" or more"),
        Some(most) if most == least => Ok(()),
        Some(most) => {
            say(out, b" to ")?;
            put_number(out, most)
        }
    }
}

/// Appends what is said of how many words a line has.
///
/// # Errors
///
/// `Memory` where memory runs out; a part may stand in `out` then.
pub(crate) fn put_count(
    out: &mut List<u8>,
    found: u64,
    least: u64,
    most: Option<u64>,
) -> Result<(), Memory>
    ensures { OnOk result (out.new ≡ out.old ++ count_text found least most) }
{
    put_counted(out, found, b"word")?;
    put(out, line_phrase(LinePhrase::BehindFirst).as_bytes())?;
    put_wanted(out, least, most)
}

// Returns what is said between the words of a pair.
#[tactic(auto, unfolding(crate::specs::LineFaults::pair_middle))]
fn pair_middle(fault: PairFault) -> &'static str
    ensures { result.now ≡ pair_middle fault }
{
    match fault {
        PairFault::More => " is more than ",
        PairFault::Longer => " is longer than ",
        PairFault::Later => " is later than ",
        PairFault::NotBefore => " is not before ",
    }
}

// Returns what is said behind the words of a pair.
#[tactic(auto, unfolding(crate::specs::LineFaults::pair_today))]
fn pair_today(fault: PairFault) -> &'static str
    ensures { result.now ≡ pair_today fault }
{
    match fault {
        PairFault::More | PairFault::Longer => "",
        PairFault::Later | PairFault::NotBefore => " in this day",
    }
}

/// Appends what is said of two words together.
///
/// # Errors
///
/// `Memory` where memory runs out; a part may stand in `out` then.
pub(crate) fn put_pair(
    out: &mut List<u8>,
    first: &[u8],
    second: &[u8],
    fault: PairFault,
) -> Result<(), Memory>
    ensures { OnOk result (out.new ≡ out.old ++ pair_text first.now second.now fault) }
{
    put(out, first)?;
    put(out, pair_middle(fault).as_bytes())?;
    put(out, second)?;
    put(out, pair_today(fault).as_bytes())
}

// Appends what is said of the day behind its times.
#[tactic(auto, unfolding(crate::specs::LineFaults::day_text))]
fn put_periods(out: &mut List<u8>, fault: DayFault) -> Result<(), Memory>
    ensures { OnOk result (out.new ≡ out.old ++ day_text fault) }
{
    match fault {
        DayFault::PartDay { length, minutes } => {
            put_counted(out, length as u64, b"minute")?;
            put(out, line_phrase(LinePhrase::NoWhole).as_bytes())?;
            put_number(out, minutes as u64)
        }
        DayFault::ManyPeriods { periods, minutes } => {
            put_counted(out, periods as u64, b"period")?;
            say(out, b" of ")?;
            put_counted(out, minutes as u64, b"minute")?;
            put(out, line_phrase(LinePhrase::MostPeriods).as_bytes())
        }
    }
}

/// Appends what is said of the times of the day and its periods.
///
/// # Errors
///
/// `Memory` where memory runs out; a part may stand in `out` then.
pub(crate) fn put_day(
    out: &mut List<u8>,
    begin: &[u8],
    end: &[u8],
    fault: DayFault,
) -> Result<(), Memory>
    ensures { OnOk result (out.new ≡ out.old ++ whole_day_text begin.now end.now fault) }
{
    say(out, b"from ")?;
    put(out, begin)?;
    say(out, b" to ")?;
    put(out, end)?;
    say(out, b" are ")?;
    put_periods(out, fault)
}

/// Appends what is said of a code.
///
/// # Errors
///
/// `Memory` where memory runs out; a part may stand in `out` then.
#[tactic(auto, unfolding(crate::specs::LineFaults::code_text))]
pub(crate) fn put_code(out: &mut List<u8>, code: u8, fault: CodeFault) -> Result<(), Memory>
    ensures { OnOk result (out.new ≡ out.old ++ code_text code fault) }
{
    match fault {
        CodeFault::Stands => {
            say(out, b"the code ")?;
            put(out, &[code])?;
            put(out, line_phrase(LinePhrase::StandsAbove).as_bytes())
        }
        CodeFault::Unknown => {
            put(out, line_phrase(LinePhrase::NoLineAbove).as_bytes())?;
            put(out, &[code])
        }
        CodeFault::Work => {
            put(out, &[code])?;
            put(out, line_phrase(LinePhrase::IsWork).as_bytes())?;
            put(out, &[code])
        }
        CodeFault::Pause => {
            put(out, &[code])?;
            put(out, line_phrase(LinePhrase::IsPause).as_bytes())
        }
    }
}

/// Appends what is said of a name.
///
/// # Errors
///
/// `Memory` where memory runs out; a part may stand in `out` then.
#[tactic(auto, unfolding(crate::specs::LineFaults::name_text))]
pub(crate) fn put_name(out: &mut List<u8>, name: &[u8], fault: NameFault) -> Result<(), Memory>
    ensures { OnOk result (out.new ≡ out.old ++ name_text name.now fault) }
{
    match fault {
        NameFault::Stands => {
            say(out, b"the name ")?;
            put(out, name)?;
            put(out, line_phrase(LinePhrase::StandsAbove).as_bytes())
        }
        NameFault::NoDuty => {
            put(out, line_phrase(LinePhrase::NoDutyAbove).as_bytes())?;
            put(out, name)
        }
    }
}

/// Appends what is said of a name of so many bytes.
///
/// # Errors
///
/// `Memory` where memory runs out; a part may stand in `out` then.
pub(crate) fn put_bytes(out: &mut List<u8>, found: u64, most: u64) -> Result<(), Memory>
    ensures { OnOk result (out.new ≡ out.old ++ bytes_text found most) }
{
    say(out, b"a name of ")?;
    put_counted(out, found, b"byte")?;
    say(out, b"; 1 to ")?;
    put_number(out, most)?;
    say(out, b" can stand")
}
