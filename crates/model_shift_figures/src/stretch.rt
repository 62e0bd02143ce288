//! When work begins and ends, stretches without time off, and what is paid.

ghost use Rattle.std.specs.Prelude.{◌≡◌, ◌≤◌, ◌++◌, IfOk, OnOk, count_by, length};
ghost use Rattle.std.specs.List.{list_any};
ghost use Rattle.model_shift_figures.specs.Stretches.{
  cut_off,
  grown,
  is_marked,
  is_off,
  is_paid,
  is_work,
  last_stretch,
  next_live,
  stretch_of,
  stretched,
  stretches_of,
  with_letter,
};

use model_rosters::{CodeDef, List, Memory};
use std::alloc::Global;

/// Periods in a row, from 1: from the first period of work of a shift to its last one, or a run without time
/// off.
#[derive(Clone, Copy, Debug, PartialEq, Eq, Drop)]
pub struct Stretch {
    /// The first period.
    pub first: u8,
    /// The last period, not before the first.
    pub last: u8,
}

/// Returns whether a byte stands for a code of work.
pub fn is_work(codes: &[CodeDef], byte: u8) -> bool
    ensures { result ≡ is_work codes.now byte }
{
    codes.iter().any(|code| code.work && code.byte == byte)
}

// Returns the stretch with a further period of work.
fn stretched(found: Option<Stretch>, period: u8) -> Option<Stretch>
    ensures { result ≡ stretched found period }
{
    match found {
        None => Some(Stretch {
            first: period,
            last: period,
        }),
        Some(stretch) => Some(Stretch {
            first: stretch.first,
            last: period,
        }),
    }
}

// Returns the stretch with a further letter, which may be of work.
#[tactic(auto, unfolding(crate::specs::Stretches::with_letter))]
fn with_letter(codes: &[CodeDef], found: Option<Stretch>, period: u8, byte: u8) -> Option<Stretch>
    ensures { result ≡ with_letter codes.now found period byte }
{
    if is_work(codes, byte) {
        stretched(found, period)
    } else {
        found
    }
}

/// Returns the first and the last period of work of a word of at most 96 letters, or none where it has no
/// work.
pub fn stretch_of(codes: &[CodeDef], word: &[u8]) -> Option<Stretch>
    requires { length word.now ≤ 96 }
    ensures { result ≡ stretch_of codes.now word.now }
{
    let mut found: Option<Stretch> = None;
    let mut period: u8 = 0;
    for byte in word {
        period += 1;
        found = with_letter(codes, found, period, *byte);
    }
    found
}

/// Returns how many letters of a word are of work.
pub fn work_periods(codes: &[CodeDef], word: &[u8]) -> usize
    ensures { result ≡ count_by (is_work codes.now) word.now }
{
    word.iter().filter(|byte| is_work(codes, **byte)).count()
}

// Whether a byte is among those that count as paid.
fn is_marked(marked: &[u8], byte: u8) -> bool
    ensures { result ≡ is_marked marked.now byte }
{
    marked.iter().any(|other| *other == byte)
}

// Whether a period with the byte is paid: one of work, or of a code that is marked so.
fn is_paid(codes: &[CodeDef], marked: &[u8], byte: u8) -> bool
    ensures { result ≡ is_paid codes.now marked.now byte }
{
    is_work(codes, byte) || is_marked(marked, byte)
}

/// Returns how many periods of a word are paid: those of work, and those of the codes whose bytes are marked,
/// anywhere in the word.
pub fn paid_periods(codes: &[CodeDef], marked: &[u8], word: &[u8]) -> usize
    ensures { result ≡ count_by (is_paid codes.now marked.now) word.now }
{
    word.iter()
        .filter(|byte| is_paid(codes, marked, **byte))
        .count()
}

// Whether a byte stands for time off.
fn is_off(off: Option<u8>, byte: u8) -> bool
    ensures { result ≡ is_off off byte }
{
    match off {
        None => false,
        Some(code) => code == byte,
    }
}

// Returns the stretch to which a further period belongs, behind so many periods.
fn grown(live: Option<Stretch>, passed: u8) -> Stretch
    requires { passed ≤ 95 }
    ensures { result ≡ grown live passed }
{
    match live {
        None => Stretch {
            first: passed + 1,
            last: passed + 1,
        },
        Some(stretch) => Stretch {
            first: stretch.first,
            last: passed + 1,
        },
    }
}

// Returns the stretch that is open behind a further letter.
#[tactic(auto, unfolding(crate::specs::Stretches::next_live))]
fn next_live(off: Option<u8>, live: Option<Stretch>, passed: u8, byte: u8) -> Option<Stretch>
    requires { passed ≤ 95 }
    ensures { result ≡ next_live off live passed byte }
{
    if is_off(off, byte) {
        None
    } else {
        Some(grown(live, passed))
    }
}

// Appends the open stretch.
fn end(stretches: &mut List<Stretch>, live: Option<Stretch>) -> Result<(), Memory>
    ensures { OnOk result (stretches.new ≡ stretches.old ++ last_stretch live) }
{
    match live {
        None => Ok(()),
        Some(stretch) => stretches.push(stretch),
    }
}

// Appends the open stretch where a further letter ends it.
#[tactic(auto, unfolding(crate::specs::Stretches::cut_off))]
fn cut(
    stretches: &mut List<Stretch>,
    off: Option<u8>,
    live: Option<Stretch>,
    byte: u8,
) -> Result<(), Memory>
    ensures { OnOk result (stretches.new ≡ stretches.old ++ cut_off off live byte) }
{
    if is_off(off, byte) {
        end(stretches, live)
    } else {
        Ok(())
    }
}

/// Returns the stretches of a word of at most 96 letters: its greatest runs of letters other than that of
/// time off, in their order, and where no letter is time off the whole word as one. A word that is all time
/// off has none.
///
/// # Errors
///
/// `Memory` where memory runs out; nothing is kept then.
pub fn stretches_of(alloc: Global, off: Option<u8>, word: &[u8]) -> Result<List<Stretch>, Memory>
    requires { length word.now ≤ 96 }
    ensures { IfOk result (λ stretches. stretches ≡ stretches_of off word.now) }
{
    let mut stretches = List::new(alloc);
    let mut live: Option<Stretch> = None;
    let mut passed: u8 = 0;
    for byte in word {
        cut(&mut stretches, off, live, *byte)?;
        live = next_live(off, live, passed, *byte);
        passed += 1;
    }
    end(&mut stretches, live)?;
    Ok(stretches)
}
