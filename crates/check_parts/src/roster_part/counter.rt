//! How many words have a letter, period by period.

ghost use Rattle.std.specs.Prelude.{◌≡◌, ◌≤◌, ℕ, ◌+◌, ◌-◌, ◌<◌, ◌^◌, All, None, Some, cond, length, slice_index};
ghost use Rattle.model_rosters.specs.Coverage.{covered, code_byte, has_at};
ghost use Rattle.model_rosters.specs.Limits.{IsDayCell};
ghost use Rattle.check_certificates.specs.RosterCauses.{duties};
ghost use Rattle.check_parts.specs.roster_part.Counters.{AreCounts, IsCounterFor};

use crate::roster_part::stated::StatedShift;
use check_lanes::add_matches;
use model_rosters::{Cell, Grammar};

/// The periods of the longest day.
const MOST_PERIODS: usize = 96;

/// Adds 1 for each place that has a count where the word has the byte.
fn add_word(counts: &mut [u32], word: &[u8], byte: u8)
    requires room { All (λ n. n < 2 ^ 32 - 1) counts.old }
    ensures length { length counts.new ≡ length counts.old }
    ensures counts { (k : ℕ) → k < length counts.old
        → slice_index counts.new k ≡ slice_index counts.old k + cond (has_at byte word.now k) 1 0 }
{
    let both = counts.len().min(word.len());
    add_matches(&mut counts[..both], &word[..both], byte);
}

/// Returns how many of the words have the byte in each period of the longest day.
fn letter_counts(shifts: &[StatedShift], byte: u8) -> [u32; MOST_PERIODS]
    requires few { length shifts.now ≤ 64 }
    ensures { AreCounts byte (duties shifts.now) result }
{
    let mut counts = [0; MOST_PERIODS];
    for shift in shifts {
        add_word(&mut counts, shift.word(), byte);
    }
    counts
}

/// Returns the byte of a cell's code.
pub(crate) fn code_byte(grammar: &Grammar, cell: &Cell) -> u8
    requires { IsDayCell grammar.now cell.now }
    ensures { result ≡ code_byte grammar.now cell.now.code }
{
    grammar.codes.as_slice()[cell.code as usize].byte
}

/// How many of a roster's words have the letter of one code in each period.
///
/// The words are gone through where a cell has another code than the cell before it. An instance has
/// the cells of one code after those of another, so that is once for each code.
#[derive(Drop)]
pub(crate) struct Counter {
    /// The position of the code that was counted last in the grammar's `codes`.
    code: Option<u8>,
    /// The number of words with its letter in each period.
    counts: [u32; MOST_PERIODS],
}

impl Counter {
    /// Returns a counter that has counted no code.
    pub fn new() -> Counter
        ensures { result.code ≡ None }
    {
        Counter {
            code: None,
            counts: [0; MOST_PERIODS],
        }
    }

    // Counts the letters of a cell's code, if it is not the one that was counted last.
    fn count(&mut self, grammar: &Grammar, shifts: &[StatedShift], cell: &Cell)
        requires cell { IsDayCell grammar.now cell.now }
        requires few { length shifts.now ≤ 64 }
        requires counter { IsCounterFor grammar.now (duties shifts.now) self.old }
        ensures counter { IsCounterFor grammar.now (duties shifts.now) self.new }
        ensures code { self.new.code ≡ Some cell.now.code }
    {
        if self.code == Some(cell.code) {
            return;
        }
        self.counts = letter_counts(shifts, code_byte(grammar, cell));
        self.code = Some(cell.code);
    }

    /// Returns how many of the employees work at a cell of the day. A counter is asked of one roster.
    pub fn coverage(&mut self, grammar: &Grammar, shifts: &[StatedShift], cell: &Cell) -> u32
        requires periods { grammar.now.periods ≤ 96 }
        requires cell { IsDayCell grammar.now cell.now }
        requires few { length shifts.now ≤ 64 }
        requires counter { IsCounterFor grammar.now (duties shifts.now) self.old }
        ensures value { result ≡ covered grammar.now cell.now (duties shifts.now) }
        ensures within { result ≤ 64 }
        ensures counter { IsCounterFor grammar.now (duties shifts.now) self.new }
    {
        self.count(grammar, shifts, cell);
        self.counts[cell.period as usize - 1]
    }
}
