//! What differs from an old roster.

ghost use Rattle.std.specs.Prelude.{◌≡◌, ◌≤◌, ◌+◌, IfOk, IfSome, length, map, true};
ghost use Rattle.std.specs.Option.{option_copied};
ghost use Rattle.page_parts.specs.Elements.{places};
ghost use Rattle.model_shift_figures.specs.roster_changes.Changes.{IsLeastMatching};
ghost use Rattle.model_shift_figures.specs.roster_changes.Matchings.{choice};
ghost use Rattle.page_views.specs.Compared.{
  IsBeside,
  IsCompared,
  all_marks,
  differs_in,
  marks_behind,
  marks_from,
  pair_marks,
  roster_marks,
  shift_marks,
};

use model_rosters::{List, Memory, Shift};
use model_shift_figures::{changed_periods, changed_shifts, changes_of, is_different};
use page_text::Changes;
use std::alloc::Global;

/// What differs between a roster and an old one, where there is one.
#[derive(Debug, Drop)]
pub struct Comparison {
    /// For each shift of the roster, for each period whether it differs; nothing where there is no old
    /// roster.
    pub marks: List<List<bool>>,
    /// How much differs, where there is an old roster.
    pub changes: Option<Changes>,
}

// Which old shift the shift at a place has.
fn choice_at(matching: &[Option<u8>], at: usize) -> Option<u8>
    ensures { result ≡ choice matching.now at }
{
    match matching.get(at) {
        Some(chosen) => *chosen,
        None => None,
    }
}

// Whether two shifts have different letters in a period, which counts from 0.
fn differs_in(before: &Shift, after: &Shift, period: u8) -> bool
    ensures { result ≡ differs_in before.now after.now period }
{
    is_different(before, after, period)
}

// Returns the periods in which a shift differs from its old one.
fn pair_marks(
    alloc: Global,
    periods: u8,
    before: &Shift,
    after: &Shift,
) -> Result<List<bool>, Memory>
    ensures { IfOk result (λ marks. marks ≡ pair_marks periods before.now after.now) }
{
    let mut marks = List::new(alloc);
    for period in 0..periods {
        marks.push(differs_in(before, after, period))?;
    }
    Ok(marks)
}

// Returns that each period differs.
fn all_marks(alloc: Global, periods: u8) -> Result<List<bool>, Memory>
    ensures { IfOk result (λ marks. marks ≡ all_marks periods) }
{
    let mut marks = List::new(alloc);
    for _ in 0..periods {
        marks.push(true)?;
    }
    Ok(marks)
}

// Returns the periods in which a shift differs from the old one at a place.
#[tactic(auto, unfolding(crate::specs::Compared::marks_from))]
fn marks_from(
    alloc: Global,
    periods: u8,
    old: &[Shift],
    shift: &Shift,
    place: u8,
) -> Result<List<bool>, Memory>
    ensures { IfOk result (λ marks. marks ≡ marks_from periods old.now shift.now place) }
{
    match old.get(place as usize) {
        None => all_marks(alloc, periods),
        Some(before) => pair_marks(alloc, periods, before, shift),
    }
}

// Returns the periods in which a shift differs from the old one that is chosen for it.
#[tactic(auto, unfolding(crate::specs::Compared::shift_marks))]
fn shift_marks(
    alloc: Global,
    periods: u8,
    old: &[Shift],
    shift: &Shift,
    chosen: Option<u8>,
) -> Result<List<bool>, Memory>
    ensures { IfOk result (λ marks. marks ≡ shift_marks periods old.now shift.now chosen) }
{
    match chosen {
        None => all_marks(alloc, periods),
        Some(place) => marks_from(alloc, periods, old, shift, place),
    }
}

// Returns the periods in which each shift differs from its old one.
fn roster_marks(
    alloc: Global,
    periods: u8,
    old: &[Shift],
    matching: &[Option<u8>],
    new: &[Shift],
) -> Result<List<List<bool>>, Memory>
    requires { length new.now ≤ 64 }
    ensures { IfOk result (λ marks. marks ≡ roster_marks periods old.now matching.now new.now) }
{
    let mut marks = List::new(alloc);
    let mut place: usize = 0;
    for shift in new {
        let chosen = choice_at(matching, place);
        marks.push(shift_marks(alloc, periods, old, shift, chosen)?)?;
        place += 1;
    }
    Ok(marks)
}

// Returns what differs from an old roster under a matching.
fn compared_by(
    alloc: Global,
    periods: u8,
    old: &[Shift],
    matching: &[Option<u8>],
    new: &[Shift],
) -> Result<Comparison, Memory>
    requires few_old { length old.now ≤ 64 }
    requires few_new { length new.now ≤ 64 }
    requires least { IsLeastMatching periods old.now new.now matching.now }
    ensures { IfOk result (IsBeside periods old.now new.now) }
{
    let changes = Changes {
        shifts: changed_shifts(periods, old, new, matching),
        periods: changed_periods(periods, old, new, matching),
    };
    Ok(Comparison {
        marks: roster_marks(alloc, periods, old, matching, new)?,
        changes: Some(changes),
    })
}

// Returns what differs from an old roster.
fn compared_with(
    alloc: Global,
    periods: u8,
    old: &[Shift],
    new: &[Shift],
) -> Result<Comparison, Memory>
    requires few_old { length old.now ≤ 64 }
    requires few_new { length new.now ≤ 64 }
    ensures { IfOk result (IsBeside periods old.now new.now) }
{
    let matching = changes_of(alloc, periods, old, new)?;
    compared_by(alloc, periods, old, matching.as_slice(), new)
}

/// Returns what differs from an old roster, where there is one: under the matching of the shifts that differs
/// least. Both rosters are of at most 64 shifts.
///
/// # Errors
///
/// `Memory` where memory runs out; nothing is kept then.
pub fn compared(
    alloc: Global,
    periods: u8,
    old: Option<&[Shift]>,
    new: &[Shift],
) -> Result<Comparison, Memory>
    requires few_old { IfSome (option_copied old) (λ shifts. length shifts ≤ 64) }
    requires few_new { length new.now ≤ 64 }
    ensures { IfOk result (IsCompared periods (option_copied old.entry) new.now) }
{
    match old {
        None => Ok(Comparison {
            marks: List::new(alloc),
            changes: None,
        }),
        Some(old) => compared_with(alloc, periods, old, new),
    }
}
