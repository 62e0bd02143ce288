//! Which choices there are.

ghost use Rattle.std.specs.Prelude.{◌≡◌, ◌<◌, ◌≤◌, ◌↔◌, Some, length, IsTrue};
ghost use Rattle.model_shift_figures.specs.roster_changes.Matchings.{shift_at, choice, IsFree, IsPair};
ghost use Rattle.model_shift_figures.specs.roster_changes.Stages.{MayFollow, Fits, Extends, IsCandidate, IsOpen};

use model_rosters::Shift;

// The shift at a place.
pub fn shift_of(shifts: &[Shift], place: usize) -> &Shift
    requires { place < length shifts.now }
    ensures { result.now ≡ shift_at shifts.now place }
{
    &shifts[place]
}

// Which old shift the new shift at a place has.
pub fn choice_at(matching: &[Option<u8>], at: usize) -> Option<u8>
    ensures { result ≡ choice matching.now at }
{
    match matching.get(at) {
        Some(chosen) => *chosen,
        None => None,
    }
}

// Whether the new shift at a place has this old one.
fn has(matching: &[Option<u8>], at: usize, place: u8) -> bool
    ensures { IsTrue result ↔ (choice matching.now at ≡ Some place) }
{
    match choice_at(matching, at) {
        Some(chosen) => chosen == place,
        None => false,
    }
}

// Whether none of the first new shifts has this old one.
pub fn is_free(matching: &[Option<u8>], count: usize, place: u8) -> bool
    ensures { IsTrue result ↔ IsFree count (choice matching.now) place }
{
    for at in 0..count {
        if has(matching, at, place) {
            return false;
        }
    }
    true
}

// Whether there is such an old shift, and of the new one's group.
fn is_pair(old: &[Shift], new: &[Shift], at: usize, place: u8) -> bool
    requires { at < length new.now }
    ensures { IsTrue result ↔ IsPair old.now new.now at place }
{
    usize::from(place) < old.len()
        && shift_of(old, usize::from(place)).group == shift_of(new, at).group
}

// Whether the old shift may be the next choice.
pub fn may_follow(
    old: &[Shift],
    new: &[Shift],
    matching: &[Option<u8>],
    at: usize,
    place: u8,
) -> bool
    requires { at < length new.now }
    ensures { IsTrue result ↔ MayFollow old.now new.now (choice matching.now) at (Some place) }
{
    is_pair(old, new, at, place) && is_free(matching, at, place)
}

// Whether the choice at a place may follow those before it.
fn fits_at(old: &[Shift], new: &[Shift], matching: &[Option<u8>], at: usize) -> bool
    requires { at < length new.now }
    ensures { IsTrue result ↔ MayFollow old.now new.now (choice matching.now) at (choice matching.now at) }
{
    match choice_at(matching, at) {
        Some(place) => may_follow(old, new, matching, at, place),
        None => true,
    }
}

// Whether each choice may follow those before it.
fn fits(old: &[Shift], new: &[Shift], matching: &[Option<u8>]) -> bool
    ensures { IsTrue result → Fits old.now new.now (length new.now) (choice matching.now) }
{
    for at in 0..new.len() {
        if !fits_at(old, new, matching, at) {
            return false;
        }
    }
    true
}

// Whether the choices begin with the fixed ones.
fn extends(fixed: &[Option<u8>], matching: &[Option<u8>]) -> bool
    ensures { IsTrue result → Extends (length fixed.now) (choice fixed.now) (choice matching.now) }
{
    for at in 0..fixed.len() {
        if choice_at(matching, at) != choice_at(fixed, at) {
            return false;
        }
    }
    true
}

// Whether these are choices for all new shifts that begin with the fixed ones.
pub fn is_candidate(
    old: &[Shift],
    new: &[Shift],
    fixed: &[Option<u8>],
    matching: &[Option<u8>],
) -> bool
    ensures { IsTrue result
        → IsCandidate old.now new.now (length fixed.now) (choice fixed.now) (choice matching.now) }
{
    fits(old, new, matching) && extends(fixed, matching)
}

// Whether the fixed choices leave the old shift to the new one.
fn is_left(fixed: &[Option<u8>], at: usize, place: u8) -> bool
    ensures early { at < length fixed.now → choice fixed.now at ≡ Some place → IsTrue result }
    ensures late { length fixed.now ≤ at → IsFree (length fixed.now) (choice fixed.now) place
        → IsTrue result }
{
    if at < fixed.len() {
        has(fixed, at, place)
    } else {
        is_free(fixed, fixed.len(), place)
    }
}

// Whether the new shift may have the old one in choices that begin with the fixed ones.
pub fn is_open(old: &[Shift], new: &[Shift], fixed: &[Option<u8>], at: usize, place: u8) -> bool
    requires { at < length new.now }
    ensures open { IsOpen old.now new.now fixed.now at place → IsTrue result }
    ensures pair { IsTrue result → IsPair old.now new.now at place }
{
    is_pair(old, new, at, place) && is_left(fixed, at, place)
}
