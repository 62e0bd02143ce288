//! The laws on names and stretches in the table of shifts.

ghost use Rattle.std.specs.Prelude.{ℕ, ◌≡◌, ◌<◌, List, length};
ghost use Rattle.model_rosters.specs.Folds.{Each};
ghost use Rattle.model_rosters.specs.declared.instance.Instance.{Instance};
ghost use Rattle.model_rosters.specs.declared.instance.Shift.{Shift};
ghost use Rattle.page_labels.specs.declared.labels.Labels.{Labels};
ghost use Rattle.page_rosters.specs.ShiftLaws.{AreItsStretches, HasItsName};
ghost use Rattle.page_rosters.specs.ShiftLines.{lines_of, shift_lines, spans_of};

/// States a law: a name stands at no shift but its own. Each line of the table of shifts has the name of the
/// shift whose number it has, or none where that has none.
pub fn names_stand_at_their_shifts()
    ensures { (i : Instance) (d : Labels) (shifts : List Shift) → Each (HasItsName d) (lines_of i d shifts) }
{}

/// States a law: the lines of a shift are one for each of its stretches that stand in lines of their own, in
/// their order, where it has any, and the first one alone is marked as such.
pub fn stretches_stand_under_their_shift()
    ensures { (i : Instance) (d : Labels) (marked : List ℕ) (k : ℕ) (s : Shift)
        → 0 < length (spans_of d.off s.word)
        → AreItsStretches d k (spans_of d.off s.word) (shift_lines i d marked k s) }
{}
