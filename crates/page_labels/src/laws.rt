//! The laws on refused labels texts and on names at shifts.

ghost use Rattle.std.specs.Prelude.{◌≡◌, ◌⊎◌, ℕ, List, Err, None};
ghost use Rattle.model_rosters.specs.declared.instance.Instance.{Instance};
ghost use Rattle.model_rosters.specs.declared.instance.Shift.{Shift};
ghost use Rattle.page_labels.specs.declared.fault.LabelFault.{LabelFault};
ghost use Rattle.page_labels.specs.declared.fault.LabelFault.TheVariants.{TooLong};
ghost use Rattle.page_labels.specs.declared.labels.ShiftLabel.{ShiftLabel};
ghost use Rattle.page_labels.specs.LabelsOf.{labels_of, IsFirstRefused};
ghost use Rattle.page_labels.specs.Shifts.{StandAll, refused_shift};

/// States a law: a refused text is too long, or has a line that cannot stand after those before it, whose
/// number the fault carries.
pub fn refused_line()
    ensures { (i : Instance) (text : List ℕ) (e : LabelFault) → labels_of i text ≡ Err e
        → (e ≡ TooLong) ⊎ IsFirstRefused i text e }
{}

/// States a law: where no name is refused at a roster, each stands at the shift that has its number, and this
/// has the name's group and word.
pub fn names_stand_at_their_shifts()
    ensures { (labels : List ShiftLabel) (shifts : List Shift) → refused_shift labels shifts ≡ None
        → StandAll shifts labels }
{}
