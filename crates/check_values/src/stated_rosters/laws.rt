//! The law on what a fault of a roster text tells.

ghost use Rattle.std.specs.Prelude.{◌≡◌, ◌⊎◌, ℕ, List, Err};
ghost use Rattle.model_rosters.specs.declared.instance.Instance.{Instance};
ghost use Rattle.check_values.specs.declared.stated_rosters.fault.RosterFault.{RosterFault};
ghost use Rattle.check_values.specs.declared.stated_rosters.fault.RosterFault.TheVariants.{TooLong};
ghost use Rattle.check_values.specs.stated_rosters.RosterOf.{roster_of, IsFirstRefused};

/// States a law: a refused text is too long, or has a line that cannot stand after those before it, whose
/// number the fault carries.
pub fn refused_line()
    ensures { (i : Instance) (text : List ℕ) (e : RosterFault) → roster_of i text ≡ Err e
        → (e ≡ TooLong) ⊎ IsFirstRefused i text e }
{}
