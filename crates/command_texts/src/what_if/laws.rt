//! A roster text and its first bytes, up to one above the limit, are read alike.

ghost use Rattle.std.specs.Prelude.{◌≡◌, ℕ, List};
ghost use Rattle.model_rosters.specs.declared.instance.Instance.{Instance};
ghost use Rattle.check_values.specs.stated_rosters.RosterOf.{roster_of};
ghost use Rattle.command_shelf.specs.Shelf.{front_to};

/// States a law: a roster text and its first bytes, up to one above the limit, are read alike; a text over
/// the limit and its first bytes so are refused alike.
pub fn roster_by_front()
    ensures { (i : Instance) (text : List ℕ) → roster_of i (front_to 1048576 text) ≡ roster_of i text }
{}
