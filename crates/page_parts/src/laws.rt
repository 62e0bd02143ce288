//! The laws on escaped bytes, paints, amounts and names.

ghost use Rattle.std.specs.Prelude.{ℕ, ◌≡◌, ◌∷◌, [], List};
ghost use Rattle.std.specs.List.{flat_map};
ghost use Rattle.model_rosters.specs.declared.grammar.CodeDef.{CodeDef};
ghost use Rattle.page_parts.specs.Amounts.{ShowsUnits};
ghost use Rattle.page_parts.specs.Elements.{escaped, units, written};
ghost use Rattle.page_parts.specs.Escapes.{AreEscaped, IsOneToOne, recoded};
ghost use Rattle.page_parts.specs.Names.{IsBetween, cut_of};
ghost use Rattle.page_parts.specs.Paints.{paint_of};

/// States a law: bytes of the texts, as they stand on a page, have none of `<`, `>`, `"` and `'`, and
/// each `&` among them is the first byte of one of the five references.
pub fn bytes_are_escaped()
    ensures { (bytes : List ℕ) → AreEscaped (flat_map escaped bytes) }
{}

/// States a law: a code has the same class, and so the same colour, whatever bytes stand for the codes,
/// where no two codes get one byte.
pub fn paints_stay()
    ensures { (f : ℕ → ℕ) → IsOneToOne f → (cs : List CodeDef) (byte : ℕ)
        → paint_of (recoded f cs) (f byte) ≡ paint_of cs byte }
{}

/// States a law: an amount with d decimals stands on a page as a whole number and d decimals behind a point,
/// and these digits are its units.
pub fn amounts_are_units()
    ensures { (d n : ℕ) → ShowsUnits d n (written (units d n ∷ [])) }
{}

/// States a law: a name that is too wide is cut between two characters, and no character is.
pub fn names_end_between()
    ensures { (bytes : List ℕ) → IsBetween (cut_of bytes) bytes }
{}
