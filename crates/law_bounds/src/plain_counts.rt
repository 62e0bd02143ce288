//! Laws on counts of arcs on plain days, those without floors, ceilings and groups.

ghost use Rattle.law_bounds.specs.PlainCountLaws.{LettersWithinHeads, PlainPinned};

/// Of balanced counts, those of the arcs that use a letter are together at most those of the arcs
/// that make the start name on the whole day.
pub fn letters_within_heads()
    ensures { LettersWithinHeads }
{}

/// On a day without floors, ceilings and groups, the value of a path that leaves each arc one count
/// is the cost of the counts where they balance and the root's count is in the range of the heads,
/// and else one more than the greatest cost.
pub fn plain_pinned()
    ensures { PlainPinned }
{}
