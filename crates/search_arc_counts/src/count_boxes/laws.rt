//! The law on cuts elsewhere.

ghost use Rattle.search_arc_counts.specs.count_boxes.Paths.{CutsElsewhere};

/// A cut on what is no arc of the instance changes no box: what the cuts of a path leave is also what
/// they leave with such a cut.
pub fn cuts_elsewhere()
    ensures { CutsElsewhere }
{}
