//! The law that an old certificate has one answer on a day.

ghost use Rattle.check_reuse.specs.Laws.{OneReuse};

/// An old certificate has one answer on a day: one bound, or one first cause among those on its nodes.
pub fn one_reuse()
    ensures { OneReuse }
{}
