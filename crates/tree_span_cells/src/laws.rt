//! The law on places of spans.

ghost use Rattle.tree_span_cells.specs.Places.{PlacesDiffer};

/// A law: two spans of a day never share a place. With the contract of [`crate::SpanIndex::span`]
/// it makes `place` and `span` each other's inverse.
pub fn places_differ()
    ensures { PlacesDiffer }
{}
