//! Commands that say a day on which nothing is strict but the floors or the ceilings, or neither: by it a
//! search tells how far a day is from having a roster. They store nothing.

pub mod demand;
pub mod rules;
