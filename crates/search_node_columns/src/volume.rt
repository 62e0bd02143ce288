//! The volume algorithm over the rows of a node's master: prices of the rows, a bound that they show, and
//! trees that are cheap there.
//!
//! How it goes: a pass asks for the cheapest tree of the day at prices of the rows. As many of it as the
//! heads allow at most, or at least where its reduced cost is not negative, make the *bound* with the prices'
//! worth of the right sides. Each tree has a share in a *mean* of what trees bring to the rows: the share at
//! which the mean lacks least by the sum of squares, between a tenth of a greatest share and all of it. The
//! next prices are a step from those of the best bound so far along what the mean lacks, within what a unit
//! missing or beyond costs in the row, and within 10,000 where no cost bounds them. The heads' two rows have
//! no price on the way; at the end one of them has what the cheapest tree leaves. A step is as long as a
//! factor times what a target is above the best bound. The factor grows by a tenth where the bound rises and
//! a further step would do, and falls by a third after twenty passes without a rise; the target is 5 in 100
//! above the bound, further at first. Passes end where the factor is below 10^-5, and behind a first one
//! where a watch is over; it is told after each how many trees were found, and what the best prices show.
//! From given prices the first factor is a tenth, and the factor stays above 5 * 10^-4: passes are few there.

mod float;
mod found;
mod line;
mod pace;
mod passes;
mod path;
mod running;
mod workspace;

pub use found::{Found, Volume};
pub use passes::whole_bound;
pub use running::volume;
