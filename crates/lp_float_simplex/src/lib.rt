//! A linear program in floats of 64 bits, by the revised simplex method over the inverse of its basis's
//! kernel. Each call returns, and beyond its bounds it answers that it grew.
//!
//! - Right sides are *perturbed*: each by an amount of its own from 2^-12 to 2^-11, towards the cheaper of
//!   the row's own columns, so that few values of a basis are 0 and few pivots leave the program's value as
//!   it is. `perturbation_worth` is what that adds to the value; `settle` takes the perturbations off.
//! - *Products*: `inverse_times` is the inverse of the basis times a side, `times_inverse` costs of the basic
//!   columns times the inverse.
//! - *Refining*: `refined_values` are the values of the basic columns in units of 2^-56, `refined_prices` the
//!   prices of the rows in units of 2^-40, in whole numbers of 128 bits. What the numbers leave of the right
//!   sides, without perturbations, or of the costs is computed in whole numbers, and the inverse's product
//!   with it is added, at most four times and while the greatest of it becomes less. `refined_prices` takes
//!   other costs for the columns of what is missing, since "never" may cost more than the float steps can
//!   bear.
//!
//! A program may be told to be *careful* (`be_careful`), which is for those that break down otherwise: a step
//! whose pivot is below 0.02 in size waits while there is another one (its column, or its row, gets the
//! greatest reference weight); negative reduced costs are raised to 0 before dual steps, which would come to
//! no end with them, and are worked out anew behind them; and where a number leaves its bounds, columns that
//! nearly depend on others are left out. Its steps are others, so what goes well without is left without.
//! `set_row_costs` changes what a row's own columns cost.
//!
//! The column that enters a primal step has the greatest square of its reduced cost over its reference
//! weight, the column that leaves in a dual step that of its value over its own reference weight (Devex,
//! both). Ratio tests take two passes: the least ratio with a slack, and then the greatest pivot within it. A
//! step touches the kernel's rows whose entry in the entering column is not 0. After 500 pivots the inverse
//! is made anew, and at the end of a turn values and prices are worked out from it again if there were more
//! than 50.
//!
//! `run` asks a watch (`search_watch`) before each eighth step; where it is over, the run ends as if its
//! steps were taken.
//!
//! `set_tolerances` sets what further runs take for 0 (`Tolerances`: of reduced costs, and of values with the
//! slack of a primal step's ratio test). The slack of a dual step's ratio test, 2^-6, stays.
//!
//! | what | type | bound | tolerance |
//! |---|---|---|---|
//! | values | `Value64`, answered as `Q32` in units of 2^-32 | 2^19 | 2^-17, unless set |
//! | prices and reduced costs | `Price64`, answered as `Q24` in units of 2^-24 | 2^27 | 2^-11, unless set |
//! | reference weights | `Weight64` | 2^32 | |
//! | pivots | `Entry64` | | at least 2^-10; in a careful run others than below 0.02 come first |
//!
//! The bounds of entries and of the inverse's numbers stand in float_basis. A number beyond its bound, or
//! what is no number, ends the run; the inverse is made anew from its basis once, and then it has grown; a
//! careful run makes it anew up to three times, from those columns whose pivots are more than 2^-8, 2^-6 and
//! 2^-4. So no price moves by more than 2^47 in a pivot, and no float is ever infinite. A cost that stands
//! for "never" is best 2^17, since a greater one drowns the rest.
#![tactic(auto)]

mod bounds;
mod care;
mod compare;
mod copying;
mod figures;
mod fixed;
mod key;
mod listing;
mod making;
mod perturbing;
mod pivot;
mod positions;
mod probing;
mod products;
mod refining;
mod refresh;
mod start;
mod state;
mod steps;
mod sweeps;
mod tolerances;
mod values;
mod whole;

pub use fixed::{Q24, Q32};
pub use key::Key;
pub use lp_float_basis::{Grown, ProductWorkspace, Sign};
pub use probing::LastRow;
pub use state::State;
pub use steps::{FloatSolved, Limits};
pub use tolerances::Tolerances;
