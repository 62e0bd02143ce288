//! A linear program of rows and listed columns that is solved in floats of 64 bits.
//!
//! What it answers are hints for an exact method: a good basis, and prices and values in fixed point. Each
//! call returns, and beyond its bounds it answers that it grew.
//!
//! - `FloatProgram`: rows with right sides; for each row a column of entry 1 (what is missing) and perhaps
//!   one of entry -1 (what is beyond), and columns that are listed under numbers from 0 on, with entries 1
//!   and -1 in runs of consecutive rows. So an entry of a row of the tableau, or a reduced cost, is a few
//!   differences of sums over the rows.
//! - `start` takes a basis by its keys, drops what is no part of one, and fills up with columns of entry 1.
//!   `start_beyond` is a start for dual steps, `start_missing` one for primal steps.
//! - `run` takes dual steps until no value is negative, then primal steps until no listed column has a
//!   negative reduced cost, within `Limits`. A watch (`search_watch`) is asked before each eighth step; where
//!   it is over, the run ends as if its steps were taken. It ends as `Optimal`, `Spent`, `Stuck` (a row that
//!   cannot be met) or `Grew`.
//! - Right sides are *perturbed* inside (`lp_float_simplex`), and what that adds is taken off `value`.
//!   `settle` takes the perturbations off, and runs once more: a few dual steps.
//! - `basic`, `values`, `prices` and `list_prices`, `reduced`, `value`: the basis by keys, and its numbers.
//!   Columns may be listed, and right sides set, between runs.
//! - `refined_values`, `refined_prices`: the basis's values in units of 2^-56 and the rows' prices in units
//!   of 2^-40, refined in whole numbers against the true right sides and costs, also before `settle`. The
//!   residual is exact unless a sum leaves 128 bits, and the float inverse only gives the steps.
//! - `inverse_times`, `times_inverse`: products of the inverse with a side by rows, or with costs by places
//!   of the basis, over lent numbers and a `product_room`.
//! - `tighten`, `set_tolerances`: what further runs take for 0.
//! - `be_careful`: further runs take other steps, by which programs are solved that end in `Grew` or `Spent`
//!   otherwise (`lp_float_simplex`). `set_costs` sets what a row's own columns cost, so that its price lies
//!   between other bounds.
//! - `copy_from`, `copy_with_row`: a copy in a program that has its memory already, to try a cut: a last row,
//!   which was empty and loose, gets a right side and members, and the kernel stays as it is. Reduced costs
//!   stay, so a few dual steps show what the cut costs.
//! - `LastBasis`: the basis that a program ended with, for another one over the same rows to begin with.
//!
//! Not proved, but read off the code: that `start`, `run`, `set_right` and the calls that only read take no
//! memory, since no call that could is in them.
#![tactic(auto)]

mod float_program;
mod last_basis;

pub use float_program::FloatProgram;
pub use last_basis::LastBasis;
pub use lp_float_simplex::{
    FloatSolved, Grown, Key, LastRow, Limits, ProductWorkspace, Q24, Q32, Sign, Tolerances,
};
