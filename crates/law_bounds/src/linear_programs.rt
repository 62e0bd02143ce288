//! Linear programs in whole numbers: solutions, values, basic solutions and the tableau of the
//! simplex method, as definitions in `specs`, and their laws.
//!
//! A law is a function that does nothing: its contract is the law.

mod laws;

pub use laws::{
    LinearProgram, equal_fractions_are_values, example_is_optimal, paths_keep_solutions,
    paths_stay_feasible, priced_out_paths_are_optimal, priced_out_solutions_cost_least,
    prices_bound_solutions, row_steps_keep_solutions, row_steps_read_numbers, same_sums_stay_basic,
    tableau_solutions_are_basic, unit_vectors_pick,
};
