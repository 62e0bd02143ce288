//! What prices and cuts say of the rosters below a node of the search.
//!
//! The crate has the Lagrangian value of prices at a list of cuts, the value of a path that leaves
//! each arc one count, best prices, and lists of trees as rosters. Each public function has an empty
//! body, and its contract is a law: the Lagrangian bound is the weak duality of the relaxation of
//! the cells' and cuts' rows, by which a yes to a certificate is sound.
//!
//! Beside it stand the linear programs that a search solves: `linear_programs` in general, `master_laws` that
//! of a node, `near_laws` what any of its solutions says of prices, `least_values` that the values spoken of
//! are there.
#![tactic(auto)]

mod laws;
mod least_values;
pub mod linear_programs;
pub mod master_laws;
pub mod near_laws;
mod plain_counts;

pub use laws::{
    are_one_value, base_cuts_ask_for_arcs, base_cuts_leave_counts, counts_make_rosters,
    counts_meet_cuts, day_trees_have_teams, infeasible_has_none, lagrangian_bound, one_half,
    pinned_is_cost, plain_lagrangians, plain_rosters, priced_bound, reduced_costs,
    rosters_cost_less, rosters_have_trees, small_shares, trees_cost_less, trees_spell_rosters,
    trees_stand_for_rosters, worked_best, worked_floors, worked_groups,
};
pub use least_values::{best_bounds_rivals, have_least_sums, have_values};
pub use linear_programs::{
    LinearProgram, equal_fractions_are_values, example_is_optimal, paths_keep_solutions,
    paths_stay_feasible, priced_out_paths_are_optimal, priced_out_solutions_cost_least,
    prices_bound_solutions, row_steps_keep_solutions, row_steps_read_numbers, same_sums_stay_basic,
    tableau_solutions_are_basic, unit_vectors_pick,
};
pub use master_laws::{
    counts_close, counts_meet, counts_split, cuts_have_signs, master_is_sound, path_ends,
    priced_out_by_sums, rivals_show_less, rounded_are_best, rounded_show_value, row_count,
    small_master, trees_priced, weights_apart, wide_rounding, worked_master,
};
pub use near_laws::{
    completed_costs_least, completed_solves, near_are_best, near_counts_close,
    near_trees_show_best, rivals_below_solutions, worked_completed,
};
pub use plain_counts::{letters_within_heads, plain_pinned};
