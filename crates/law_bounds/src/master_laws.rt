//! The linear program of a node of the search, its master: rows, columns, hard nodes and sharp
//! splits, as definitions in `specs`, and what its value says of prices and rosters.
//!
//! Each public function has an empty body, and its contract is a law.

mod laws;

pub use laws::{
    counts_close, counts_meet, counts_split, cuts_have_signs, master_is_sound, path_ends,
    priced_out_by_sums, rivals_show_less, rounded_are_best, rounded_show_value, row_count,
    small_master, trees_priced, weights_apart, wide_rounding, worked_master,
};
