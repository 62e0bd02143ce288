//! What a certificate means, and why a yes is sound.
//!
//! The crate has what the nodes of a certificate show, when a certificate is accepted and why one is
//! refused. Each public function has an empty body, and its contract is a law: a roster meets one half
//! of each split, so the bound that an accepted certificate states is one on the cost of every allowed
//! roster.

mod laws;

pub use laws::{causes_refuse, one_first_cause, one_shown_value, worked_nodes, yes_is_sound};
