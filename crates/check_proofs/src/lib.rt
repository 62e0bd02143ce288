//! The checker: whether a certificate is accepted, and why not.
//!
//! A certificate states a roster and a bound on the cost of every roster, and proves the bound by a
//! tree of branch and bound. [`Walker::judge`] looks at its nodes one after another, with a stack of
//! the splits that are open. It takes no memory, and rests on the definitions alone.
//! [`Walker::judge_text`] judges a text piece by piece in the same way, and holds no list of nodes.
//!
//! Inside, a `Walker` has the tables, the rooms and a stack of open splits. What a stack of open splits still
//! leads to is `specs/OpenSplits`; it stands here, since nobody needs to believe it.
#![tactic(auto)]

mod bench;
mod frame;
mod judge;
mod judged;
mod laws;
mod node;
mod rooms;
mod seen;
mod stack;
mod tables;
mod text;
mod verdict;
mod walk;
mod walker;

pub use bench::Bench;
pub use check_certificates::{Verdict, Why};
pub use judged::Judged;
pub use laws::yes_is_accepted;
