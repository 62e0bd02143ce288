//! What commands share that answer from texts: an answer, how it is said, how a text under a name is fetched,
//! why a text is refused, and how something is asked of a third text by the day of two others.
#![tactic(auto)]

mod answer;
mod asking;
mod encoding;
mod fetch;
pub mod laws;
mod limits;
mod question;
mod refusals;
mod saying;

pub use answer::Answer;
pub use asking::{ask, ask_rules_text, ask_texts};
pub use encoding::note_encoding;
pub use fetch::{fetched, note_remark, say_answer, say_answer_to, say_remarked, status_of_answer};
pub use limits::{MOST_DEMAND, MOST_PROOF, MOST_RULES};
pub use question::Question;
pub use refusals::{demand_refusal, proof_refusal, rules_refusal};
pub use saying::{FAILED, MEMORY, say, status_of};
