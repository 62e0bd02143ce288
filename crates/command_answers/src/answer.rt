//! How a command ends: a status, and the text that is said.

use model_rosters::List;

/// How a command ends: its status, and what it says.
#[derive(Drop)]
pub struct Answer {
    pub status: u8,
    pub output: List<u8>,
}
