//! The pieces of a certificate's text: a roster, a bound, and the tree of nodes that shows the bound.
//!
//! ```text
//! proof 1
//! cost 4
//! bound 4
//! shift aa. 2
//! shift .aa 2
//! split 1 0 1 3 1 0 2
//! price a 1 -1 0
//! mult 1 3
//! pinned
//! bare
//! end
//! ```
//!
//! The first line is `proof 2` where the day has groups of employees, and a shift line then names
//! the group before the word. The nodes stand in preorder. A split has the number of a rule, the
//! suffix, the start, the length and the first part of its arc, and its count; where it has prices,
//! their denominator follows. Behind a node with prices stand a line of prices for each demanded
//! code, and the multipliers of cuts on the path to it.
//!
//! [`Pieces`] reads a text piece by piece and takes no memory: what a piece holds lies in [`CertRoom`].
#![tactic(auto)]

mod ahead;
mod block;
mod fault;
mod field;
mod laws;
mod line;
mod lines;
mod message;
mod next;
mod node;
mod piece;
mod pieces;
mod room;
mod shift;
mod stage;

pub use block::due_byte;
pub use fault::{PieceFault, ProofFault};
pub use laws::{accepted_pieces, refused_pieces, told_before_a_fault, told_pieces_are_sound};
pub use message::fault_line;
pub use piece::Piece;
pub use pieces::Pieces;
pub use room::CertRoom;
