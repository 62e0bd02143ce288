//! The text of a certificate: a roster, a bound, and the tree of nodes that shows the bound.
//!
//! ```text
//! proof 1
//! cost 4
//! bound 4
//! shift aa. 2
//! shift .aa 2
//! split 1 0 1 3 1 0 2
//! price a 1 -1 0
//! mult 1 3
//! pinned
//! bare
//! end
//! ```
//!
//! The first line is `proof 2` where the day has groups of employees, and a shift line then names
//! the group before the word. The nodes stand in preorder. A split has the number of a rule, the
//! suffix, the start, the length and the first part of its arc, and its count; where it has prices,
//! their denominator follows. Behind a node with prices stand a line of prices for each demanded
//! code, and the multipliers of cuts on the path to it.
//!
//! [`Pieces`] reads a text piece by piece and takes no memory; [`read_cert`] collects the pieces, and
//! [`write_cert`] writes the text of a certificate.
#![tactic(auto)]

mod laws;
mod read;
mod write;

pub use check_certificates::{Cert, Node, Why, is_sound_cert};
pub use laws::{said_by_lines, written_again};
pub use read::read_cert;
pub use text_proof_pieces::{
    CertRoom, Piece, PieceFault, Pieces, ProofFault, accepted_pieces, fault_line, refused_pieces,
    told_before_a_fault, told_pieces_are_sound,
};
pub use write::{amount_line, group_name, shift_lines, write_cert};
