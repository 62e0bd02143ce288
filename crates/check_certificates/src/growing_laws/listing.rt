//! The nodes of a certificate, from the seats.

ghost use Rattle.std.specs.Prelude.{◌≡◌, ◌<◌, ◌∷◌, [], ◌++◌, IfOk, OnOk, length, slice_set};
ghost use Rattle.check_certificates.specs.Nodes.{preorder};
ghost use Rattle.check_certificates.specs.growing_laws.Grown.{Grown, proof_of};
ghost use Rattle.check_certificates.specs.growing_laws.Seats.{HoldTree, seat_at, pushed_halves, HasHalves};

use crate::Node;
use crate::growing_laws::seat::Seat;
use model_rosters::{List, Memory};
use std::alloc::Global;
use std::mem;

// Opens the halves of a split, the Low half last.
fn push_halves(stack: &mut Vec<u32>, node: &Node, low: u32) -> Result<(), Memory>
    requires { HasHalves node.now low }
    ensures { OnOk result (stack.new.items ≡ pushed_halves node.now low stack.old.items) }
{
    match node {
        Node::Split { .. } => {
            stack.push(low + 1)?;
            stack.push(low)?;
            Ok(())
        }
        Node::Priced { .. } => Ok(()),
        Node::Pinned => Ok(()),
        Node::Bare => Ok(()),
    }
}

/// Returns the nodes of the tree that the seats hold, in preorder.
///
/// # Errors
///
/// `Memory` where memory runs out; nothing is kept then.
pub fn list_nodes(alloc: Global, mut seats: Vec<Seat>) -> Result<List<Node>, Memory>
    requires few { length seats.items < 4294967295 }
    requires tree { (t : Grown) × HoldTree seats.items t }
    ensures { IfOk result (λ nodes. (t : Grown) → HoldTree seats.items t → nodes ≡ preorder (proof_of t)) }
{
    let mut nodes = List::new(alloc);
    let mut stack = Vec::new(alloc);
    stack.push(0)?;
    while let Some(number) = stack.pop() {
        let seat = &mut seats[number as usize];
        let node = mem::replace(&mut seat.node, Node::Bare);
        push_halves(&mut stack, &node, seat.low)?;
        nodes.push(node)?;
    }
    Ok(nodes)
}
