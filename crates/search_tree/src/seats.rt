//! The seats, changed by a step.

ghost use Rattle.std.specs.Prelude.{◌≡◌, ◌<◌, ◌++◌, ◌∷◌, [], IfOk, OnOk, length};
ghost use Rattle.search_tree.specs.Steps.{split_of, half_seat, forked, marked};

use check_certificates::{Node, Seat};
use model_rosters::{ArcKey, Cut, Memory, Side};
use std::mem;

// Returns a split in place of a leaf, with the prices that the leaf has.
fn split_node(node: Node, arc: ArcKey, b: u32) -> Node
    ensures { result ≡ split_of node arc b }
{
    let prices = match node {
        Node::Priced { prices } => Some(prices),
        _ => None,
    };
    Node::Split { arc, b, prices }
}

/// Adds the seat of a half that is not processed.
///
/// # Errors
///
/// `Memory` where memory runs out; nothing is said of the seats then.
pub fn push_half(seats: &mut Vec<Seat>, parent: u32, above: u64, cut: Cut) -> Result<(), Memory>
    ensures { OnOk result (seats.new.items ≡ seats.old.items ++ half_seat parent above cut ∷ []) }
{
    seats.push(Seat {
        node: Node::Bare,
        value: 0,
        low: 0,
        above,
        parent,
        cut,
    })?;
    Ok(())
}

/// Splits a leaf into two halves that are not processed, below prices that show at most `above`. Returns
/// the number of the Low half.
///
/// # Errors
///
/// `Memory` where memory runs out; nothing is said of the seats then.
pub fn split_leaf(
    seats: &mut Vec<Seat>,
    number: u32,
    above: u64,
    arc: ArcKey,
    b: u32,
) -> Result<u32, Memory>
    requires within { number < length seats.old.items }
    requires few { length seats.old.items < 4294967295 }
    ensures { IfOk result (λ low. (low ≡ length seats.old.items)
        × (seats.new.items ≡ forked seats.old.items number above arc b)) }
{
    let low = seats.len() as u32;
    let seat = &mut seats[number as usize];
    let node = mem::replace(&mut seat.node, Node::Bare);
    seat.node = split_node(node, arc, b);
    seat.low = low;
    push_half(
        seats,
        number,
        above,
        Cut {
            arc,
            side: Side::Low,
            b,
        },
    )?;
    push_half(
        seats,
        number,
        above,
        Cut {
            arc,
            side: Side::High,
            b,
        },
    )?;
    Ok(low)
}

/// Writes at a leaf what it shows.
pub fn mark_leaf(seats: &mut Vec<Seat>, number: u32, node: Node, value: u64)
    requires within { number < length seats.old.items }
    ensures { seats.new.items ≡ marked seats.old.items number node value }
{
    let seat = &mut seats[number as usize];
    seat.node = node;
    seat.value = value;
}
