//! The order in which open leaves come (`search_open_nodes`).

use model_rosters::Memory;
use search_open_nodes::{Kept, OpenLeaf, OpenNodes, Plan};
use std::process::Abort;

fn leaf(bound: u64, depth: u32, seat: u32) -> OpenLeaf {
    let plan = if bound == 3 {
        Some(Plan {
            arc: seat,
            b: depth,
        })
    } else {
        None
    };
    OpenLeaf {
        bound,
        depth,
        kept: Kept { seat, plan },
    }
}

/// Opens leaves.
fn push_all(nodes: &mut OpenNodes, leaves: &[OpenLeaf]) -> Result<(), Memory> {
    for leaf in leaves {
        nodes.push(*leaf)?;
    }
    Ok(())
}

/// Whether these leaves come next.
fn pops(nodes: &mut OpenNodes, leaves: &[OpenLeaf]) -> bool {
    leaves.iter().all(|leaf| nodes.pop() == Some(*leaf))
}

/// Opens four leaves, takes one, opens two more, and takes all.
fn show_order(rt: &impl Abort, nodes: &mut OpenNodes) -> Result<(), Memory> {
    let first = [leaf(5, 1, 1), leaf(3, 1, 2), leaf(3, 2, 3), leaf(7, 4, 4)];
    push_all(nodes, &first)?;
    assert!(rt; pops(nodes, &[leaf(3, 2, 3)]));
    push_all(nodes, &[leaf(3, 1, 5), leaf(7, 4, 0)])?;
    let rest = [
        leaf(3, 1, 5),
        leaf(3, 1, 2),
        leaf(5, 1, 1),
        leaf(7, 4, 4),
        leaf(7, 4, 0),
    ];
    assert!(rt; pops(nodes, &rest));
    assert!(rt; nodes.pop().is_none());
    Ok(())
}

#[test]
fn leaves_come_by_bound_depth_and_seat(rt: HostRuntime) -> Result<(), Memory> {
    let mut nodes = OpenNodes::new(rt.alloc());
    show_order(&rt, &mut nodes)
}
