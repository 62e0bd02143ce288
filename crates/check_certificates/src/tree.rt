//! Whether the nodes are one whole tree.

ghost use Rattle.std.specs.Prelude.{ℕ, ◌≡◌, ◌≤◌, ◌<◌, ◌+◌, ◌↔◌, [], ◌∷◌, IsTrue, IfSome, length, List as Items};
ghost use Rattle.model_rosters.specs.declared.instance.Cut.{Cut};
ghost use Rattle.model_rosters.specs.SoundInstance.{IsSoundInstance};
ghost use Rattle.check_certificates.specs.Forests.{IsForest, due, due_after, due_high};
ghost use Rattle.check_certificates.specs.Nodes.{Proof};
ghost use Rattle.check_certificates.specs.Sound.{IsSoundNode, IsSoundProof, most_nodes};

use crate::cert::Node;
use crate::sound::{are_fit, is_key};
use model_rosters::{Instance, base_cut_count};

/// The greatest number of nodes of a certificate.
pub const MOST_NODES: usize = 20_001;

/// Returns whether the nodes are one whole tree of sound nodes, in preorder.
pub(crate) fn is_whole_tree(instance: &Instance, nodes: &[Node]) -> bool
    requires { IsSoundInstance instance.now }
    ensures { IsTrue result ↔ ((proof : Proof) × IsSoundProof instance.now nodes.now proof) }
{
    if nodes.len() > MOST_NODES {
        return false;
    }
    let mut halves = [false; MOST_NODES];
    is_tree(instance, base_cut_count(instance), nodes, &mut halves)
}

/// Returns whether the nodes are one whole tree of sound nodes, with so many cuts above it. The
/// slice tells in which half of each open split the walk is: `true` is the half of many trees.
fn is_tree(instance: &Instance, cuts: usize, nodes: &[Node], halves: &mut [bool]) -> bool
    requires few { cuts ≤ 16 }
    requires room { length nodes.now ≤ length halves.old }
    requires short { length nodes.now ≤ most_nodes }
    ensures { IsTrue result ↔ IsForest instance.now (cuts ∷ []) nodes.now }
{
    let mut open = Some(0);
    for node in nodes {
        let Some(splits) = open else {
            return false;
        };
        if !is_node(instance, cuts + splits, node) {
            return false;
        }
        open = after_node(halves, splits, node);
    }
    open.is_none()
}

/// Returns how many splits are open above the next node, where so many are above this one; `None`
/// where the tree is whole.
fn after_node(halves: &mut [bool], splits: usize, node: &Node) -> Option<usize>
    requires { splits < length halves.old }
    ensures due { (cuts : ℕ) → due cuts halves.new result
        ≡ due_after (cuts + splits) node.now (due_high cuts halves.old splits) }
    ensures few { IfSome result (λ n. n ≤ splits + 1) }
{
    match node {
        Node::Split { .. } => {
            halves[splits] = false;
            Some(splits + 1)
        }
        Node::Priced { .. } | Node::Pinned | Node::Bare => next_high(halves, splits),
    }
}

/// Goes on to the half of many trees of the innermost split that is in its half of few, and returns
/// how many splits are open there; `None` where there is no such split.
fn next_high(halves: &mut [bool], splits: usize) -> Option<usize>
    requires { splits ≤ length halves.old }
    ensures due { (cuts : ℕ) → due cuts halves.new result ≡ due_high cuts halves.old splits }
    ensures few { IfSome result (λ n. n ≤ splits) }
{
    let mut open = splits;
    while open > 0 {
        if !halves[open - 1] {
            halves[open - 1] = true;
            return Some(open);
        }
        open -= 1;
    }
    None
}

/// Returns whether the node is sound, with so many cuts above it.
fn is_node(instance: &Instance, cuts: usize, node: &Node) -> bool
    ensures { (path : Items Cut) → length path ≡ cuts
        → (IsTrue result ↔ IsSoundNode instance.now path node.now) }
{
    match node {
        Node::Split { arc, b, prices } => {
            is_key(instance, arc)
                && *b <= 63
                && match prices {
                    Some(prices) => are_fit(instance, cuts, prices),
                    None => true,
                }
        }
        Node::Priced { prices } => are_fit(instance, cuts, prices),
        Node::Pinned | Node::Bare => true,
    }
}
