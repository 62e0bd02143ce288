//! What is found at the end of a search.

ghost use Rattle.std.specs.Prelude.{◌≡◌, IfOk};
ghost use Rattle.model_rosters.specs.SoundInstance.{IsSoundInstance};
ghost use Rattle.search_candidates.specs.Offers.{cost_of};
ghost use Rattle.search_branch_price.specs.Ends.{AsksEnd, IsEndOf, IsFoundAtEnd, IsHalted, IsFoundHalted};
ghost use Rattle.search_branch_price.specs.Ends.{IsStatedBy, IsClosedBy};
ghost use Rattle.search_branch_price.specs.Roots.{IsHaltedAtRoot, IsFoundHaltedAtRoot};

use crate::found::Found;
use crate::progress::Progress;
use crate::turn_end::RootPrices;
use check_certificates::{Cert, Node};
use model_rosters::{Done, Instance, List, Memory, Shift};
use search_candidates::{Roster, limit};
use search_open_nodes::OpenLeaf;
use std::alloc::Global;

/// Returns the shifts and the cost of the best roster; no shift and no cost where there is none.
pub(crate) fn stated(alloc: Global, best: Option<Roster>) -> (List<Shift>, Option<u64>)
    ensures { IsStatedBy best result }
{
    match best {
        Some(roster) => (roster.shifts, Some(roster.cost)),
        None => (List::new(alloc), None),
    }
}

/// Returns what a search found that is at its end, with this bound.
///
/// # Errors
///
/// `Memory` where memory runs out; nothing is kept then.
pub(crate) fn found(
    alloc: Global,
    instance: &Instance,
    progress: Progress,
    bound: Option<u64>,
    done: Done,
) -> Result<Found, Memory>
    requires sound { IsSoundInstance instance.now }
    requires end { (a : AsksEnd instance.now) × IsEndOf instance.now a progress bound done }
    ensures cost { IfOk result (λ f. f.cert.cost ≡ cost_of progress.best) }
    ensures found { IfOk result (IsFoundAtEnd instance.now progress bound done) }
{
    let processed = progress.tree.processed();
    let failed = progress.tree.failed();
    let nodes = progress.tree.into_nodes(alloc)?;
    let (shifts, cost) = stated(alloc, progress.best);
    Ok(Found {
        cert: Cert {
            shifts,
            cost,
            bound,
            nodes,
        },
        done,
        processed,
        failed,
    })
}

/// Returns the bound of a search that is closed, which is the best roster's cost, and how it ended.
pub(crate) fn closed_end(best: &Option<Roster>) -> (Option<u64>, Done)
    ensures { IsClosedBy best.now result }
{
    match best {
        Some(roster) => (Some(roster.cost), Done::Equal),
        None => (None, Done::NoRoster),
    }
}

/// Returns what a search found that its watch stopped within a turn, with this leaf in hand. It is closed
/// where the best roster costs no more than the leaf's bound, which no open leaf is below.
///
/// # Errors
///
/// `Memory` where memory runs out; nothing is kept then.
pub(crate) fn halted(
    alloc: Global,
    instance: &Instance,
    progress: Progress,
    leaf: OpenLeaf,
) -> Result<Found, Memory>
    requires sound { IsSoundInstance instance.now }
    requires halted { (a : AsksEnd instance.now) × IsHalted instance.now a progress leaf }
    ensures cost { IfOk result (λ f. f.cert.cost ≡ cost_of progress.best) }
    ensures found { IfOk result (IsFoundHalted instance.now progress leaf) }
{
    if limit(instance, &progress.best) <= leaf.bound {
        let (bound, done) = closed_end(&progress.best);
        return found(alloc, instance, progress, bound, done);
    }
    found(alloc, instance, progress, Some(leaf.bound), Done::TurnsOut)
}

/// Returns what a search found whose watch stopped its first turn: the root has prices, which alone show the
/// bound.
///
/// # Errors
///
/// `Memory` where memory runs out; nothing is kept then.
pub(crate) fn halted_at_root(
    alloc: Global,
    instance: &Instance,
    best: Option<Roster>,
    root: RootPrices,
) -> Result<Found, Memory>
    requires sound { IsSoundInstance instance.now }
    requires halted { IsHaltedAtRoot instance.now best root }
    ensures cost { IfOk result (λ f. f.cert.cost ≡ cost_of best) }
    ensures found { IfOk result (IsFoundHaltedAtRoot instance.now) }
{
    let mut nodes = List::new(alloc);
    nodes.push(Node::Priced {
        prices: root.prices,
    })?;
    let (shifts, cost) = stated(alloc, best);
    Ok(Found {
        cert: Cert {
            shifts,
            cost,
            bound: Some(root.value),
            nodes,
        },
        done: Done::TurnsOut,
        processed: 1,
        failed: 0,
    })
}
