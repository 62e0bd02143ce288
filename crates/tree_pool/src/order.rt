//! The order of the rule uses, and the place of a tree in it.

ghost use Rattle.std.specs.Prelude.{◌≡◌, ◌≤◌, ◌++◌, ◌∷◌, [], length, IfOk, IfErr, OnOk, OnErr};
ghost use Rattle.std.specs.List.{insert};
ghost use Rattle.tree_pool.specs.Orders.{rank_of, steps_of, steps_cmp, IsOrder, IsFoundAt, IsPlaceFor};

use crate::entry::Entry;
use model_rosters::{List, Memory, Step};
use std::cmp::Ordering;

/// What rule uses are sorted by, the first number that differs deciding.
type Rank = (u8, u8, u8);

// Returns what a rule use is sorted by.
fn rank(step: &Step) -> Rank
    ensures { result ≡ rank_of step.now }
{
    (step.rule, step.start, step.len)
}

// Compares rule uses: the first that differ decide, and else the counts of them.
fn compare(steps: &[Step], others: &[Step]) -> Ordering
    ensures { result ≡ steps_cmp steps.now others.now }
{
    for place in 0..steps.len().min(others.len()) {
        let order = rank(&steps[place]).cmp(&rank(&others[place]));
        if order.is_ne() {
            return order;
        }
    }
    steps.len().cmp(&others.len())
}

// Returns the rule uses of the tree of a number, and none where there is no such tree.
fn steps_of(entries: &[Entry], number: usize) -> &[Step]
    ensures { result.now ≡ steps_of entries.now number }
{
    match entries.get(number) {
        Some(entry) => entry.tree.steps.as_slice(),
        None => &[],
    }
}

/// Returns where the number of the tree of some rule uses stands in the order. Takes no memory.
///
/// # Errors
///
/// The place that the number would have there, where there is no such tree.
pub fn place_of(entries: &[Entry], order: &[usize], steps: &[Step]) -> Result<usize, usize>
    requires { IsOrder entries.now order.now }
    ensures found { IfOk result (IsFoundAt entries.now order.now steps.now) }
    ensures place { IfErr result (IsPlaceFor entries.now order.now steps.now) }
{
    order.binary_search_by(|&number| compare(steps_of(entries, number), steps))
}

/// Puts an entry behind the others, and its number into the order at a place, and returns the number.
///
/// # Errors
///
/// `Memory` where memory runs out; both are as before then.
pub fn put(
    entries: &mut List<Entry>,
    order: &mut Vec<usize>,
    place: usize,
    entry: Entry,
) -> Result<usize, Memory>
    requires { place ≤ length order.old.items }
    ensures entries { OnOk result (entries.new ≡ entries.old ++ entry ∷ []) }
    ensures order { OnOk result (order.new.items ≡ insert order.old.items place (length entries.old)) }
    ensures number { IfOk result (λ n. n ≡ length entries.old) }
    ensures kept { OnErr result ((entries.new ≡ entries.old) × (order.new.items ≡ order.old.items)) }
{
    let number = entries.len();
    order.reserve(1)?;
    entries.push(entry)?;
    match order.insert(place, number) {
        Ok(()) => Ok(number),
        Err(_) => unreachable!(),
    }
}
