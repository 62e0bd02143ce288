//! Trees of words.

use model_rosters::{Memory, Shift};
use search_hole_passes::{HoleGraph, HoleRoster, HoleTree, NEVER, Passer, Way};
use std::alloc::Global;

/// Adds a cheapest tree of a shift's word in its team to a roster. Says whether there is one.
fn read_word(
    alloc: Global,
    graph: &HoleGraph,
    shift: &Shift,
    passer: &mut Passer,
    roster: &mut HoleRoster,
) -> Result<bool, Memory> {
    passer.pass_word(graph, shift.word.as_slice());
    let team = usize::from(shift.group).saturating_sub(1);
    if passer.lead(graph, &graph.all, team) >= NEVER {
        return Ok(false);
    }
    let mut tree = HoleTree::new(alloc);
    passer.write(graph, &graph.all, Way::Sums, &mut tree)?;
    roster.push(tree)?;
    Ok(true)
}

/// Adds a cheapest tree of each shift's word to a roster. Says whether each word has one.
///
/// # Errors
///
/// `Memory` where memory runs out.
pub(crate) fn read_words(
    alloc: Global,
    graph: &HoleGraph,
    shifts: &[Shift],
    passer: &mut Passer,
    roster: &mut HoleRoster,
) -> Result<bool, Memory> {
    for shift in shifts {
        if !read_word(alloc, graph, shift, passer, roster)? {
            return Ok(false);
        }
    }
    Ok(true)
}
