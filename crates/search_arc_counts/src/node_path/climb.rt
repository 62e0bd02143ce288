//! The cuts on the way from a node up to the root.

ghost use Rattle.std.specs.Prelude.{◌≡◌, ◌≤◌, ◌++◌, OnOk, length, take, drop, reverse};
ghost use Rattle.model_rosters.specs.declared.instance.Instance.{Instance};
ghost use Rattle.search_arc_counts.specs.node_path.Paths.{HasNode};
ghost use Rattle.search_arc_counts.specs.node_path.Steps.{HasClimbed, HasFollowed};

use check_certificates::Seat;
use model_rosters::{Cut, Memory};

// Adds the cuts on the way from a node up to the root, whose number is 0.
fn climb(cuts: &mut Vec<Cut>, seats: &[Seat], number: u32) -> Result<(), Memory>
    requires { (i : Instance) × HasNode i seats.now number }
    ensures { OnOk result (HasClimbed seats.now number cuts.old.items cuts.new.items) }
{
    let mut number = number;
    while number != 0 {
        let seat = &seats[number as usize];
        cuts.push(seat.cut)?;
        number = seat.parent;
    }
    Ok(())
}

// Turns round the cuts from a place on.
fn turn_round(cuts: &mut Vec<Cut>, from: usize)
    requires { from ≤ length cuts.old.items }
    ensures { cuts.new.items ≡ take from cuts.old.items ++ reverse (drop from cuts.old.items) }
{
    cuts.as_mut_slice()[from..].reverse();
}

/// Puts the path of a node in the place of one that begins with the same base cuts.
///
/// # Errors
///
/// `Memory` where memory runs out; nothing is said of the cuts then.
pub(crate) fn follow(
    cuts: &mut Vec<Cut>,
    base: usize,
    seats: &[Seat],
    number: u32,
) -> Result<(), Memory>
    requires base { base ≤ length cuts.old.items }
    requires node { (i : Instance) × HasNode i seats.now number }
    ensures { OnOk result (HasFollowed base seats.now number cuts.old.items cuts.new.items) }
{
    cuts.truncate(base);
    climb(cuts, seats, number)?;
    turn_round(cuts, base);
    Ok(())
}

/// Returns the cuts below the base cuts.
pub(crate) fn further(cuts: &[Cut], base: usize) -> &[Cut]
    requires { base ≤ length cuts.now }
    ensures { result.now ≡ drop base cuts.now }
{
    &cuts[base..]
}
