//! What steers the solution of a node.

use crate::bases::Bases;
use crate::generation::Ending;

/// From so many trees in a basis on, it is first asked whether they show near prices best. The weights of a
/// basis take 0.2 to 0.45 bits a tree, as measured, so beyond it those of the exact path are seldom narrow.
const MANY: usize = 150;

/// Which way to prices is gone first. Where it leads to none, the other follows.
#[derive(Clone, Copy, Debug, PartialEq, Eq, Drop)]
pub enum First {
    /// The exact path.
    Exact,
    /// Prices that the weights of a float basis show to be best.
    Near,
    /// Near prices where the basis has more than 150 trees, and else the exact path.
    BySize,
}

impl First {
    /// Says whether near prices come first where a basis has so many trees.
    pub fn is_near(self, trees: usize) -> bool {
        match self {
            First::Exact => false,
            First::Near => true,
            First::BySize => trees > MANY,
        }
    }

    /// Returns when a column generation may end.
    pub fn ending(self) -> Ending {
        match self {
            First::Exact => Ending::Whole,
            First::Near | First::BySize => Ending::Early,
        }
    }
}

/// What steers the solution of a node. All of it are hints.
#[derive(Drop)]
pub struct Steering<'a> {
    /// Trees of the pool that are wanted, the most wanted first: any list of numbers is lawful.
    pub wanted: &'a [usize],
    /// Which way to prices is gone first.
    pub first: First,
    /// The last bases of nodes: a column generation begins with one, and its own is kept.
    pub bases: Bases,
}
