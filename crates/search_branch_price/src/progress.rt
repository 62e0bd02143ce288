//! How far a search is, and the leaf that comes next.

ghost use Rattle.model_rosters.specs.SoundInstance.{IsSoundInstance};
ghost use Rattle.search_branch_price.specs.Ends.{IsNext};

use model_rosters::Instance;
use search_candidates::{Roster, limit};
use search_open_nodes::OpenLeaf;
use search_tree::SearchTree;
use search_watch::Watch;

/// How far a search is: its tree, and the best roster that it has found.
#[derive(Drop)]
pub(crate) struct Progress {
    pub tree: SearchTree,
    pub best: Option<Roster>,
}

/// Tells a watch what the best roster costs, where there is one.
pub(crate) fn tell_best<W: Watch>(best: &Option<Roster>, watch: &W) {
    if let Some(roster) = best {
        watch.tell_cost(roster.cost);
    }
}

impl Progress {
    /// Takes a leaf of least bound, where this is below the best roster's cost; `None` where no open leaf
    /// leaves such a bound.
    pub fn next(&mut self, instance: &Instance) -> Option<OpenLeaf>
        requires { IsSoundInstance instance.now }
        ensures { IsNext instance.now self.old self.new result }
    {
        let limit = limit(instance, &self.best);
        self.tree.next(limit)
    }
}
