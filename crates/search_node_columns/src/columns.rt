//! The columns over what is lent.

use crate::listed::{check_narrow, find_cheaper};
use crate::trees::list_cheapest;
use crate::workspace::ColumnWorkspace;
use lp_fractions::{Place, Tally};
use lp_master_rows::NodeTask;
use lp_tableaus::{Columns, ColumnsFault};
use model_rosters::Memory;
use search_watch::Watch;
use std::alloc::Global;
use tree_cheapest::Pricer;
use tree_pool::Pool;

/// The columns of a node's master: all that it is made of is lent. After want of memory the listed
/// columns are as before, and the pool may have grown.
#[derive(Drop)]
pub struct NodeColumns<'t, 'n, 'p, 'q, 'd, 'w, W> {
    /// Where memory is taken.
    pub alloc: Global,
    /// The node, its cuts with the base cuts first.
    pub task: &'t NodeTask<'n>,
    /// A pricer made for the graph.
    pub pricer: &'p mut Pricer,
    /// The trees that were found, which gets each one that is listed.
    pub pool: &'q mut Pool,
    /// The listed columns.
    pub workspace: &'d mut ColumnWorkspace,
    /// What may stop what is done with them.
    pub watch: &'w W,
}

impl<'t, 'n, 'p, 'q, 'd, 'w, W: Watch> Columns for NodeColumns<'t, 'n, 'p, 'q, 'd, 'w, W> {
    ghost use Rattle.std.specs.Prelude.{length};
    ghost use Rattle.law_bounds.specs.master_laws.Master.{MasterKey};
    ghost use Rattle.search_node_columns.specs.Columns.{NodeSite, NodeState, site_program, Lists, IsReady, IsKept};
    ghost use Rattle.search_node_columns.specs.Kept.{kept-same, kept-chain, kept-still};

    ghost Key = { MasterKey };

    ghost Site = { NodeSite };

    ghost site = { λ s. record {
      instance = s.task.now.day.instance.now;
      cuts = s.task.now.cuts.now;
      pricer = s.pricer.ghost_name;
      pool = s.pool.ghost_name;
      calm = W.patient s.watch.now;
    } };

    ghost calm = { λ s. s.calm };

    ghost program = { site_program };

    ghost State = { NodeState };

    ghost state = { λ s. record {
      instance = s.task.now.day.instance.now;
      cuts = s.task.now.cuts.now;
      graph = s.task.now.day.graph.now;
      rows = s.task.now.rows.now;
      pricer = s.pricer.now;
      pool = s.pool.now;
      workspace = s.workspace.now;
    } };

    ghost Ready = { IsReady };

    ghost Lists = { Lists };

    ghost size = { λ s. length s.workspace.held };

    ghost Kept = { IsKept };

    ghost same = { kept-same };

    ghost chain = { kept-chain };

    ghost still = { kept-still };

    /// Returns how many rows there are.
    fn rows(&self) -> usize {
        self.task.rows.right().len()
    }

    /// Returns how many columns are listed.
    fn count(&self) -> usize {
        self.workspace.held.len()
    }

    /// Returns the entries of a listed column that are not 0.
    fn places(&self, column: usize) -> &[Place] {
        self.workspace.held.as_slice()[column].places.as_slice()
    }

    /// Returns the cost of a listed column.
    fn cost(&self, column: usize) -> i64 {
        self.workspace.held.as_slice()[column].cost
    }

    /// Returns the columns that are wanted.
    fn wanted(&self) -> &[u32] {
        self.workspace.wanted.as_slice()
    }

    /// Says whether the watch is over.
    fn is_over(&self) -> bool {
        self.watch.is_over()
    }

    /// Returns the listed column of the least reduced cost where that is negative, and else lists a cheapest
    /// tree.
    fn price_out(
        &mut self,
        y: &[i128],
        kappa: i128,
        tally: &mut Tally,
    ) -> Result<Option<usize>, ColumnsFault> {
        if let Err(fault) = check_narrow(y, kappa, tally) {
            return Err(ColumnsFault::Wide(fault));
        }
        if let Some(column) = find_cheaper(self.workspace.held.as_slice(), y, kappa) {
            return Ok(Some(column));
        }
        match list_cheapest(
            self.alloc,
            self.task,
            y,
            kappa,
            self.pricer,
            self.pool,
            self.workspace,
        ) {
            Ok(found) => Ok(found),
            Err(Memory) => Err(ColumnsFault::Memory),
        }
    }
}
