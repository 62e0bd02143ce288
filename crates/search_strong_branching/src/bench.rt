//! The program, and a copy for a cut.

ghost use Rattle.lp_master_rows.specs.NodeRows.{AreRows};
ghost use Rattle.search_strong_branching.specs.Nodes.{IsSplitNode};

use crate::node::SplitNode;
use lp_float_programs::{FloatProgram, FloatSolved, Key, LastRow, Limits};
use lp_master_rows::{NodeRows, NodeTask};
use model_rosters::{List, Memory};
use search_dives::{float_program_of, list_places};
use search_watch::Watch;
use std::alloc::Global;
use tree_graph::Graph;
use tree_pool::Pool;

/// How many of the pool's last trees are listed for each row.
const LAST: usize = 1;

/// How many of its best ones at the prices then are listed beside them, for each row.
const BEST: usize = 2;

/// The steps that solve a node's program.
const SOLVE: Limits = Limits {
    dual: 3_000,
    primal: 3_000,
};

/// The value 1.
const ONE: i128 = 4_294_967_296;

/// A value is above another one where it is by more than 1/16.
const MARGIN: i128 = 268_435_456;

/// Twice the most dual steps that tries of arcs take: three for each half of 32 arcs, and twenty for each
/// half of four of them. Tries of letters take fewer.
const STEPS: u64 = 704;

/// So many rows a node of a day of 48 periods has at most where it has 62 cuts: eight codes in each period,
/// and two of the heads.
const ROWS: u64 = 448;

/// A node's program at a float program, and room to try cuts.
#[derive(Drop)]
pub(crate) struct ProbeBench {
    /// The program, whose last row has no entries.
    base: FloatProgram,
    /// A copy in which that row is a cut.
    copy: FloatProgram,
    /// The trees of the pool that are listed.
    listed: List<usize>,
    /// Which of these the cut counts.
    flags: Vec<bool>,
    /// The program's value, in units of 2^-32.
    value: i128,
    /// The most that a cut is told to add to it.
    most: i128,
    /// How many entries tries may touch.
    budget: u64,
}

/// Lists a tree of the pool, if it is one.
fn list_tree(
    alloc: Global,
    task: &NodeTask,
    pool: &Pool,
    column: usize,
    float_program: &mut FloatProgram,
    listed: &mut List<usize>,
) -> Result<(), Memory> {
    if column >= pool.len() {
        return Ok(());
    }
    let places = task.rows.places_of(alloc, task.cuts, pool, column)?;
    listed.push(column)?;
    list_places(
        float_program,
        i64::from(pool.cost(column)),
        places.as_slice(),
    )
}

/// Returns the trees with which a program begins: those of the last column generation's basis, and where that
/// is empty those with weight.
fn first_trees(alloc: Global, node: &SplitNode) -> Result<List<usize>, Memory> {
    let mut trees = List::new(alloc);
    trees.extend_from_slice(node.last.trees.as_slice())?;
    if trees.is_empty() {
        for share in node.shares {
            trees.push(share.column)?;
        }
    }
    Ok(trees)
}

/// Lists the first trees of a program, and the pool's last ones that are not among them.
fn list_trees(
    alloc: Global,
    task: &NodeTask,
    pool: &Pool,
    first: &[usize],
    float_program: &mut FloatProgram,
    listed: &mut List<usize>,
) -> Result<(), Memory> {
    for column in first {
        list_tree(alloc, task, pool, *column, float_program, listed)?;
    }
    let last = task.rows.right().len().saturating_mul(LAST);
    for column in pool.len().saturating_sub(last)..pool.len() {
        if !first.contains(&column) {
            list_tree(alloc, task, pool, column, float_program, listed)?;
        }
    }
    Ok(())
}

/// Lists the best trees of the pool at a float program's prices that are not listed yet.
fn list_best(
    alloc: Global,
    task: &NodeTask,
    pool: &Pool,
    float_program: &mut FloatProgram,
    listed: &mut List<usize>,
) -> Result<(), Memory> {
    let prices = float_program.list_prices(alloc)?;
    let most = task.rows.right().len().saturating_mul(BEST);
    let best = task
        .rows
        .best_trees(alloc, task.cuts, pool, prices.as_slice(), most)?;
    let count = listed.len();
    for column in best.as_slice() {
        let is_new = match listed.as_slice().get(..count) {
            Some(before) => !before.contains(column),
            None => true,
        };
        if is_new {
            list_tree(alloc, task, pool, *column, float_program, listed)?;
        }
    }
    Ok(())
}

/// Solves a program that has started, and says whether its value is one.
fn run_on<W: Watch>(float_program: &mut FloatProgram, watch: &W) -> bool {
    float_program.run(SOLVE, watch) == FloatSolved::Optimal
        && float_program.settle(SOLVE, watch) == FloatSolved::Optimal
}

/// Solves a program from a basis, and where it is empty or leads to nothing without one. Says whether its
/// value is one.
fn solve<W: Watch>(float_program: &mut FloatProgram, keys: &[Key], watch: &W) -> bool {
    if !keys.is_empty() && float_program.start(keys).is_ok() && run_on(float_program, watch) {
        return true;
    }
    float_program.start_beyond().is_ok() && run_on(float_program, watch)
}

/// Returns how many entries the tries on a node of so many rows may touch: 704 times the rows times the rows,
/// of which the second factor is 448 at most. A step touches at most the square of the rows, so that no node
/// with up to 448 rows reaches that.
fn budget_of(rows: usize) -> u64 {
    let rows = rows as u64;
    rows.saturating_mul(rows.min(ROWS)).saturating_mul(STEPS)
}

/// Returns so many flags that are not set.
fn flags_of(alloc: Global, count: usize) -> Result<Vec<bool>, Memory> {
    Ok(vec![in alloc; false; count]?)
}

/// Returns the program of a node with no trees, and room to try cuts.
fn without_trees(alloc: Global, task: &NodeTask) -> Result<ProbeBench, Memory>
    requires { AreRows task.now.day.instance.now task.now.cuts.now task.now.rows.now }
{
    let base = float_program_of(alloc, task, 1)?;
    let copy = float_program_of(alloc, task, 1)?;
    Ok(ProbeBench {
        base,
        copy,
        listed: List::new(alloc),
        flags: Vec::new(alloc),
        value: 0,
        most: 0,
        budget: budget_of(task.rows.right().len()),
    })
}

impl ProbeBench {
    /// Returns the program of a node, solved; `None` where it was not. No value from `limit` on is of use.
    ///
    /// # Errors
    ///
    /// `Memory` where memory runs out; nothing is kept then.
    pub fn new<W: Watch>(
        alloc: Global,
        node: &SplitNode,
        limit: i128,
        watch: &W,
    ) -> Result<Option<ProbeBench>, Memory>
        requires { IsSplitNode node.now }
    {
        let rows = NodeRows::new(alloc, node.day.instance, node.cuts)?;
        let task = NodeTask {
            day: node.day,
            cuts: node.cuts,
            rows: &rows,
        };
        ProbeBench::over(alloc, &task, node, limit, watch)
    }

    /// Returns the program over a node's rows, solved; `None` where it was not.
    fn over<W: Watch>(
        alloc: Global,
        task: &NodeTask,
        node: &SplitNode,
        limit: i128,
        watch: &W,
    ) -> Result<Option<ProbeBench>, Memory>
        requires { AreRows task.now.day.instance.now task.now.cuts.now task.now.rows.now }
    {
        let mut bench = without_trees(alloc, task)?;
        if bench.fill(alloc, task, node, limit, watch)? {
            return Ok(Some(bench));
        }
        Ok(None)
    }

    /// Lists trees and solves the program, twice. Says whether it is solved.
    fn fill<W: Watch>(
        &mut self,
        alloc: Global,
        task: &NodeTask,
        node: &SplitNode,
        limit: i128,
        watch: &W,
    ) -> Result<bool, Memory> {
        let (base, listed) = (&mut self.base, &mut self.listed);
        let first = first_trees(alloc, node)?;
        list_trees(alloc, task, node.pool, first.as_slice(), base, listed)?;
        let keys = node.last.keys(alloc)?;
        if !solve(base, keys.as_slice(), watch) {
            return Ok(false);
        }
        list_best(alloc, task, node.pool, base, listed)?;
        if base.run(SOLVE, watch) != FloatSolved::Optimal {
            return Ok(false);
        }
        self.value = base.value();
        self.most = limit.saturating_sub(self.value).max(0);
        self.flags = flags_of(alloc, listed.len())?;
        Ok(true)
    }

    /// Notes which of the listed trees have an arc.
    pub fn note(&mut self, graph: &Graph, pool: &Pool, arc: u32) {
        let Some(arc) = graph.arcs().get(arc as usize) else {
            return;
        };
        for (flag, column) in self.flags.iter_mut().zip(self.listed.as_slice()) {
            *flag = *column < pool.len() && pool.has_arc(*column, arc);
        }
    }

    /// Says whether the tries have touched all entries of the budget, or one part of so many, or the watch is
    /// over.
    pub fn is_spent<W: Watch>(&self, parts: u64, watch: &W) -> bool {
        self.copy.work().saturating_mul(parts) > self.budget || watch.is_over()
    }

    /// Says whether a gain raises the value rounded up.
    pub fn is_raised(&self, gain: i128) -> bool {
        let shown = self.value.saturating_sub(MARGIN).saturating_add(ONE - 1) / ONE;
        let least = shown.saturating_mul(ONE).saturating_add(MARGIN);
        self.value.saturating_add(gain) > least
    }

    /// Returns the most that a cut is told to add to the value.
    pub fn most(&self) -> i128 {
        self.most
    }

    /// Returns what a cut on the trees that were noted adds to the value by so many dual steps.
    ///
    /// # Errors
    ///
    /// `Memory` where memory runs out; nothing is said of the copy then.
    pub fn gain<W: Watch>(&mut self, cut: LastRow, steps: u32, watch: &W) -> Result<i128, Memory> {
        if self.copy.rows() != self.base.rows() {
            return Ok(0);
        }
        let begun = self.copy.copy_with_row(&self.base, cut, &self.flags)?;
        if begun.is_err() {
            return Ok(0);
        }
        let limits = Limits {
            dual: steps,
            primal: 0,
        };
        match self.copy.run(limits, watch) {
            FloatSolved::Stuck => Ok(self.most),
            FloatSolved::Grew => Ok(0),
            _ => Ok(
                self.copy
                    .value()
                    .saturating_sub(self.value)
                    .max(0)
                    .min(self.most),
            ),
        }
    }
}
