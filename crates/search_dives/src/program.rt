//! What is left to solve, and what is fixed.

ghost use Rattle.std.specs.Prelude.{ℕ, ◌≡◌, ◌<◌, IfOk, IfSome, OnOk, length};
ghost use Rattle.lp_master_rows.specs.node_task.Tasks.{IsTask};
ghost use Rattle.search_dives.specs.Parts.{IsProgram};

use crate::rows::{float_program_of, list_places, take_places};
use crate::start::Asks;
use crate::sums::{ONE, add, clear};
use lp_float_programs::{FloatProgram, Key};
use lp_master_rows::{NodeRows, NodeTask};
use model_rosters::{List, Memory};
use std::alloc::Global;
use tree_graph::Graph;
use tree_pool::Pool;

/// How far a value may be from the right one, 2^-8 in units of 2^-32.
const NEAR: i128 = 16_777_216;

/// A value is near to what prices show of it where it is above that by at most a part of itself, one in so
/// many.
const PART: i128 = 1_024;

/// How many units of 2^-32 are in one of prices, 2^-24.
const PRICE: i128 = 256;

/// A node's program less the trees that are fixed.
#[derive(Drop)]
pub(crate) struct Program {
    /// How trees are asked for.
    pub asks: Asks,
    /// The program at a float program.
    pub float_program: FloatProgram,
    /// Its right sides.
    pub sides: Vec<i64>,
    /// The trees of the pool that the float program has listed, by their numbers there.
    pub listed: List<usize>,
    /// The trees of the pool that are fixed.
    pub fixed: List<usize>,
    /// What these cost.
    cost: i128,
    /// Whether the last run ended at least cost, so that its prices are lawful.
    pub is_solved: bool,
    /// What prices have shown of the program's value since a tree was fixed last, in units of 2^-32.
    pub shown: Option<i128>,
    /// How many arcs all passes over the graph have touched.
    pub touched: u64,
    /// Whether its value has passed the cost below which a roster is looked for: the dive is dropped.
    pub is_over: bool,
}

/// Returns a copy of numbers.
fn copy_of(alloc: Global, numbers: &[i64]) -> Result<Vec<i64>, Memory> {
    Ok(Vec::from_slice(alloc, numbers)?)
}

/// Returns what prices show of the least cost of a program with these right sides, where at most so many
/// trees are taken and the least reduced cost of one is this; all in units of 2^-24.
fn bound_at(sides: &[i64], prices: &[i128], heads: i64, reduced: i128) -> i128 {
    let mut bound = reduced.min(0).saturating_mul(i128::from(heads));
    for (side, price) in sides.iter().zip(prices) {
        bound = bound.saturating_add(price.saturating_mul(i128::from(*side)));
    }
    bound
}

impl Program {
    /// Returns the program of a node without trees.
    ///
    /// # Errors
    ///
    /// `Memory` where memory runs out; nothing is kept then.
    pub fn new(alloc: Global, task: &NodeTask, asks: Asks) -> Result<Program, Memory>
        requires { IsTask task.now }
        ensures { (n : ℕ) → IfOk result (IsProgram n) }
    {
        let sides = copy_of(alloc, task.rows.right())?;
        match float_program_of(alloc, task, 0) {
            Ok(float_program) => Ok(Program {
                asks,
                float_program,
                sides,
                listed: List::new(alloc),
                fixed: List::new(alloc),
                cost: 0,
                is_solved: false,
                shown: None,
                touched: 0,
                is_over: false,
            }),
            Err(fault) => {
                drop(sides);
                Err(fault)
            }
        }
    }

    /// Lists a tree of the pool.
    ///
    /// # Errors
    ///
    /// `Memory` where memory runs out; nothing is said of the program then.
    pub fn list(
        &mut self,
        alloc: Global,
        task: &NodeTask,
        pool: &Pool,
        column: usize,
    ) -> Result<(), Memory>
        requires column { column < length pool.now }
        requires program { IsProgram (length pool.now) self.old }
        ensures { OnOk result (IsProgram (length pool.now) self.new) }
    {
        let places = task.rows.places_of(alloc, task.cuts, pool, column)?;
        self.listed.push(column)?;
        list_places(
            &mut self.float_program,
            i64::from(pool.cost(column)),
            places.as_slice(),
        )
    }

    /// Lists trees of the pool; numbers beyond it are left out.
    ///
    /// # Errors
    ///
    /// `Memory` where memory runs out; nothing is said of the program then.
    pub fn list_all(
        &mut self,
        alloc: Global,
        task: &NodeTask,
        pool: &Pool,
        columns: &[usize],
    ) -> Result<(), Memory>
        requires program { IsProgram (length pool.now) self.old }
        ensures { OnOk result (IsProgram (length pool.now) self.new) }
    {
        for &column in columns {
            if column < pool.len() {
                self.list(alloc, task, pool, column)?;
            }
        }
        Ok(())
    }

    /// Lists the last trees of the pool, so many of them, but for those that are listed before.
    ///
    /// # Errors
    ///
    /// `Memory` where memory runs out; nothing is said of the program then.
    pub fn list_last(
        &mut self,
        alloc: Global,
        task: &NodeTask,
        pool: &Pool,
        count: usize,
        before: &[usize],
    ) -> Result<(), Memory>
        requires program { IsProgram (length pool.now) self.old }
        ensures { OnOk result (IsProgram (length pool.now) self.new) }
    {
        for column in pool.len().saturating_sub(count)..pool.len() {
            if !before.contains(&column) {
                self.list(alloc, task, pool, column)?;
            }
        }
        Ok(())
    }

    /// Fixes a tree of the pool: takes it off the right sides.
    ///
    /// # Errors
    ///
    /// `Memory` where memory runs out; nothing is said of the program then.
    pub fn fix(
        &mut self,
        alloc: Global,
        task: &NodeTask,
        pool: &Pool,
        column: usize,
    ) -> Result<(), Memory>
        requires column { column < length pool.now }
        requires program { IsProgram (length pool.now) self.old }
        ensures { OnOk result (IsProgram (length pool.now) self.new) }
    {
        let places = task.rows.places_of(alloc, task.cuts, pool, column)?;
        self.fixed.push(column)?;
        self.cost = self.cost.saturating_add(i128::from(pool.cost(column)));
        self.shown = None;
        take_places(&mut self.float_program, places.as_slice(), &mut self.sides);
        Ok(())
    }

    /// Counts a pass over a graph of so many arcs.
    pub fn touch(&mut self, arcs: usize)
        ensures { self.new ≡ record self.old { touched = self.new.touched } }
    {
        self.touched = self.touched.saturating_add(arcs as u64);
    }

    /// Returns how many entries the float program's steps have touched, and how many arcs the passes over the
    /// graph.
    pub fn work(&self) -> u64 {
        self.float_program.work().saturating_add(self.touched)
    }

    /// Notes what the prices of a run that ended at least cost show of the program's value, where the least
    /// reduced cost of a tree is this; both in units of 2^-24.
    pub fn note(&mut self, rows: &NodeRows, prices: &[i128], reduced: i128)
        ensures { self.new ≡ record self.old { shown = self.new.shown } }
    {
        if !self.is_solved {
            return;
        }
        let most = rows.first_head().saturating_add(1);
        let heads = self.sides.as_slice().get(most).copied().unwrap_or(0).max(0);
        let bound = bound_at(self.sides.as_slice(), prices, heads, reduced).saturating_mul(PRICE);
        if self.shown.is_none_or(|best| best < bound) {
            self.shown = Some(bound);
        }
    }

    /// Returns a value with what the fixed trees cost, in units of 2^-32.
    fn with_fixed(&self, value: i128) -> i128 {
        let fixed = self.cost.saturating_mul(i128::from(ONE));
        value.saturating_add(fixed)
    }

    /// Says whether a value, with what the fixed trees cost, is above this less 1.
    fn is_above(&self, value: i128, cost: u64) -> bool {
        let most = i128::from(cost).saturating_sub(1);
        self.with_fixed(value) > most.saturating_mul(i128::from(ONE)).saturating_add(NEAR)
    }

    /// Says whether the program's value is near to what prices have shown of it, so that further trees hardly
    /// change it.
    fn is_near(&self) -> bool {
        let Some(shown) = self.shown else {
            return false;
        };
        let value = self.float_program.value();
        value.saturating_sub(shown) <= self.with_fixed(value) / PART
    }

    /// Says whether what prices have shown of the program's value, with what the fixed trees cost, is above
    /// this less 1.
    fn is_shown_dear(&self, cost: u64) -> bool {
        match self.shown {
            Some(shown) => self.is_above(shown, cost),
            None => false,
        }
    }

    /// Says whether no further tree need be asked for: the value is near to what prices have shown of it, or
    /// that is too dear.
    pub fn is_settled(&self, cost: u64) -> bool {
        self.is_near() || self.is_shown_dear(cost)
    }

    /// Says whether hardly a roster with the fixed trees costs less than this: what prices have shown of the
    /// program's value, with what these trees cost, is above this less 1, or the value is, where it is not
    /// near to that.
    pub fn is_dear(&self, cost: u64) -> bool {
        if self.is_near() {
            return self.is_shown_dear(cost);
        }
        self.is_shown_dear(cost) || self.is_above(self.float_program.value(), cost)
    }

    /// Returns the tree of the pool in the float program's basis at a place, if there is one.
    fn basic_tree(&self, place: usize, most: usize) -> Option<usize>
        ensures { IfSome result (λ c. c < most) }
    {
        let Some(Key::Listed(number)) = self.float_program.basic(place) else {
            return None;
        };
        let column = *self.listed.as_slice().get(number)?;
        if column < most { Some(column) } else { None }
    }

    /// Returns the weight of the column in the float program's basis at a place.
    fn weight(&self, place: usize) -> i64 {
        match self.float_program.values().get(place) {
            Some(value) => value.raw().max(0),
            None => 0,
        }
    }

    /// Adds the weight of the tree in the float program's basis at a place to the sums of its arcs, and
    /// returns it.
    fn add_basic(&self, graph: &Graph, pool: &Pool, place: usize, sums: &mut [i64]) -> i64
        ensures { length sums.new ≡ length sums.old }
    {
        let Some(column) = self.basic_tree(place, pool.len()) else {
            return 0;
        };
        let weight = self.weight(place);
        add(graph, pool.arcs(column), weight, sums);
        weight
    }

    /// Sums the weights of the trees in the float program's basis by arc, and returns what they add up to.
    pub fn sum_up(&self, graph: &Graph, pool: &Pool, sums: &mut [i64]) -> i64
        ensures { length sums.new ≡ length sums.old }
    {
        clear(sums);
        let mut total = 0i64;
        for place in 0..self.float_program.rows() {
            let weight = self.add_basic(graph, pool, place, sums);
            total = total.saturating_add(weight);
        }
        total
    }
}
