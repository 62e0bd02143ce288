//! A roster that is being completed.

ghost use Rattle.std.specs.Prelude.{◌<◌, IfOk, OnOk, length};
ghost use Rattle.model_rosters.specs.SoundInstance.{IsSoundInstance};
ghost use Rattle.lp_master_rows.specs.search_day.Days.{IsDay};
ghost use Rattle.search_moves.specs.Drafts.{IsDraft};
ghost use Rattle.search_moves.specs.ShortPricings.{AreShortPricing, IsShortPriced};
ghost use Rattle.search_moves.specs.Tools.{HasCells, KeepsDraft};

use crate::blending::{Blend, UNITS, set_blended};
use crate::counts::{count_in, count_out};
use crate::savings::set_savings;
use crate::short_pricing::ShortPricing;
use lp_master_rows::Day;
use model_rosters::{Instance, Memory, TreeRoom};
use std::alloc::Global;
use tree_pool::Pool;

/// A roster that is being completed.
#[derive(Drop)]
pub(crate) struct Draft {
    /// Its trees, by their numbers in the pool.
    pub columns: Vec<usize>,
    /// How many of them work at each cell.
    pub counts: Vec<u32>,
    /// What one more employee saves at each cell, when this was last asked.
    pub savings: Vec<i128>,
    /// Room for one tree.
    pub room: TreeRoom,
}

impl Draft {
    /// Returns a draft without trees.
    ///
    /// # Errors
    ///
    /// `Memory` where memory runs out; nothing is kept then.
    pub fn new(alloc: Global, instance: &Instance) -> Result<Draft, Memory>
        requires { IsSoundInstance instance.now }
        ensures { IfOk result (IsDraft instance.now 0) }
    {
        let counts = vec![in alloc; 0u32; instance.cells.len()]?;
        let savings = vec![in alloc; 0i128; instance.cells.len()]?;
        let room = TreeRoom::for_grammar(alloc, &instance.grammar)?;
        Ok(Draft {
            columns: Vec::new(alloc),
            counts,
            savings,
            room,
        })
    }

    /// Adds a tree of the pool.
    ///
    /// # Errors
    ///
    /// `Memory` where memory runs out; nothing is said of the draft then.
    pub fn push(&mut self, instance: &Instance, pool: &Pool, column: usize) -> Result<(), Memory>
        requires draft { IsDraft instance.now (length pool.now) self.old }
        requires column { column < length pool.now }
        ensures { OnOk result (IsDraft instance.now (length pool.now) self.new) }
    {
        count_in(
            instance.cells.as_slice(),
            pool.codes(column),
            &mut self.counts,
        );
        self.columns.push(column)?;
        Ok(())
    }

    /// Takes a tree out, where it is there.
    pub fn take(&mut self, instance: &Instance, pool: &Pool, column: usize)
        requires draft { IsDraft instance.now (length pool.now) self.old }
        ensures { IsDraft instance.now (length pool.now) self.new }
    {
        let Some(place) = place_of(&self.columns, column) else {
            return;
        };
        if place < self.columns.len() && column < pool.len() {
            let _column = self.columns.swap_remove(place);
            count_out(
                instance.cells.as_slice(),
                pool.codes(column),
                &mut self.counts,
            );
        }
    }

    /// Takes the last tree out.
    pub fn pop(&mut self, instance: &Instance, pool: &Pool)
        requires draft { IsDraft instance.now (length pool.now) self.old }
        ensures { IsDraft instance.now (length pool.now) self.new }
    {
        if let Some(column) = self.columns.pop() {
            count_out(
                instance.cells.as_slice(),
                pool.codes(column),
                &mut self.counts,
            );
        }
    }

    /// Fills the short order for what one more tree would cost, and returns the least such sum of the trees
    /// that it has.
    pub fn price(&mut self, day: &Day, pricing: &mut ShortPricing) -> Option<i128>
        requires day { IsDay day.now }
        requires pricing { AreShortPricing day.now pricing.old }
        requires cells { HasCells day.now.instance.now self.old }
        ensures priced { IsShortPriced day.now pricing.new.short result }
        ensures pricing { AreShortPricing day.now pricing.new }
        ensures draft { KeepsDraft self.old self.new }
    {
        let cells = day.instance.cells.as_slice();
        set_savings(cells, &self.counts, &mut self.savings);
        let prices = &mut pricing.room;
        prices.set_parts(day.instance, 1, self.savings.as_slice(), &[], &[]);
        pricing.short.cheapest(day.graph, prices)
    }

    /// Fills the short order for what one more tree would cost where the node's prices are these, blended,
    /// and returns the least such sum of the trees that it has, in units of 1/256.
    pub fn price_blended(
        &mut self,
        day: &Day,
        worths: &[i64],
        blend: Blend,
        pricing: &mut ShortPricing,
    ) -> Option<i128>
        requires day { IsDay day.now }
        requires pricing { AreShortPricing day.now pricing.old }
        requires cells { HasCells day.now.instance.now self.old }
        ensures priced { IsShortPriced day.now pricing.new.short result }
        ensures pricing { AreShortPricing day.now pricing.new }
        ensures draft { KeepsDraft self.old self.new }
    {
        let cells = day.instance.cells.as_slice();
        set_blended(cells, &self.counts, worths, blend, &mut self.savings);
        let prices = &mut pricing.room;
        prices.set_parts(day.instance, UNITS, self.savings.as_slice(), &[], &[]);
        pricing.short.cheapest(day.graph, prices)
    }
}

/// Returns the first place of a tree.
fn place_of(columns: &[usize], column: usize) -> Option<usize> {
    for (place, other) in columns.iter().enumerate() {
        if *other == column {
            return Some(place);
        }
    }
    None
}
