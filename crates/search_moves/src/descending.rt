//! The moves that make a roster better.

ghost use Rattle.std.specs.Prelude.{◌<◌, OnOk, length};
ghost use Rattle.search_moves.specs.Drafts.{IsDraft};
ghost use Rattle.search_moves.specs.Tools.{AreTools, StayTools};

use crate::blending::{Blend, PARTS};
use crate::draft::Draft;
use crate::drawing::Draws;
use crate::exchanging::exchange_from;
use crate::growing::{grow, grow_blended};
use crate::guide::Guide;
use crate::ranking::{Rank, drawn_mode, list_ranks, set_values};
use crate::short_pricing::ShortPricing;
use crate::weighing::weight_of;
use lp_master_rows::Day;
use model_rosters::{Instance, Memory, Prices};
use search_watch::{SteadyWatch, Watch};
use std::alloc::Global;
use tree_pool::Pool;

/// How many trees go in a move at most.
const MOST: usize = 5;

/// So many trees of a draft count for its allowance at most: no day has more employees.
const MOST_TREES: usize = 64;

/// How many times the further passes a descent takes at most where it goes well.
const FURTHER_MOST: u32 = 4;

/// How many shares of the node's price there are, from 0 sixteenths on.
const SHARES: usize = 13;

/// A node's price of a cell counts at most so much in size, in sixteenths: more than any cell has.
const MOST_WORTH: i128 = 1_073_741_824;

/// What the moves of a descent are drawn with.
#[derive(Drop)]
struct MoveWorkspace {
    /// The node's price of each cell, in sixteenths.
    worths: Vec<i64>,
    /// What an employee at each cell counts for who goes.
    values: Vec<i64>,
    /// The trees of the draft, by how late they go.
    ranks: Vec<Rank>,
    draws: Draws,
}

/// What a move is: how many trees go, and how much of the prices of those that come is the node's.
#[derive(Clone, Copy, Drop)]
struct Move {
    count: usize,
    /// In sixteenths.
    share: i64,
}

/// How many passes over the graph a descent takes.
#[derive(Clone, Copy, Drop)]
struct Allowance {
    taken: u32,
    allowed: u32,
    most: u32,
}

impl Move {
    /// Returns how many passes over the graph the move takes at most: one for each tree that comes, and one
    /// for each that it gives way to.
    fn passes(self) -> u32 {
        let trees = (self.count.min(MOST) as u32).saturating_add(1);
        trees.saturating_mul(2)
    }
}

impl Allowance {
    /// Returns the allowance of a descent without moves of a draft with so many trees.
    fn of(guide: &Guide, trees: usize) -> Allowance {
        let trees = trees.min(MOST_TREES) as u32;
        let square = trees.saturating_mul(trees);
        Allowance {
            taken: 0,
            allowed: guide
                .passes
                .saturating_mul(square)
                .saturating_add(guide.further),
            most: guide
                .most
                .saturating_mul(square)
                .saturating_add(guide.further.saturating_mul(FURTHER_MOST)),
        }
    }

    /// Counts the passes of a move.
    fn take(&mut self, step: Move) {
        self.taken = self.taken.saturating_add(step.passes());
    }

    /// Allows as many passes again as were taken: the draft weighs less than before.
    fn extend(&mut self) {
        let twice = self.taken.saturating_mul(2).min(self.most);
        self.allowed = self.allowed.max(twice);
    }

    /// Says whether no further move is to be made.
    fn is_spent(&self) -> bool {
        self.taken >= self.allowed
    }
}

/// Returns a price in units of 1 / `d` in sixteenths.
fn worth_of(price: i128, d: u64) -> i64 {
    let parts = price.saturating_mul(i128::from(PARTS));
    let worth = parts.checked_div(i128::from(d)).unwrap_or(0);
    worth.clamp(-MOST_WORTH, MOST_WORTH) as i64
}

/// Sets the node's prices of the cells in sixteenths.
fn set_worths(prices: &Prices, worths: &mut [i64]) {
    for (price, worth) in prices.cell.as_slice().iter().zip(worths.iter_mut()) {
        *worth = worth_of(*price, prices.d);
    }
}

/// Returns a zero for each cell.
fn zeros(alloc: Global, instance: &Instance) -> Result<Vec<i64>, Memory> {
    Ok(vec![in alloc; 0i64; instance.cells.len()]?)
}

impl MoveWorkspace {
    /// Returns what the moves of a descent are drawn with that is steered so.
    fn new(alloc: Global, instance: &Instance, guide: &Guide) -> Result<MoveWorkspace, Memory> {
        let mut worths = zeros(alloc, instance)?;
        set_worths(guide.prices, &mut worths);
        let values = zeros(alloc, instance)?;
        Ok(MoveWorkspace {
            worths,
            values,
            ranks: Vec::new(alloc),
            draws: Draws::of_turn(guide.turn),
        })
    }

    /// Draws a move, and ranks the trees of a draft by how late they go in it.
    fn draw(&mut self, instance: &Instance, pool: &Pool, draft: &Draft) -> Result<Move, Memory>
        requires draft { IsDraft instance.now (length pool.now) draft.now }
        requires some { 0 < length draft.now.columns.items }
    {
        let cells = instance.cells.as_slice();
        let columns = draft.columns.as_slice();
        let count = self.draws.below(MOST.min(columns.len())).saturating_add(1);
        let share = self.draws.below(SHARES) as i64;
        let mode = drawn_mode(&mut self.draws, instance, columns);
        set_values(
            cells,
            pool,
            &draft.counts,
            &self.worths,
            mode,
            &mut self.values,
        );
        list_ranks(
            cells,
            pool,
            columns,
            mode,
            &self.values,
            &mut self.draws,
            &mut self.ranks,
        )?;
        Ok(Move { count, share })
    }

    /// Returns how the prices are blended of the next tree that comes in a move, after which so many more
    /// come.
    fn blend(&mut self, step: Move, later: usize) -> Blend {
        Blend {
            share: if later > 0 { step.share } else { 0 },
            noise: self.draws.others(),
        }
    }
}

/// Takes the first trees of the ranks out of a draft.
fn take_out(instance: &Instance, pool: &Pool, draft: &mut Draft, ranks: &[Rank], count: usize)
    requires draft { IsDraft instance.now (length pool.now) draft.old }
    ensures draft { IsDraft instance.now (length pool.now) draft.new }
{
    for rank in ranks.iter().take(count) {
        draft.take(instance, pool, rank.column);
    }
}

/// Takes a move back: the trees from a place on go out of the draft, and the first ones of the ranks come in.
fn take_back(
    instance: &Instance,
    pool: &Pool,
    draft: &mut Draft,
    first: usize,
    ranks: &[Rank],
    count: usize,
) -> Result<(), Memory>
    requires draft { IsDraft instance.now (length pool.now) draft.old }
    ensures draft { OnOk result (IsDraft instance.now (length pool.now) draft.new) }
{
    for _ in first..draft.columns.len() {
        draft.pop(instance, pool);
    }
    for rank in ranks.iter().take(count) {
        if rank.column < pool.len() {
            draft.push(instance, pool, rank.column)?;
        }
    }
    Ok(())
}

/// Adds as many trees to a draft as go in a move, each a cheapest one of the team that is to have one more
/// employee, while there is such a team.
fn put_in(
    day: &Day,
    step: Move,
    pricing: &mut ShortPricing,
    pool: &mut Pool,
    draft: &mut Draft,
    moves: &mut MoveWorkspace,
) -> Result<(), Memory>
    requires tools { AreTools day.now pricing.old pool.old draft.old }
    ensures draft { OnOk result (IsDraft day.now.instance.now (length pool.new) draft.new) }
    ensures tools { StayTools day.now pricing.old pricing.new pool.old pool.new }
{
    for come in 0..step.count {
        let later = step.count.saturating_sub(come).saturating_sub(1);
        let blend = moves.blend(step, later);
        if !grow_blended(day, &moves.worths, blend, pricing, pool, draft)? {
            return Ok(());
        }
    }
    Ok(())
}

/// Puts trees in place of those that went in a move: as many, and one more where it saves, and then each
/// gives way to a cheapest one of its team.
fn refill(
    day: &Day,
    step: Move,
    pricing: &mut ShortPricing,
    pool: &mut Pool,
    draft: &mut Draft,
    moves: &mut MoveWorkspace,
) -> Result<(), Memory>
    requires tools { AreTools day.now pricing.old pool.old draft.old }
    ensures draft { OnOk result (IsDraft day.now.instance.now (length pool.new) draft.new) }
    ensures tools { StayTools day.now pricing.old pricing.new pool.old pool.new }
{
    let first = draft.columns.len();
    put_in(day, step, pricing, pool, draft, moves)?;
    let _grown = grow(day, pricing, pool, draft)?;
    if draft.columns.len() <= first.saturating_add(1) {
        return Ok(());
    }
    exchange_from(day, first, pricing, pool, draft, &SteadyWatch)
}

/// Makes a move, and takes it back where the draft would weigh more than so much. Returns what it weighs.
fn make(
    day: &Day,
    step: Move,
    weight: u64,
    pricing: &mut ShortPricing,
    pool: &mut Pool,
    draft: &mut Draft,
    moves: &mut MoveWorkspace,
) -> Result<u64, Memory>
    requires tools { AreTools day.now pricing.old pool.old draft.old }
    ensures draft { OnOk result (IsDraft day.now.instance.now (length pool.new) draft.new) }
    ensures tools { StayTools day.now pricing.old pricing.new pool.old pool.new }
{
    take_out(day.instance, pool, draft, &moves.ranks, step.count);
    let first = draft.columns.len();
    refill(day, step, pricing, pool, draft, moves)?;
    let changed = weight_of(day.instance, pool, draft);
    if changed <= weight {
        return Ok(changed);
    }
    take_back(day.instance, pool, draft, first, &moves.ranks, step.count)?;
    Ok(weight)
}

/// Makes moves, while the draft weighs more than the goal and the watch is not over.
fn descend_at<W: Watch>(
    day: &Day,
    guide: &Guide,
    pricing: &mut ShortPricing,
    pool: &mut Pool,
    draft: &mut Draft,
    moves: &mut MoveWorkspace,
    watch: &W,
) -> Result<(), Memory>
    requires tools { AreTools day.now pricing.old pool.old draft.old }
    ensures draft { OnOk result (IsDraft day.now.instance.now (length pool.new) draft.new) }
    ensures tools { StayTools day.now pricing.old pricing.new pool.old pool.new }
{
    let mut weight = weight_of(day.instance, pool, draft);
    let mut allowance = Allowance::of(guide, draft.columns.len());
    for _ in 0..allowance.most {
        if watch.is_over() {
            return Ok(());
        }
        if weight <= guide.goal || allowance.is_spent() || draft.columns.is_empty() {
            return Ok(());
        }
        let step = moves.draw(day.instance, pool, draft)?;
        allowance.take(step);
        let changed = make(day, step, weight, pricing, pool, draft, moves)?;
        if changed < weight {
            allowance.extend();
        }
        weight = changed;
    }
    Ok(())
}

/// Makes a draft better by moves: a few trees go, cheapest ones come, and the draft stays so where it weighs
/// no more. The watch is asked before each of them.
///
/// # Errors
///
/// `Memory` where memory runs out; nothing is said of the draft then. The short order and the room of prices
/// are still those of the graph and of the instance, and the pool has its trees under their numbers, and
/// perhaps further trees of the day.
pub(crate) fn descend<W: Watch>(
    alloc: Global,
    day: &Day,
    guide: &Guide,
    pricing: &mut ShortPricing,
    pool: &mut Pool,
    draft: &mut Draft,
    watch: &W,
) -> Result<(), Memory>
    requires tools { AreTools day.now pricing.old pool.old draft.old }
    ensures draft { OnOk result (IsDraft day.now.instance.now (length pool.new) draft.new) }
    ensures tools { StayTools day.now pricing.old pricing.new pool.old pool.new }
{
    let mut moves = MoveWorkspace::new(alloc, day.instance, guide)?;
    let end = descend_at(day, guide, pricing, pool, draft, &mut moves, watch);
    drop(moves);
    end
}
