//! Rounds in boxes.

ghost use Rattle.search_columns.specs.Generations.{IsGenerating, StayGenerating};

use crate::asked::{Asked, VALUE_UNITS};
use crate::asking::{ask_all, ask_mixed};
use crate::boxes::Boxes;
use crate::float_columns::list_trees;
use crate::generation::Generation;
use crate::rescuing::run_on;
use lp_float_programs::{FloatProgram, FloatSolved};
use lp_master_rows::{NodeRows, NodeTask};
use model_rosters::Memory;
use search_node_columns::Held;
use search_watch::Watch;
use std::alloc::Global;
use tree_cheapest::Pricer;
use tree_pool::Pool;

/// How many rounds are taken in boxes at most.
const ROUNDS: u32 = 300;

/// After so many rounds in turn with a value near to the bound boxes are lifted.
const QUIET: u32 = 2;

/// How many runs a round takes at most.
const RUNS: u32 = 4;

/// The boxes move to the best prices where the bound rose by so many hundredths of what the value promised.
const SHARE: i128 = 30;

/// Rounds in boxes that are under way.
#[derive(Drop)]
struct Boxing {
    boxes: Boxes,
    /// The bound of the prices about which the boxes stand, in units of 2^-24.
    begun: i128,
    /// How many rounds in turn had a value near to the bound.
    quiet: u32,
}

/// What a round in boxes comes to.
#[derive(Clone, Copy, Drop)]
struct Round {
    /// The value at the float program before trees were asked for, in units of 2^-24.
    value: i128,
    /// The bound of the best prices then, in the same units.
    bound: i128,
    /// Whether a tree was cheap at the float program's prices.
    is_cheap: bool,
}

impl Round {
    /// Says whether the bound rose well from a bound before, or can rise no more without other boxes.
    fn moves_on(&self, begun: i128) -> bool {
        let gained = self.bound.saturating_sub(begun).saturating_mul(100);
        let promised = self.value.saturating_sub(begun).saturating_mul(SHARE);
        !self.is_cheap || gained >= promised
    }
}

impl Boxing {
    /// Says whether the boxes are to be lifted behind a round: value and bound are near to each other, twice
    /// in turn or where no box holds a price back.
    fn is_done(&mut self, round: Round, near: i128, float_program: &FloatProgram) -> bool {
        if round.value.saturating_sub(round.bound) > near {
            self.quiet = 0;
            return false;
        }
        self.quiet = self.quiet.saturating_add(1);
        self.quiet >= QUIET || !self.boxes.hold_back(float_program.prices())
    }

    /// Moves the boxes to the best prices, wider where they hold a price back.
    fn move_to(&mut self, bound: i128, best: &[i128], float_program: &mut FloatProgram) {
        self.boxes.widen(float_program.prices());
        self.boxes.put_about(best, float_program);
        self.begun = bound;
    }

    /// Follows a round. Says whether another one is to be taken.
    fn follow(&mut self, round: Round, asked: &Asked, float_program: &mut FloatProgram) -> bool {
        if self.is_done(round, asked.near(), float_program) {
            return false;
        }
        if round.moves_on(self.begun) {
            self.move_to(round.bound, asked.best(), float_program);
        }
        true
    }
}

/// Begins with boxes about the best prices, which show this bound, from the rows' own columns.
fn begin(
    alloc: Global,
    rows: &NodeRows,
    held: &[Held],
    best: &[i128],
    bound: i128,
    float_program: &mut FloatProgram,
) -> Result<Boxing, Memory> {
    let mut boxes = Boxes::new(alloc, held, rows.right().len(), rows.first_head())?;
    boxes.put_about(best, float_program);
    let _started = float_program.start_missing();
    Ok(Boxing {
        boxes,
        begun: bound,
        quiet: 0,
    })
}

/// Lists trees at the float program's prices and at mixed ones, and says whether one is cheap at the float
/// program's own.
fn ask_round(
    alloc: Global,
    task: &NodeTask,
    pricer: &mut Pricer,
    pool: &mut Pool,
    generation: &mut Generation,
) -> Result<bool, Memory>
    requires { IsGenerating task.now pricer.old pool.old generation.old }
    ensures { StayGenerating task.now pricer.new pool.old pool.new generation.new }
{
    let first = generation.workspace.held.len();
    let is_cheap = ask_mixed(alloc, task, 0, pricer, pool, generation)?;
    ask_all(alloc, task, pricer, pool, generation)?;
    list_trees(
        &mut generation.float_program,
        generation.workspace.held.as_slice(),
        first,
    )?;
    Ok(is_cheap)
}

/// Takes a round in boxes. Says whether another one is to be taken.
fn box_once<W: Watch>(
    alloc: Global,
    task: &NodeTask,
    pricer: &mut Pricer,
    pool: &mut Pool,
    generation: &mut Generation,
    boxing: &mut Boxing,
    watch: &W,
) -> Result<bool, Memory>
    requires { IsGenerating task.now pricer.old pool.old generation.old }
    ensures { StayGenerating task.now pricer.new pool.old pool.new generation.new }
{
    if run_on(&mut generation.float_program, RUNS, watch) != FloatSolved::Optimal {
        return Ok(false);
    }
    let value = generation.float_program.value() / VALUE_UNITS;
    let is_cheap = ask_round(alloc, task, pricer, pool, generation)?;
    let round = Round {
        value,
        bound: generation.asked.bound().unwrap_or(0),
        is_cheap,
    };
    Ok(boxing.follow(round, &generation.asked, &mut generation.float_program))
}

/// Takes rounds in boxes until they are to be lifted, or until the watch is over.
fn box_rounds<W: Watch>(
    alloc: Global,
    task: &NodeTask,
    pricer: &mut Pricer,
    pool: &mut Pool,
    generation: &mut Generation,
    boxing: &mut Boxing,
    watch: &W,
) -> Result<(), Memory>
    requires { IsGenerating task.now pricer.old pool.old generation.old }
    ensures { StayGenerating task.now pricer.new pool.old pool.new generation.new }
{
    for _round in 0..ROUNDS {
        generation.tell(pool.len(), watch);
        if watch.is_over() {
            return Ok(());
        }
        let goes_on = box_once(alloc, task, pricer, pool, generation, boxing, watch)?;
        if !goes_on {
            return Ok(());
        }
    }
    Ok(())
}

/// Takes rounds in which the price of each row is kept near to the best one: in *boxes*, which move with the
/// bound and become wider where they hold a price back. So prices do not leap from round to round, and there
/// is a bound long before no tree is cheap. Where no bound is known none is taken.
///
/// # Errors
///
/// `Memory` where memory runs out; the column generation is without boxes then too.
pub(crate) fn generation_in_boxes<W: Watch>(
    alloc: Global,
    task: &NodeTask,
    pricer: &mut Pricer,
    pool: &mut Pool,
    generation: &mut Generation,
    watch: &W,
) -> Result<(), Memory>
    requires { IsGenerating task.now pricer.old pool.old generation.old }
    ensures { StayGenerating task.now pricer.new pool.old pool.new generation.new }
{
    let Some(bound) = generation.asked.bound() else {
        return Ok(());
    };
    let held = generation.workspace.held.as_slice();
    let best = generation.asked.best();
    let mut boxing = begin(
        alloc,
        task.rows,
        held,
        best,
        bound,
        &mut generation.float_program,
    )?;
    let end = box_rounds(alloc, task, pricer, pool, generation, &mut boxing, watch);
    boxing.boxes.lift(&mut generation.float_program);
    drop(boxing);
    end
}
