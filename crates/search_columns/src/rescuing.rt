//! Runs of a float program, and what becomes of a column generation that is lost.

ghost use Rattle.search_columns.specs.Generations.{IsGenerating, StayGenerating};

use crate::boxing::generation_in_boxes;
use crate::generation::Generation;
use lp_float_programs::{FloatProgram, FloatSolved, Limits};
use lp_master_rows::NodeTask;
use model_rosters::Memory;
use search_watch::Watch;
use std::alloc::Global;
use tree_cheapest::Pricer;
use tree_pool::Pool;

/// The steps of a run that is careful.
const CAREFUL: Limits = Limits {
    dual: 30_000,
    primal: 20_000,
};

/// How often a careful float program runs in a round while its steps are spent.
const RUNS: u32 = 2;

/// A column generation with more pivots is rescued. Column generations of days whose blocks are short take a
/// tenth of them, and one of a day of 48 periods took 6,163.
const SLOW: u64 = 8_000;

/// Runs a careful float program, up to so many times while its steps are spent and the watch is not over.
pub(crate) fn run_on<W: Watch>(
    float_program: &mut FloatProgram,
    most: u32,
    watch: &W,
) -> FloatSolved {
    let mut end = float_program.run(CAREFUL, watch);
    for _again in 1..most {
        if end != FloatSolved::Spent || watch.is_over() {
            return end;
        }
        end = float_program.run(CAREFUL, watch);
    }
    end
}

/// Runs a careful float program; where a number leaves its bounds, once more from the rows' own columns.
fn run_careful<W: Watch>(float_program: &mut FloatProgram, watch: &W) -> FloatSolved {
    let end = run_on(float_program, RUNS, watch);
    if end == FloatSolved::Grew && float_program.start_beyond().is_ok() {
        return float_program.run(CAREFUL, watch);
    }
    end
}

/// Says whether a column generation is to be rescued whose run ended so, with so many pivots in all.
fn is_lost(end: FloatSolved, pivots: u64) -> bool {
    end == FloatSolved::Spent || end == FloatSolved::Grew || pivots > SLOW
}

/// Runs the float program of a column generation. Where its steps are spent, a number leaves its bounds or
/// there were many pivots, and not since the watch is over, the column generation is *rescued*: it is careful
/// from then on, and takes rounds in boxes first.
///
/// # Errors
///
/// `Memory` where memory runs out; the column generation may go on then, with the trees that were found.
pub(crate) fn run_or_rescue<W: Watch>(
    alloc: Global,
    task: &NodeTask,
    pricer: &mut Pricer,
    pool: &mut Pool,
    generation: &mut Generation,
    steps: Limits,
    watch: &W,
) -> Result<FloatSolved, Memory>
    requires { IsGenerating task.now pricer.old pool.old generation.old }
    ensures { StayGenerating task.now pricer.new pool.old pool.new generation.new }
{
    if generation.float_program.is_careful() {
        return Ok(run_careful(&mut generation.float_program, watch));
    }
    let end = generation.float_program.run(steps, watch);
    if !is_lost(end, generation.float_program.pivots()) || watch.is_over() {
        return Ok(end);
    }
    generation.float_program.be_careful();
    generation_in_boxes(alloc, task, pricer, pool, generation, watch)?;
    Ok(run_careful(&mut generation.float_program, watch))
}

/// Takes the perturbations of a float program off, and runs. A careful one in which a number leaves its
/// bounds by that begins once more from the rows' own columns.
pub(crate) fn settle<W: Watch>(float_program: &mut FloatProgram, steps: Limits, watch: &W) {
    let end = float_program.settle(steps, watch);
    if end == FloatSolved::Grew
        && float_program.is_careful()
        && float_program.start_beyond().is_ok()
    {
        let _end = float_program.run(CAREFUL, watch);
    }
}
