//! The rounds of a column generation.

ghost use Rattle.std.specs.Prelude.{◌≡◌, length};
ghost use Rattle.search_columns.specs.Generations.{IsGenerating, StayGenerating};
ghost use Rattle.search_columns.specs.Tools.{MayGenerate, StayTools};

use crate::asking::{ask_all, ask_mixed};
use crate::bases::{Bases, Basis};
use crate::beginning::begun_generation;
use crate::float_columns::{basic_trees, list_trees, own_keys};
use crate::generation::{Ending, Generation};
use crate::hint::{Hint, hint_of};
use crate::rescuing::{run_or_rescue, settle};
use crate::steering::Steering;
use lp_float_programs::{FloatProgram, FloatSolved, LastBasis, Limits};
use lp_master_rows::NodeTask;
use model_rosters::{Cut, List, Memory};
use search_watch::Watch;
use std::alloc::Global;
use tree_cheapest::Pricer;
use tree_pool::Pool;

/// How many rounds of steps and of pricing a column generation takes at most. It ends by itself where no tree
/// is cheap, and each round before lists a tree or more, of which a full pool has ten times as many. The
/// number is there for a column generation that rounding leads on and on.
const ROUNDS: u32 = 2_000;

/// The work at a float program, in entries touched, after which a column generation takes no further round.
/// It is there so that no node takes a search's time: past it the exact path begins from the basis that there
/// is. Other numbers were not tried.
const WORK: u64 = 8_000_000_000;

/// The same where a column generation is careful.
const CAREFUL_WORK: u64 = 16_000_000_000;

/// Returns the work at a float program after which its column generation takes no further round.
fn most_work(float_program: &FloatProgram) -> u64 {
    if float_program.is_careful() {
        CAREFUL_WORK
    } else {
        WORK
    }
}

/// Ends a column generation before its time: a careful one hands on its best prices, and not the last ones.
fn give_up(generation: &mut Generation)
    ensures y { length generation.new.asked.y.items ≡ length generation.old.asked.y.items }
    ensures workspace { generation.new.workspace ≡ generation.old.workspace }
{
    if generation.float_program.is_careful() {
        generation.asked.take_best();
    }
}

/// Says whether a column generation asks for trees behind a run that ended so. Where the steps of a careful
/// one are spent, its prices are good enough to ask at, and further trees often end what held it up.
fn goes_on(end: FloatSolved, generation: &mut Generation) -> bool
    ensures y { length generation.new.asked.y.items ≡ length generation.old.asked.y.items }
    ensures workspace { generation.new.workspace ≡ generation.old.workspace }
{
    let is_spent = end == FloatSolved::Spent && generation.float_program.is_careful();
    if end == FloatSolved::Optimal || is_spent {
        return !generation.asked.ends_at(generation.float_program.value());
    }
    give_up(generation);
    false
}

/// Lists trees that are cheap at the float program's prices and at mixed ones. Says whether one is at the
/// float program's own.
fn list_cheap(
    alloc: Global,
    task: &NodeTask,
    pricer: &mut Pricer,
    pool: &mut Pool,
    generation: &mut Generation,
) -> Result<bool, Memory>
    requires { IsGenerating task.now pricer.old pool.old generation.old }
    ensures { StayGenerating task.now pricer.new pool.old pool.new generation.new }
{
    let first = generation.workspace.held.len();
    let is_cheap = ask_mixed(alloc, task, 0, pricer, pool, generation)?;
    if !is_cheap {
        return Ok(false);
    }
    ask_all(alloc, task, pricer, pool, generation)?;
    list_trees(
        &mut generation.float_program,
        generation.workspace.held.as_slice(),
        first,
    )?;
    Ok(true)
}

/// Takes a round: runs the float program, and lists trees that are cheap there. Says whether there were any.
fn generation_once<W: Watch>(
    alloc: Global,
    task: &NodeTask,
    pricer: &mut Pricer,
    pool: &mut Pool,
    generation: &mut Generation,
    steps: Limits,
    watch: &W,
) -> Result<bool, Memory>
    requires { IsGenerating task.now pricer.old pool.old generation.old }
    ensures { StayGenerating task.now pricer.new pool.old pool.new generation.new }
{
    if generation.float_program.work() > most_work(&generation.float_program) {
        give_up(generation);
        return Ok(false);
    }
    let end = run_or_rescue(alloc, task, pricer, pool, generation, steps, watch)?;
    if !goes_on(end, generation) {
        return Ok(false);
    }
    list_cheap(alloc, task, pricer, pool, generation)
}

/// Takes rounds until no tree is cheap, or until the watch is over.
fn generation_rounds<W: Watch>(
    alloc: Global,
    task: &NodeTask,
    pricer: &mut Pricer,
    pool: &mut Pool,
    generation: &mut Generation,
    steps: Limits,
    watch: &W,
) -> Result<(), Memory>
    requires { IsGenerating task.now pricer.old pool.old generation.old }
    ensures { StayGenerating task.now pricer.new pool.old pool.new generation.new }
{
    for _round in 0..ROUNDS {
        generation.tell(pool.len(), watch);
        if watch.is_over() {
            return Ok(());
        }
        let goes_on = generation_once(alloc, task, pricer, pool, generation, steps, watch)?;
        if !goes_on {
            return Ok(());
        }
    }
    Ok(())
}

/// Returns the basis of a column generation.
fn last_basis(alloc: Global, generation: &Generation) -> Result<LastBasis, Memory> {
    Ok(LastBasis {
        trees: basic_trees(
            alloc,
            generation.workspace.held.as_slice(),
            &generation.float_program,
        )?,
        own: own_keys(alloc, &generation.float_program)?,
    })
}

/// Keeps the basis of a column generation at these cuts, also as that of the last column generation.
fn keep_basis(
    alloc: Global,
    cuts: &[Cut],
    generation: &Generation,
    bases: &mut Bases,
) -> Result<(), Memory> {
    bases.set_last(last_basis(alloc, generation)?);
    let mut path = List::new(alloc);
    path.extend_from_slice(cuts)?;
    bases.keep(Basis {
        cuts: path,
        trees: basic_trees(
            alloc,
            generation.workspace.held.as_slice(),
            &generation.float_program,
        )?,
        own: own_keys(alloc, &generation.float_program)?,
        prices: generation.float_program.list_prices(alloc)?,
        is_careful: generation.float_program.is_careful(),
    })
}

/// Takes a column generation to its end, and returns its last basis, which is kept.
fn generation_on<W: Watch>(
    alloc: Global,
    task: &NodeTask,
    pricer: &mut Pricer,
    pool: &mut Pool,
    generation: &mut Generation,
    bases: &mut Bases,
    watch: &W,
) -> Result<Hint, Memory>
    requires { IsGenerating task.now pricer.old pool.old generation.old }
    ensures { StayTools task.now.day pricer.new pool.old pool.new }
{
    let steps = bases.steps();
    generation_rounds(alloc, task, pricer, pool, generation, steps, watch)?;
    settle(&mut generation.float_program, steps, watch);
    keep_basis(alloc, task.cuts, generation, bases)?;
    hint_of(alloc, task, pool, generation, watch.is_over())
}

/// Looks for a good basis of a node's master at a float program, in floats, from the last one of the nearest
/// node above it that is kept. The pool gets its trees. It is a hint: whatever it is, what the master answers
/// with it is right. A watch that is over ends the column generation, which says so.
///
/// # Errors
///
/// `Memory` where memory runs out; the pricer is still one for the graph then, and the pool has its trees
/// under their numbers, and perhaps further trees of the day.
pub fn generation_basis<W: Watch>(
    alloc: Global,
    task: &NodeTask,
    ending: Ending,
    pricer: &mut Pricer,
    pool: &mut Pool,
    steering: &mut Steering,
    watch: &W,
) -> Result<Hint, Memory>
    requires { MayGenerate task.now pricer.old pool.old }
    ensures { StayTools task.now.day pricer.new pool.old pool.new }
{
    let mut begun = begun_generation(alloc, task, ending, pricer, pool, steering, watch)?;
    let hint = generation_on(
        alloc,
        task,
        pricer,
        pool,
        &mut begun,
        &mut steering.bases,
        watch,
    );
    drop(begun);
    hint
}
