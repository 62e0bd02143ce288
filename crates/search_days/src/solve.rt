//! One function owns the graph, one the pool; `day_curve`, whose points share a graph, takes its parts.

ghost use Rattle.std.specs.Prelude.{ℕ, ◌≡◌, ◌≤◌, [], IfOk, IfErr};
ghost use Rattle.search_branch_price.specs.Tasks.{IsSearchTask};
ghost use Rattle.check_certificates.specs.Sound.{IsSoundCert};
ghost use Rattle.tree_graph.specs.Graphs.{IsGraph, IsRefused};
ghost use Rattle.model_rosters.specs.declared.grammar.Grammar.{Grammar as Rules};
ghost use Rattle.model_rosters.specs.Sound.{IsSound};
ghost use Rattle.model_rosters.specs.SoundInstance.{IsSoundInstance};
ghost use Rattle.lp_master_rows.specs.search_day.Days.{IsDay};
ghost use Rattle.search_days.specs.Solutions.{HasArcCount, IsDaySolved, IsSearched, IsTaskSolved, IsWritten};

use crate::solution::Solution;
use crate::text::cert_text;
use check_certificates::Cert;
use lp_master_rows::Day;
use model_rosters::{Grammar, Instance, Memory};
use search_branch_price::{Found, Master, Pool, SearchTask, Start, Watch, search_from};
use std::alloc::Global;
use tree_graph::{Graph, GraphFault};
use tree_pool::normalise;

// Builds the graph of a day.
fn built(alloc: Global, grammar: &Grammar) -> Result<Graph, GraphFault>
    requires { IsSound grammar.now }
    ensures graph { IfOk result (IsGraph grammar.now) }
    ensures refused { IfErr result (IsRefused grammar.now) }
{
    let normal = normalise(alloc, grammar)?;
    Graph::build(alloc, grammar, &normal)
}

/// Returns the graph of a day.
///
/// # Errors
///
/// `TooManyArcs` exactly where the day has more than 100,000 arcs, with their number, and `Memory` where
/// memory runs out.
pub fn graph_of(alloc: Global, grammar: &Grammar) -> Result<Graph, GraphFault>
    requires { IsSound grammar.now }
    ensures graph { IfOk result (IsGraph grammar.now) }
    ensures few { IfOk result (λ _. (count : ℕ) × HasArcCount grammar.now count) }
    ensures refused { IfErr result (IsRefused grammar.now) }
{
    let graph = built(alloc, grammar)?;
    Ok(graph)
}

/// Returns how many arcs a day has.
fn arc_count(graph: &Graph) -> u32
    ensures { (g : Rules) → IsGraph g graph.now → HasArcCount g result }
{
    graph.arcs().len() as u32
}

/// Returns what was found, within at most 10,000 turns, with the text of its certificate.
///
/// # Errors
///
/// `Memory` where memory runs out; there is none then.
pub fn with_text(alloc: Global, day: &Day, found: Found) -> Result<Solution, Memory>
    requires day { IsDay day.now }
    requires found { IsSearched day.now.instance.now found }
    ensures { IfOk result (IsWritten day.now.instance.now found) }
{
    let proof = cert_text(alloc, day.instance, &found.cert)?;
    Ok(Solution {
        found,
        arcs: arc_count(day.graph),
        proof,
    })
}

/// Searches with a new pool, from an old certificate, and writes the certificate.
fn solved<M: Master, W: Watch>(
    alloc: Global,
    task: &SearchTask,
    master: &mut M,
    watch: &mut W,
) -> Result<Solution, Memory>
    requires { IsSearchTask task.now }
    ensures solution { IfOk result (IsTaskSolved task.now (W.patient watch.old) (M.strict master.old)
        (M.refused master.old) (M.refused master.new)) }
    ensures rises { M.refused master.old ≤ M.refused master.new }
    ensures strict_stays { M.strict master.new ≡ M.strict master.old }
{
    let mut pool = Pool::new(alloc);
    let found = search_from(alloc, task, &mut pool, master, watch);
    drop(pool);
    with_text(alloc, &task.day, found?)
}

/// Searches a sound day for a roster of least cost, with at most so many turns, 1 to 10,000, and writes
/// the certificate.
///
/// What is found is what `search` finds over the graph of the day, with this watch. The text is that of the
/// certificate, and it is read as that certificate; what the certificate states is true.
///
/// # Errors
///
/// `TooManyArcs` exactly where the day has more than 100,000 arcs, with their number, and `Memory` where
/// memory runs out; the master's count may have risen then.
pub fn solve_day<M: Master, W: Watch>(
    alloc: Global,
    instance: &Instance,
    turns: u32,
    master: &mut M,
    watch: &mut W,
) -> Result<Solution, GraphFault>
    requires sound { IsSoundInstance instance.now }
    requires some { 1 ≤ turns }
    requires few { turns ≤ 10000 }
    ensures solution { IfOk result (IsDaySolved instance.now turns [] (W.patient watch.old)
        (M.strict master.old) (M.refused master.old) (M.refused master.new)) }
    ensures refused { IfErr result (IsRefused instance.now.grammar) }
    ensures rises { M.refused master.old ≤ M.refused master.new }
    ensures strict_stays { M.strict master.new ≡ M.strict master.old }
{
    let graph = graph_of(alloc, &instance.grammar)?;
    let task = SearchTask {
        day: Day {
            instance,
            graph: &graph,
        },
        turns,
        start: Start::none(),
    };
    let solution = solved(alloc, &task, master, watch);
    drop(graph);
    Ok(solution?)
}

/// Searches as [`solve_day`] does, from an old certificate, of this day or of another one of its form: its
/// roster is offered first, and its nodes are hints. Where its words are an allowed roster of this day, what
/// is found costs no more than they do here.
///
/// # Errors
///
/// `TooManyArcs` exactly where the day has more than 100,000 arcs, with their number, and `Memory` where
/// memory runs out; the master's count may have risen then.
pub fn solve_day_from<M: Master, W: Watch>(
    alloc: Global,
    instance: &Instance,
    turns: u32,
    old: &Cert,
    master: &mut M,
    watch: &mut W,
) -> Result<Solution, GraphFault>
    requires sound { IsSoundInstance instance.now }
    requires some { 1 ≤ turns }
    requires few { turns ≤ 10000 }
    requires old { IsSoundCert instance.now old.now }
    ensures solution { IfOk result (IsDaySolved instance.now turns old.now.shifts (W.patient watch.old)
        (M.strict master.old) (M.refused master.old) (M.refused master.new)) }
    ensures refused { IfErr result (IsRefused instance.now.grammar) }
    ensures rises { M.refused master.old ≤ M.refused master.new }
    ensures strict_stays { M.strict master.new ≡ M.strict master.old }
{
    let graph = graph_of(alloc, &instance.grammar)?;
    let start = Start {
        shifts: old.shifts.as_slice(),
        nodes: old.nodes.as_slice(),
    };
    let task = SearchTask {
        day: Day {
            instance,
            graph: &graph,
        },
        turns,
        start,
    };
    let solution = solved(alloc, &task, master, watch);
    drop(graph);
    Ok(solution?)
}
