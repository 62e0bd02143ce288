//! The small grammars, with contracts that tie them to `model_sample_days`.
//!
//! The small grammars (one block with rest around it; three words), with contracts that tie them to
//! `model_sample_days`.

ghost use Rattle.std.specs.Prelude.{◌≡◌, IfOk};
ghost use Rattle.model_rosters.specs.Sound.{IsSound};
ghost use Rattle.tree_graph.specs.Graphs.{HasGrammar, IsGraph};
ghost use Rattle.model_sample_days.specs.RestAndWork.{rest_and_work};

use model_rosters::{Grammar, Memory, is_sound};
use model_sample_days::{BLOCK_NAMES, BLOCKS, PAIRS, grammar};
use std::alloc::Global;
use std::test::Fail;
use tree_graph::{Graph, GraphFault};
use tree_pool::normalise;

/// One block of two or three periods of work in a day of four, with rest around it.
pub fn one_block(alloc: Global) -> Result<Grammar, Memory>
    ensures { IfOk result (λ grammar. grammar ≡ rest_and_work) }
{
    grammar(alloc, 4, &BLOCK_NAMES, &BLOCKS, 0)
}

/// Three words of three letters, each at cost 2.
pub fn three_words(alloc: Global) -> Result<Grammar, Memory> {
    grammar(alloc, 3, &["S"], &PAIRS, 0)
}

/// Builds the graph of a sound grammar.
pub fn build(alloc: Global, grammar: &Grammar) -> Result<Graph, GraphFault>
    requires { IsSound grammar.now }
    ensures { IfOk result (IsGraph grammar.now) }
{
    let normal = normalise(alloc, grammar)?;
    Graph::build(alloc, grammar, &normal)
}

/// Returns the graph of a sound grammar.
pub fn graph_of(alloc: Global, grammar: &Grammar) -> Result<Graph, Fail>
    requires { IsSound grammar.now }
    ensures { IfOk result (IsGraph grammar.now) }
{
    match build(alloc, grammar) {
        Ok(graph) => Ok(graph),
        Err(_) => Err(Fail::from("no graph")),
    }
}

/// Returns the graph of a grammar, if it is sound.
pub fn sound_graph(alloc: Global, grammar: &Grammar) -> Result<Graph, Fail>
    ensures { IfOk result HasGrammar }
{
    if is_sound(grammar) {
        return graph_of(alloc, grammar);
    }
    Err(Fail::from("no sound grammar"))
}

/// Returns the graph of three words of three letters.
pub fn words_graph(alloc: Global) -> Result<Graph, Fail>
    ensures { IfOk result HasGrammar }
{
    let grammar = three_words(alloc)?;
    sound_graph(alloc, &grammar)
}

/// Returns the graph of one block.
pub fn block_graph(alloc: Global) -> Result<Graph, Fail>
    ensures { IfOk result HasGrammar }
{
    let grammar = one_block(alloc)?;
    sound_graph(alloc, &grammar)
}
