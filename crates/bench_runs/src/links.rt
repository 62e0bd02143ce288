//! The graph as lines, for the plain program.

ghost use Rattle.model_rosters.specs.Sound.{IsSound};

use crate::fault::BenchFault;
use crate::pricing::graph_of;
use model_rosters::Grammar;
use std::fmt::{self, Display, Formatter, Write};
use std::io;
use text_rules::read_rules;
use tree_graph::{Graph, Kid};

/// What is below an arc, as a word: a node by its number, a letter as `code.period`, nothing as `-`.
#[derive(Clone, Copy, Drop)]
struct KidWord(Kid);

impl Display for KidWord {
    fn fmt<W: Write>(&self, f: &mut Formatter<W>) -> fmt::Result {
        match self.0 {
            Kid::Nothing => write!(f, "-"),
            Kid::Letter { code, period } => write!(f, "{code}.{period}"),
            Kid::Node(node) => write!(f, "{node}"),
        }
    }
}

/// Prints the graph of the grammar of a rules text, a line an arc.
pub fn print_links(rt: &HostRuntime, text: &[u8]) -> io::Result<()> {
    match read_rules(rt.alloc(), text) {
        Ok(grammar) => print_graph(rt, &grammar),
        Err(fault) => println!(rt; "{:?}", BenchFault::Rules(fault)),
    }
}

/// Prints the graph of a sound grammar.
fn print_graph(rt: &HostRuntime, grammar: &Grammar) -> io::Result<()>
    requires { IsSound grammar.now }
{
    match graph_of(rt.alloc(), grammar) {
        Ok(graph) => {
            let printed = print_arcs(rt, &graph);
            drop(graph);
            printed
        }
        Err(fault) => println!(rt; "{fault:?}"),
    }
}

/// Prints the arcs of a graph, a line an arc.
fn print_arcs(rt: &HostRuntime, graph: &Graph) -> io::Result<()> {
    for place in 0..graph.arcs().len() {
        let arc = graph.arcs()[place];
        let (first, rest) = graph.children(place as u32);
        let made = graph.made_by(place as u32);
        println!(rt;
            "{} {} {made} {} {}",
            arc.rule,
            arc.suffix,
            KidWord(first),
            KidWord(rest)
        )?;
    }
    Ok(())
}
