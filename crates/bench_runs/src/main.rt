//! The runs that the programs of bench/ time: the same work again and again, and what it came to.
//!
//! Words: what to do, how often, how many or how wide, a factor, and the name of the file of a demand
//! text. Standard input: a rules text.
//!
//! - `fill` fills the table of all trees of the day, each time with other prices, and `cheapest` makes
//!   one pass over the graph of all parses; both print the last least sum, or `none` where the day has
//!   no tree.
//! - `mults` makes such passes with a price on the arc of each of so many cuts, all prices times the
//!   factor.
//! - `build` builds the graph, and prints how many arcs it has.
//! - `links` prints the graph, a line an arc: its rule and suffix, the node that it makes, and its
//!   first part and what follows that, each a node `n`, a letter `code.period`, or `-`.
//! - `row_step` steps one row of a tableau of so many entries, with the factor in each of them, and
//!   prints a checksum. It reads no text.
//! - `master` solves the master of the root of the day of both texts, each time with no trees at first,
//!   and prints its rows, the trees that were priced out, its value and how many trees have a weight.
//!   It stops before the first time where that is to be done 0 times.
//! - `each` does each of these but `links` in short.
#![tactic(auto)]

mod fault;
mod links;
mod mults;
mod prices;
mod pricing;
mod root;
mod row_steps;

ghost use Rattle.model_rosters.specs.Sound.{IsSound};

use fault::BenchFault;
use links::print_links;
use model_rosters::Grammar;
use mults::last_priced;
use pricing::{built, last_cheapest, last_fill};
use root::{RootEnd, last_root};
use row_steps::row_steps;
use search_masters::NodeEnd;
use std::alloc::Global;
use std::{env, fs, io};
use text_rules::read_rules;

/// What was found.
#[derive(Clone, Copy, Drop)]
enum Found {
    /// The last least sum.
    Sum(Option<i128>),
    /// How many arcs there are.
    Arcs(usize),
}

/// Numbers of a call: how often, how many or how wide, and a factor.
#[derive(Clone, Copy, Drop)]
struct Numbers {
    times: u32,
    count: u16,
    factor: u64,
}

/// What a call asks for.
#[derive(Clone, Copy, Drop)]
struct Call<'a> {
    what: &'a str,
    numbers: Numbers,
    /// The name of the file of a demand text.
    demand: &'a str,
}

/// Passes over the graph of a rules text with a price on the arc of each of so many cuts.
fn priced(alloc: Global, text: &[u8], numbers: Numbers) -> Result<Found, BenchFault> {
    let grammar = read_rules(alloc, text)?;
    let least = last_priced(alloc, grammar, numbers.times, numbers.count, numbers.factor)?;
    Ok(Found::Sum(least))
}

/// Does what the word says for a grammar.
fn for_grammar(
    alloc: Global,
    what: &str,
    grammar: &Grammar,
    times: u32,
) -> Result<Found, BenchFault>
    requires { IsSound grammar.now }
{
    match what {
        "cheapest" => Ok(Found::Sum(last_cheapest(alloc, grammar, times)?)),
        "build" => Ok(Found::Arcs(built(alloc, grammar, times)?)),
        _ => Ok(Found::Sum(last_fill(alloc, grammar, times)?)),
    }
}

/// Does what the word says, for the grammar of a rules text.
fn answer(alloc: Global, what: &str, text: &[u8], numbers: Numbers) -> Result<Found, BenchFault> {
    if what == "mults" {
        return priced(alloc, text, numbers);
    }
    let grammar = read_rules(alloc, text)?;
    let found = for_grammar(alloc, what, &grammar, numbers.times);
    drop(grammar);
    found
}

/// Does what the word says, and prints what was found.
fn print_answer(rt: &HostRuntime, what: &str, text: &[u8], numbers: Numbers) -> io::Result<()> {
    match answer(rt.alloc(), what, text, numbers) {
        Ok(Found::Sum(Some(sum))) => println!(rt; "{sum}"),
        Ok(Found::Sum(None)) => println!(rt; "none"),
        Ok(Found::Arcs(arcs)) => println!(rt; "{arcs}"),
        Err(fault) => println!(rt; "{fault:?}"),
    }
}

/// Steps a row, and prints the checksum.
fn print_row_steps(rt: &HostRuntime, numbers: Numbers) -> io::Result<()> {
    let steps = u64::from(numbers.times);
    let factor = i128::from(numbers.factor);
    let sum = row_steps(rt.alloc(), usize::from(numbers.count), steps, factor)?;
    println!(rt; "{sum}")
}

/// Prints what the master of a root came to.
fn print_end(rt: &HostRuntime, root: &RootEnd) -> io::Result<()> {
    print!(rt; "rows {} trees {} ", root.rows, root.trees)?;
    match &root.end {
        NodeEnd::Best { value, weights, .. } => {
            println!(rt;
                "value {}/{} weights {}",
                value.num(),
                value.den(),
                weights.len()
            )
        }
        NodeEnd::Near { weights, .. } => println!(rt; "near, weights {}", weights.len()),
        NodeEnd::Failed(cause) => println!(rt; "{cause:?}"),
        NodeEnd::Stopped(_) => println!(rt; "stopped"),
    }
}

/// Solves the master of the root of a day so often, and prints what the last came to.
fn print_root(rt: &HostRuntime, rules: &[u8], demand: &str, times: u32) -> io::Result<()> {
    let demand = fs::read(rt, demand)?;
    let last = last_root(rt.alloc(), rules, demand.as_slice(), times);
    drop(demand);
    match last {
        Ok(Some(root)) => {
            let printed = print_end(rt, &root);
            drop(root);
            printed
        }
        Ok(None) => println!(rt; "ready"),
        Err(fault) => println!(rt; "{fault:?}"),
    }
}

/// Does each thing in short.
fn print_each(rt: &HostRuntime, call: Call<'_>, text: &[u8]) -> io::Result<()> {
    for what in ["fill", "cheapest", "mults", "build"] {
        print_answer(rt, what, text, call.numbers)?;
    }
    print_row_steps(rt, call.numbers)?;
    print_root(rt, text, call.demand, call.numbers.times)
}

/// Does what a call asks for with a rules text.
fn print_text(rt: &HostRuntime, call: Call<'_>, text: &[u8]) -> io::Result<()> {
    match call.what {
        "links" => print_links(rt, text),
        "each" => print_each(rt, call, text),
        "master" => print_root(rt, text, call.demand, call.numbers.times),
        what => print_answer(rt, what, text, call.numbers),
    }
}

/// Does what a call asks for.
fn print_call(rt: &HostRuntime, call: Call<'_>) -> io::Result<()> {
    if call.what == "row_step" {
        return print_row_steps(rt, call.numbers);
    }
    let text = io::read_to_string(rt.alloc(), rt.reader())?;
    print_text(rt, call, text.as_bytes())
}

/// Returns the word at a place; the empty one where there is none.
fn word(words: &[String], place: usize) -> &str {
    match words.get(place) {
        Some(word) => word.as_str(),
        None => "",
    }
}

/// Returns the word at a place as a number, or the usual one.
fn number(words: &[String], place: usize, usual: u64) -> u64 {
    word(words, place).parse().unwrap_or(usual)
}

/// Returns the call of the words.
fn call_of(words: &[String]) -> Call<'_> {
    Call {
        what: word(words, 0),
        numbers: Numbers {
            times: number(words, 1, 3).min(u64::from(u32::MAX)) as u32,
            count: number(words, 2, 5).min(u64::from(u16::MAX)) as u16,
            factor: number(words, 3, 6),
        },
        demand: word(words, 4),
    }
}

fn main(rt: HostRuntime) -> io::Result<()> {
    let mut words = Vec::new(rt.alloc());
    for word in env::args(&rt)?.skip(1) {
        words.push(word)?;
    }
    print_call(&rt, call_of(words.as_slice()))
}
