//! Passes, and the tree that they lead to.

use crate::floats::{NONE, at, cost_of, lesser, set_at};
use crate::graph::{HoleGraph, Letter, NOWHERE};
use crate::part::{HoleArc, Part};
use crate::tree::HoleTree;
use model_rosters::{Instance, Memory};
use std::alloc::Global;

/// No tree has more nodes and letters.
const MOST_STEPS: u32 = 2_000;

/// What passes over parts of a graph work on.
#[derive(Drop)]
pub struct Passer {
    /// What one more employee is worth at each cell.
    pub gains: Vec<f64>,
    /// The least sum of a tree at each slot.
    pub sums: Vec<f64>,
    /// The place of the arc of each node that a tree has which is written by them.
    pub choices: Vec<u32>,
    /// The place of the row of each node in the part that was passed over last.
    rows: Vec<u32>,
    /// How many rows that part has.
    passed: usize,
    stack: Vec<u32>,
    /// How many arcs and cells were passed over.
    pub work: u64,
}

/// By what the arcs of a tree are chosen.
#[derive(Clone, Copy, PartialEq, Eq, Drop)]
pub enum Way {
    /// By the sums of the last pass.
    Sums,
    /// As the choices say.
    Choices,
}

/// A cell counts as so many arcs.
const CELL_WORK: u64 = 8;

/// Sets the place that a node chooses.
pub fn choose(choices: &mut [u32], node: u32, place: u32) {
    if let Some(choice) = choices.get_mut(node as usize) {
        *choice = place;
    }
}

/// Returns the sum at an arc.
fn sum_at(sums: &[f64], arc: &HoleArc) -> f64 {
    at(sums, arc.first) + at(sums, arc.rest) + arc.cost
}

/// Returns the least sum at these arcs.
fn least_of(arcs: &[HoleArc], sums: &[f64]) -> f64 {
    let mut least = NONE;
    for arc in arcs {
        least = lesser(least, sum_at(sums, arc));
    }
    least
}

/// Sets the least sums of the nodes of a part.
fn pass_rows(part: &Part, sums: &mut [f64]) {
    for row in part.rows.as_slice() {
        let least = least_of(part.arcs_of(row), sums);
        set_at(sums, row.node, least);
    }
}

/// Sets the places of the rows of the nodes of a part.
fn place_rows(part: &Part, rows: &mut [u32]) {
    let mut place = 0u32;
    for row in part.rows.as_slice() {
        choose(rows, row.node, place);
        place = place.saturating_add(1);
    }
}

/// Sets the sums of the letters by the gains of their cells.
fn set_letters(letters: &[Letter], gains: &[f64], sums: &mut [f64]) {
    for letter in letters {
        let gain = gains.get(letter.cell as usize).copied().unwrap_or(0.0);
        set_at(sums, letter.slot, 0.0 - gain);
    }
}

/// Sets the sums of the letters so that a word alone has trees.
fn set_word(letters: &[Letter], word: &[u8], sums: &mut [f64]) {
    for letter in letters {
        let place = usize::from(letter.period).wrapping_sub(1);
        let sum = match word.get(place) {
            Some(byte) if *byte == letter.byte => 0.0,
            _ => NONE,
        };
        set_at(sums, letter.slot, sum);
    }
}

impl Passer {
    /// Returns what passes over a graph work on.
    ///
    /// # Errors
    ///
    /// `Memory` where memory runs out.
    pub fn new(alloc: Global, instance: &Instance, graph: &HoleGraph) -> Result<Passer, Memory> {
        Ok(Passer {
            gains: vec![in alloc; 0.0; instance.cells.len()]?,
            sums: vec![in alloc; 0.0; graph.slots()]?,
            choices: vec![in alloc; 0u32; graph.nodes as usize]?,
            rows: vec![in alloc; 0u32; graph.nodes as usize]?,
            passed: 0,
            stack: Vec::new(alloc),
            work: 0,
        })
    }

    /// Gets ready for another part: its nodes have rows, and all others no trees.
    fn turn_to(&mut self, graph: &HoleGraph, part: &Part) {
        for sum in self
            .sums
            .as_mut_slice()
            .iter_mut()
            .take(graph.nodes as usize)
        {
            *sum = NONE;
        }
        set_at(self.sums.as_mut_slice(), graph.nodes, 0.0);
        place_rows(part, self.rows.as_mut_slice());
        self.passed = part.rows.len();
    }

    /// Notes the work of a pass over a part.
    fn note_work(&mut self, part: &Part) {
        let cells = (self.gains.len() as u64).saturating_mul(CELL_WORK);
        let work = (part.arcs.len() as u64).saturating_add(cells);
        self.work = self.work.saturating_add(work);
    }

    /// Passes over a part, once the letters have their sums.
    fn run(&mut self, graph: &HoleGraph, part: &Part) {
        self.note_work(part);
        if part.rows.len() != self.passed {
            self.turn_to(graph, part);
        }
        pass_rows(part, self.sums.as_mut_slice());
    }

    /// Returns the place of the arc of a node that has its least sum.
    fn least_place(&self, part: &Part, node: u32) -> Option<u32> {
        let number = self.rows.as_slice().get(node as usize)?;
        let row = part.rows.as_slice().get(*number as usize)?;
        let least = at(self.sums.as_slice(), node);
        let mut place = row.begin;
        for arc in part.arcs_of(row) {
            if sum_at(self.sums.as_slice(), arc) <= least {
                return Some(place);
            }
            place = place.saturating_add(1);
        }
        None
    }

    /// Returns the place of the arc of a node that a tree has.
    fn place_of(&self, graph: &HoleGraph, part: &Part, node: u32, way: Way) -> Option<u32> {
        if way == Way::Choices || graph.is_grouped && node == graph.root {
            self.choices.as_slice().get(node as usize).copied()
        } else {
            self.least_place(part, node)
        }
    }

    /// Passes over a part of a graph at the gains: each node has the least sum of its trees then.
    pub fn pass(&mut self, graph: &HoleGraph, part: &Part) {
        set_letters(
            graph.letters.as_slice(),
            self.gains.as_slice(),
            self.sums.as_mut_slice(),
        );
        self.run(graph, part);
    }

    /// Passes over the graph for the trees of a word.
    pub fn pass_word(&mut self, graph: &HoleGraph, word: &[u8]) {
        set_word(graph.letters.as_slice(), word, self.sums.as_mut_slice());
        self.run(graph, &graph.all);
    }

    /// Returns the least sum of a tree of a team after a pass, and makes its tree the one that is written.
    pub fn lead(&mut self, graph: &HoleGraph, part: &Part, team: usize) -> f64 {
        if !graph.is_grouped {
            return at(self.sums.as_slice(), graph.root);
        }
        let Some(row) = part.rows.as_slice().last() else {
            return NONE;
        };
        if row.node != graph.root {
            return NONE;
        }
        let mut place = row.begin;
        for arc in part.arcs_of(row) {
            if graph.team_of(arc.arc) == team {
                choose(self.choices.as_mut_slice(), graph.root, place);
                return sum_at(self.sums.as_slice(), arc);
            }
            place = place.saturating_add(1);
        }
        NONE
    }

    /// Adds the arc that a node chooses to a tree, and returns its cost.
    fn go_down(
        &mut self,
        graph: &HoleGraph,
        part: &Part,
        node: u32,
        way: Way,
        tree: &mut HoleTree,
    ) -> Result<f64, Memory> {
        let place = self.place_of(graph, part, node, way).unwrap_or(u32::MAX);
        let Some(arc) = part.arcs.as_slice().get(place as usize).copied() else {
            return Ok(0.0);
        };
        tree.arcs.push(arc.arc)?;
        if node == graph.root {
            tree.team = graph.team_of(arc.arc);
        }
        self.stack.push(arc.rest)?;
        self.stack.push(arc.first)?;
        Ok(arc.cost)
    }

    /// Writes the tree that is chosen from the root on.
    ///
    /// # Errors
    ///
    /// `Memory` where memory runs out.
    pub fn write(
        &mut self,
        graph: &HoleGraph,
        part: &Part,
        way: Way,
        tree: &mut HoleTree,
    ) -> Result<(), Memory> {
        tree.blank(graph.periods)?;
        self.stack.clear();
        self.stack.push(graph.root)?;
        let mut cost = 0.0;
        for _ in 0..MOST_STEPS {
            let Some(slot) = self.stack.pop() else {
                break;
            };
            if slot < graph.nodes {
                cost += self.go_down(graph, part, slot, way, tree)?;
            } else {
                spell(graph, slot, tree)?;
            }
        }
        tree.cost = cost_of(cost + 0.5);
        Ok(())
    }
}

/// Adds the letter at a slot to a tree, where there is one.
fn spell(graph: &HoleGraph, slot: u32, tree: &mut HoleTree) -> Result<(), Memory> {
    let Some(letter) = graph.letter_at(slot) else {
        return Ok(());
    };
    let place = usize::from(letter.period).wrapping_sub(1);
    if let Some(byte) = tree.word.as_mut_slice().get_mut(place) {
        *byte = letter.byte;
    }
    if letter.cell != NOWHERE {
        tree.cells.push(letter.cell)?;
    }
    Ok(())
}
