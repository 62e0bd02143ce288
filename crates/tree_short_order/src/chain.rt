//! The arcs in an order in which each stands behind those that make what it uses.
//!
//! The arcs with the slots of what is below them, those that make a node side by side, in an order in which
//! each stands behind those that make what it uses.

use model_rosters::{ArcKey, Memory};
use std::alloc::Global;
use tree_graph::{Graph, Kid};

/// How many places the letters of one code have.
const PERIODS: u32 = 256;

/// A letter of the day's words at its period.
#[derive(Clone, Copy, Drop)]
pub(crate) struct Spot {
    /// The position of the code, from 0.
    pub code: u8,
    /// The period, from 1.
    pub period: u8,
}

/// An arc, and the slots of what is below it.
#[derive(Clone, Copy, Drop)]
pub(crate) struct Joint {
    /// The place of the arc in the graph.
    pub arc: u32,
    /// The slot of its first part.
    pub first: u32,
    /// The slot of what follows its first part.
    pub rest: u32,
    /// The number of its rule plus 1 where it is of a whole right side, and else 0.
    pub code: u16,
}

/// Where the arcs stand that make a node.
#[derive(Clone, Copy, Drop)]
pub(crate) struct Row {
    pub begin: usize,
    pub end: usize,
}

/// Arcs, those that make a node side by side, and each behind those that make what it uses.
#[derive(Drop)]
pub(crate) struct Chain {
    pub rows: Vec<Row>,
    pub joints: Vec<Joint>,
}

/// Returns the slot of what is below an arc, where there are so many nodes: the nodes' slots come first, then
/// that of nothing, and then those of the letters, by their codes and periods.
pub(crate) fn slot_of(kid: Kid, nodes: u32) -> u32 {
    match kid {
        Kid::Nothing => nodes,
        Kid::Node(node) => node,
        Kid::Letter { code, period } => letter_slot(Spot { code, period }, nodes),
    }
}

/// Returns the slot of a letter, where there are so many nodes.
pub(crate) fn letter_slot(spot: Spot, nodes: u32) -> u32 {
    let place = u32::from(spot.code)
        .saturating_mul(PERIODS)
        .saturating_add(u32::from(spot.period));
    nodes.saturating_add(1).saturating_add(place)
}

/// Returns 1 plus the number of an arc's rule where it is of a whole right side, and else 0.
pub(crate) fn code_of(key: &ArcKey) -> u16 {
    if key.suffix == 0 {
        u16::from(key.rule).saturating_add(1)
    } else {
        0
    }
}

/// Returns an arc with its slots; `None` where the graph lacks it.
fn joint_of(graph: &Graph, arc: u32) -> Option<Joint> {
    let key = graph.arcs().get(arc as usize)?;
    let (first, rest) = graph.children(arc);
    let nodes = graph.nodes();
    Some(Joint {
        arc,
        first: slot_of(first, nodes),
        rest: slot_of(rest, nodes),
        code: code_of(key),
    })
}

impl Chain {
    /// Returns a chain of no arcs, which has taken the memory for those of a graph.
    ///
    /// # Errors
    ///
    /// `Memory` where memory runs out; nothing is kept then.
    pub fn for_graph(alloc: Global, graph: &Graph) -> Result<Chain, Memory> {
        let rows = Vec::with_capacity(alloc, graph.nodes() as usize)?;
        let joints = Vec::with_capacity(alloc, graph.arcs().len())?;
        Ok(Chain { rows, joints })
    }

    /// Takes all arcs out.
    pub fn clear(&mut self) {
        self.rows.clear();
        self.joints.clear();
    }

    /// Makes a row of the arcs that stand from a place on, where there are some.
    ///
    /// # Errors
    ///
    /// `Memory` where memory runs out, which it does not where the chain is for the graph; no row is added
    /// then.
    pub fn end_row(&mut self, begin: usize) -> Result<(), Memory> {
        let end = self.joints.len();
        if begin < end {
            self.rows.push(Row { begin, end })?;
        }
        Ok(())
    }

    /// Adds an arc to the row that is being made.
    ///
    /// # Errors
    ///
    /// `Memory` where memory runs out, which it does not where the chain is for the graph; the arc is not
    /// added then.
    pub fn push(&mut self, joint: Joint) -> Result<(), Memory> {
        self.joints.push(joint)?;
        Ok(())
    }

    /// Adds the row of a node.
    fn add_node(&mut self, graph: &Graph, node: u32) -> Result<(), Memory> {
        if node >= graph.nodes() {
            return Ok(());
        }
        let begin = self.joints.len();
        for &arc in graph.makers(node) {
            if let Some(joint) = joint_of(graph, arc) {
                self.push(joint)?;
            }
        }
        self.end_row(begin)
    }

    /// Adds the row of the node that an arc makes, where it is the last arc that makes it.
    fn add_last(&mut self, graph: &Graph, arc: u32) -> Result<(), Memory> {
        if (arc as usize) >= graph.arcs().len() {
            return Ok(());
        }
        let node = graph.made_by(arc);
        if node < graph.nodes() && graph.makers(node).last() == Some(&arc) {
            return self.add_node(graph, node);
        }
        Ok(())
    }

    /// Adds all arcs of a graph: each node's row stands where the last arc is reached that makes it, since an
    /// arc stands after all that make what it uses.
    ///
    /// # Errors
    ///
    /// `Memory` where memory runs out, which it does not where the chain is for the graph; some arcs are
    /// missing then.
    pub fn fill(&mut self, graph: &Graph) -> Result<(), Memory> {
        for place in 0..graph.arcs().len() {
            self.add_last(graph, place as u32)?;
        }
        Ok(())
    }

    /// Returns the arcs of a row.
    pub fn row(&self, row: Row) -> &[Joint] {
        self.joints.get(row.begin..row.end).unwrap_or(&[])
    }
}

/// Adds a letter to a list, where it lacks it.
fn list_letter(kid: Kid, seen: &mut Vec<bool>, spots: &mut Vec<Spot>) -> Result<(), Memory> {
    if let Kid::Letter { code, period } = kid {
        let spot = Spot { code, period };
        let place = letter_slot(spot, 0) as usize;
        if let Some(known) = seen.get_mut(place) {
            if !*known {
                *known = true;
                spots.push(spot)?;
            }
        }
    }
    Ok(())
}

/// Returns the letters that the arcs of a graph use, each once.
///
/// # Errors
///
/// `Memory` where memory runs out; nothing is kept then.
pub(crate) fn letters_of(alloc: Global, graph: &Graph) -> Result<Vec<Spot>, Memory> {
    let most = PERIODS.saturating_mul(PERIODS).saturating_add(1);
    let mut seen = vec![in alloc; false; most as usize]?;
    let mut spots = Vec::new(alloc);
    for place in 0..graph.arcs().len() {
        let (first, rest) = graph.children(place as u32);
        list_letter(first, &mut seen, &mut spots)?;
        list_letter(rest, &mut seen, &mut spots)?;
    }
    Ok(spots)
}

/// Returns how many slots there are, where there are so many nodes and these letters.
pub(crate) fn slots_of(nodes: u32, letters: &[Spot]) -> usize {
    let mut most = nodes;
    for spot in letters {
        most = most.max(letter_slot(*spot, nodes));
    }
    (most as usize).saturating_add(1)
}
