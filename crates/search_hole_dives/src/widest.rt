//! The tree whose narrowest arc is widest.

use crate::flow::Flow;
use crate::volume::Volume;
use model_rosters::Memory;
use search_hole_passes::{
    HoleArc, HoleGraph, HoleTree, NEAR, Part, Passer, Way, at, choose, lesser, set_at,
};
use std::alloc::Global;

/// The width of nothing and of a letter.
const OPEN: f64 = 1.0e9;

/// The width of a node without trees.
const SHUT: f64 = -1.0;

/// What it takes to find the tree whose narrowest arc is widest.
#[derive(Drop)]
pub struct Widest {
    widths: Vec<f64>,
    /// The tree that was found last.
    pub tree: HoleTree,
}

/// A width, and the place of the arc that has it.
#[derive(Clone, Copy, Drop)]
struct Width {
    width: f64,
    place: u32,
}

/// Returns how wide the trees of an arc are.
fn width_of(arc: &HoleArc, flow: &Flow, widths: &[f64]) -> f64 {
    let own = flow.at(arc.arc);
    if own <= NEAR {
        return SHUT;
    }
    let below = lesser(at(widths, arc.first), at(widths, arc.rest));
    lesser(own, below)
}

/// Says whether the team to which an arc of the root leads may have a further employee.
fn is_open(graph: &HoleGraph, volume: &Volume, arc: u32) -> bool {
    match volume.teams.as_slice().get(graph.team_of(arc)) {
        Some(team) => team.most > 0,
        None => false,
    }
}

/// Returns the width of a node by its arcs, which stand from a place on.
fn widest_of(
    graph: &HoleGraph,
    arcs: &[HoleArc],
    begin: u32,
    is_root: bool,
    volume: &Volume,
    widths: &[f64],
) -> Width {
    let mut most = Width {
        width: SHUT,
        place: begin,
    };
    let mut place = begin;
    for arc in arcs {
        let width = width_of(arc, &volume.flow, widths);
        if width > most.width && (!is_root || is_open(graph, volume, arc.arc)) {
            most = Width { width, place };
        }
        place = place.saturating_add(1);
    }
    most
}

impl Widest {
    /// Returns what it takes on a graph.
    ///
    /// # Errors
    ///
    /// `Memory` where memory runs out.
    pub fn new(alloc: Global, graph: &HoleGraph) -> Result<Widest, Memory> {
        Ok(Widest {
            widths: vec![in alloc; OPEN; graph.slots()]?,
            tree: HoleTree::new(alloc),
        })
    }

    /// Sets the widths of the nodes of a part, and what they choose.
    fn set_widths(&mut self, graph: &HoleGraph, part: &Part, volume: &Volume, choices: &mut [u32]) {
        let nodes = graph.nodes as usize;
        for width in self.widths.as_mut_slice().iter_mut().take(nodes) {
            *width = SHUT;
        }
        for row in part.rows.as_slice() {
            let is_root = row.node == graph.root;
            let arcs = part.arcs_of(row);
            let found = widest_of(
                graph,
                arcs,
                row.begin,
                is_root,
                volume,
                self.widths.as_slice(),
            );
            set_at(self.widths.as_mut_slice(), row.node, found.width);
            choose(choices, row.node, found.place);
        }
    }

    /// Leaves the widest tree of the mean, and returns its width, which is negative where there is none.
    ///
    /// # Errors
    ///
    /// `Memory` where memory runs out.
    pub fn find(
        &mut self,
        graph: &HoleGraph,
        part: &Part,
        volume: &Volume,
        passer: &mut Passer,
    ) -> Result<f64, Memory> {
        if graph.root >= graph.nodes {
            return Ok(SHUT);
        }
        self.set_widths(graph, part, volume, passer.choices.as_mut_slice());
        let width = at(self.widths.as_slice(), graph.root);
        if width > 0.0 {
            passer.write(graph, part, Way::Choices, &mut self.tree)?;
        }
        Ok(width)
    }
}
