//! A part of a graph.

use model_rosters::Memory;
use std::alloc::Global;

/// An arc of the graph, with the slots of what is below it and the cost of its rule use.
#[derive(Clone, Copy, Drop)]
pub struct HoleArc {
    /// Its number in the graph.
    pub arc: u32,
    /// The slot of its first part.
    pub first: u32,
    /// The slot of what follows that part.
    pub rest: u32,
    /// The cost of its rule, 0 where it is not the whole right side.
    pub cost: f64,
}

/// A node, and the places of its arcs in a part.
#[derive(Clone, Copy, Drop)]
pub struct Row {
    pub node: u32,
    pub begin: u32,
    pub end: u32,
}

/// A part of a graph: nodes, each after those that its arcs use, and their arcs.
#[derive(Drop)]
pub struct Part {
    pub rows: Vec<Row>,
    pub arcs: Vec<HoleArc>,
}

impl Part {
    /// Returns a part without nodes.
    pub fn new(alloc: Global) -> Part {
        Part {
            rows: Vec::new(alloc),
            arcs: Vec::new(alloc),
        }
    }

    /// Returns the arcs of a row.
    pub fn arcs_of(&self, row: &Row) -> &[HoleArc] {
        match self
            .arcs
            .as_slice()
            .get(row.begin as usize..row.end as usize)
        {
            Some(arcs) => arcs,
            None => &[],
        }
    }

    /// Makes it the same as another one. It takes memory where it was never so great before.
    ///
    /// # Errors
    ///
    /// `Memory` where memory runs out.
    pub fn copy_from(&mut self, other: &Part) -> Result<(), Memory> {
        self.rows.clear();
        self.arcs.clear();
        self.rows.extend_from_slice(other.rows.as_slice())?;
        self.arcs.extend_from_slice(other.arcs.as_slice())?;
        Ok(())
    }
}

/// Moves the arc at a place to another place.
fn move_arc(arcs: &mut [HoleArc], from: u32, to: u32) {
    let Some(arc) = arcs.get(from as usize).copied() else {
        return;
    };
    if let Some(own) = arcs.get_mut(to as usize) {
        *own = arc;
    }
}

/// Moves those arcs of a row that are kept to a place and behind it, and returns the place behind them.
fn gather(arcs: &mut [HoleArc], row: Row, keeps: &[bool], begin: u32) -> u32 {
    let mut end = begin;
    for place in row.begin..row.end {
        if keeps.get(place as usize).copied().unwrap_or(false) {
            move_arc(arcs, place, end);
            end = end.saturating_add(1);
        }
    }
    end
}

impl Part {
    /// Keeps the arcs that are marked, by places, and the nodes that have some.
    pub fn keep(&mut self, keeps: &[bool]) {
        let mut end = 0u32;
        let mut count = 0usize;
        for number in 0..self.rows.len() {
            let Some(row) = self.rows.as_slice().get(number).copied() else {
                break;
            };
            let begin = end;
            end = gather(self.arcs.as_mut_slice(), row, keeps, begin);
            if begin < end {
                let node = row.node;
                self.set_row(count, Row { node, begin, end });
                count = count.saturating_add(1);
            }
        }
        self.rows.truncate(count);
        self.arcs.truncate(end as usize);
    }

    /// Sets a row, where there is one.
    fn set_row(&mut self, place: usize, row: Row) {
        if let Some(own) = self.rows.as_mut_slice().get_mut(place) {
            *own = row;
        }
    }
}
