//! The graph by slots.

use crate::floats::short;
use crate::part::{HoleArc, Part, Row};
use model_rosters::{Cell, Group, Instance, Memory, group_arc};
use std::alloc::Global;
use std::num::nearest_i64_to_f64;
use tree_graph::{Graph, Kid};

/// No cell, no arc, no node.
pub const NOWHERE: u32 = 4_294_967_295;

/// How many slots each code has: one for each period from 0 on.
const PERIODS: u8 = 97;

/// A letter of the day.
#[derive(Clone, Copy, Drop)]
pub struct Letter {
    pub byte: u8,
    /// Its period, from 1; letters at period 0 stand nowhere.
    pub period: u8,
    /// The place of its cell, `NOWHERE` where it has none.
    pub cell: u32,
    pub slot: u32,
}

/// A team, and the arc that leads to it; on a day without groups all arcs of the root do.
#[derive(Clone, Copy, Drop)]
pub struct HoleTeam {
    /// The number of its group, 0 on a day without groups.
    pub number: u8,
    pub least: u32,
    pub most: u32,
    pub arc: u32,
}

/// A graph by slots: those of the nodes, that of nothing, and those of the letters.
#[derive(Drop)]
pub struct HoleGraph {
    pub all: Part,
    /// The node of whole days, `NOWHERE` where the day has no tree.
    pub root: u32,
    pub nodes: u32,
    pub letters: Vec<Letter>,
    pub teams: Vec<HoleTeam>,
    pub is_grouped: bool,
    /// How many periods the day has.
    pub periods: u8,
}

/// What holes are made in: a day, and its graph by slots.
#[derive(Clone, Copy, Drop)]
pub struct Site<'a> {
    pub instance: &'a Instance,
    pub graph: &'a HoleGraph,
}

/// Returns the place of the cell of a code and a period.
fn cell_of(cells: &[Cell], code: u8, period: u8) -> u32 {
    for (place, cell) in cells.iter().enumerate() {
        if cell.code == code && cell.period == period {
            return short(place);
        }
    }
    NOWHERE
}

/// Returns the slot of a letter behind so many nodes.
fn letter_slot(nodes: u32, code: u8, period: u8) -> u32 {
    let place = u32::from(code)
        .saturating_mul(u32::from(PERIODS))
        .saturating_add(u32::from(period));
    nodes.saturating_add(1).saturating_add(place)
}

/// Returns the slot of what an arc has below it.
fn slot_of(kid: Kid, nodes: u32) -> u32 {
    match kid {
        Kid::Nothing => nodes,
        Kid::Node(node) => node,
        Kid::Letter { code, period } => letter_slot(nodes, code, period),
    }
}

/// Returns what a use of a rule costs, by its number from 1.
fn rule_cost(instance: &Instance, rule: u8) -> f64 {
    let Some(place) = usize::from(rule).checked_sub(1) else {
        return 0.0;
    };
    match instance.grammar.rules.as_slice().get(place) {
        Some(rule) => nearest_i64_to_f64(i64::from(rule.cost)),
        None => 0.0,
    }
}

/// Returns an arc with its slots and its cost.
fn arc_of(instance: &Instance, graph: &Graph, arc: u32) -> Option<HoleArc> {
    if arc as usize >= graph.arcs().len() {
        return None;
    }
    let (first, rest) = graph.children(arc);
    let key = graph.arcs().get(arc as usize)?;
    let cost = if key.suffix == 0 {
        rule_cost(instance, key.rule)
    } else {
        0.0
    };
    Some(HoleArc {
        arc,
        first: slot_of(first, graph.nodes()),
        rest: slot_of(rest, graph.nodes()),
        cost,
    })
}

/// Adds the row of a node.
///
/// # Errors
///
/// `Memory` where memory runs out.
fn add_row(instance: &Instance, graph: &Graph, node: u32, all: &mut Part) -> Result<(), Memory> {
    if node >= graph.nodes() {
        return Ok(());
    }
    let begin = short(all.arcs.len());
    for &arc in graph.makers(node) {
        if let Some(made) = arc_of(instance, graph, arc) {
            all.arcs.push(made)?;
        }
    }
    let end = short(all.arcs.len());
    all.rows.push(Row { node, begin, end })?;
    Ok(())
}

/// Says whether an arc is the last one that makes its node.
fn is_last(graph: &Graph, node: u32, arc: u32) -> bool {
    if node >= graph.nodes() {
        return false;
    }
    match graph.makers(node).last() {
        Some(last) => *last == arc,
        None => false,
    }
}

/// Adds the rows of all nodes, each after those that its arcs use.
///
/// # Errors
///
/// `Memory` where memory runs out.
fn add_rows(instance: &Instance, graph: &Graph, all: &mut Part) -> Result<(), Memory> {
    all.arcs.reserve(graph.arcs().len())?;
    all.rows.reserve(graph.nodes() as usize)?;
    for place in 0..graph.arcs().len() {
        let arc = place as u32;
        let node = graph.made_by(arc);
        if is_last(graph, node, arc) {
            add_row(instance, graph, node, all)?;
        }
    }
    Ok(())
}

/// Returns the whole graph as a part.
///
/// # Errors
///
/// `Memory` where memory runs out.
fn whole_part(alloc: Global, instance: &Instance, graph: &Graph) -> Result<Part, Memory> {
    let mut all = Part::new(alloc);
    add_rows(instance, graph, &mut all)?;
    Ok(all)
}

/// Returns the letters of all codes, by codes and periods.
///
/// # Errors
///
/// `Memory` where memory runs out.
fn letters_of(alloc: Global, instance: &Instance, nodes: u32) -> Result<Vec<Letter>, Memory> {
    let mut letters = Vec::new(alloc);
    let mut code = 0u8;
    for known in instance.grammar.codes.as_slice() {
        for period in 0..PERIODS {
            letters.push(Letter {
                byte: known.byte,
                period,
                cell: cell_of(instance.cells.as_slice(), code, period),
                slot: letter_slot(nodes, code, period),
            })?;
        }
        code = code.saturating_add(1);
    }
    Ok(letters)
}

/// Returns the one team of a day without groups.
fn only_team(instance: &Instance) -> HoleTeam {
    HoleTeam {
        number: 0,
        least: instance.heads_min,
        most: instance.heads_max,
        arc: NOWHERE,
    }
}

/// Returns the team of a group, by its number from 1.
fn group_team(instance: &Instance, graph: &Graph, number: u8, group: &Group) -> HoleTeam {
    let grammar = &instance.grammar;
    let own = grammar.rules.len().saturating_sub(instance.groups.len());
    let rule = own.saturating_add(usize::from(number)).min(255) as u8;
    HoleTeam {
        number,
        least: group.heads_min,
        most: group.heads_max,
        arc: graph
            .find(&group_arc(grammar.periods, rule))
            .unwrap_or(NOWHERE),
    }
}

/// Returns the teams of a day.
///
/// # Errors
///
/// `Memory` where memory runs out.
fn teams_of(alloc: Global, instance: &Instance, graph: &Graph) -> Result<Vec<HoleTeam>, Memory> {
    let mut teams = Vec::new(alloc);
    let mut number = 0u8;
    for group in instance.groups.as_slice() {
        number = number.saturating_add(1);
        teams.push(group_team(instance, graph, number, group))?;
    }
    if teams.is_empty() {
        teams.push(only_team(instance))?;
    }
    Ok(teams)
}

impl HoleGraph {
    /// Returns the graph of a day.
    ///
    /// # Errors
    ///
    /// `Memory` where memory runs out.
    pub fn of(alloc: Global, instance: &Instance, graph: &Graph) -> Result<HoleGraph, Memory> {
        let nodes = graph.nodes();
        let letters = letters_of(alloc, instance, nodes)?;
        let teams = teams_of(alloc, instance, graph)?;
        let all = whole_part(alloc, instance, graph)?;
        Ok(HoleGraph {
            all,
            root: graph.root().unwrap_or(NOWHERE),
            nodes,
            letters,
            teams,
            is_grouped: !instance.groups.is_empty(),
            periods: instance.grammar.periods,
        })
    }

    /// Returns the place of the team to which an arc of the root leads.
    pub fn team_of(&self, arc: u32) -> usize {
        if self.is_grouped {
            for (place, team) in self.teams.as_slice().iter().enumerate() {
                if team.arc == arc {
                    return place;
                }
            }
        }
        0
    }

    /// Returns how many slots there are.
    pub fn slots(&self) -> usize {
        (self.nodes as usize)
            .saturating_add(1)
            .saturating_add(self.letters.len())
    }

    /// Returns the letter at a slot.
    pub fn letter_at(&self, slot: u32) -> Option<Letter> {
        let place = slot.checked_sub(self.nodes.saturating_add(1))?;
        self.letters.as_slice().get(place as usize).copied()
    }
}
