//! The types of instances.

use crate::grammar::{ArcKey, Grammar};
use crate::list::List;

/// A work code in one period: how many employees are needed, and what a difference costs.
#[derive(Clone, Copy, Debug, PartialEq, Eq, Drop)]
pub struct Cell {
    /// The position of the code in the grammar's `codes`.
    pub code: u8,
    /// The period, from 1.
    pub period: u8,
    /// How many employees are needed, 0 to 64.
    pub need: u32,
    /// What each missing employee costs, 0 to 10,000.
    pub under: u32,
    /// What each further employee costs, 0 to 10,000.
    pub over: u32,
    /// The least coverage of an allowed roster, 0 to 64.
    pub floor: u32,
    /// The greatest coverage of an allowed roster, 0 to 64. It may be below the floor, and then no
    /// roster is allowed.
    pub ceiling: u32,
}

/// Employees whose words one name derives, and how many of them may work.
#[derive(Clone, Copy, Debug, PartialEq, Eq, Drop)]
pub struct Group {
    /// The position of the name in the grammar's `names`.
    pub name: u8,
    /// The least number of employees, 0 to 64.
    pub heads_min: u32,
    /// The greatest number of employees, 1 to 64.
    pub heads_max: u32,
}

/// A day to be staffed.
#[derive(Debug, PartialEq, Eq, Drop)]
pub struct Instance {
    /// The grammar of the day's words. With groups its last name is the added one, which is the
    /// start, and its last rules lead from there to each group's name in order.
    pub grammar: Grammar,
    /// The least number of employees, 0 to 64; with groups the sum over them.
    pub heads_min: u32,
    /// The greatest number of employees, 1 to 64; with groups the sum over them.
    pub heads_max: u32,
    /// The groups of employees, at most 8; none where all employees have the start name.
    pub groups: List<Group>,
    /// The cells of each demanded code in order of periods, one code after another.
    pub cells: List<Cell>,
}

/// One employee's day.
#[derive(Debug, PartialEq, Eq, Drop)]
pub struct Shift {
    /// The number of the employee's group, from 1, or 0 on a day without groups.
    pub group: u8,
    /// The byte of each period's code.
    pub word: List<u8>,
    /// The least cost of a tree of the word.
    pub price: u64,
}

/// Which half of a split: few trees have the arc, or many do.
#[derive(Clone, Copy, Debug, PartialEq, Eq, Drop)]
pub enum Side {
    /// At most `b` trees have the arc.
    Low,
    /// At least `b + 1` trees have the arc.
    High,
}

/// A bound on how many trees of a roster have an arc.
#[derive(Clone, Copy, Debug, PartialEq, Eq, Drop)]
pub struct Cut {
    pub arc: ArcKey,
    pub side: Side,
    /// The number that the side speaks of.
    pub b: u32,
}

/// The multiplier of a cut.
#[derive(Clone, Copy, Debug, PartialEq, Eq, Drop)]
pub struct Mult {
    /// The number of the cut on its path, from 1.
    pub cut: u32,
    /// The multiplier in units of `1 / d`, 0 to 2^80.
    pub value: i128,
}

/// Prices of cells and multipliers of cuts with one denominator.
#[derive(Debug, PartialEq, Eq, Drop)]
pub struct Prices {
    /// The denominator, 1 to 2^30.
    pub d: u64,
    /// The price of each cell in units of `1 / d`, within plus or minus 2^80.
    pub cell: List<i128>,
    /// The multipliers, by rising numbers of cuts. A cut that is not listed has the multiplier 0.
    pub mult: List<Mult>,
}

/// How a search ended.
#[derive(Clone, Copy, Debug, PartialEq, Eq, Drop)]
pub enum Done {
    /// The roster's cost is the bound.
    Equal,
    /// No roster is allowed.
    NoRoster,
    /// The search used up its turns.
    TurnsOut,
}
