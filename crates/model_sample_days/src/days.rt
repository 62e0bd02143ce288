//! The small days, by name.

ghost use Rattle.std.specs.Prelude.{IfOk};
ghost use Rattle.model_rosters.specs.SoundInstance.{IsSoundInstance};

use crate::grammars::{BLOCK_NAMES, BLOCKS, CELL, HALVED_DAYS, PAIRS, SPLIT_DAYS};
use crate::parts::{DayParts, day};
use model_rosters::{Cell, Group, Instance, List, Memory, is_sound_instance};
use std::alloc::Global;
use std::test::Fail;

const PAIR_CELLS: [Cell; 3] = [CELL, Cell { period: 2, ..CELL }, Cell { period: 3, ..CELL }];

/// Two of three periods at 2, where each period needs one employee.
pub const PAIR_PARTS: DayParts<'static> = DayParts {
    periods: 3,
    names: &["S"],
    rules: &PAIRS,
    start: 0,
    heads: (0, 3),
    groups: &[],
    cells: &PAIR_CELLS,
};

const FLOOR: Cell = Cell { floor: 1, ..CELL };

/// The cells of that day with at least one employee in each period.
pub const FLOOR_CELLS: [Cell; 3] = [
    FLOOR,
    Cell { period: 2, ..FLOOR },
    Cell { period: 3, ..FLOOR },
];

const EXACT: Cell = Cell {
    ceiling: 1,
    ..FLOOR
};

const EXACT_CELLS: [Cell; 3] = [
    EXACT,
    Cell { period: 2, ..EXACT },
    Cell { period: 3, ..EXACT },
];

/// The same with exactly one employee in each period, so that the shifts have three periods in all.
pub const EXACT_PARTS: DayParts<'static> = DayParts {
    cells: &EXACT_CELLS,
    ..PAIR_PARTS
};

/// A cell that needs one employee, at 10 for each that is missing and at 3 for each beyond.
pub const BLOCK: Cell = Cell { over: 3, ..CELL };

const BLOCK_CELLS: [Cell; 4] = [
    BLOCK,
    Cell {
        period: 2,
        need: 2,
        ..BLOCK
    },
    Cell {
        period: 3,
        need: 2,
        ..BLOCK
    },
    Cell { period: 4, ..BLOCK },
];

/// One block of two or three of four periods, where the inner periods need two employees.
pub const BLOCK_PARTS: DayParts<'static> = DayParts {
    periods: 4,
    names: &BLOCK_NAMES,
    rules: &BLOCKS,
    start: 0,
    heads: (0, 2),
    groups: &[],
    cells: &BLOCK_CELLS,
};

const ONE_CELLS: [Cell; 1] = [BLOCK];

/// One period, where each shift has two or three, for one or two employees.
pub const ONE_PARTS: DayParts<'static> = DayParts {
    periods: 1,
    heads: (1, 2),
    cells: &ONE_CELLS,
    ..BLOCK_PARTS
};

/// The first group of [`GROUP_PARTS`].
pub const FULL: Group = Group {
    name: 1,
    heads_min: 0,
    heads_max: 1,
};

/// The second group of [`GROUP_PARTS`].
pub const HALF: Group = Group {
    name: 2,
    heads_min: 1,
    heads_max: 2,
};

const GROUPS: [Group; 2] = [FULL, HALF];

const GROUP_CELLS: [Cell; 2] = [
    Cell {
        need: 2,
        over: 2,
        ..CELL
    },
    Cell {
        period: 2,
        over: 2,
        ..CELL
    },
];

/// Full and half days, of groups of their own.
pub const GROUP_PARTS: DayParts<'static> = DayParts {
    periods: 2,
    names: &["S", "F", "H", "*"],
    rules: &SPLIT_DAYS,
    start: 3,
    heads: (1, 3),
    groups: &GROUPS,
    cells: &GROUP_CELLS,
};

/// Returns a cell of the letter `a` for each of so many periods, at 10 for each employee that is missing. The
/// odd periods need two employees, and the even ones one.
///
/// # Errors
///
/// `Memory` where memory runs out; nothing is kept then.
pub fn long_cells(alloc: Global, periods: u8) -> Result<List<Cell>, Memory> {
    let mut cells = List::new(alloc);
    for place in 0..periods {
        cells.push(Cell {
            period: place + 1,
            need: if place % 2 == 0 { 2 } else { 1 },
            ..CELL
        })?;
    }
    Ok(cells)
}

/// Returns a day of 60 periods on which every word of two letters is a shift, for at most two employees.
///
/// It has 2^60 words, and each word has as many trees as there are ways to cut 60 letters in two again and
/// again, C(118, 59) / 60: 468022714570105222979864805612385715318007175053312 trees, more than 2^168.
pub fn day_of_many_trees<'a>(cells: &'a [Cell]) -> DayParts<'a> {
    DayParts {
        periods: 60,
        names: &["S"],
        rules: &HALVED_DAYS,
        start: 0,
        heads: (0, 2),
        groups: &[],
        cells,
    }
}

/// Returns a sample day, which is sound.
///
/// # Errors
///
/// The test fails where memory runs out, or where the day is not sound.
pub fn sound_day(alloc: Global, parts: &DayParts) -> Result<Instance, Fail>
    ensures { IfOk result IsSoundInstance }
{
    let day = day(alloc, parts)?;
    if is_sound_instance(&day) {
        return Ok(day);
    }
    Err(Fail::from("no sound day"))
}
