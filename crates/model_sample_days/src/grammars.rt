//! The rules of the grammars.

use crate::parts::{ANY, REST, RuleParts, WORK};
use model_rosters::{Cell, Sym, Window};

const BLOCK: Sym = Sym::Name(1);

const IDLE: Sym = Sym::Name(2);

const RUN: Sym = Sym::Name(3);

/// The names of [`BLOCKS`].
pub const BLOCK_NAMES: [&str; 4] = ["S", "W", "R", "A"];

/// One block of two or three working periods, which costs 2 and 1 for each period, with rest around it.
pub const BLOCKS: [RuleParts<'static>; 9] = [
    (0, 0, &[BLOCK], ANY),
    (0, 0, &[IDLE, BLOCK], ANY),
    (0, 0, &[BLOCK, IDLE], ANY),
    (0, 0, &[IDLE, BLOCK, IDLE], ANY),
    (1, 2, &[RUN], Window { lo: 2, hi: 3 }),
    (3, 1, &[WORK], ANY),
    (3, 1, &[WORK, RUN], ANY),
    (2, 0, &[REST], ANY),
    (2, 0, &[REST, IDLE], ANY),
];

/// Two of three periods, at 2, for the one name `S`.
pub const PAIRS: [RuleParts<'static>; 3] = [
    (0, 2, &[WORK, WORK, REST], ANY),
    (0, 2, &[REST, WORK, WORK], ANY),
    (0, 2, &[WORK, REST, WORK], ANY),
];

/// Both of two periods, at 5 or by parts at 3, for the names `S` and `A`.
pub const FULL_DAYS: [RuleParts<'static>; 3] = [
    (0, 5, &[WORK, WORK], ANY),
    (0, 3, &[BLOCK, BLOCK], ANY),
    (1, 0, &[WORK], ANY),
];

/// Every day of the letters `a`, at 2, and `.`, at 1, for the one name `S`: each way to cut it in two, again
/// and again, is a tree of its own, and costs 1 for each cut.
pub const HALVED_DAYS: [RuleParts<'static>; 3] = [
    (0, 2, &[WORK], ANY),
    (0, 1, &[REST], ANY),
    (0, 1, &[Sym::Name(0), Sym::Name(0)], ANY),
];

/// Full days at 3 and half days at 1, for the names `S`, `F` and `H` and the added name `*`, whose last
/// rules are those of the groups `F` and `H`.
pub const SPLIT_DAYS: [RuleParts<'static>; 7] = [
    (0, 0, &[Sym::Name(1)], ANY),
    (0, 0, &[Sym::Name(2)], ANY),
    (1, 3, &[WORK, WORK], ANY),
    (2, 1, &[WORK, REST], ANY),
    (2, 1, &[REST, WORK], ANY),
    (3, 0, &[Sym::Name(1)], ANY),
    (3, 0, &[Sym::Name(2)], ANY),
];

/// A cell of the letter `a` in period 1 that needs one employee, at 10 for each that is missing.
pub const CELL: Cell = Cell {
    code: 0,
    period: 1,
    need: 1,
    under: 10,
    over: 0,
    floor: 0,
    ceiling: 64,
};
