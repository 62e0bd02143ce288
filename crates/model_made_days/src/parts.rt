//! The parts of the day's grammar.

ghost use Rattle.std.specs.Prelude.{◌≡◌, IfOk, map, [], ◌∷◌};
ghost use Rattle.model_made_days.specs.Built.{rule_of};
ghost use Rattle.model_made_days.specs.Made.{made_codes, made_grammar};

use model_rosters::{CodeDef, Grammar, List, Memory, Rule, Sym, Window};
use std::alloc::Global;

/// The position of the work code `a`.
pub(crate) const FIRST_WORK: u8 = 0;

/// The position of the work code `b`.
pub(crate) const SECOND_WORK: u8 = 1;

const REST: Sym = Sym::Code(2);

const BREAK: Sym = Sym::Code(3);

const MEAL_PART: Sym = Sym::Code(4);

/// The codes by their bytes.
const CODES: [CodeDef; 5] = [
    CodeDef {
        byte: b'a',
        work: true,
    },
    CodeDef {
        byte: b'b',
        work: true,
    },
    CodeDef {
        byte: b'.',
        work: false,
    },
    CodeDef {
        byte: b'p',
        work: false,
    },
    CodeDef {
        byte: b'm',
        work: false,
    },
];

/// The names, each of one letter.
const LETTERS: [u8; 7] = [b'S', b'D', b'O', b'B', b'L', b'X', b'Y'];

const SHIFT: u8 = 0;

const DUTY: u8 = 1;

const OFF: u8 = 2;

const BLOCK: u8 = 3;

const MEAL: u8 = 4;

const FIRST_RUN: u8 = 5;

const SECOND_RUN: u8 = 6;

/// Every length and every period of the longest day.
const ANY: Window = Window { lo: 1, hi: 96 };

/// How many periods an employee is on duty.
const DUTY_LENGTHS: Window = Window { lo: 8, hi: 16 };

/// How long an employee works at one thing.
const BLOCK_LENGTHS: Window = Window { lo: 2, hi: 8 };

/// When the meal begins.
const MEAL_BEGINS: Window = Window { lo: 9, hi: 14 };

/// A rule of the day; its cost is the day's where it has none of its own.
#[derive(Clone, Copy, Drop)]
pub(crate) struct RuleParts<'a> {
    left: u8,
    cost: Option<u32>,
    right: &'a [Sym],
    lengths: Window,
    begins: Window,
}

const RULES: [RuleParts<'static>; 15] = [
    RuleParts {
        left: SHIFT,
        cost: Some(0),
        right: &[Sym::Name(DUTY)],
        lengths: ANY,
        begins: ANY,
    },
    RuleParts {
        left: SHIFT,
        cost: Some(0),
        right: &[Sym::Name(OFF), Sym::Name(DUTY)],
        lengths: ANY,
        begins: ANY,
    },
    RuleParts {
        left: SHIFT,
        cost: Some(0),
        right: &[Sym::Name(DUTY), Sym::Name(OFF)],
        lengths: ANY,
        begins: ANY,
    },
    RuleParts {
        left: SHIFT,
        cost: Some(0),
        right: &[Sym::Name(OFF), Sym::Name(DUTY), Sym::Name(OFF)],
        lengths: ANY,
        begins: ANY,
    },
    RuleParts {
        left: DUTY,
        cost: None,
        right: &[
            Sym::Name(BLOCK),
            Sym::Name(MEAL),
            Sym::Name(BLOCK),
            BREAK,
            Sym::Name(BLOCK),
        ],
        lengths: DUTY_LENGTHS,
        begins: ANY,
    },
    RuleParts {
        left: DUTY,
        cost: None,
        right: &[
            Sym::Name(BLOCK),
            BREAK,
            Sym::Name(BLOCK),
            Sym::Name(MEAL),
            Sym::Name(BLOCK),
        ],
        lengths: DUTY_LENGTHS,
        begins: ANY,
    },
    RuleParts {
        left: BLOCK,
        cost: Some(0),
        right: &[Sym::Name(FIRST_RUN)],
        lengths: BLOCK_LENGTHS,
        begins: ANY,
    },
    RuleParts {
        left: BLOCK,
        cost: Some(0),
        right: &[Sym::Name(SECOND_RUN)],
        lengths: BLOCK_LENGTHS,
        begins: ANY,
    },
    RuleParts {
        left: FIRST_RUN,
        cost: Some(1),
        right: &[Sym::Code(FIRST_WORK)],
        lengths: ANY,
        begins: ANY,
    },
    RuleParts {
        left: FIRST_RUN,
        cost: Some(1),
        right: &[Sym::Code(FIRST_WORK), Sym::Name(FIRST_RUN)],
        lengths: ANY,
        begins: ANY,
    },
    RuleParts {
        left: SECOND_RUN,
        cost: Some(1),
        right: &[Sym::Code(SECOND_WORK)],
        lengths: ANY,
        begins: ANY,
    },
    RuleParts {
        left: SECOND_RUN,
        cost: Some(1),
        right: &[Sym::Code(SECOND_WORK), Sym::Name(SECOND_RUN)],
        lengths: ANY,
        begins: ANY,
    },
    RuleParts {
        left: MEAL,
        cost: Some(0),
        right: &[MEAL_PART, MEAL_PART],
        lengths: ANY,
        begins: MEAL_BEGINS,
    },
    RuleParts {
        left: OFF,
        cost: Some(0),
        right: &[REST],
        lengths: ANY,
        begins: ANY,
    },
    RuleParts {
        left: OFF,
        cost: Some(0),
        right: &[REST, Sym::Name(OFF)],
        lengths: ANY,
        begins: ANY,
    },
];

/// Returns the day's codes.
fn codes(alloc: Global) -> Result<List<CodeDef>, Memory>
    ensures { IfOk result (λ l. l ≡ made_codes) }
{
    let mut codes = List::new(alloc);
    codes.extend_from_slice(&CODES)?;
    Ok(codes)
}

/// Returns the name of one letter.
fn name(alloc: Global, letter: u8) -> Result<List<u8>, Memory>
    ensures { IfOk result (λ l. l ≡ letter ∷ []) }
{
    let mut name = List::new(alloc);
    name.push(letter)?;
    Ok(name)
}

/// Returns the names of one letter each.
fn names(alloc: Global, letters: &[u8]) -> Result<List<List<u8>>, Memory>
    ensures { IfOk result (λ l. l ≡ map (λ b. b ∷ []) letters.now) }
{
    let mut names = List::new(alloc);
    for letter in letters {
        names.push(name(alloc, *letter)?)?;
    }
    Ok(names)
}

/// Returns a right side of these symbols.
fn right(alloc: Global, symbols: &[Sym]) -> Result<List<Sym>, Memory>
    ensures { IfOk result (λ l. l ≡ symbols.now) }
{
    let mut right = List::new(alloc);
    right.extend_from_slice(symbols)?;
    Ok(right)
}

/// Returns the rules of these parts, with this cost where a part has none of its own.
fn rules(alloc: Global, parts: &[RuleParts], cost: u32) -> Result<List<Rule>, Memory>
    ensures { IfOk result (λ l. l ≡ map (rule_of cost) parts.now) }
{
    let mut rules = List::new(alloc);
    for part in parts {
        rules.push(Rule {
            left: part.left,
            cost: part.cost.unwrap_or(cost),
            right: right(alloc, part.right)?,
            span: part.lengths,
            first: part.begins,
            last: ANY,
        })?;
    }
    Ok(rules)
}

/// Returns the grammar of a day of so many periods, where a stretch of duty has this cost.
///
/// # Errors
///
/// `Memory` where memory runs out; nothing is kept then.
pub(crate) fn grammar(alloc: Global, periods: u8, cost: u32) -> Result<Grammar, Memory>
    ensures { IfOk result (λ g. g ≡ made_grammar periods cost) }
{
    Ok(Grammar {
        periods,
        codes: codes(alloc)?,
        names: names(alloc, &LETTERS)?,
        rules: rules(alloc, &RULES, cost)?,
        start: SHIFT,
    })
}
