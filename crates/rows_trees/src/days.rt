//! The made day of 7, and what a roster of one period costs at most.
//!
//! The made day of 7, whose needs were computed elsewhere from the generator's rule; what a roster of one
//! period costs at most.

use model_made_days::make_instance;
use model_rosters::{Cell, Grammar, Instance, greatest_cost};
use model_sample_days::{DayParts, ONE_PARTS, sound_day};
use std::test::Fail;

/// The needs of the day of 7, first of `a` and then of `b`.
static NEEDS: [u32; 52] = [
    1, 1, 3, 0, 0, 3, 2, 3, 3, 0, 0, 1, 2, 1, 3, 0, 3, 0, 1, 2, 2, 1, 0, 0, 1, 1, 1, 1, 1, 2, 1, 2,
    2, 0, 1, 1, 0, 1, 2, 1, 2, 2, 2, 0, 2, 2, 0, 2, 0, 2, 2, 2,
];

fn have_needs(cells: &[Cell], needs: &[u32]) -> bool {
    cells
        .iter()
        .zip(needs)
        .all(|(cell, need)| cell.need == *need)
}

/// Whether the day has 26 periods and 15 rules, and one of them costs 17.
fn is_grammar_of_seven(grammar: &Grammar) -> bool {
    grammar.periods == 26
        && grammar.rules.len() == 15
        && grammar.rules.as_slice().iter().any(|rule| rule.cost == 17)
}

/// Whether each cell has its need, and they all cost the same.
fn are_cells_of_seven(cells: &[Cell]) -> bool {
    cells.len() == 52
        && have_needs(cells, &NEEDS)
        && cells.iter().all(|cell| cell.under == 26 && cell.over == 1)
}

fn is_day_of_seven(day: &Instance) -> bool {
    is_grammar_of_seven(&day.grammar)
        && day.heads_min == 0
        && day.heads_max == 10
        && are_cells_of_seven(day.cells.as_slice())
}

#[test]
fn day_of_seven(rt: HostRuntime) -> Result<(), Fail> {
    let day = make_instance(rt.alloc(), 7)?;
    assert!(rt; is_day_of_seven(&day));
    Ok(())
}

/// One period, where each shift has two or three, for one or two employees.
static ONE_DAY: DayParts<'static> = ONE_PARTS;

// Two shifts of at most four rule uses at 2, and one employee who is missing, at 10.
#[test]
fn the_greatest_cost_by_hand(rt: HostRuntime) -> Result<(), Fail> {
    let day = sound_day(rt.alloc(), &ONE_DAY)?;
    assert!(rt; greatest_cost(&day) == 26);
    Ok(())
}
