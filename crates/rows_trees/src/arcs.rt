//! The arcs of a day of one block, in order.

ghost use Rattle.model_rosters.specs.Sound.{IsSound};
ghost use Rattle.tree_span_arcs.specs.DayArcs.{IsDayArcsOf};

use model_rosters::{ArcKey, Grammar};
use model_sample_days::{BLOCK_PARTS, DayParts, sound_day};
use std::alloc::Global;
use std::test::Fail;
use tree_span_arcs::DayArcs;

/// One block of two or three of four periods.
static BLOCK_DAY: DayParts<'static> = BLOCK_PARTS;

/// The arcs of the day of one block, in order.
static ARCS: [(u8, u8, u8, u8, u8); 24] = [
    (2, 0, 1, 4, 1),
    (2, 0, 1, 4, 2),
    (3, 0, 1, 4, 2),
    (3, 0, 1, 4, 3),
    (4, 0, 1, 4, 1),
    (4, 1, 2, 3, 2),
    (5, 0, 1, 2, 2),
    (5, 0, 1, 3, 3),
    (5, 0, 2, 2, 2),
    (5, 0, 2, 3, 3),
    (5, 0, 3, 2, 2),
    (6, 0, 2, 1, 1),
    (6, 0, 3, 1, 1),
    (6, 0, 4, 1, 1),
    (7, 0, 1, 2, 1),
    (7, 0, 1, 3, 1),
    (7, 0, 2, 2, 1),
    (7, 0, 2, 3, 1),
    (7, 0, 3, 2, 1),
    (8, 0, 1, 1, 1),
    (8, 0, 2, 1, 1),
    (8, 0, 4, 1, 1),
    (9, 0, 1, 2, 1),
    (9, 0, 3, 2, 1),
];

fn arc((rule, suffix, start, len, part): (u8, u8, u8, u8, u8)) -> ArcKey {
    ArcKey {
        rule,
        suffix,
        start,
        len,
        part,
    }
}

/// Whether the arcs of the day are told one after another, and no further one.
fn are_in_order(grammar: &Grammar, arcs: &DayArcs) -> bool
    requires sound { IsSound grammar.now }
    requires arcs { IsDayArcsOf grammar.now arcs.now }
{
    let mut last = None;
    for numbers in &ARCS {
        let expected = arc(*numbers);
        if !arcs.has_arc(grammar, &expected) {
            return false;
        }
        let next = arcs.next_arc(grammar, last);
        if next != Some(expected) {
            return false;
        }
        last = next;
    }
    arcs.next_arc(grammar, last).is_none()
}

/// Whether the arcs of a grammar's day are told so.
fn tells_arcs(alloc: Global, grammar: &Grammar) -> Result<bool, Fail>
    requires { IsSound grammar.now }
{
    let arcs = DayArcs::for_instance(alloc, grammar)?;
    Ok(are_in_order(grammar, &arcs))
}

#[test]
fn the_arcs_of_one_block(rt: HostRuntime) -> Result<(), Fail> {
    let day = sound_day(rt.alloc(), &BLOCK_DAY)?;
    assert!(rt; tells_arcs(rt.alloc(), &day.grammar)?);
    Ok(())
}
