//! That a chain of splits is one tree.

ghost use Rattle.std.specs.Prelude.{◌≤◌};
ghost use Rattle.model_rosters.specs.SoundInstance.{IsSoundInstance};

use check_certificates::{Cert, Node, is_sound_cert};
use model_rosters::{ArcKey, Instance, List, Memory};
use model_sample_days::{ANY, DayParts, RuleParts, WORK, sound_day};
use std::alloc::Global;
use std::test::Fail;

const ARC: ArcKey = ArcKey {
    rule: 1,
    suffix: 0,
    start: 1,
    len: 1,
    part: 1,
};

const RULES: [RuleParts<'static>; 1] = [(0, 0, &[WORK], ANY)];

/// A day of one period for one employee, without demands.
static ONE_PERIOD: DayParts<'static> = DayParts {
    periods: 1,
    names: &["S"],
    rules: &RULES,
    start: 0,
    heads: (0, 1),
    groups: &[],
    cells: &[],
};

fn push_splits(nodes: &mut List<Node>, count: usize) -> Result<(), Memory> {
    for _ in 0..count {
        nodes.push(Node::Split {
            arc: ARC,
            b: 0,
            prices: None,
        })?;
    }
    Ok(())
}

fn push_leaves(nodes: &mut List<Node>, count: usize) -> Result<(), Memory> {
    for _ in 0..count {
        nodes.push(Node::Bare)?;
    }
    Ok(())
}

/// Splits of which each is the half of few trees of the one before, and bare leaves behind them.
fn chain(alloc: Global, splits: usize, leaves: usize) -> Result<Cert, Memory> {
    let mut nodes = List::new(alloc);
    push_splits(&mut nodes, splits)?;
    push_leaves(&mut nodes, leaves)?;
    Ok(Cert {
        shifts: List::new(alloc),
        cost: None,
        bound: Some(0),
        nodes,
    })
}

/// Whether the chain is sound for a sound day.
fn is_sound(alloc: Global, day: &Instance, splits: usize, leaves: usize) -> Result<bool, Memory>
    requires { IsSoundInstance day.now }
{
    let cert = chain(alloc, splits, leaves)?;
    Ok(is_sound_cert(day, &cert))
}

/// Whether the splits are sound with one leaf more, and not with as many.
fn are_chains(alloc: Global, day: &Instance, splits: usize) -> Result<bool, Memory>
    requires day { IsSoundInstance day.now }
    requires few { splits ≤ 10000 }
{
    Ok(is_sound(alloc, day, splits, splits + 1)? && !is_sound(alloc, day, splits, splits)?)
}

#[test]
fn a_chain_of_ten_thousand_splits(rt: HostRuntime) -> Result<(), Fail> {
    let day = sound_day(rt.alloc(), &ONE_PERIOD)?;
    assert!(rt; are_chains(rt.alloc(), &day, 10_000)?);
    Ok(())
}
