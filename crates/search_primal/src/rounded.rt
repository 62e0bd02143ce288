//! Weights in whole parts, and rosters of them.

ghost use Rattle.std.specs.Prelude.{ℕ, pos, ◌≤◌, ◌<◌, ◌<ℤ◌, All, IfOk, OnOk, length};
ghost use Rattle.model_rosters.specs.SoundInstance.{IsSoundInstance};
ghost use Rattle.tree_pool.specs.Pools.{IsPool};
ghost use Rattle.search_primal.specs.Workspaces.{CanOffer, HasOffered};
ghost use Rattle.search_primal.specs.Rounded.{AreFewer};

use crate::offered::offer_trees;
use lp_fractions::Frac;
use model_rosters::{Instance, List, Memory};
use search_candidates::{Roster, RosterWorkspace};
use search_masters::{Pool, Weight};
use std::alloc::Global;

/// In how many parts a fraction of a weight is told.
const PARTS: u32 = 8;

/// The greatest number of employees.
const MOST_EMPLOYEES: u32 = 64;

/// In how many units a weight is read before it is rounded down: one that lacks a little of a whole number
/// counts as that number.
const UNITS: u32 = 1 << 20;

/// Returns a quotient, rounded toward 0.
fn quotient(n: i128, d: i128) -> i128
    requires { pos 0 <ℤ d }
{
    n / d
}

/// Returns a weight in units of 1 / `parts`, rounded to the nearest.
pub fn in_parts(x: Frac, parts: i128) -> i128 {
    let d = x.den();
    let whole = (x.num() / d).saturating_mul(parts);
    let rest = (x.num() % d).saturating_mul(parts);
    whole.saturating_add(quotient(rest.saturating_add(d / 2), d))
}

/// Returns a weight in units of 2^-20, at most 64.
fn in_units(x: Frac) -> u32
    ensures { result ≤ 67108864 }
{
    in_parts(x, i128::from(UNITS)).clamp(0, i128::from(MOST_EMPLOYEES * UNITS)) as u32
}

/// Returns the whole part of a weight, at most 64.
fn whole(x: Frac) -> u32
    ensures { result ≤ 64 }
{
    in_units(x) / UNITS
}

/// Returns the fraction of a weight in eighths, rounded down.
fn eighths(x: Frac) -> u32
    ensures { result ≤ 7 }
{
    in_units(x) / (UNITS / PARTS) % PARTS
}

/// Adds a column so often, while there are fewer than so many in all.
fn push_while_fewer(
    columns: &mut List<usize>,
    column: usize,
    copies: u32,
    most: usize,
) -> Result<(), Memory>
    ensures { (n : ℕ) → column < n → AreFewer n columns.old → OnOk result (AreFewer n columns.new) }
{
    for _ in 0..copies {
        if columns.len() < most {
            columns.push(column)?;
        }
    }
    Ok(())
}

/// Adds each tree as often as the whole part of its weight says.
///
/// # Errors
///
/// `Memory` where memory runs out; nothing is said of the columns then.
pub(crate) fn push_wholes(
    columns: &mut List<usize>,
    weights: &[Weight],
    most: usize,
) -> Result<(), Memory>
    ensures { (n : ℕ) → All (λ w. w.column < n) weights.now → AreFewer n columns.old
        → OnOk result (AreFewer n columns.new) }
{
    for weight in weights {
        push_while_fewer(columns, weight.column, whole(weight.x), most)?;
    }
    Ok(())
}

/// Adds each tree whose weight has a fraction of so many eighths, once.
fn push_level(
    columns: &mut List<usize>,
    weights: &[Weight],
    level: u32,
    most: usize,
) -> Result<(), Memory>
    ensures { (n : ℕ) → All (λ w. w.column < n) weights.now → AreFewer n columns.old
        → OnOk result (AreFewer n columns.new) }
{
    for weight in weights {
        if eighths(weight.x) == level {
            push_while_fewer(columns, weight.column, 1, most)?;
        }
    }
    Ok(())
}

/// Returns how many employees the weights make together, rounded, within the range of the heads.
fn heads(instance: &Instance, weights: &[Weight]) -> usize
    requires { IsSoundInstance instance.now }
{
    let mut sum = 0u32;
    for weight in weights {
        sum = sum.saturating_add(whole(weight.x) * PARTS + eighths(weight.x));
    }
    let rounded = sum.saturating_add(PARTS / 2) / PARTS;
    rounded.clamp(instance.heads_min, instance.heads_max) as usize
}

/// Returns trees by weights rounded to whole numbers: each as often as the whole part of its weight, and
/// then those with the greatest fractions.
fn rounded(alloc: Global, instance: &Instance, weights: &[Weight]) -> Result<List<usize>, Memory>
    requires { IsSoundInstance instance.now }
    ensures { (n : ℕ) → All (λ w. w.column < n) weights.now → IfOk result (AreFewer n) }
{
    let most = heads(instance, weights);
    let mut columns = List::new(alloc);
    push_wholes(&mut columns, weights, most)?;
    for step in 0..PARTS {
        push_level(&mut columns, weights, PARTS - 1 - step, most)?;
    }
    Ok(columns)
}

/// Offers the roster of the trees of a solution, each as often as its weight rounded to a whole number.
///
/// # Errors
///
/// `Memory` where memory runs out; the best roster is an allowed one still then.
pub fn offer_rounded(
    alloc: Global,
    instance: &Instance,
    weights: &[Weight],
    pool: &Pool,
    rosters: &mut RosterWorkspace,
    best: &mut Option<Roster>,
) -> Result<(), Memory>
    requires pool { IsPool instance.now.grammar pool.now }
    requires weights { All (λ w. w.column < length pool.now) weights.now }
    requires offer { CanOffer instance.now rosters.old best.old }
    ensures { HasOffered instance.now rosters.new best.old best.new }
{
    let columns = rounded(alloc, instance, weights)?;
    offer_trees(alloc, instance, columns.as_slice(), pool, rosters, best)
}
