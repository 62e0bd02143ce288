//! Demands of a shop and of a ward.

ghost use Rattle.std.specs.Prelude.{◌↔◌, All, IsTrue};
ghost use Rattle.model_rosters.specs.Sound.{IsPlain, IsSound};
ghost use Rattle.plan_demand.specs.Demands.{IsSmallNeed};

use crate::demands::{SHOP, SHOP_FORECAST, SHOP_RULES, WARD, WARD_FORECAST, WARD_RULES};
use crate::plans::{is_sound_day, shop, ward};
use model_rosters::{Grammar, Group, List, Memory};
use plan_demand::{is_small_need, plan_draft};
use plan_forecast::read_forecast;
use plan_meaning::Plan;
use std::alloc::Global;
use std::test::Fail;
use text_demand_lines::{Bound, Draft, Need};
use text_lines::{field, put, word};
use text_rules::read_rules;

// Appends the line of a group.
fn put_group(out: &mut List<u8>, grammar: &Grammar, group: &Group) -> Result<(), Memory> {
    put(out, b"group")?;
    if let Some(name) = grammar.names.as_slice().get(group.name as usize) {
        word(out, name.as_slice())?;
    }
    field(out, group.heads_min as u64)?;
    field(out, group.heads_max as u64)?;
    out.push(b'\n')
}

// Appends numbers and the end of the line.
fn put_numbers(out: &mut List<u8>, numbers: &[u32]) -> Result<(), Memory> {
    for number in numbers {
        field(out, *number as u64)?;
    }
    out.push(b'\n')
}

// Appends the letter of a code.
fn put_code(out: &mut List<u8>, grammar: &Grammar, code: u8) -> Result<(), Memory> {
    match grammar.codes.as_slice().get(code as usize) {
        Some(def) => word(out, &[def.byte]),
        None => Ok(()),
    }
}

// Appends the line of a bound of this code, where not all numbers are this one.
fn put_bound(
    out: &mut List<u8>,
    first: &[u8],
    grammar: &Grammar,
    bound: &Bound,
    free: u32,
) -> Result<(), Memory> {
    if bound.counts.as_slice().iter().all(|count| *count == free) {
        return Ok(());
    }
    put(out, first)?;
    put_code(out, grammar, bound.code)?;
    put_numbers(out, bound.counts.as_slice())
}

// Appends the lines of a code's bounds.
fn put_bounds(
    out: &mut List<u8>,
    first: &[u8],
    grammar: &Grammar,
    code: u8,
    bounds: &[Bound],
    free: u32,
) -> Result<(), Memory> {
    for bound in bounds {
        if bound.code == code {
            put_bound(out, first, grammar, bound, free)?;
        }
    }
    Ok(())
}

// Appends the lines of a code.
fn put_need(
    out: &mut List<u8>,
    grammar: &Grammar,
    draft: &Draft,
    need: &Need,
) -> Result<(), Memory> {
    put(out, b"need")?;
    put_code(out, grammar, need.code)?;
    field(out, need.under as u64)?;
    field(out, need.over as u64)?;
    put_numbers(out, need.counts.as_slice())?;
    let least = draft.least.as_slice();
    put_bounds(out, b"least", grammar, need.code, least, 0)?;
    let most = draft.most.as_slice();
    put_bounds(out, b"most", grammar, need.code, most, 64)
}

// Writes what a draft says, as a demand text.
fn text(alloc: Global, grammar: &Grammar, draft: &Draft) -> Result<List<u8>, Memory> {
    let mut out = List::new(alloc);
    if let Some(heads) = draft.heads {
        put(&mut out, b"heads")?;
        field(&mut out, heads.least as u64)?;
        field(&mut out, heads.most as u64)?;
        out.push(b'\n')?;
    }
    for group in draft.groups.as_slice() {
        put_group(&mut out, grammar, group)?;
    }
    for need in draft.needs.as_slice() {
        put_need(&mut out, grammar, draft, need)?;
    }
    Ok(out)
}

// Whether what a period of each need line costs is small.
fn are_small(plan: &Plan) -> bool
    ensures { IsTrue result ↔ All (IsSmallNeed plan.now) plan.now.needs }
{
    plan.needs
        .as_slice()
        .iter()
        .all(|need| is_small_need(plan, need))
}

// Whether a plan and a forecast say this demand for a grammar.
fn says(
    alloc: Global,
    plan: &Plan,
    grammar: &Grammar,
    forecast: &[u8],
    want: &str,
) -> Result<bool, Fail>
    requires sound { IsSound grammar.now }
    requires plain { IsPlain grammar.now }
{
    if !is_sound_day(&plan.day) {
        return Ok(false);
    }
    let Ok(forecast) = read_forecast(alloc, plan, forecast) else {
        return Ok(false);
    };
    if forecast.step == 0 || !are_small(plan) {
        return Ok(false);
    }
    let draft = plan_draft(alloc, grammar, plan, &forecast)?;
    let said = text(alloc, grammar, &draft)?;
    Ok(said.as_slice() == want.as_bytes())
}

#[test]
fn demand_of_a_shop(rt: HostRuntime) -> Result<(), Fail> {
    let plan = shop(rt.alloc())?;
    let grammar = read_rules(rt.alloc(), SHOP_RULES.as_bytes())?;
    let said = says(rt.alloc(), &plan, &grammar, SHOP_FORECAST.as_bytes(), SHOP);
    drop(plan);
    drop(grammar);
    assert!(rt; said?);
    Ok(())
}

#[test]
fn demand_of_a_ward(rt: HostRuntime) -> Result<(), Fail> {
    let plan = ward(rt.alloc())?;
    let grammar = read_rules(rt.alloc(), WARD_RULES.as_bytes())?;
    let said = says(rt.alloc(), &plan, &grammar, WARD_FORECAST.as_bytes(), WARD);
    drop(plan);
    drop(grammar);
    assert!(rt; said?);
    Ok(())
}
