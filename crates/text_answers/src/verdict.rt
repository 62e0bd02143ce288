//! The text of a verdict.

ghost use Rattle.std.specs.Prelude.{◌≡◌, ◌++◌, IfOk, OnOk, codes};
ghost use Rattle.text_answers.specs.VerdictText.{amount, field, arc_fields, group_field, why_line, verdict_text};

use crate::write::write_field;
use check_certificates::{Verdict, Why};
use model_rosters::{ArcKey, List, Memory};
use std::alloc::Global;
use text_lines::put;

/// Returns the text of a verdict: the lines `yes`, `cost X` and `bound X`, where X is a number or `none`, or
/// one line `no` with the number of the cause, its name and its values.
///
/// # Errors
///
/// `Memory` where memory runs out; there is no text then.
pub fn write_verdict(alloc: Global, verdict: &Verdict) -> Result<List<u8>, Memory>
    ensures { IfOk result (λ text. text ≡ verdict_text verdict.now) }
{
    let mut out = List::new(alloc);
    match *verdict {
        Verdict::Yes { cost, bound } => write_yes(&mut out, cost, bound)?,
        Verdict::No(why) => write_why(&mut out, why)?,
    }
    out.push(b'\n')?;
    Ok(out)
}

// Appends the lines of a yes, the last without its end.
fn write_yes(out: &mut List<u8>, cost: Option<u64>, bound: Option<u64>) -> Result<(), Memory>
    ensures { OnOk result (out.new ≡ out.old ++ (codes "yes\ncost" ++ amount cost ++ codes "\nbound"
        ++ amount bound)) }
{
    put(out, b"yes\ncost")?;
    write_amount(out, cost)?;
    put(out, b"\nbound")?;
    write_amount(out, bound)
}

// Appends the line of a cause, without its end.
fn write_why(out: &mut List<u8>, why: Why) -> Result<(), Memory>
    ensures { OnOk result (out.new ≡ out.old ++ why_line why) }
{
    match why {
        Why::NotAShift { shift } => write_number(out, b"no 1 not a shift: shift", u64::from(shift)),
        Why::ShiftCost { shift, said, least } => write_shift_cost(out, shift, said, least),
        Why::WrongHeads { group, count } => write_heads(out, group, count),
        Why::WrongCost { said, found } => write_cost(out, said, found),
        Why::NotAnArc { node } => write_number(out, b"no 5 not an arc: node", u64::from(node)),
        Why::EmptyHalf { node } => write_number(out, b"no 6 empty half: node", u64::from(node)),
        Why::NotPinned { node, arc } => write_loose(out, node, &arc),
        Why::BoundTooHigh { said, shown } => write_bound(out, said, shown),
        Why::Outside { code, period, have } => write_outside(out, code, period, have),
    }
}

// Appends a phrase and a number.
fn write_number(out: &mut List<u8>, phrase: &[u8], number: u64) -> Result<(), Memory>
    ensures { OnOk result (out.new ≡ out.old ++ (phrase.now ++ field number)) }
{
    put(out, phrase)?;
    write_field(out, number)
}

// Appends a cost or a bound after a space.
fn write_amount(out: &mut List<u8>, number: Option<u64>) -> Result<(), Memory>
    ensures { OnOk result (out.new ≡ out.old ++ amount number) }
{
    match number {
        Some(number) => write_field(out, number),
        None => put(out, b" none"),
    }
}

// Appends the cause that a shift has another price.
fn write_shift_cost(out: &mut List<u8>, shift: u32, said: u64, least: u64) -> Result<(), Memory>
    ensures { OnOk result (out.new ≡ out.old ++ why_line (Why.ShiftCost shift said least)) }
{
    write_number(out, b"no 2 shift cost: shift", u64::from(shift))?;
    write_number(out, b" said", said)?;
    write_number(out, b" least", least)
}

// Appends the cause that a team has too few shifts or too many.
fn write_heads(out: &mut List<u8>, group: u8, count: u32) -> Result<(), Memory>
    ensures { OnOk result (out.new ≡ out.old ++ why_line (Why.WrongHeads group count)) }
{
    put(out, b"no 3 wrong heads:")?;
    write_group(out, group)?;
    write_number(out, b" count", u64::from(count))
}

// Appends the number of a group, where there are groups.
fn write_group(out: &mut List<u8>, group: u8) -> Result<(), Memory>
    ensures { OnOk result (out.new ≡ out.old ++ group_field group) }
{
    if group == 0 {
        return Ok(());
    }
    write_number(out, b" group", u64::from(group))
}

// Appends the cause that the roster costs something else.
fn write_cost(out: &mut List<u8>, said: u64, found: u64) -> Result<(), Memory>
    ensures { OnOk result (out.new ≡ out.old ++ why_line (Why.WrongCost said found)) }
{
    write_number(out, b"no 4 wrong cost: said", said)?;
    write_number(out, b" found", found)
}

// Appends the cause that a leaf leaves an arc more than one count.
fn write_loose(out: &mut List<u8>, node: u32, arc: &ArcKey) -> Result<(), Memory>
    ensures { OnOk result (out.new ≡ out.old ++ why_line (Why.NotPinned node arc.now)) }
{
    write_number(out, b"no 7 not pinned: node", u64::from(node))?;
    put(out, b" arc")?;
    write_arc(out, arc)
}

// Appends the five numbers of an arc.
fn write_arc(out: &mut List<u8>, arc: &ArcKey) -> Result<(), Memory>
    ensures { OnOk result (out.new ≡ out.old ++ arc_fields arc.now) }
{
    write_field(out, u64::from(arc.rule))?;
    write_field(out, u64::from(arc.suffix))?;
    write_field(out, u64::from(arc.start))?;
    write_field(out, u64::from(arc.len))?;
    write_field(out, u64::from(arc.part))
}

// Appends the cause that the bound is above what is shown.
fn write_bound(out: &mut List<u8>, said: Option<u64>, shown: Option<u64>) -> Result<(), Memory>
    ensures { OnOk result (out.new ≡ out.old ++ why_line (Why.BoundTooHigh said shown)) }
{
    put(out, b"no 8 bound too high: said")?;
    write_amount(out, said)?;
    put(out, b" shown")?;
    write_amount(out, shown)
}

// Appends the cause that a cell's count is outside its range.
fn write_outside(out: &mut List<u8>, code: u8, period: u8, have: u32) -> Result<(), Memory>
    ensures { OnOk result (out.new ≡ out.old ++ why_line (Why.Outside code period have)) }
{
    put(out, b"no 9 outside floor or ceiling: code ")?;
    out.push(code)?;
    write_number(out, b" period", u64::from(period))?;
    write_number(out, b" have", u64::from(have))
}
