//! The sentence, the figures and the penalties.

ghost use Rattle.std.specs.Prelude.{◌≡◌, ◌≤◌, ◌+◌, ◌^◌, ◌++◌, ◌∷◌, length, OnOk};
ghost use Rattle.page_parts.specs.Elements as page;
ghost use Rattle.page_parts.specs.Elements.{written};
ghost use Rattle.page_text.specs.Costs.{
  AreDayColumns,
  amount_or_none,
  both_sums,
  bound_of,
  bound_part,
  chip,
  code_cost,
  code_costs,
  costs,
  demanded_cost,
  gap,
  is_demanded,
  is_told,
  no_roster,
  none_allowed,
  none_less,
  penalties,
  saves,
  sentence,
  sentence_over,
  sums,
  told,
  unknown,
  with_penalty,
};

use crate::column::CellCover;
use crate::figures::Figures;
use model_rosters::{CodeDef, List, Memory};
use model_shift_figures::{Saving, saving_at};
use page_parts::{Money, amount, labelled, labelled_amount, labelled_text, marks, paint_of};

// Writes the sentence of what a cheaper roster saves at most, with its share in tenths of a percent.
#[tactic(auto, unfolding(crate::specs::Costs::saves))]
fn saves(out: &mut List<u8>, money: &Money, sum: u64, permille: u64) -> Result<(), Memory>
    ensures { OnOk result (out.new ≡ out.old ++ written (saves money.now sum permille)) }
{
    labelled_amount(out, b"A cheaper roster saves at most ", money, sum)?;
    labelled(out, b" (", permille / 10)?;
    labelled(out, b".", permille % 10)?;
    marks(out, b" %).")
}

// Writes the sentence where nothing is proved of the cost.
#[tactic(auto, unfolding(crate::specs::Costs::unknown))]
fn unknown(out: &mut List<u8>) -> Result<(), Memory>
    ensures { OnOk result (out.new ≡ out.old ++ written unknown) }
{
    marks(out, b"Nothing is proved of the cost.")
}

// Writes the sentence of a roster of least cost.
#[tactic(auto, unfolding(crate::specs::Costs::none_less))]
fn none_less(out: &mut List<u8>) -> Result<(), Memory>
    ensures { OnOk result (out.new ≡ out.old ++ written none_less) }
{
    marks(out, b"No allowed roster costs less.")
}

// Writes the sentence where no roster is allowed.
#[tactic(auto, unfolding(crate::specs::Costs::none_allowed))]
fn none_allowed(out: &mut List<u8>) -> Result<(), Memory>
    ensures { OnOk result (out.new ≡ out.old ++ written none_allowed) }
{
    marks(out, b"No roster is allowed.")
}

// Writes the sentence of what a bound tells.
#[tactic(auto, unfolding(crate::specs::Costs::told))]
fn told(out: &mut List<u8>, money: &Money, saving: Saving) -> Result<(), Memory>
    ensures { OnOk result (out.new ≡ out.old ++ written (told money.now saving)) }
{
    match saving {
        Saving::NoneLess => none_less(out),
        Saving::Unknown => unknown(out),
        Saving::AtMost { amount, permille } => saves(out, money, amount, permille),
    }
}

// Writes the sentence of a roster that costs so much, where this is the bound.
#[tactic(auto, unfolding(crate::specs::Costs::gap))]
fn gap(out: &mut List<u8>, money: &Money, cost: u64, bound: u64) -> Result<(), Memory>
    ensures { OnOk result (out.new ≡ out.old ++ written (gap money.now cost bound)) }
{
    told(out, money, saving_at(cost, bound))
}

// Writes the sentence where there is no roster, but a bound.
#[tactic(auto, unfolding(crate::specs::Costs::no_roster))]
fn no_roster(out: &mut List<u8>, money: &Money, bound: u64) -> Result<(), Memory>
    ensures { OnOk result (out.new ≡ out.old ++ written (no_roster money.now bound)) }
{
    labelled_amount(
        out,
        b"No roster is stated. Each allowed roster costs at least ",
        money,
        bound,
    )?;
    marks(out, b".")
}

// Writes how good the roster is, where there is a bound.
#[tactic(auto, unfolding(crate::specs::Costs::sentence_over))]
fn sentence_over(
    out: &mut List<u8>,
    money: &Money,
    cost: Option<u64>,
    bound: u64,
) -> Result<(), Memory>
    ensures { OnOk result (out.new ≡ out.old ++ written (sentence_over money.now cost bound)) }
{
    match cost {
        None => no_roster(out, money, bound),
        Some(cost) => gap(out, money, cost, bound),
    }
}

/// Appends the sentence of how good the roster is, or of what the bound says where there is none, with
/// amounts that are counted in these words, or bare where there are none.
///
/// # Errors
///
/// `Memory` where memory runs out; a part of it may stand there then.
#[tactic(auto, unfolding(crate::specs::Costs::sentence))]
pub fn sentence(
    out: &mut List<u8>,
    money: &Money,
    cost: Option<u64>,
    bound: Option<u64>,
) -> Result<(), Memory>
    ensures { OnOk result (out.new ≡ out.old ++ written (sentence money.now cost bound)) }
{
    match bound {
        None => none_allowed(out),
        Some(bound) => sentence_over(out, money, cost, bound),
    }
}

// Writes a cost or a bound.
#[tactic(auto, unfolding(crate::specs::Costs::amount_or_none))]
fn amount_or_none(out: &mut List<u8>, money: &Money, value: Option<u64>) -> Result<(), Memory>
    ensures { OnOk result (out.new ≡ out.old ++ written (amount_or_none money.now value)) }
{
    match value {
        Some(value) => amount(out, money, value),
        None => marks(out, b"none"),
    }
}

// Writes marks, and a cost or a bound behind them.
fn labelled_or_none(
    out: &mut List<u8>,
    label: &[u8],
    money: &Money,
    value: Option<u64>,
) -> Result<(), Memory>
    ensures { OnOk result
        (out.new ≡ out.old ++ written (page.marks label.now ∷ amount_or_none money.now value)) }
{
    marks(out, label)?;
    amount_or_none(out, money, value)
}

/// Appends the byte of a code, escaped, in its colour.
///
/// # Errors
///
/// `Memory` where memory runs out; a part of it may stand there then.
#[tactic(auto, unfolding(crate::specs::Costs::chip))]
pub fn chip(out: &mut List<u8>, codes: &[CodeDef], byte: u8) -> Result<(), Memory>
    ensures { OnOk result (out.new ≡ out.old ++ written (chip codes.now byte)) }
{
    marks(out, b"<span class='chip ")?;
    marks(out, &paint_of(codes, byte))?;
    labelled_text(out, b"'>", &[byte])?;
    marks(out, b"</span>")
}

/// Returns whether some column is of the code.
pub fn is_demanded(code: u8, columns: &[CellCover]) -> bool
    ensures { result ≡ is_demanded code columns.now }
{
    columns.iter().any(|column| column.code == code)
}

// A sum with the penalty of a column, where it is of the code.
#[tactic(auto, unfolding(crate::specs::Costs::with_penalty))]
fn with_penalty(code: u8, sum: u64, column: &CellCover) -> u64
    requires sum { sum ≤ 2 ^ 40 }
    requires penalty { column.now.penalty ≤ 1280000 }
    ensures value { result ≡ with_penalty code sum column.now }
    ensures small { result ≤ sum + 1280000 }
{
    if column.code == code {
        sum + column.penalty
    } else {
        sum
    }
}

// The penalties of a code.
fn penalties(code: u8, columns: &[CellCover]) -> u64
    requires { AreDayColumns columns.now }
    ensures { result ≡ penalties code columns.now 0 }
{
    let mut sum: u64 = 0;
    for column in columns {
        sum = with_penalty(code, sum, column);
    }
    sum
}

// Writes the penalties of a code.
#[tactic(auto, unfolding(crate::specs::Costs::demanded_cost))]
fn demanded_cost(
    out: &mut List<u8>,
    money: &Money,
    codes: &[CodeDef],
    columns: &[CellCover],
    place: u8,
    code: &CodeDef,
) -> Result<(), Memory>
    requires { AreDayColumns columns.now }
    ensures { OnOk result
        (out.new ≡ out.old ++ written (demanded_cost money.now codes.now columns.now place code.now)) }
{
    marks(out, b"<div><dt>Penalty for ")?;
    chip(out, codes, code.byte)?;
    labelled_amount(out, b"</dt><dd>", money, penalties(place, columns))?;
    marks(out, b"</dd></div>")
}

// Writes the penalties of a code that is demanded.
#[tactic(auto, unfolding(crate::specs::Costs::code_cost))]
fn code_cost(
    out: &mut List<u8>,
    money: &Money,
    codes: &[CodeDef],
    columns: &[CellCover],
    place: u8,
    code: &CodeDef,
) -> Result<(), Memory>
    requires { AreDayColumns columns.now }
    ensures { OnOk result
        (out.new ≡ out.old ++ written (code_cost money.now codes.now columns.now place code.now)) }
{
    if is_demanded(place, columns) {
        demanded_cost(out, money, codes, columns, place, code)?;
    }
    Ok(())
}

// Writes the penalties of each demanded code.
fn code_costs(
    out: &mut List<u8>,
    money: &Money,
    codes: &[CodeDef],
    columns: &[CellCover],
) -> Result<(), Memory>
    requires codes { length codes.now ≤ 32 }
    requires columns { AreDayColumns columns.now }
    ensures { OnOk result (out.new ≡ out.old ++ written (code_costs money.now codes.now columns.now)) }
{
    let mut place: u8 = 0;
    for code in codes {
        code_cost(out, money, codes, columns, place, code)?;
        place += 1;
    }
    Ok(())
}

// Writes what the shifts and the penalties come to.
#[tactic(auto, unfolding(crate::specs::Costs::both_sums))]
fn both_sums(out: &mut List<u8>, money: &Money, figures: Figures) -> Result<(), Memory>
    ensures { OnOk result (out.new ≡ out.old ++ written (both_sums money.now figures)) }
{
    labelled_amount(
        out,
        b"<div><dt>Paid for shifts</dt><dd>",
        money,
        figures.paid,
    )?;
    labelled_amount(
        out,
        b"</dd></div><div><dt>Penalties</dt><dd>",
        money,
        figures.penalty,
    )?;
    marks(out, b"</dd></div>")
}

// Writes the same, where there is a roster.
#[tactic(auto, unfolding(crate::specs::Costs::sums))]
fn sums(out: &mut List<u8>, money: &Money, figures: Figures) -> Result<(), Memory>
    ensures { OnOk result (out.new ≡ out.old ++ written (sums money.now figures figures.cost)) }
{
    match figures.cost {
        None => Ok(()),
        Some(_) => both_sums(out, money, figures),
    }
}

// Whether something is proved of the cost.
fn is_told(cost: Option<u64>, bound: Option<u64>) -> bool
    ensures { result ≡ is_told cost bound }
{
    let Some(cost) = cost else {
        return true;
    };
    match bound {
        None => true,
        Some(bound) => bound > 0 || cost == 0,
    }
}

// Writes the bound.
#[tactic(auto, unfolding(crate::specs::Costs::bound_of))]
fn bound_of(out: &mut List<u8>, money: &Money, bound: Option<u64>) -> Result<(), Memory>
    ensures { OnOk result (out.new ≡ out.old ++ written (bound_of money.now bound)) }
{
    labelled_or_none(out, b"<div><dt>Bound</dt><dd>", money, bound)?;
    marks(out, b"</dd></div>")
}

// Writes the bound, where something is proved of the cost.
#[tactic(auto, unfolding(crate::specs::Costs::bound_part))]
fn bound_part(
    out: &mut List<u8>,
    money: &Money,
    cost: Option<u64>,
    bound: Option<u64>,
) -> Result<(), Memory>
    ensures { OnOk result (out.new ≡ out.old ++ written (bound_part money.now cost bound)) }
{
    if is_told(cost, bound) {
        bound_of(out, money, bound)?;
    }
    Ok(())
}

/// Appends what the roster costs: its figures, and the penalties of each code that is demanded, with amounts
/// that are counted in these words, or bare where there are none. Where there is no roster, there is no sum,
/// and where nothing is proved of the cost, no bound.
///
/// # Errors
///
/// `Memory` where memory runs out; a part of it may stand there then.
#[tactic(auto, unfolding(crate::specs::Costs::costs))]
pub fn costs(
    out: &mut List<u8>,
    money: &Money,
    codes: &[CodeDef],
    figures: Figures,
    columns: &[CellCover],
) -> Result<(), Memory>
    requires codes { length codes.now ≤ 32 }
    requires columns { AreDayColumns columns.now }
    ensures { OnOk result (out.new ≡ out.old ++ written (costs money.now codes.now figures columns.now)) }
{
    labelled_or_none(
        out,
        b"<dl><div><dt>Total cost</dt><dd>",
        money,
        figures.cost,
    )?;
    marks(out, b"</dd></div>")?;
    bound_part(out, money, figures.cost, figures.bound)?;
    sums(out, money, figures)?;
    code_costs(out, money, codes, columns)?;
    marks(out, b"</dl>\n")
}
