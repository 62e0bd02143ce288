//! The line of a fault.

ghost use Rattle.std.specs.Prelude.{◌≡◌, ◌++◌, ◌*◌, [], ◌∷◌, OnOk, IfOk, codes as text};
ghost use Rattle.plan_faults.specs.Phrases.{said};
ghost use Rattle.plan_forecast.specs.FaultLine.{above_text, cell_text, end_text, fault_line, fault_text, heading_text, line_of, quoted, row_text, title_text, work_text};

use crate::called::suffix;
use crate::fault::{ForecastFault, HeadingFault, RowFault};
use crate::table::Kind;
use model_rosters::{List, Memory};
use plan_cells::CellFault;
use plan_faults::{put_number, say};
use plan_meaning::{Plan, PlanCode};
use plan_words::put_clock;
use std::alloc::Global;
use text_lines::{put, put_place};

// Returns the line that a fault carries.
fn line_of(fault: &ForecastFault) -> Option<u32>
    ensures { result ≡ line_of fault.now }
{
    match fault {
        ForecastFault::Cells { line, .. }
        | ForecastFault::Heading { line, .. }
        | ForecastFault::Row { line, .. } => Some(*line),
        _ => None,
    }
}

// Appends words, or that there are none.
#[tactic(auto, unfolding(crate::specs::FaultLine::quoted))]
fn put_quoted(out: &mut List<u8>, word: &[u8]) -> Result<(), Memory>
    ensures { OnOk result (out.new ≡ out.old ++ quoted word.now) }
{
    if word.len() == 0 {
        put(out, b"nothing")
    } else {
        put(out, word)
    }
}

// Appends what a column asks.
#[tactic(auto, unfolding(crate::specs::FaultLine::title_text))]
fn put_title(out: &mut List<u8>, code: u8, kind: Kind) -> Result<(), Memory>
    ensures { OnOk result (out.new ≡ out.old ++ title_text code kind) }
{
    put(out, &[code])?;
    put(out, suffix(kind))
}

// Appends a code of work behind a space.
fn put_work(out: &mut List<u8>, code: &PlanCode) -> Result<(), Memory>
    ensures { OnOk result (out.new ≡ out.old ++ work_text (code.now ∷ [])) }
{
    if !code.work {
        return Ok(());
    }
    put(out, &[b' ', code.code])
}

// Appends the codes of work, each behind a space.
fn put_works(out: &mut List<u8>, codes: &[PlanCode]) -> Result<(), Memory>
    ensures { OnOk result (out.new ≡ out.old ++ work_text codes.now) }
{
    for code in codes {
        put_work(out, code)?;
    }
    Ok(())
}

// Appends when the day ends.
#[tactic(auto, unfolding(crate::specs::FaultLine::end_text))]
fn put_end(out: &mut List<u8>, minute: u32) -> Result<(), Memory>
    ensures { OnOk result (out.new ≡ out.old ++ end_text minute) }
{
    if minute <= 1440 {
        return put_clock(out, minute as u128);
    }
    put_clock(out, (minute - 1440) as u128)?;
    put(out, b"+1")
}

// Appends a word and why it is refused.
fn put_word(out: &mut List<u8>, word: &[u8], why: &[u8]) -> Result<(), Memory>
    ensures { OnOk result (out.new ≡ out.old ++ (word.now ++ said why.now)) }
{
    put(out, word)?;
    say(out, why)
}

// Appends why a line has no cells.
#[tactic(auto, unfolding(crate::specs::FaultLine::cell_text))]
fn put_cells(out: &mut List<u8>, fault: &CellFault) -> Result<(), Memory>
    ensures { OnOk result (out.new ≡ out.old ++ cell_text fault.now) }
{
    match fault {
        CellFault::NoUtf8 => put(out, b"bytes that are no UTF-8; save the text as UTF-8"),
        CellFault::ControlSign => put(out, b"a control sign"),
        CellFault::Unclosed => put(out, b"a quotation mark that nothing closes"),
        CellFault::Behind { word } => {
            put_word(out, word.as_slice(), b" right behind a quotation mark")
        }
        CellFault::Memory => put(out, b"out of memory"),
    }
}

// Appends the text of what stands where the word `time` stands.
#[tactic(auto, unfolding(crate::specs::FaultLine::heading_text))]
fn put_no_word(out: &mut List<u8>, plan: &Plan, word: &[u8]) -> Result<(), Memory>
    ensures { OnOk result (out.new ≡ out.old ++ heading_text plan.now (HeadingFault.NoTime word.now)) }
{
    put_quoted(out, word)?;
    say(
        out,
        b" where the word time stands: the first line names the columns",
    )
}

// Appends the text of a heading that is no code.
#[tactic(auto, unfolding(crate::specs::FaultLine::heading_text))]
fn put_no_code(out: &mut List<u8>, plan: &Plan, title: &[u8]) -> Result<(), Memory>
    ensures { OnOk result (out.new ≡ out.old ++ heading_text plan.now (HeadingFault.NoCode title.now)) }
{
    say(out, b"column ")?;
    put(out, title)?;
    say(out, b": no code of work; the plan has")?;
    put_works(out, plan.codes.as_slice())
}

// Appends the text of a heading without a need line.
#[tactic(auto, unfolding(crate::specs::FaultLine::heading_text))]
fn put_no_need(out: &mut List<u8>, plan: &Plan, title: &[u8], code: u8) -> Result<(), Memory>
    ensures { OnOk result (out.new ≡ out.old ++ heading_text plan.now (HeadingFault.NoNeed title.now code)) }
{
    say(out, b"column ")?;
    put(out, title)?;
    say(out, b": the plan has no need line of ")?;
    put(out, &[code])
}

// Appends the text of a second heading that asks the same.
#[tactic(auto, unfolding(crate::specs::FaultLine::heading_text))]
fn put_twice(out: &mut List<u8>, plan: &Plan, code: u8, kind: Kind) -> Result<(), Memory>
    ensures { OnOk result (out.new ≡ out.old ++ heading_text plan.now (HeadingFault.Twice code kind)) }
{
    say(out, b"two columns ")?;
    put_title(out, code, kind)?;
    Ok(())
}

// Appends the text of a code without a column.
#[tactic(auto, unfolding(crate::specs::FaultLine::heading_text))]
fn put_no_column(out: &mut List<u8>, plan: &Plan, code: u8) -> Result<(), Memory>
    ensures { OnOk result (out.new ≡ out.old ++ heading_text plan.now (HeadingFault.Missing code)) }
{
    say(out, b"no column ")?;
    put(out, &[code])?;
    say(out, b", which the plan needs")
}

// Appends why the first line is refused.
fn put_heading(out: &mut List<u8>, plan: &Plan, fault: &HeadingFault) -> Result<(), Memory>
    ensures { OnOk result (out.new ≡ out.old ++ heading_text plan.now fault.now) }
{
    match fault {
        HeadingFault::NoTime { word } => put_no_word(out, plan, word.as_slice()),
        HeadingFault::NoCode { title } => put_no_code(out, plan, title.as_slice()),
        HeadingFault::NoNeed { title, code } => put_no_need(out, plan, title.as_slice(), *code),
        HeadingFault::Twice { code, kind } => put_twice(out, plan, *code, *kind),
        HeadingFault::Missing { code } => put_no_column(out, plan, *code),
    }
}

// Appends the text of steps that are no whole periods.
#[tactic(auto, unfolding(crate::specs::FaultLine::row_text))]
fn put_steps(out: &mut List<u8>, step: u32, minutes: u32) -> Result<(), Memory>
    ensures { OnOk result (out.new ≡ out.old ++ row_text (RowFault.Steps step minutes)) }
{
    say(out, b"steps of ")?;
    put_number(out, step as u64)?;
    say(out, b" minutes; the plan's periods have ")?;
    put_number(out, minutes as u64)
}

// Appends the text of a time where another comes.
#[tactic(auto, unfolding(crate::specs::FaultLine::row_text))]
fn put_other(out: &mut List<u8>, word: &[u8], comes: u32, step: u32) -> Result<(), Memory>
    ensures { OnOk result (out.new ≡ out.old ++ row_text (RowFault.Other word.now comes step)) }
{
    put(out, word)?;
    say(out, b" where ")?;
    put_clock(out, comes as u128)?;
    say(out, b" comes, by steps of ")?;
    put_number(out, step as u64)?;
    say(out, b" minutes")
}

// Appends the text of rows that are not the whole day.
#[tactic(auto, unfolding(crate::specs::FaultLine::row_text))]
fn put_count(out: &mut List<u8>, rows: usize, step: u32, day: u32) -> Result<(), Memory>
    ensures { OnOk result (out.new ≡ out.old ++ row_text (RowFault.Count rows step day)) }
{
    put_number(out, rows as u64)?;
    say(out, b" rows of ")?;
    put_number(out, step as u64)?;
    say(out, b" minutes are ")?;
    put_clock(out, rows as u128 * step as u128)?;
    say(out, b" hours; the day has ")?;
    put_clock(out, day as u128)
}

// Appends the text of a first row that is not at the day's begin.
#[tactic(auto, unfolding(crate::specs::FaultLine::row_text))]
fn put_first(out: &mut List<u8>, word: &[u8], begin: u32) -> Result<(), Memory>
    ensures { OnOk result (out.new ≡ out.old ++ row_text (RowFault.First word.now begin)) }
{
    put_word(out, word, b" in the first row; the day begins at ")?;
    put_clock(out, begin as u128)?;
    Ok(())
}

// Appends the text of a row behind the end of the day.
#[tactic(auto, unfolding(crate::specs::FaultLine::row_text))]
fn put_behind(out: &mut List<u8>, word: &[u8], end: u32) -> Result<(), Memory>
    ensures { OnOk result (out.new ≡ out.old ++ row_text (RowFault.Behind word.now end)) }
{
    put_word(out, word, b" is behind the end of the day, ")?;
    put_end(out, end)
}

// Appends the text of a cell that says nothing.
#[tactic(auto, unfolding(crate::specs::FaultLine::row_text))]
fn put_missing(out: &mut List<u8>, minute: u32, code: u8, kind: Kind) -> Result<(), Memory>
    ensures { OnOk result (out.new ≡ out.old ++ row_text (RowFault.NoNumber minute code kind)) }
{
    say(out, b"no number at ")?;
    put_clock(out, minute as u128)?;
    say(out, b" under ")?;
    put_title(out, code, kind)?;
    Ok(())
}

// Appends the text of what stands where a time stands.
#[tactic(auto, unfolding(crate::specs::FaultLine::row_text))]
fn put_no_time(out: &mut List<u8>, word: &[u8]) -> Result<(), Memory>
    ensures { OnOk result (out.new ≡ out.old ++ row_text (RowFault.NoTime word.now)) }
{
    put_quoted(out, word)?;
    say(out, b" where a time stands")
}

// Appends why a row is refused.
#[tactic(auto, unfolding(crate::specs::FaultLine::row_text))]
fn put_row(out: &mut List<u8>, fault: &RowFault) -> Result<(), Memory>
    ensures { OnOk result (out.new ≡ out.old ++ row_text fault.now) }
{
    match fault {
        RowFault::NoTime { word } => put_no_time(out, word.as_slice()),
        RowFault::First { word, begin } => put_first(out, word.as_slice(), *begin),
        RowFault::Steps { step, minutes } => put_steps(out, *step, *minutes),
        RowFault::Behind { word, end } => put_behind(out, word.as_slice(), *end),
        RowFault::Other { word, comes, step } => put_other(out, word.as_slice(), *comes, *step),
        RowFault::NoNumber { minute, code, kind } => put_missing(out, *minute, *code, *kind),
        RowFault::NoHeading { word } => {
            put_word(out, word.as_slice(), b" stands under no heading")
        }
        RowFault::NoWhole { word } => put_word(out, word.as_slice(), b" is no whole number"),
        RowFault::Outside { word } => put_word(out, word.as_slice(), b" is not 0 to 64"),
        RowFault::Count { rows, step, day } => put_count(out, *rows, *step, *day),
    }
}

// Appends that more must be there of a code than may.
fn put_above(out: &mut List<u8>, code: u8, minute: u32, least: u8, most: u8) -> Result<(), Memory>
    ensures { OnOk result (out.new ≡ out.old ++ above_text code minute least most) }
{
    put(out, &[code])?;
    say(out, b" at ")?;
    put_clock(out, minute as u128)?;
    say(out, b": least ")?;
    put_number(out, least as u64)?;
    say(out, b" above most ")?;
    put_number(out, most as u64)
}

// Appends the text of a fault.
#[tactic(auto, unfolding(crate::specs::FaultLine::fault_text))]
fn put_fault(out: &mut List<u8>, plan: &Plan, fault: &ForecastFault) -> Result<(), Memory>
    ensures { OnOk result (out.new ≡ out.old ++ fault_text plan.now fault.now) }
{
    match fault {
        ForecastFault::TooLong => put(out, b"the text is too long"),
        ForecastFault::NoLine => put(out, b"no line"),
        ForecastFault::NoRow => put(out, b"no row behind the first line"),
        ForecastFault::Cells { fault, .. } => put_cells(out, fault),
        ForecastFault::Heading { fault, .. } => put_heading(out, plan, fault),
        ForecastFault::Row { fault, .. } => put_row(out, fault),
        ForecastFault::Above {
            code,
            minute,
            least,
            most,
        } => put_above(out, *code, *minute, *least, *most),
        ForecastFault::Memory => put(out, b"out of memory"),
    }
}

/// Returns the line that tells a fault of a forecast for a plan, as `forecast: line 3: 65 is not 0 to 64`
/// with a line feed. A fault that carries no line has none in the text either.
///
/// # Errors
///
/// `Memory` where memory runs out; there is no line then.
pub fn fault_line(alloc: Global, plan: &Plan, fault: &ForecastFault) -> Result<List<u8>, Memory>
    ensures { IfOk result (λ text. text ≡ fault_line plan.now fault.now) }
{
    let mut out = List::new(alloc);
    put(&mut out, b"forecast: ")?;
    put_place(&mut out, line_of(fault))?;
    put_fault(&mut out, plan, fault)?;
    out.push(b'\n')?;
    Ok(out)
}
