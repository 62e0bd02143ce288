//! The content of a page, and what shows a roster.

ghost use Rattle.std.specs.Prelude.{◌≡◌, ◌≤◌, IfOk, IfSome, length};
ghost use Rattle.std.specs.Option.{option_copied};
ghost use Rattle.check_certificates.specs.certificate_laws.Accepted.{IsStated};
ghost use Rattle.page_text.specs.Costs.{AreDayColumns};
ghost use Rattle.model_rosters.specs.SoundInstance.{IsSoundInstance};
ghost use Rattle.text_reports.specs.Reports.{HasSoundShifts};
ghost use Rattle.page_views.specs.declared.roster.ShownRoster.{ShownRoster as AnyRoster};
ghost use Rattle.page_views.specs.Shown.{IsShown};
ghost use Rattle.page_csv.specs.Coverages as sheets;
ghost use Rattle.page_views.specs.Draw.{
  IsContent,
  IsContentBeside,
  IsOldRoster,
  IsPage,
  IsSoundShown,
  columns_of,
  figures_of,
  money_of,
  words_of,
};
ghost use Rattle.page_rosters.specs.AxisTimes.{axis_times};

use crate::compare::{Comparison, compared};
use crate::derived::derivations;
use crate::kind::Kind;
use crate::roster::ShownRoster;
use crate::rows::{copied, rows_of};
use crate::sums::{Sums, read_texts};
use model_rosters::{CodeDef, Grammar, Instance, List, Memory, Shift};
use page_csv::{calendar_of, coverage_of, table_of};
use page_labels::{Labels, code_words, decimals_of};
use page_parts::Money;
use page_rosters::{axis_times, tables_of};
use page_text::{CellCover, Content, Figures, add_columns, write_page};
use std::alloc::Global;
use text_reports::paid;

// Returns how each cell is covered, where there is a roster.
fn columns_of(
    alloc: Global,
    instance: &Instance,
    roster: &ShownRoster,
) -> Result<List<CellCover>, Memory>
    requires sound { IsSoundInstance instance.now }
    requires shifts { HasSoundShifts instance.now roster.now.shifts }
    ensures { IfOk result (λ columns. columns ≡ columns_of instance.now roster.now roster.now.cost) }
{
    let mut columns = List::new(alloc);
    if let Some(_) = roster.cost {
        let cells = instance.cells.as_slice();
        add_columns(
            &mut columns,
            &instance.grammar,
            roster.shifts.as_slice(),
            cells,
        )?;
    }
    Ok(columns)
}

// Returns what a roster of this cost costs; what is not paid for the shifts is the penalties.
fn roster_figures(instance: &Instance, shifts: &[Shift], cost: u64, bound: Option<u64>) -> Figures
    requires shifts { HasSoundShifts instance.now shifts.now }
    requires stated { IsStated instance.now shifts.now cost }
    ensures { (roster : AnyRoster) → roster.shifts ≡ shifts.now → roster.bound ≡ bound
        → result ≡ figures_of instance.now roster (Some cost) }
{
    let paid = paid(shifts);
    Figures {
        cost: Some(cost),
        bound,
        paid,
        penalty: cost - paid,
    }
}

// Returns what a roster costs, where there is one.
fn figures_of(instance: &Instance, roster: &ShownRoster) -> Figures
    requires shifts { HasSoundShifts instance.now roster.now.shifts }
    requires stated { IfSome roster.now.cost (IsStated instance.now roster.now.shifts) }
    ensures { result ≡ figures_of instance.now roster.now roster.now.cost }
{
    match roster.cost {
        None => Figures {
            cost: None,
            bound: roster.bound,
            paid: 0,
            penalty: 0,
        },
        Some(cost) => roster_figures(instance, roster.shifts.as_slice(), cost, roster.bound),
    }
}

// Returns for each code what it is called, or nothing.
fn words_of(alloc: Global, labels: &Labels, codes: &[CodeDef]) -> Result<List<List<u8>>, Memory>
    requires { length codes.now ≤ 32 }
    ensures { IfOk result (λ words. words ≡ words_of labels.now codes.now) }
{
    let mut words = List::new(alloc);
    for place in 0..codes.len() {
        let text = code_words(labels.codes.as_slice(), place as u8);
        words.push(copied(alloc, text)?)?;
    }
    Ok(words)
}

// What a page shows of the labels alone.
#[derive(Drop)]
struct Labelled {
    title: List<u8>,
    words: List<List<u8>>,
    money: Money,
    times: List<List<u8>>,
}

// Returns what amounts are counted in, and their decimals.
fn money_of(alloc: Global, labels: &Labels) -> Result<Money, Memory>
    ensures { IfOk result (λ money. money ≡ money_of labels.now) }
{
    Ok(Money {
        words: copied(alloc, labels.money.as_slice())?,
        decimals: decimals_of(labels),
    })
}

// Returns what a page shows of the labels alone.
fn labelled_by(alloc: Global, labels: &Labels, grammar: &Grammar) -> Result<Labelled, Memory>
    requires { length grammar.now.codes ≤ 32 }
    ensures title { IfOk result (λ l. l.title ≡ labels.now.title) }
    ensures words { IfOk result (λ l. l.words ≡ words_of labels.now grammar.now.codes) }
    ensures money { IfOk result (λ l. l.money ≡ money_of labels.now) }
    ensures times { IfOk result (λ l. l.times ≡ axis_times labels.now.clock grammar.now.periods) }
{
    Ok(Labelled {
        title: copied(alloc, labels.title.as_slice())?,
        words: words_of(alloc, labels, grammar.codes.as_slice())?,
        money: money_of(alloc, labels)?,
        times: axis_times(alloc, labels.clock, grammar.periods)?,
    })
}

// Returns what the page of a roster shows under labels, where this differs from an old roster and the page is
// made from texts with these sums.
fn content_beside(
    alloc: Global,
    sums: &Sums,
    instance: &Instance,
    labels: &Labels,
    roster: &ShownRoster,
    comparison: &Comparison,
) -> Result<Content, Memory>
    requires sound { IsSoundInstance instance.now }
    requires roster { IsSoundShown instance.now roster.now }
    ensures content { IfOk result
        (IsContentBeside sums.now labels.now instance.now roster.now comparison.now) }
    ensures rows { IfOk result (λ c. length c.rows ≤ 64) }
    ensures texts { IfOk result (λ c. length c.derivations ≤ 64) }
    ensures columns { IfOk result (λ c. AreDayColumns c.columns) }
{
    let rows = rows_of(
        alloc,
        instance,
        labels,
        comparison,
        roster.shifts.as_slice(),
    )?;
    let derivations = derivations(alloc, instance, rows.as_slice())?;
    let columns = columns_of(alloc, instance, roster)?;
    let shifts = roster.shifts.as_slice();
    let tables = tables_of(alloc, instance, labels, shifts, columns.as_slice())?;
    let labelled = labelled_by(alloc, labels, &instance.grammar)?;
    let read = read_texts(alloc, roster.is_stated, sums)?;
    Ok(Content {
        title: labelled.title,
        words: labelled.words,
        money: labelled.money,
        off: labels.off,
        times: labelled.times,
        stated: roster.is_stated,
        figures: figures_of(instance, roster),
        changes: comparison.changes,
        rows,
        derivations,
        columns,
        tables,
        read,
    })
}

// Returns what the page of a roster shows under labels, beside an old roster where there is one.
fn content_of(
    alloc: Global,
    sums: &Sums,
    instance: &Instance,
    labels: &Labels,
    roster: &ShownRoster,
    old: Option<&[Shift]>,
) -> Result<Content, Memory>
    requires sound { IsSoundInstance instance.now }
    requires roster { IsSoundShown instance.now roster.now }
    requires old { IfSome (option_copied old) (IsOldRoster instance.now) }
    ensures content { IfOk result (IsContent sums.now labels.now instance.now roster.now
        (option_copied old.entry)) }
    ensures rows { IfOk result (λ c. length c.rows ≤ 64) }
    ensures texts { IfOk result (λ c. length c.derivations ≤ 64) }
    ensures columns { IfOk result (λ c. AreDayColumns c.columns) }
{
    let periods = instance.grammar.periods;
    let comparison = compared(alloc, periods, old, roster.shifts.as_slice())?;
    content_beside(alloc, sums, instance, labels, roster, &comparison)
}

// Returns the page of a roster under labels, beside an old one where there is one.
fn drawn(
    alloc: Global,
    sums: &Sums,
    instance: &Instance,
    labels: &Labels,
    roster: &ShownRoster,
    old: Option<&[Shift]>,
) -> Result<List<u8>, Memory>
    requires sound { IsSoundInstance instance.now }
    requires roster { IsSoundShown instance.now roster.now }
    requires old { IfSome (option_copied old) (IsOldRoster instance.now) }
    ensures { IfOk result (IsPage sums.now labels.now instance.now roster.now (option_copied old.entry)) }
{
    let content = content_of(alloc, sums, instance, labels, roster, old)?;
    let codes = instance.grammar.codes.as_slice();
    let page = write_page(alloc, instance.grammar.periods, codes, &content);
    drop(content);
    page
}

// Returns the table of how a roster covers each cell, without records where there is no roster.
fn covered(
    alloc: Global,
    instance: &Instance,
    labels: &Labels,
    roster: &ShownRoster,
) -> Result<List<u8>, Memory>
    requires sound { IsSoundInstance instance.now }
    requires shifts { HasSoundShifts instance.now roster.now.shifts }
    ensures { IfOk result (λ text. text ≡ sheets.coverage_of instance.now labels.now
        (columns_of instance.now roster.now roster.now.cost)) }
{
    let columns = columns_of(alloc, instance, roster)?;
    coverage_of(alloc, instance, labels, columns.as_slice())
}

/// Returns what shows a roster under labels. Only a page tells what differs from an old roster.
///
/// # Errors
///
/// `Memory` where memory runs out; nothing is kept then.
pub fn shown(
    alloc: Global,
    kind: Kind,
    instance: &Instance,
    labels: &Labels,
    roster: &ShownRoster,
    old: Option<&[Shift]>,
) -> Result<List<u8>, Memory>
    requires sound { IsSoundInstance instance.now }
    requires roster { IsSoundShown instance.now roster.now }
    requires old { IfSome (option_copied old) (IsOldRoster instance.now) }
    ensures { IfOk result (IsShown kind labels.now instance.now roster.now (option_copied old.entry)) }
{
    match kind {
        Kind::Page(sums) => drawn(alloc, &sums, instance, labels, roster, old),
        Kind::Table => table_of(alloc, instance, labels, roster.shifts.as_slice()),
        Kind::Coverage => covered(alloc, instance, labels, roster),
        Kind::Calendar(events) => {
            let shifts = roster.shifts.as_slice();
            calendar_of(
                alloc,
                instance,
                labels,
                &events.setting,
                events.shift,
                shifts,
            )
        }
    }
}
