//! The whole page.

ghost use Rattle.std.specs.Prelude.{◌≡◌, ◌≤◌, ◌++◌, codes as text, length, IfOk, OnOk};
ghost use Rattle.page_text.specs.Costs.{AreDayColumns};
ghost use Rattle.page_parts.specs.Elements.{written};
ghost use Rattle.page_text.specs.Pages.{
  all_show,
  behind_line,
  before_title,
  body,
  chart,
  chart_body,
  chart_head,
  charts,
  chart_legend,
  check_command,
  coverage,
  coverage_part,
  derivation,
  derivations,
  derivations_part,
  foot,
  foot_part,
  head,
  heading,
  height_of,
  legend,
  legend_item,
  lines_at,
  page,
  price_head,
  read_line,
  read_lines,
  shifts,
  shifts_part,
  shows,
  size,
  title_of,
  titled_derivations,
  top_part,
  word_lines,
  words_at,
  work_word,
};

use crate::CellCover;
use crate::changes::changes_part;
use crate::chart::{frame, in_words, inked, lines, top_count, unit_of};
use crate::content::{Content, ReadText};
use crate::costs::{chip, costs, is_demanded, sentence};
use crate::ink::Ink;
use crate::roster_chart::{row_words, rows, ticks};
use crate::row::{Row, longest};
use crate::style::style;
use model_rosters::{CodeDef, List, Memory};
use page_parts::{
    Money, PeriodAxis, axis_of, caption, chart_width, given, labelled, labelled_amount,
    labelled_text, marks, units,
};
use page_tables::add_tables;
use std::alloc::Global;

// Writes the size of a chart.
#[tactic(auto, unfolding(crate::specs::Pages::size))]
fn size(out: &mut List<u8>, width: u64, height: u64) -> Result<(), Memory>
    ensures { OnOk result (out.new ≡ out.old ++ written (size width height)) }
{
    labelled(out, b"' viewBox='0 0 ", width)?;
    labelled(out, b" ", height)?;
    labelled(out, b"' width='", width)?;
    labelled(out, b"' height='", height)?;
    marks(out, b"'>\n")
}

// What a code of the legend means.
#[tactic(auto, unfolding(crate::specs::Pages::work_word))]
fn work_word(work: bool) -> &'static [u8]
    ensures { result.now ≡ work_word work }
{
    if work { b"work</li>" } else { b"no work</li>" }
}

// Returns what the code at a place is called, or nothing.
fn words_at(words: &[List<u8>], place: u8) -> &[u8]
    ensures { result.now ≡ words_at words.now place }
{
    match words.get(place as usize) {
        None => b"",
        Some(text) => text.as_slice(),
    }
}

// Writes a code of the legend.
#[tactic(auto, unfolding(crate::specs::Pages::legend_item))]
fn legend_item(
    out: &mut List<u8>,
    codes: &[CodeDef],
    words: &[List<u8>],
    place: u8,
    code: &CodeDef,
) -> Result<(), Memory>
    ensures { OnOk result
        (out.new ≡ out.old ++ written (legend_item codes.now words.now place code.now)) }
{
    marks(out, b"<li>")?;
    chip(out, codes, code.byte)?;
    labelled_text(out, b"<span>", words_at(words, place))?;
    marks(out, b"</span>")?;
    marks(out, work_word(code.work))
}

// Writes the codes of the legend.
fn legend(out: &mut List<u8>, codes: &[CodeDef], words: &[List<u8>]) -> Result<(), Memory>
    requires { length codes.now ≤ 32 }
    ensures { OnOk result (out.new ≡ out.old ++ written (legend codes.now words.now)) }
{
    let mut place: u8 = 0;
    for code in codes {
        legend_item(out, codes, words, place, code)?;
        place += 1;
    }
    Ok(())
}

// Writes the word over the prices.
#[tactic(auto, unfolding(crate::specs::Pages::price_head))]
fn price_head(out: &mut List<u8>, sheet: PeriodAxis) -> Result<(), Memory>
    ensures { OnOk result (out.new ≡ out.old ++ written (price_head sheet)) }
{
    let left = chart_width(sheet).saturating_sub(14);
    caption(out, b"mark", left, 20, b"price")
}

// How high the chart of so many rows is.
#[tactic(auto, unfolding(crate::specs::Pages::height_of))]
fn height_of(rows: usize) -> u64
    requires { rows ≤ 64 }
    ensures { result ≡ height_of rows }
{
    40 + 26 * rows as u64
}

// What stands between the legend and the size of the chart of the shifts.
fn roster_start() -> &'static [u8]
    ensures { result.now
        ≡ text "</ul>\n<div class='scroll'><svg class='roster' role='group' aria-label='Shifts of the roster, one row a shift" }
{
    b"</ul>\n<div class='scroll'><svg class='roster' role='group' aria-label='Shifts of the roster, one row a shift"
}

// What stands behind the rows.
fn roster_end() -> &'static [u8]
    ensures { result.now
        ≡ text "</svg></div>\n<p class='hint'>Point at a shift, or go to it with the Tab key, and see how the rules derive it.</p></section>\n" }
{
    b"</svg></div>\n<p class='hint'>Point at a shift, or go to it with the Tab key, and see how the rules derive it.</p></section>\n"
}

// Writes the chart of the shifts.
#[tactic(auto, unfolding(crate::specs::Pages::shifts))]
fn shifts(
    out: &mut List<u8>,
    sheet: PeriodAxis,
    codes: &[CodeDef],
    content: &Content,
) -> Result<(), Memory>
    requires codes { length codes.now ≤ 32 }
    requires rows { length content.now.rows ≤ 64 }
    ensures { OnOk result (out.new ≡ out.old ++ written (shifts sheet codes.now content.now)) }
{
    let shown = content.rows.as_slice();
    marks(out, b"<section><h2>Shifts</h2>\n<ul class='legend'>")?;
    legend(out, codes, content.words.as_slice())?;
    marks(out, roster_start())?;
    size(out, chart_width(sheet), height_of(shown.len()))?;
    price_head(out, sheet)?;
    ticks(out, sheet, 20, content.times.as_slice())?;
    rows(out, &content.money, sheet, codes, content.off, shown)?;
    marks(out, roster_end())
}

// Writes the beginning of the chart of a code.
#[tactic(auto, unfolding(crate::specs::Pages::chart_head))]
fn chart_head(
    out: &mut List<u8>,
    codes: &[CodeDef],
    sheet: PeriodAxis,
    words: &[List<u8>],
    columns: &[CellCover],
    place: u8,
    code: &CodeDef,
) -> Result<(), Memory>
    ensures { OnOk result
        (out.new ≡ out.old ++ written (chart_head codes.now sheet words.now columns.now place code.now)) }
{
    marks(out, b"<figure><figcaption>")?;
    chip(out, codes, code.byte)?;
    labelled_text(out, b" ", words_at(words, place))?;
    labelled_text(
        out,
        b"</figcaption><div class='scroll'><svg role='img' aria-label='Coverage of ",
        &[code.byte],
    )?;
    marks(out, b". ")?;
    in_words(out, sheet, place, columns)?;
    size(out, chart_width(sheet), 132)
}

// Writes what stands in the chart of a code.
#[tactic(auto, unfolding(crate::specs::Pages::chart_body))]
fn chart_body(
    out: &mut List<u8>,
    sheet: PeriodAxis,
    moments: &[List<u8>],
    columns: &[CellCover],
    place: u8,
    top: u32,
    unit: u8,
) -> Result<(), Memory>
    ensures { OnOk result
        (out.new ≡ out.old ++ written (chart_body sheet moments.now columns.now place top unit)) }
{
    inked(out, Ink::Bars, sheet, unit, place, columns)?;
    frame(out, sheet, unit, top)?;
    lines(out, sheet, unit, place, columns)?;
    ticks(out, sheet, 127, moments)?;
    marks(out, b"</svg></div></figure>\n")
}

// Writes the chart of a code that is demanded.
#[tactic(auto, unfolding(crate::specs::Pages::chart))]
fn chart(
    out: &mut List<u8>,
    codes: &[CodeDef],
    sheet: PeriodAxis,
    content: &Content,
    place: u8,
    code: &CodeDef,
) -> Result<(), Memory>
    ensures { OnOk result
        (out.new ≡ out.old ++ written (chart codes.now sheet content.now place code.now)) }
{
    let columns = content.columns.as_slice();
    if is_demanded(place, columns) {
        let top = top_count(place, columns);
        let words = content.words.as_slice();
        let moments = content.times.as_slice();
        chart_head(out, codes, sheet, words, columns, place, code)?;
        chart_body(out, sheet, moments, columns, place, top, unit_of(top))?;
    }
    Ok(())
}

// Writes the charts of the codes that are demanded.
fn charts(
    out: &mut List<u8>,
    codes: &[CodeDef],
    sheet: PeriodAxis,
    content: &Content,
) -> Result<(), Memory>
    requires { length codes.now ≤ 32 }
    ensures { OnOk result (out.new ≡ out.old ++ written (charts codes.now sheet content.now)) }
{
    let mut place: u8 = 0;
    for code in codes {
        chart(out, codes, sheet, content, place, code)?;
        place += 1;
    }
    Ok(())
}

const COVERAGE: &[u8] = b"<section><h2>Coverage</h2>\n<ul class='legend'>\
<li><span class='key have'></span>at work and needed</li><li><span class='key short'></span>short</li>\
<li><span class='key over'></span>surplus</li><li><span class='key need'></span>need</li>\
<li><span class='key floor'></span>floor</li><li><span class='key ceiling'></span>ceiling</li></ul>\n\
<div class='charts'>\n";

// What stands before the charts of the coverage.
#[tactic(auto, unfolding(crate::specs::Pages::chart_legend))]
fn chart_legend() -> &'static [u8]
    ensures { result.now ≡ chart_legend }
{
    COVERAGE
}

// Writes the charts of the coverage.
#[tactic(auto, unfolding(crate::specs::Pages::coverage))]
fn coverage(
    out: &mut List<u8>,
    codes: &[CodeDef],
    sheet: PeriodAxis,
    content: &Content,
) -> Result<(), Memory>
    requires { length codes.now ≤ 32 }
    ensures { OnOk result (out.new ≡ out.old ++ written (coverage codes.now sheet content.now)) }
{
    marks(out, chart_legend())?;
    charts(out, codes, sheet, content)?;
    marks(out, b"</div></section>\n")
}

// Writes what shows a derivation.
#[tactic(auto, unfolding(crate::specs::Pages::shows))]
fn shows(out: &mut List<u8>, place: u64) -> Result<(), Memory>
    ensures { OnOk result (out.new ≡ out.old ++ written (shows place)) }
{
    labelled(out, b"body:has(#r", place)?;
    labelled(out, b":hover) #d", place)?;
    labelled(out, b"{display:block;z-index:2}body:has(#r", place)?;
    labelled(out, b":focus) #d", place)?;
    marks(out, b"{display:block}\n")
}

// Writes what shows the derivations.
fn all_show(out: &mut List<u8>, texts: &[List<u8>]) -> Result<(), Memory>
    requires { length texts.now ≤ 64 }
    ensures { OnOk result (out.new ≡ out.old ++ written (all_show texts.now)) }
{
    for place in 0..texts.len() {
        shows(out, place as u64)?;
    }
    Ok(())
}

// Writes the words of the row at a place, if there is one.
#[tactic(auto, unfolding(crate::specs::Pages::heading))]
fn heading(out: &mut List<u8>, money: &Money, rows: &[Row], place: u64) -> Result<(), Memory>
    ensures { OnOk result (out.new ≡ out.old ++ written (heading money.now rows.now place)) }
{
    match rows.get(place as usize) {
        None => Ok(()),
        Some(row) => row_words(out, money, row),
    }
}

// Returns what stands behind the first line of a text.
fn behind_line(text: &[u8]) -> &[u8]
    ensures { result.now ≡ behind_line text.now }
{
    let mut place: usize = 0;
    for byte in text {
        place += 1;
        if *byte == b'\n' {
            return &text[place..];
        }
    }
    b""
}

// Writes the word and the price of a row, as lines of a derivation.
#[tactic(auto, unfolding(crate::specs::Pages::word_lines))]
fn word_lines(out: &mut List<u8>, money: &Money, row: &Row) -> Result<(), Memory>
    ensures { OnOk result (out.new ≡ out.old ++ written (word_lines money.now row.now)) }
{
    labelled_text(out, b"word ", row.word.as_slice())?;
    marks(out, b"\ncost ")?;
    units(out, money.decimals, row.price)?;
    marks(out, b"\n")
}

// Writes the same of the row at a place, if there is one.
#[tactic(auto, unfolding(crate::specs::Pages::lines_at))]
fn lines_at(out: &mut List<u8>, money: &Money, rows: &[Row], place: u64) -> Result<(), Memory>
    ensures { OnOk result (out.new ≡ out.old ++ written (lines_at money.now rows.now place)) }
{
    match rows.get(place as usize) {
        None => Ok(()),
        Some(row) => word_lines(out, money, row),
    }
}

// Writes the derivation of a row, under the row's words.
#[tactic(auto, unfolding(crate::specs::Pages::derivation))]
fn derivation(
    out: &mut List<u8>,
    money: &Money,
    rows: &[Row],
    place: u64,
    text: &List<u8>,
) -> Result<(), Memory>
    ensures { OnOk result
        (out.new ≡ out.old ++ written (derivation money.now rows.now place text.now)) }
{
    labelled(out, b"<pre class='derivation' id='d", place)?;
    marks(out, b"'><b>")?;
    heading(out, money, rows, place)?;
    marks(out, b"</b>\n")?;
    lines_at(out, money, rows, place)?;
    given(out, behind_line(behind_line(text.as_slice())))?;
    marks(out, b"</pre>\n")
}

// Writes the derivations of the rows.
fn derivations(
    out: &mut List<u8>,
    money: &Money,
    rows: &[Row],
    texts: &[List<u8>],
) -> Result<(), Memory>
    requires { length texts.now ≤ 64 }
    ensures { OnOk result (out.new ≡ out.old ++ written (derivations money.now rows.now texts.now)) }
{
    let mut place: u64 = 0;
    for text in texts {
        derivation(out, money, rows, place, text)?;
        place += 1;
    }
    Ok(())
}

// Writes the derivations of the rows under their title.
#[tactic(auto, unfolding(crate::specs::Pages::titled_derivations))]
fn titled_derivations(
    out: &mut List<u8>,
    money: &Money,
    rows: &[Row],
    texts: &[List<u8>],
) -> Result<(), Memory>
    requires { length texts.now ≤ 64 }
    ensures { OnOk result
        (out.new ≡ out.old ++ written (titled_derivations money.now rows.now texts.now)) }
{
    marks(
        out,
        b"<div class='derivations'><h2>How the rules derive each shift</h2>\n",
    )?;
    derivations(out, money, rows, texts)?;
    marks(out, b"</div>\n")
}

// Writes the same, where there are any derivations.
#[tactic(auto, unfolding(crate::specs::Pages::derivations_part))]
fn derivations_part(
    out: &mut List<u8>,
    money: &Money,
    rows: &[Row],
    texts: &[List<u8>],
) -> Result<(), Memory>
    requires { length texts.now ≤ 64 }
    ensures { OnOk result
        (out.new ≡ out.old ++ written (derivations_part money.now rows.now texts.now)) }
{
    if texts.len() > 0 {
        titled_derivations(out, money, rows, texts)?;
    }
    Ok(())
}

const HEAD: &[u8] = b"<!DOCTYPE html>\n<html lang='en'>\n<head>\n<meta charset='utf-8'>\n\
<meta name='viewport' content='width=device-width, initial-scale=1'>\n<title>";

// What stands before the title.
#[tactic(auto, unfolding(crate::specs::Pages::before_title))]
fn before_title() -> &'static [u8]
    ensures { result.now ≡ before_title }
{
    HEAD
}

// What stands between the style and the title.
fn after_style() -> &'static [u8]
    ensures { result.now ≡ text "</style>\n</head>\n<body>\n<main>\n<header><h1>" }
{
    b"</style>\n</head>\n<body>\n<main>\n<header><h1>"
}

// Returns the title of the page: that of the day, or `Roster`.
#[tactic(auto, unfolding(crate::specs::Pages::title_of))]
fn title_of(title: &[u8]) -> &[u8]
    ensures { result.now ≡ title_of title.now }
{
    if title.len() > 0 { title } else { b"Roster" }
}

// Writes the head of the page.
#[tactic(auto, unfolding(crate::specs::Pages::head))]
fn head(out: &mut List<u8>, title: &[u8], texts: &[List<u8>]) -> Result<(), Memory>
    requires { length texts.now ≤ 64 }
    ensures { OnOk result (out.new ≡ out.old ++ written (head title.now texts.now)) }
{
    labelled_text(out, before_title(), title_of(title))?;
    marks(out, b"</title>\n<style>\n")?;
    marks(out, style())?;
    all_show(out, texts)?;
    labelled_text(out, after_style(), title_of(title))?;
    marks(out, b"</h1><p>")
}

// Writes the head, what the roster costs, and how much differs from an old one.
#[tactic(auto, unfolding(crate::specs::Pages::top_part))]
fn top_part(out: &mut List<u8>, codes: &[CodeDef], content: &Content) -> Result<(), Memory>
    requires codes { length codes.now ≤ 32 }
    requires texts { length content.now.derivations ≤ 64 }
    requires columns { AreDayColumns content.now.columns }
    ensures { OnOk result (out.new ≡ out.old ++ written (top_part codes.now content.now)) }
{
    head(
        out,
        content.title.as_slice(),
        content.derivations.as_slice(),
    )?;
    let money = &content.money;
    sentence(out, money, content.figures.cost, content.figures.bound)?;
    marks(out, b"</p></header>\n")?;
    costs(
        out,
        money,
        codes,
        content.figures,
        content.columns.as_slice(),
    )?;
    changes_part(out, content.changes)
}

// Writes the chart of the shifts, where there are any.
#[tactic(auto, unfolding(crate::specs::Pages::shifts_part))]
fn shifts_part(
    out: &mut List<u8>,
    sheet: PeriodAxis,
    codes: &[CodeDef],
    content: &Content,
) -> Result<(), Memory>
    requires codes { length codes.now ≤ 32 }
    requires rows { length content.now.rows ≤ 64 }
    ensures { OnOk result (out.new ≡ out.old ++ written (shifts_part sheet codes.now content.now)) }
{
    if content.rows.len() > 0 {
        shifts(out, sheet, codes, content)?;
    }
    Ok(())
}

// Writes the charts of the coverage, where there are any.
#[tactic(auto, unfolding(crate::specs::Pages::coverage_part))]
fn coverage_part(
    out: &mut List<u8>,
    sheet: PeriodAxis,
    codes: &[CodeDef],
    content: &Content,
) -> Result<(), Memory>
    requires { length codes.now ≤ 32 }
    ensures { OnOk result
        (out.new ≡ out.old ++ written (coverage_part sheet codes.now content.now)) }
{
    if content.columns.len() > 0 {
        coverage(out, codes, sheet, content)?;
    }
    Ok(())
}

// Returns the command that checks what the page says: of a proof, or of a report.
#[tactic(auto, unfolding(crate::specs::Pages::check_command))]
fn check_command(stated: bool) -> &'static [u8]
    ensures { result.now ≡ check_command stated }
{
    if stated {
        b"value RULES DEMAND REPORT"
    } else {
        b"check RULES DEMAND PROOF"
    }
}

// Writes a text that was read, as `sha256sum` says it.
#[tactic(auto, unfolding(crate::specs::Pages::read_line))]
fn read_line(out: &mut List<u8>, text: &ReadText) -> Result<(), Memory>
    ensures { OnOk result (out.new ≡ out.old ++ written (read_line text.now)) }
{
    given(out, text.sum.as_slice())?;
    labelled_text(out, b"  ", text.name.as_slice())?;
    marks(out, b"\n")
}

// Writes the texts that were read.
fn read_lines(out: &mut List<u8>, texts: &[ReadText]) -> Result<(), Memory>
    ensures { OnOk result (out.new ≡ out.old ++ written (read_lines texts.now)) }
{
    for text in texts {
        read_line(out, text)?;
    }
    Ok(())
}

// Writes the foot of the page.
#[tactic(auto, unfolding(crate::specs::Pages::foot))]
fn foot(out: &mut List<u8>, stated: bool, texts: &[ReadText]) -> Result<(), Memory>
    ensures { OnOk result (out.new ≡ out.old ++ written (foot stated texts.now)) }
{
    marks(out, b"<footer><p>Made from these texts; <code>roster ")?;
    marks(out, check_command(stated))?;
    marks(out, b"</code> checks them.</p>\n<pre>")?;
    read_lines(out, texts)?;
    marks(out, b"</pre></footer>\n")
}

// Writes the same, where it is said which texts were read.
#[tactic(auto, unfolding(crate::specs::Pages::foot_part))]
fn foot_part(out: &mut List<u8>, stated: bool, texts: &[ReadText]) -> Result<(), Memory>
    ensures { OnOk result (out.new ≡ out.old ++ written (foot_part stated texts.now)) }
{
    if texts.len() > 0 {
        foot(out, stated, texts)?;
    }
    Ok(())
}

// Writes the page on a sheet.
#[tactic(auto, unfolding(crate::specs::Pages::body))]
fn body(
    out: &mut List<u8>,
    sheet: PeriodAxis,
    codes: &[CodeDef],
    content: &Content,
) -> Result<(), Memory>
    requires codes { length codes.now ≤ 32 }
    requires rows { length content.now.rows ≤ 64 }
    requires texts { length content.now.derivations ≤ 64 }
    requires columns { AreDayColumns content.now.columns }
    ensures { OnOk result (out.new ≡ out.old ++ written (body sheet codes.now content.now)) }
{
    top_part(out, codes, content)?;
    shifts_part(out, sheet, codes, content)?;
    coverage_part(out, sheet, codes, content)?;
    let money = &content.money;
    add_tables(out, money, &content.tables)?;
    let texts = content.derivations.as_slice();
    derivations_part(out, money, content.rows.as_slice(), texts)?;
    foot_part(out, content.stated, content.read.as_slice())?;
    marks(out, b"</main>\n</body>\n</html>\n")
}

/// Returns the page of a roster: one HTML page that stands for itself.
///
/// # Errors
///
/// `Memory` where memory runs out; there is no page then.
pub fn write_page(
    alloc: Global,
    periods: u8,
    codes: &[CodeDef],
    content: &Content,
) -> Result<List<u8>, Memory>
    requires codes { length codes.now ≤ 32 }
    requires rows { length content.now.rows ≤ 64 }
    requires texts { length content.now.derivations ≤ 64 }
    requires columns { AreDayColumns content.now.columns }
    ensures { IfOk result (λ text. text ≡ written (page periods codes.now content.now)) }
{
    let mut out = List::new(alloc);
    let longest = longest(content.rows.as_slice());
    let sheet = axis_of(periods, longest, content.money.words.len());
    body(&mut out, sheet, codes, content)?;
    Ok(out)
}
