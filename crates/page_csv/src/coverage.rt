//! The table of coverage.

ghost use Rattle.std.specs.Prelude.{◌≡◌, ◌++◌, ◌-◌, [], ◌∷◌, IfOk, OnOk};
ghost use Rattle.std.specs.Fmt.{decimal};
ghost use Rattle.std.specs.List.{flat_map};
ghost use Rattle.page_labels.specs.Labels as words;
ghost use Rattle.page_csv.specs.Coverages.{ceiling_text, cover_row, coverage_of, fields_of, head_row};
ghost use Rattle.page_csv.specs.Sheets.{amount_text, guarded, letter_at, time_of};

use crate::field::{add_amount, add_letter, add_number, add_text, add_time};
use crate::row::{add_record, add_row};
use crate::sheet::marked;
use model_rosters::{Instance, List, Memory};
use page_labels::{Clock, Labels, code_words, decimals_of};
use page_text::CellCover;
use std::alloc::Global;

// What stands above the records.
const HEAD: [&[u8]; 13] = [
    b"code", b"name", b"period", b"begin", b"end", b"need", b"have", b"short", b"over", b"floor",
    b"ceiling", b"penalty", b"amount",
];

/// A roster has at most so many employees; a ceiling of so many allows each number of them.
const MOST_EMPLOYEES: u32 = 64;

// Appends the fields that tell a code.
fn add_code_fields(
    alloc: Global,
    fields: &mut List<List<u8>>,
    instance: &Instance,
    labels: &Labels,
    code: u8,
) -> Result<(), Memory>
    ensures { OnOk result (fields.new ≡ fields.old ++ guarded (letter_at instance.now.grammar.codes code)
        ∷ guarded (words.code_words labels.now.codes code) ∷ []) }
{
    add_letter(alloc, fields, instance.grammar.codes.as_slice(), code)?;
    add_text(alloc, fields, code_words(labels.codes.as_slice(), code))
}

// Appends the fields that tell a period, and its times.
fn add_period_fields(
    alloc: Global,
    fields: &mut List<List<u8>>,
    clock: Option<Clock>,
    period: u8,
) -> Result<(), Memory>
    ensures { OnOk result (fields.new ≡ fields.old ++ decimal period ∷ time_of clock (period - 1)
        ∷ time_of clock period ∷ []) }
{
    add_number(alloc, fields, period as u64)?;
    add_time(alloc, fields, clock, period.saturating_sub(1))?;
    add_time(alloc, fields, clock, period)
}

// Appends the fields that tell how many employees are needed and work.
fn add_head_fields(
    alloc: Global,
    fields: &mut List<List<u8>>,
    cover: &CellCover,
) -> Result<(), Memory>
    ensures { OnOk result (fields.new ≡ fields.old ++ decimal cover.now.need ∷ decimal cover.now.have
        ∷ decimal cover.now.short ∷ decimal cover.now.over ∷ []) }
{
    add_number(alloc, fields, cover.need as u64)?;
    add_number(alloc, fields, cover.have as u64)?;
    add_number(alloc, fields, cover.short as u64)?;
    add_number(alloc, fields, cover.over as u64)
}

// Appends a field of a ceiling, empty where it allows each number of employees.
#[tactic(auto, unfolding(crate::specs::Coverages::ceiling_text))]
fn add_ceiling(alloc: Global, fields: &mut List<List<u8>>, ceiling: u32) -> Result<(), Memory>
    ensures { OnOk result (fields.new ≡ fields.old ++ ceiling_text ceiling ∷ []) }
{
    if ceiling == MOST_EMPLOYEES {
        fields.push(List::new(alloc))
    } else {
        add_number(alloc, fields, ceiling as u64)
    }
}

// Appends the fields of the bounds, and of what the missing or further employees cost.
fn add_bound_fields(
    alloc: Global,
    fields: &mut List<List<u8>>,
    labels: &Labels,
    cover: &CellCover,
) -> Result<(), Memory>
    ensures { OnOk result (fields.new ≡ fields.old ++ decimal cover.now.floor ∷ ceiling_text cover.now.ceiling
        ∷ decimal cover.now.penalty ∷ amount_text (words.decimals_of labels.now) cover.now.penalty ∷ []) }
{
    add_number(alloc, fields, cover.floor as u64)?;
    add_ceiling(alloc, fields, cover.ceiling)?;
    add_number(alloc, fields, cover.penalty)?;
    add_amount(alloc, fields, decimals_of(labels), cover.penalty)
}

// Returns the fields of the record of a code in a period.
#[tactic(auto, unfolding(crate::specs::Coverages::fields_of))]
fn fields_of(
    alloc: Global,
    instance: &Instance,
    labels: &Labels,
    cover: &CellCover,
) -> Result<List<List<u8>>, Memory>
    ensures { IfOk result (λ fields. fields ≡ fields_of instance.now labels.now cover.now) }
{
    let mut fields = List::new(alloc);
    add_code_fields(alloc, &mut fields, instance, labels, cover.code)?;
    add_period_fields(alloc, &mut fields, labels.clock, cover.period)?;
    add_head_fields(alloc, &mut fields, cover)?;
    add_bound_fields(alloc, &mut fields, labels, cover)?;
    Ok(fields)
}

// Appends the record of a code in a period.
fn add_cover(
    alloc: Global,
    out: &mut List<u8>,
    instance: &Instance,
    labels: &Labels,
    cover: &CellCover,
) -> Result<(), Memory>
    ensures { OnOk result (out.new ≡ out.old ++ cover_row instance.now labels.now cover.now) }
{
    let fields = fields_of(alloc, instance, labels, cover)?;
    add_record(alloc, out, fields.as_slice())
}

// Appends the records of cells.
fn add_covers(
    alloc: Global,
    out: &mut List<u8>,
    instance: &Instance,
    labels: &Labels,
    covers: &[CellCover],
) -> Result<(), Memory>
    ensures { OnOk result (out.new ≡ out.old ++ flat_map (cover_row instance.now labels.now) covers.now) }
{
    for cover in covers {
        add_cover(alloc, out, instance, labels, cover)?;
    }
    Ok(())
}

// Appends the record above the others.
fn add_head(alloc: Global, out: &mut List<u8>) -> Result<(), Memory>
    ensures { OnOk result (out.new ≡ out.old ++ head_row) }
{
    add_row(alloc, out, &HEAD)
}

/// Returns how the cells of a day are covered as comma-separated values, under labels: a record for each of
/// them, in their order. Its fields are the letter of the code, what it is called, the period, when it begins
/// and ends, how many employees are needed, work, are missing and are there beyond the need, the floor, the
/// ceiling, what the missing or further employees cost, and the same as an amount. Fields that are not known
/// are empty, and so is a ceiling of 64.
///
/// # Errors
///
/// `Memory` where memory runs out; nothing is kept then.
pub fn coverage_of(
    alloc: Global,
    instance: &Instance,
    labels: &Labels,
    covers: &[CellCover],
) -> Result<List<u8>, Memory>
    ensures { IfOk result (λ text. text ≡ coverage_of instance.now labels.now covers.now) }
{
    let mut out = List::new(alloc);
    add_head(alloc, &mut out)?;
    add_covers(alloc, &mut out, instance, labels, covers)?;
    marked(alloc, out)
}
