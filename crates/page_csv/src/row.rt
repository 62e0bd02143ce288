//! A record, written by `csv`.

ghost use Rattle.std.specs.Prelude.{◌≡◌, ◌++◌, IfOk, OnOk, map};
ghost use Rattle.csv.specs.Writing.{default_writer, row_text};

use csv::{Error, WriterBuilder};
use model_rosters::{List, Memory};
use std::alloc::Global;
use text_lines::put;

// Returns the text of a record.
fn row_bytes(alloc: Global, fields: &[&[u8]]) -> Result<Vec<u8>, Error>
    ensures { IfOk result (λ v. v.items ≡ row_text default_writer (map (λ f. f.now) fields.now)) }
{
    let mut writer = WriterBuilder::new().from_writer(Vec::new(alloc));
    writer.write_fields(fields)?;
    match writer.into_inner() {
        Ok(text) => Ok(text),
        Err(fault) => Err(fault.into_error()),
    }
}

/// Appends the record of these fields; over bytes, an error of the writer is want of memory.
///
/// # Errors
///
/// `Memory` where memory runs out; a part may stand in `out` then.
pub(crate) fn add_row(alloc: Global, out: &mut List<u8>, fields: &[&[u8]]) -> Result<(), Memory>
    ensures { OnOk result (out.new ≡ out.old ++ row_text default_writer (map (λ f. f.now) fields.now)) }
{
    match row_bytes(alloc, fields) {
        Ok(row) => put(out, row.as_slice()),
        Err(_) => Err(Memory),
    }
}

// Returns the fields as slices.
fn views<'a>(alloc: Global, fields: &'a [List<u8>]) -> Result<List<&'a [u8]>, Memory>
    ensures { IfOk result (λ v. map (λ f. f.now) v ≡ fields.now) }
{
    let mut slices = List::new(alloc);
    for field in fields {
        slices.push(field.as_slice())?;
    }
    Ok(slices)
}

/// Appends the record of these fields, which are owned.
///
/// # Errors
///
/// `Memory` where memory runs out; a part may stand in `out` then.
pub(crate) fn add_record(
    alloc: Global,
    out: &mut List<u8>,
    fields: &[List<u8>],
) -> Result<(), Memory>
    ensures { OnOk result (out.new ≡ out.old ++ row_text default_writer fields.now) }
{
    let slices = views(alloc, fields)?;
    add_row(alloc, out, slices.as_slice())
}
