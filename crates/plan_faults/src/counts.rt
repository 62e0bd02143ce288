//! Numbers and nouns.

ghost use Rattle.std.specs.Prelude.{◌≡◌, ◌++◌, OnOk};
ghost use Rattle.std.specs.Fmt.{decimal};
ghost use Rattle.plan_faults.specs.Counts.{counted, many};

use model_rosters::{List, Memory};
use text_lines::{put, write_number};

/// Appends a number.
///
/// # Errors
///
/// `Memory` where memory runs out.
pub fn put_number(out: &mut List<u8>, value: u64) -> Result<(), Memory>
    ensures { OnOk result (out.new ≡ out.old ++ decimal value) }
{
    write_number(out, value as i128)?;
    Ok(())
}

// Appends the ending of a noun for more or fewer than one.
#[tactic(auto, unfolding(crate::specs::Counts::many))]
fn put_many(out: &mut List<u8>, count: u64) -> Result<(), Memory>
    ensures { OnOk result (out.new ≡ out.old ++ many count) }
{
    if count == 1 {
        return Ok(());
    }
    put(out, b"s")
}

/// Appends how many there are of what a noun says, as `1 word` or `3 words`.
///
/// # Errors
///
/// `Memory` where memory runs out; a part may stand in `out` then.
pub fn put_counted(out: &mut List<u8>, count: u64, noun: &[u8]) -> Result<(), Memory>
    ensures { OnOk result (out.new ≡ out.old ++ counted count noun.now) }
{
    put_number(out, count)?;
    put(out, b" ")?;
    put(out, noun)?;
    put_many(out, count)
}
