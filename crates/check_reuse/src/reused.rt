//! The text of what old nodes show.

ghost use Rattle.std.specs.Prelude.{◌≡◌, IfOk};
ghost use Rattle.check_reuse.specs.ReusedText.{bound_text, reused_text};

use crate::nodes::Reused;
use check_certificates::Verdict;
use model_rosters::{List, Memory};
use std::alloc::Global;
use text_answers::write_verdict;
use text_certificates::amount_line;

/// Returns the line of a bound.
fn write_bound(alloc: Global, bound: Option<u64>) -> Result<List<u8>, Memory>
    ensures { IfOk result (λ text. text ≡ bound_text bound) }
{
    let mut out = List::new(alloc);
    amount_line(&mut out, b"bound", bound)?;
    Ok(out)
}

/// Returns what is said of an old certificate: the line `bound X`, where X is a number or `none`, or the line
/// `no` with the number of the cause, its name and its values.
///
/// # Errors
///
/// `Memory` where memory runs out; there is no text then.
pub fn write_reused(alloc: Global, reused: &Reused) -> Result<List<u8>, Memory>
    ensures { IfOk result (λ text. text ≡ reused_text reused.now) }
{
    match *reused {
        Reused::Bound(bound) => write_bound(alloc, bound),
        Reused::Refused(why) => write_verdict(alloc, &Verdict::No(why)),
    }
}
