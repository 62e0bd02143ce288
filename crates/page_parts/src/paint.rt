//! The classes of codes.

ghost use Rattle.std.specs.Prelude.{◌≡◌, ◌≤◌};
ghost use Rattle.page_parts.specs.Paints.{paint, paint_of};

use model_rosters::CodeDef;

// The colour of work, or that of what is no work, by its number.
fn paint(work: bool, works: u8, idles: u8) -> [u8; 2]
    requires works { works ≤ 7 }
    requires idles { idles ≤ 4 }
    ensures { result ≡ paint work works idles }
{
    if work {
        [b'w', b'0' + works]
    } else {
        [b'i', b'0' + idles]
    }
}

/// Returns the class of the elements of a code, which has its colour: `w0` to `w7` for work in the order of
/// the codes, `i0` to `i4` for the others, of which the last may stand for several.
pub fn paint_of(codes: &[CodeDef], byte: u8) -> [u8; 2]
    ensures { result ≡ paint_of codes.now byte }
{
    let mut works: u8 = 0;
    let mut idles: u8 = 0;
    for code in codes {
        if code.byte == byte {
            return paint(code.work, works, idles);
        }
        if code.work {
            works = (works + 1).min(7);
        } else {
            idles = (idles + 1).min(4);
        }
    }
    paint(false, works, idles)
}
