//! How wide names are, and how they end.

ghost use Rattle.std.specs.Prelude.{◌≡◌, ◌≤◌, ◌++◌, ◌∷◌, [], OnOk, length};
ghost use Rattle.page_parts.specs.Elements as page;
ghost use Rattle.page_parts.specs.Elements.{written};
ghost use Rattle.page_parts.specs.Names.{begin_of, columns_of, cut_of, is_between, is_inner, is_wide, shortened, text_width};

use crate::element::{begin, given};
use model_rosters::{List, Memory};
use text_lines::put;

/// How many columns a name has in a chart.
const MOST: usize = 24;

/// What ends a name that is too wide, in UTF-8.
const ELLIPSIS: [u8; 3] = [226, 128, 166];

// Whether a byte of UTF-8 stands behind the first one of its character.
fn is_inner(byte: u8) -> bool
    ensures { result ≡ is_inner byte }
{
    128 <= byte && byte < 192
}

// Whether two bytes, as one number, are between two such pairs.
fn is_between(low: u32, high: u32, pair: u32) -> bool
    ensures { result ≡ is_between low high pair }
{
    low <= pair && pair <= high
}

// Whether two bytes, as one number, are the first ones of a wide character: of East Asian scripts, or a
// picture.
fn is_wide(pair: u32) -> bool
    ensures { result ≡ is_wide pair }
{
    is_between(57732, 57733, pair)
        || is_between(58042, 60050, pair)
        || is_between(60080, 60831, pair)
        || is_between(61348, 61355, pair)
        || is_between(61372, 61373, pair)
        || is_between(61599, 61631, pair)
}

// How many columns a byte brings behind another.
#[tactic(auto, unfolding(crate::specs::Names::columns_of))]
fn columns_of(last: u8, byte: u8) -> usize
    ensures value { result ≡ columns_of last byte }
    ensures small { result ≤ 1 }
{
    if !is_inner(byte) {
        1
    } else if is_wide(u32::from(last) * 256 + u32::from(byte)) {
        1
    } else {
        0
    }
}

/// Returns how wide a text in UTF-8 is, in columns of one character: a wide character has two.
pub fn text_width(bytes: &[u8]) -> usize
    ensures value { result ≡ text_width bytes.now }
    ensures small { result ≤ length bytes.now }
{
    let mut width: usize = 0;
    let mut last: u8 = 0;
    for byte in bytes {
        width += columns_of(last, *byte);
        last = *byte;
    }
    width
}

// Where the character of the byte at a place begins.
#[tactic(auto, unfolding(crate::specs::Names::begin_of))]
fn begin_of(begin: usize, place: usize, byte: u8) -> usize
    requires { begin ≤ place }
    ensures value { result ≡ begin_of begin place byte }
    ensures small { result ≤ place }
{
    if is_inner(byte) { begin } else { place }
}

// Where the first character begins with which a text is too wide, or the text's length.
fn cut_of(bytes: &[u8]) -> usize
    ensures value { result ≡ cut_of bytes.now }
    ensures small { result ≤ length bytes.now }
{
    let mut last: u8 = 0;
    let mut begin: usize = 0;
    let mut place: usize = 0;
    let mut width: usize = 0;
    for byte in bytes {
        begin = begin_of(begin, place, *byte);
        width += columns_of(last, *byte);
        if MOST < width {
            return begin;
        }
        last = *byte;
        place += 1;
    }
    place
}

// Appends the beginning of a name, and what ends it.
fn cut_name(out: &mut List<u8>, front: &[u8]) -> Result<(), Memory>
    ensures { OnOk result
        (out.new ≡ out.old ++ written (page.given (front.now ++ 226 ∷ 128 ∷ 166 ∷ []) ∷ [])) }
{
    given(out, front)?;
    given(out, &ELLIPSIS)
}

// Appends a name, shortened where it is too wide.
#[tactic(auto, unfolding(crate::specs::Names::shortened))]
fn short_name(out: &mut List<u8>, bytes: &[u8]) -> Result<(), Memory>
    ensures { OnOk result (out.new ≡ out.old ++ written (page.given (shortened bytes.now) ∷ [])) }
{
    let cut = cut_of(bytes);
    if cut < bytes.len() {
        return cut_name(out, &bytes[..cut]);
    }
    given(out, bytes)
}

/// Appends a caption of a name, escaped, at a place from the left and from the top. A name that is wider than
/// 24 columns ends behind its last whole character within them, with an ellipsis.
///
/// # Errors
///
/// `Memory` where memory runs out; a part of it may stand there then.
#[tactic(auto, unfolding(crate::specs::Elements::element_text))]
pub fn name_caption(
    out: &mut List<u8>,
    class: &[u8],
    left: u64,
    top: u64,
    name: &[u8],
) -> Result<(), Memory>
    ensures { OnOk result
        (out.new ≡ out.old ++ written (page.caption class.now left top (shortened name.now) ∷ [])) }
{
    begin(out, class, left, top)?;
    short_name(out, name)?;
    put(out, b"</text>")?;
    Ok(())
}
