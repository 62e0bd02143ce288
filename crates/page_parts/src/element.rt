//! Elements, one each.

ghost use Rattle.std.specs.Prelude.{◌≡◌, ◌++◌, ◌∷◌, [], OnOk};
ghost use Rattle.std.specs.Fmt.{decimal};
ghost use Rattle.page_parts.specs.Elements as page;
ghost use Rattle.page_parts.specs.Elements.{area_text, at, attribute, escaped, written};

use crate::area::Area;
use model_rosters::{List, Memory};
use text_lines::{put, write_number};

// Appends a byte of a text.
fn escaped(out: &mut List<u8>, byte: u8) -> Result<(), Memory>
    ensures { OnOk result (out.new ≡ out.old ++ escaped byte) }
{
    if byte == b'<' {
        put(out, b"&lt;")
    } else if byte == b'>' {
        put(out, b"&gt;")
    } else if byte == b'&' {
        put(out, b"&amp;")
    } else if byte == b'"' {
        put(out, b"&quot;")
    } else if byte == b'\'' {
        put(out, b"&#39;")
    } else {
        out.push(byte)
    }
}

/// Appends marks and words of the page's own.
///
/// # Errors
///
/// `Memory` where memory runs out; a part may stand in `out` then.
#[tactic(auto, unfolding(crate::specs::Elements::element_text))]
pub fn marks(out: &mut List<u8>, bytes: &[u8]) -> Result<(), Memory>
    ensures { OnOk result (out.new ≡ out.old ++ written (page.marks bytes.now ∷ [])) }
{
    put(out, bytes)?;
    Ok(())
}

/// Appends bytes of the texts, each escaped.
///
/// # Errors
///
/// `Memory` where memory runs out; a part of them may stand there then.
#[tactic(auto, unfolding(crate::specs::Elements::element_text))]
pub fn given(out: &mut List<u8>, bytes: &[u8]) -> Result<(), Memory>
    ensures { OnOk result (out.new ≡ out.old ++ written (page.given bytes.now ∷ [])) }
{
    for byte in bytes {
        escaped(out, *byte)?;
    }
    Ok(())
}

/// Appends the digits of a number.
///
/// # Errors
///
/// `Memory` where memory runs out; a part may stand in `out` then.
pub(crate) fn digits(out: &mut List<u8>, value: u64) -> Result<(), Memory>
    ensures { OnOk result (out.new ≡ out.old ++ decimal value) }
{
    write_number(out, value as i128)?;
    Ok(())
}

/// Appends a number.
///
/// # Errors
///
/// `Memory` where memory runs out; a part may stand in `out` then.
#[tactic(auto, unfolding(crate::specs::Elements::element_text))]
pub fn number(out: &mut List<u8>, value: u64) -> Result<(), Memory>
    ensures { OnOk result (out.new ≡ out.old ++ written (page.number value ∷ [])) }
{
    digits(out, value)?;
    Ok(())
}

// Appends an attribute, behind its name and first quote.
#[tactic(auto, unfolding(crate::specs::Elements::attribute))]
fn attribute(out: &mut List<u8>, name: &[u8], value: u64) -> Result<(), Memory>
    ensures { OnOk result (out.new ≡ out.old ++ attribute name.now value) }
{
    put(out, name)?;
    digits(out, value)?;
    put(out, b"'")?;
    Ok(())
}

// Appends the attributes of an area.
#[tactic(auto, unfolding(crate::specs::Elements::area_text))]
fn area_text(out: &mut List<u8>, area: Area) -> Result<(), Memory>
    ensures { OnOk result (out.new ≡ out.old ++ area_text area) }
{
    attribute(out, b"' x='", area.left)?;
    attribute(out, b" y='", area.top)?;
    attribute(out, b" width='", area.width)?;
    attribute(out, b" height='", area.height)?;
    Ok(())
}

/// Appends a rectangle of a class.
///
/// # Errors
///
/// `Memory` where memory runs out; a part of it may stand there then.
#[tactic(auto, unfolding(crate::specs::Elements::element_text))]
pub fn bar(out: &mut List<u8>, class: &[u8], area: Area) -> Result<(), Memory>
    ensures { OnOk result (out.new ≡ out.old ++ written (page.bar class.now area ∷ [])) }
{
    put(out, b"<rect class='")?;
    put(out, class)?;
    area_text(out, area)?;
    put(out, b"/>")?;
    Ok(())
}

/// Appends the first mark of a caption.
///
/// # Errors
///
/// `Memory` where memory runs out; a part of it may stand there then.
#[tactic(auto, unfolding(crate::specs::Elements::at))]
pub(crate) fn begin(out: &mut List<u8>, class: &[u8], left: u64, top: u64) -> Result<(), Memory>
    ensures { OnOk result (out.new ≡ out.old ++ at class.now left top) }
{
    put(out, b"<text class='")?;
    put(out, class)?;
    attribute(out, b"' x='", left)?;
    attribute(out, b" y='", top)?;
    put(out, b">")?;
    Ok(())
}

/// Appends a caption of bytes of the texts, each escaped, at a place from the left and from the top.
///
/// # Errors
///
/// `Memory` where memory runs out; a part of it may stand there then.
#[tactic(auto, unfolding(crate::specs::Elements::element_text))]
pub fn caption(
    out: &mut List<u8>,
    class: &[u8],
    left: u64,
    top: u64,
    bytes: &[u8],
) -> Result<(), Memory>
    ensures { OnOk result (out.new ≡ out.old ++ written (page.caption class.now left top bytes.now ∷ [])) }
{
    begin(out, class, left, top)?;
    given(out, bytes)?;
    put(out, b"</text>")?;
    Ok(())
}

/// Appends a caption of a number, at a place from the left and from the top.
///
/// # Errors
///
/// `Memory` where memory runs out; a part of it may stand there then.
#[tactic(auto, unfolding(crate::specs::Elements::element_text))]
pub fn figure(
    out: &mut List<u8>,
    class: &[u8],
    left: u64,
    top: u64,
    value: u64,
) -> Result<(), Memory>
    ensures { OnOk result (out.new ≡ out.old ++ written (page.figure class.now left top value ∷ [])) }
{
    begin(out, class, left, top)?;
    digits(out, value)?;
    put(out, b"</text>")?;
    Ok(())
}
