//! Amounts with decimals, and how wide names are and how they end.

use model_rosters::{List, Memory};
use page_parts::{name_caption, text_width, units};
use std::alloc::Global;
use std::test::Fail;

/// Decimals, an amount in units and how it stands on a page.
const AMOUNTS: [(u8, u64, &str); 5] = [
    (0, 12, "12"),
    (2, 5, "0.05"),
    (2, 1205, "12.05"),
    (1, 0, "0.0"),
    (4, 10000, "1.0000"),
];

// Whether an amount stands so on a page.
fn is_shown(alloc: Global, decimals: u8, value: u64, text: &str) -> Result<bool, Memory> {
    let mut out = List::new(alloc);
    units(&mut out, decimals, value)?;
    Ok(out.as_slice() == text.as_bytes())
}

#[test]
fn amounts(rt: HostRuntime) -> Result<(), Fail> {
    for (decimals, value, text) in &AMOUNTS {
        assert!(rt; is_shown(rt.alloc(), *decimals, *value, text)?);
    }
    Ok(())
}

/// Names, how wide they are, and what stands of them in a chart.
const NAMES: [(&str, usize, &str); 4] = [
    ("abcdefghijklmnopqrstuvwx", 24, "abcdefghijklmnopqrstuvwx"),
    ("abcdefghijklmnopqrstuvwxy", 25, "abcdefghijklmnopqrstuvwx…"),
    ("Jörg Müller", 11, "Jörg Müller"),
    ("abcdefghijklmnopqrstuvw田", 25, "abcdefghijklmnopqrstuvw…"),
];

// Whether a name is so wide, and stands so in a chart.
fn is_named(alloc: Global, name: &str, width: usize, shown: &str) -> Result<bool, Memory> {
    let mut out = List::new(alloc);
    name_caption(&mut out, b"name", 1, 2, name.as_bytes())?;
    let mut wanted = List::new(alloc);
    wanted.extend_from_slice(b"<text class='name' x='1' y='2'>")?;
    wanted.extend_from_slice(shown.as_bytes())?;
    wanted.extend_from_slice(b"</text>")?;
    Ok(text_width(name.as_bytes()) == width && out.as_slice() == wanted.as_slice())
}

#[test]
fn names(rt: HostRuntime) -> Result<(), Fail> {
    for (name, width, shown) in &NAMES {
        assert!(rt; is_named(rt.alloc(), name, *width, shown)?);
    }
    Ok(())
}
