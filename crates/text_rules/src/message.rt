//! The line of a fault.

ghost use Rattle.std.specs.Prelude.{◌≡◌, ◌++◌, [], ◌∷◌, IfOk, OnOk};
ghost use Rattle.text_rules.specs.FaultLine.{line_of, limit_text, most_text, fault_text, fault_line};

use crate::fault::{Limit, RulesFault};
use model_rosters::{List, Memory};
use std::alloc::Global;
use text_lines::{put, put_place, write_number};

// Returns the line that a fault carries, if any.
fn line_of(fault: &RulesFault) -> Option<u32>
    ensures { result ≡ line_of fault.now }
{
    match *fault {
        RulesFault::BadByte { line }
        | RulesFault::UnknownLine { line }
        | RulesFault::BadNumber { line }
        | RulesFault::OutOfRange { line }
        | RulesFault::BadName { line }
        | RulesFault::Twice { line }
        | RulesFault::UnknownCode { line }
        | RulesFault::TooMany { line, .. }
        | RulesFault::EmptyRight { line }
        | RulesFault::NoRule { line, .. }
        | RulesFault::UnitCycle { line, .. } => Some(line),
        RulesFault::NoPeriods | RulesFault::NoStart | RulesFault::TooLong | RulesFault::Memory => {
            None
        }
    }
}

// Appends the word for what there is too much of.
#[tactic(auto, unfolding(crate::specs::FaultLine::limit_text))]
fn put_limit(out: &mut List<u8>, what: Limit) -> Result<(), Memory>
    ensures { OnOk result (out.new ≡ out.old ++ limit_text what) }
{
    match what {
        Limit::Codes => put(out, b"codes"),
        Limit::Work => put(out, b"work codes"),
        Limit::Names => put(out, b"names"),
        Limit::Rules => put(out, b"rules"),
        Limit::Right => put(out, b"symbols"),
    }
}

// The text of a fault, or of `TooMany` the words before what there is too much of.
#[tactic(auto, unfolding(crate::specs::FaultLine::fault_text))]
fn text_of(fault: &RulesFault) -> &'static str
    ensures { result.now ++ most_text fault.now ≡ fault_text fault.now }
{
    match *fault {
        RulesFault::BadByte { .. } => "bad byte",
        RulesFault::UnknownLine { .. } => "unknown line",
        RulesFault::BadNumber { .. } => "bad number",
        RulesFault::OutOfRange { .. } => "out of range",
        RulesFault::BadName { .. } => "bad name",
        RulesFault::Twice { .. } => "said twice",
        RulesFault::UnknownCode { .. } => "unknown code",
        RulesFault::TooMany { .. } => "too many ",
        RulesFault::EmptyRight { .. } => "empty right side",
        RulesFault::NoPeriods => "no periods line",
        RulesFault::NoStart => "no start line",
        RulesFault::NoRule { .. } => "a name has no rule",
        RulesFault::UnitCycle { .. } => "a name leads back to itself by one-symbol rules",
        RulesFault::TooLong => "the text is too long",
        RulesFault::Memory => "out of memory",
    }
}

// Appends what there is too much of, and the most that there may be.
fn put_most(out: &mut List<u8>, fault: &RulesFault) -> Result<(), Memory>
    ensures { OnOk result (out.new ≡ out.old ++ most_text fault.now) }
{
    let RulesFault::TooMany { what, most, .. } = *fault else {
        return Ok(());
    };
    put_limit(out, what)?;
    put(out, b", at most ")?;
    write_number(out, most as i128)
}

// Appends the line that tells a fault.
fn put_line(out: &mut List<u8>, fault: &RulesFault) -> Result<(), Memory>
    ensures { OnOk result (out.new ≡ out.old ++ fault_line fault.now) }
{
    put(out, b"rules: ")?;
    put_place(out, line_of(fault))?;
    put(out, text_of(fault).as_bytes())?;
    put_most(out, fault)?;
    out.push(b'\n')
}

/// Returns the line that tells a fault, as `rules: line 3: empty right side` with a line feed. A fault that
/// carries no line has none in the text either.
///
/// # Errors
///
/// `Memory` where memory runs out; there is no line then.
pub fn fault_line(alloc: Global, fault: &RulesFault) -> Result<List<u8>, Memory>
    ensures { IfOk result (λ text. text ≡ fault_line fault.now) }
{
    let mut out = List::new(alloc);
    put_line(&mut out, fault)?;
    Ok(out)
}
