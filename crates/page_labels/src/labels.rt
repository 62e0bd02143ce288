//! What a text says.

ghost use Rattle.std.specs.Prelude.{◌≡◌, ◌==◌, [], None};
ghost use Rattle.std.specs.List.{list_any};
ghost use Rattle.page_labels.specs.Labels.{
  code_words,
  decimals_of,
  group_words,
  has_code,
  has_group,
  has_paid,
  has_shift,
  is_paid,
  nothing,
  shift_name,
};

use crate::clock::Clock;
use model_rosters::List;
use std::alloc::Global;

/// What a code is called.
#[derive(Debug, PartialEq, Eq, Drop)]
pub struct CodeLabel {
    /// The position of the code in the grammar's `codes`.
    pub code: u8,
    /// The words, 1 to 60 bytes.
    pub words: List<u8>,
}

/// What a group of employees is called.
#[derive(Debug, PartialEq, Eq, Drop)]
pub struct GroupLabel {
    /// The number of the group, from 1.
    pub group: u8,
    /// The words, 1 to 60 bytes.
    pub words: List<u8>,
}

/// Whether the periods of a code that is no work count as paid.
#[derive(Clone, Copy, Debug, PartialEq, Eq, Drop)]
pub struct PaidCode {
    /// The position of the code in the grammar's `codes`.
    pub code: u8,
    /// Whether its periods count as paid.
    pub paid: bool,
}

/// Who works a shift.
#[derive(Debug, PartialEq, Eq, Drop)]
pub struct ShiftLabel {
    /// The number of the line that says it, from 1.
    pub line: u32,
    /// The number of the shift, from 1: its place in the roster.
    pub number: u32,
    /// The number of the shift's group, from 1, or 0 on a day without groups.
    pub group: u8,
    /// The byte of each period's code, as the roster has them.
    pub word: List<u8>,
    /// The name, 1 to 60 bytes.
    pub name: List<u8>,
}

/// What a labels text says.
#[derive(Debug, PartialEq, Eq, Drop)]
pub struct Labels {
    /// The title of the day, or nothing.
    pub title: List<u8>,
    /// When periods begin, where it is said.
    pub clock: Option<Clock>,
    /// The codes that are called by words, in the order of their lines.
    pub codes: List<CodeLabel>,
    /// The groups that are called by words, in the order of their lines.
    pub groups: List<GroupLabel>,
    /// What costs are counted in, or nothing.
    pub money: List<u8>,
    /// The codes of which it is said whether they count as paid, in the order of their lines.
    pub paid: List<PaidCode>,
    /// The byte of the code that is time off, where it is said.
    pub off: Option<u8>,
    /// The shifts that are named, in the order of their lines.
    pub shifts: List<ShiftLabel>,
    /// How many decimals amounts have, 0 to 4, where it is said; see [`decimals_of`].
    pub decimals: Option<u8>,
}

/// Returns what an empty text says.
pub fn no_labels(alloc: Global) -> Labels
    ensures { result ≡ nothing }
{
    Labels {
        title: List::new(alloc),
        clock: None,
        codes: List::new(alloc),
        groups: List::new(alloc),
        money: List::new(alloc),
        paid: List::new(alloc),
        off: None,
        shifts: List::new(alloc),
        decimals: None,
    }
}

/// Returns whether a code is called by words.
pub(crate) fn has_code(labels: &[CodeLabel], code: u8) -> bool
    ensures { result ≡ has_code labels.now code }
{
    labels.iter().any(|label| label.code == code)
}

/// Returns whether a group is called by words.
pub(crate) fn has_group(labels: &[GroupLabel], group: u8) -> bool
    ensures { result ≡ has_group labels.now group }
{
    labels.iter().any(|label| label.group == group)
}

/// Returns whether it is said of a code whether it counts as paid.
pub(crate) fn has_paid(codes: &[PaidCode], code: u8) -> bool
    ensures { result ≡ has_paid codes.now code }
{
    codes.iter().any(|label| label.code == code)
}

/// Returns whether the periods of a code are said to count as paid.
pub(crate) fn is_paid(codes: &[PaidCode], code: u8) -> bool
    ensures { result ≡ is_paid codes.now code }
{
    codes.iter().any(|label| label.code == code && label.paid)
}

/// Returns whether the shift with a number is named.
pub(crate) fn has_shift(labels: &[ShiftLabel], number: u32) -> bool
    ensures { result ≡ has_shift labels.now number }
{
    labels.iter().any(|label| label.number == number)
}

/// Returns how many decimals amounts have, 0 to 4: 0 where nothing is said.
pub fn decimals_of(labels: &Labels) -> u8
    ensures { result ≡ decimals_of labels.now }
{
    match labels.decimals {
        Some(decimals) => decimals,
        None => 0,
    }
}

/// Returns the words for a code, or nothing where it has none.
pub fn code_words(labels: &[CodeLabel], code: u8) -> &[u8]
    ensures { result.now ≡ code_words labels.now code }
{
    for label in labels {
        if label.code == code {
            return label.words.as_slice();
        }
    }
    b""
}

/// Returns the words for a group, or nothing where it has none.
pub fn group_words(labels: &[GroupLabel], group: u8) -> &[u8]
    ensures { result.now ≡ group_words labels.now group }
{
    for label in labels {
        if label.group == group {
            return label.words.as_slice();
        }
    }
    b""
}

/// Returns the name of the shift with a number, or nothing where it has none.
pub fn shift_name(labels: &[ShiftLabel], number: u32) -> &[u8]
    ensures { result.now ≡ shift_name labels.now number }
{
    for label in labels {
        if label.number == number {
            return label.name.as_slice();
        }
    }
    b""
}
