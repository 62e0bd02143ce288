//! A row of the chart of shifts.

ghost use Rattle.std.specs.Prelude.{◌≡◌, ◌≤◌, max, length};
ghost use Rattle.page_text.specs.Inputs.{longest};

use model_rosters::List;
use page_parts::text_width;

/// A row of the chart of shifts.
#[derive(Debug, PartialEq, Eq, Drop)]
pub struct Row {
    /// The number of the shift in the certificate, from 1; where equal shifts have one row, the least.
    pub number: u32,
    /// The number of the employees' group, from 1, or 0 on a day without groups.
    pub group: u8,
    /// Who works the shift, where it is said, else what the employees' group is called, or nothing on a day
    /// without groups.
    pub name: List<u8>,
    /// The byte of each period's code.
    pub word: List<u8>,
    /// What the shift costs.
    pub price: u64,
    /// How many employees have the shift.
    pub count: u32,
    /// For each period whether its letter differs from the old shift's; nothing where there is no old roster.
    pub differs: List<bool>,
}

/// Returns how wide the widest name is, in columns of one character.
pub(crate) fn longest(rows: &[Row]) -> usize
    ensures { result ≡ longest rows.now 0 }
{
    let mut most = 0;
    for row in rows {
        most = most.max(text_width(row.name.as_slice()));
    }
    most
}
