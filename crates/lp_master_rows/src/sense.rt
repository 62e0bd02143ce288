//! How a row is met, and what a unit missing or beyond costs.

ghost use Rattle.std.specs.Prelude.{◌≡◌};
ghost use Rattle.lp_master_rows.specs.NodeRows.{missing_price, beyond_price};

/// How a row is met.
#[derive(Clone, Copy, Debug, PartialEq, Eq, Drop)]
pub enum Sense {
    /// About its right side: each unit missing costs `under`, each unit beyond `over`.
    About { under: u32, over: u32 },
    /// At least its right side, where a unit missing has an artificial column.
    AtLeast,
    /// At most its right side.
    AtMost,
}

impl Sense {
    /// Returns what a unit that is missing costs, `artificial` being the cost of an artificial column.
    pub(crate) fn missing_cost(self, artificial: i64) -> i64
        ensures { result ≡ missing_price artificial self }
    {
        match self {
            Sense::About { under, over: _ } => i64::from(under),
            Sense::AtLeast => artificial,
            Sense::AtMost => 0,
        }
    }

    /// Returns what a unit beyond the right side costs, where there is a column for it.
    pub(crate) fn beyond_cost(self) -> Option<i64>
        ensures { result ≡ beyond_price self }
    {
        match self {
            Sense::About { under: _, over } => Some(i64::from(over)),
            Sense::AtLeast => Some(0),
            Sense::AtMost => None,
        }
    }
}
