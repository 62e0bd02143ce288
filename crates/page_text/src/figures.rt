//! What a roster costs.

/// What a roster costs.
#[derive(Clone, Copy, Debug, PartialEq, Eq, Drop)]
pub struct Figures {
    /// What the roster costs, or none where there is no roster.
    pub cost: Option<u64>,
    /// No allowed roster costs less than the bound; none says that no roster is allowed.
    pub bound: Option<u64>,
    /// The sum of the shifts' prices.
    pub paid: u64,
    /// The sum of the penalties.
    pub penalty: u64,
}
