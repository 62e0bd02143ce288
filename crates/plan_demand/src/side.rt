//! `least` and `most`.

ghost use Rattle.std.specs.Prelude.{◌≡◌};
ghost use Rattle.plan_demand.specs.Demands.{free, side_of};

use model_rosters::List;
use plan_meaning::Column;

/// Which bound of a code.
#[derive(Clone, Copy, Debug, PartialEq, Eq, Drop)]
pub enum Side {
    /// So many must be there.
    Least,
    /// So many may be there.
    Most,
}

/// Returns what a column says on a side, where it does.
pub(crate) fn side_of(side: Side, column: &Column) -> &Option<List<u8>>
    ensures { result.now ≡ side_of side column.now }
{
    match side {
        Side::Least => &column.least,
        Side::Most => &column.most,
    }
}

/// Returns the bound of a period of which nothing is said.
pub(crate) fn free(side: Side) -> u32
    ensures { result ≡ free side }
{
    match side {
        Side::Least => 0,
        Side::Most => 64,
    }
}
