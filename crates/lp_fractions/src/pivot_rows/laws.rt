//! The law that each row has a step by each other row.

ghost use Rattle.lp_fractions.specs.pivot_rows.Rows.{RowStepsExist};

/// Each row of numbers has a step by each other row.
pub fn row_steps_exist()
    ensures { RowStepsExist }
{}
