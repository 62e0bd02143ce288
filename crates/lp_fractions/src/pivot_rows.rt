//! The rows of a tableau as whole numbers of at most 2^56 in size, their exact steps of elimination,
//! and columns as lists of their entries that are not 0.

mod column;
mod laws;
mod row;
mod step;

pub use column::{Place, entry_in};
pub use laws::row_steps_exist;
pub use row::{MOST_NUMBER, PivotRow};
pub use step::step_row;
