//! The page that shows a roster: its rows, bars and letters at their periods, how each code is covered, what
//! the roster costs, and how each shift is derived.
#![tactic(auto)]

mod changes;
mod chart;
mod column;
mod content;
pub mod costs;
mod figures;
mod ink;
mod laws;
mod page;
mod roster_chart;
mod row;
mod style;

pub use changes::Changes;
pub use column::{CellCover, add_columns};
pub use content::{Content, ReadText};
pub use figures::Figures;
pub use laws::{marks_stay, page_ends};
pub use page::write_page;
pub use roster_chart::step_of;
pub use row::Row;
