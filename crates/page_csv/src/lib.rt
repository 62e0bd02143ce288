//! A roster as a table of comma-separated values, which spreadsheets read: a record for each greatest stretch
//! of one code; and as an iCalendar text, which calendar programs read.
#![tactic(auto)]

mod coverage;
mod field;
mod laws;
mod piece;
mod roster_calendar;
mod row;
mod sheet;
mod table;

pub use coverage::coverage_of;
pub use field::name_of;
pub use laws::pieces_give_word_back;
pub use piece::{Piece, pieces_of};
pub use roster_calendar::{
    Date, Setting, calendar_of, date_of, escaped_values_are_texts, next_day_is_one_later,
    unescaping_gives_value_back, unfolding_gives_lines_back,
};
pub use table::table_of;
