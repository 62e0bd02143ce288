//! A roster as an iCalendar text (RFC 5545), which calendar programs read: an event for each stretch of a
//! shift without time off, or for each shift that works.

mod calendar;
mod date;
mod escape;
mod event;
mod fold;
mod laws;
mod mark;
mod setting;
mod words;

pub use calendar::calendar_of;
pub use date::{Date, date_of};
pub use laws::{
    escaped_values_are_texts, folds_stand_before_characters, next_day_is_one_later,
    rows_are_narrow, unescaping_gives_value_back, unfolding_gives_lines_back,
};
pub use setting::Setting;
