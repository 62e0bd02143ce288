//! The elements of a page that shows a roster, and how they are written: marks of the page's own, bytes of
//! the texts, each escaped, numbers, amounts, rectangles and captions; the places of periods and rows; the
//! colours of codes.
#![tactic(auto)]

mod area;
mod decimals;
mod element;
mod label;
mod laws;
mod money;
mod names;
mod paint;
mod sheet;

pub use area::Area;
pub use decimals::units;
pub use element::{bar, caption, figure, given, marks, number};
pub use label::{labelled, labelled_text};
pub use laws::{amounts_are_units, bytes_are_escaped, names_end_between, paints_stay};
pub use money::{Money, amount, labelled_amount, unit_behind};
pub use names::{name_caption, text_width};
pub use paint::paint_of;
pub use sheet::{PeriodAxis, axis_of, chart_width, left_of, middle_of, right_of, top_of};
