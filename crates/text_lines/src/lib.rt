//! The texts of this project: lines of words and numbers.
//!
//! A text is a list of bytes. A line goes up to the next line feed, which is no part of it, or to
//! the end of the text; where a line feed ends it, one carriage return before the feed is dropped.
//! Lines count from 1, blank ones too. A `#` begins a comment, which may hold any byte. Before it
//! a line may hold printable ASCII, spaces and tabs, and its words are the longest runs of bytes
//! other than space and tab.
//!
//! A number is `0`, or digits of which the first is not `0`; below zero it has a `-` before it.
#![tactic(auto)]

mod append;
mod line;
mod lines;
mod number;
mod scan;
mod within;
mod words;

pub use append::{field, put, put_place, signed_field, word};
pub use line::{BadByte, Line};
pub use lines::{Lines, written_again};
pub use number::{NumberFault, number_again, read_natural, read_number, write_number};
pub use within::read_within;
pub use words::{Words, words_left};
