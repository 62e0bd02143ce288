//! A basis of a linear program in floats of 64 bits: the inverse of its kernel, which is made, solved with
//! and updated. Each call returns, and beyond its bounds it answers that a number grew.
//!
//! The *kernel*: most rows of a basis have a unit column in it, and are *loose*; the others are *tight*, as
//! many as there are listed columns in the basis. Only the inverse of the square is kept that these columns
//! make with the tight rows, some 75 of 190 rows on days of 48 periods and 130 of 390 or 480 on days of 96.
//! What a loose row says follows from the listed columns' runs. A pivot replaces a column or a row of the
//! kernel, or makes it greater or less by one.
#![tactic(auto)]

mod basis;
mod column;
mod columns;
mod copying;
mod factor;
mod grown;
mod kernel;
mod making;
mod numbers;
mod pivoting;
mod products;
mod rows;
mod run;
mod solving;
mod vectors;

pub use basis::{Basis, NO_COLUMN, Position, UnitNumber, position_of};
pub use column::{Column, Standing};
pub use columns::Columns;
pub use grown::{Grown, fitting};
pub use making::make_zeros;
pub use numbers::{Entry64, LEAST_PIVOT, Price64, Value64, is_value, without_tiny};
pub use pivoting::{Exchange, Move};
pub use products::ProductWorkspace;
pub use run::{Run, Sign, entry_by_sums};
pub use vectors::{
    add_at, at, copy_items, copy_list, number_of, place_at, product_of, push_if_room, set_all,
    set_at, subtract_multiple,
};
