//! What a page shows.

use crate::changes::Changes;
use crate::row::Row;
use crate::{CellCover, Figures};
use model_rosters::List;
use page_parts::Money;
use page_tables::Tables;

/// A text from which a page was made.
#[derive(Debug, Drop)]
pub struct ReadText {
    /// What the text is, as `RULES`.
    pub name: List<u8>,
    /// Its SHA-256 in hexadecimal digits.
    pub sum: List<u8>,
}

/// What a page shows.
#[derive(Debug, Drop)]
pub struct Content {
    /// The title of the day, or nothing.
    pub title: List<u8>,
    /// For each code what it is called, or nothing.
    pub words: List<List<u8>>,
    /// What amounts are counted in, and how many decimals they have.
    pub money: Money,
    /// The byte of the code that is time off, where one is named.
    pub off: Option<u8>,
    /// For each period the time that stands on the axes where it begins, or nothing, and behind them when the
    /// last one ends; none at all where the periods stand there by their numbers.
    pub times: List<List<u8>>,
    /// Whether a report states the roster, and not a proof.
    pub stated: bool,
    /// What the roster costs.
    pub figures: Figures,
    /// How much differs from an old roster, where there is one.
    pub changes: Option<Changes>,
    /// The rows of the chart of shifts, at most 64.
    pub rows: List<Row>,
    /// For each row the text of its derivation.
    pub derivations: List<List<u8>>,
    /// How each cell is covered; nothing where there is no roster.
    pub columns: List<CellCover>,
    /// The tables and lists.
    pub tables: Tables,
    /// The texts that were read, in order.
    pub read: List<ReadText>,
}
