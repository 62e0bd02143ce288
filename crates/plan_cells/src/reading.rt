//! What was read of a line.

ghost use Rattle.std.specs.Prelude.{◌≡◌, [], ◌∷◌, ◌++◌, IfOk, OnOk};
ghost use Rattle.text_lines.specs.Words.{words};
ghost use Rattle.plan_cells.specs.Cells.{before_at, byte_at, cell_text, closed_at, ended, joined, kept, last_at, marked_at, moved, past_at, plain_at, stray_at, strayed};
ghost use Rattle.plan_cells.specs.Steps.{Reads};

use crate::fault::CellFault;
use model_rosters::{List, Memory};
use std::alloc::Global;
use text_lines::{Words, put, word};

/// Where the next byte of a line stands.
#[derive(Clone, Copy, Debug, PartialEq, Eq, Drop)]
pub enum Place {
    /// Before a cell.
    Before,
    /// In a cell without quotation marks.
    Plain,
    /// In a cell in quotation marks.
    Marked,
    /// Right behind a second quotation mark.
    Closed,
    /// Behind a cell in quotation marks, and spaces.
    Past,
    /// In what stands behind a cell in quotation marks.
    Stray,
}

/// What was read of a line.
#[derive(Debug, Drop)]
pub struct Reading {
    /// Where the next byte stands.
    pub place: Place,
    /// The bytes of the cell that is not over.
    pub cell: List<u8>,
    /// The texts of the cells that are over.
    pub cells: List<List<u8>>,
}

// Takes all words, with one space between them.
fn joined(alloc: Global, words: &mut Words<'_>) -> Result<List<u8>, Memory>
    ensures { IfOk result (λ text. text ≡ joined words.old) }
{
    let mut out = List::new(alloc);
    let Some(first) = words.next() else {
        return Ok(out);
    };
    put(&mut out, first)?;
    while let Some(next) = words.next() {
        word(&mut out, next)?;
    }
    Ok(out)
}

/// Returns the words of a cell, with one space between them.
///
/// # Errors
///
/// `Memory` where memory runs out.
pub(crate) fn cell_text(alloc: Global, bytes: &[u8]) -> Result<List<u8>, Memory>
    ensures { IfOk result (λ text. text ≡ cell_text bytes.now) }
{
    let mut words = Words::new(bytes);
    joined(alloc, &mut words)
}

impl Reading {
    // Keeps one more byte of the cell.
    fn keep(&mut self, place: Place, byte: u8) -> Result<(), Memory>
        ensures { OnOk result (self.new ≡ kept place byte self.old) }
    {
        self.cell.push(byte)?;
        self.place = place;
        Ok(())
    }

    // Begins what stands behind a cell in quotation marks.
    fn stray(&mut self, byte: u8) -> Result<(), Memory>
        ensures { OnOk result (self.new ≡ strayed byte self.old) }
    {
        self.cell.truncate(0);
        self.cell.push(byte)?;
        self.place = Place::Stray;
        Ok(())
    }

    // Ends the cell.
    fn end(&mut self, alloc: Global) -> Result<(), Memory>
        ensures { OnOk result (self.new ≡ ended self.old) }
    {
        let text = cell_text(alloc, self.cell.as_slice())?;
        self.cells.push(text)?;
        self.cell.truncate(0);
        self.place = Place::Before;
        Ok(())
    }

    // Takes a byte before a cell.
    #[tactic(auto, unfolding(crate::specs::Cells::before_at))]
    fn before(&mut self, alloc: Global, separator: u8, byte: u8) -> Result<(), CellFault>
        ensures { Reads (λ _. (self.new)) result (before_at separator self.old byte) }
    {
        if byte == b' ' {
            return Ok(());
        }
        if byte == separator {
            return Ok(self.end(alloc)?);
        }
        if byte == b'"' {
            self.place = Place::Marked;
            return Ok(());
        }
        Ok(self.keep(Place::Plain, byte)?)
    }

    // Takes a byte in a cell without quotation marks.
    #[tactic(auto, unfolding(crate::specs::Cells::plain_at))]
    fn plain(&mut self, alloc: Global, separator: u8, byte: u8) -> Result<(), CellFault>
        ensures { Reads (λ _. (self.new)) result (plain_at separator self.old byte) }
    {
        if byte == separator {
            return Ok(self.end(alloc)?);
        }
        Ok(self.keep(Place::Plain, byte)?)
    }

    // Takes a byte in a cell in quotation marks.
    #[tactic(auto, unfolding(crate::specs::Cells::marked_at))]
    fn marked(&mut self, byte: u8) -> Result<(), CellFault>
        ensures { Reads (λ _. (self.new)) result (marked_at self.old byte) }
    {
        if byte == b'"' {
            self.place = Place::Closed;
            return Ok(());
        }
        Ok(self.keep(Place::Marked, byte)?)
    }

    // Takes a byte behind a cell in quotation marks.
    #[tactic(auto, unfolding(crate::specs::Cells::past_at))]
    fn past(&mut self, alloc: Global, separator: u8, byte: u8) -> Result<(), CellFault>
        ensures { Reads (λ _. (self.new)) result (past_at separator self.old byte) }
    {
        if byte == separator {
            return Ok(self.end(alloc)?);
        }
        if byte == b' ' {
            self.place = Place::Past;
            return Ok(());
        }
        Ok(self.stray(byte)?)
    }

    // Takes a byte right behind a second quotation mark.
    #[tactic(auto, unfolding(crate::specs::Cells::closed_at))]
    fn closed(&mut self, alloc: Global, separator: u8, byte: u8) -> Result<(), CellFault>
        ensures { Reads (λ _. (self.new)) result (closed_at separator self.old byte) }
    {
        if byte == b'"' {
            return Ok(self.keep(Place::Marked, byte)?);
        }
        self.past(alloc, separator, byte)
    }

    // Takes a byte of what stands behind a cell in quotation marks.
    #[tactic(auto, unfolding(crate::specs::Cells::stray_at))]
    fn strayed(&mut self, alloc: Global, separator: u8, byte: u8) -> Result<(), CellFault>
        ensures { Reads (λ _. (self.new)) result (stray_at separator self.old byte) }
    {
        if byte == separator {
            let word = cell_text(alloc, self.cell.as_slice())?;
            return Err(CellFault::Behind { word });
        }
        Ok(self.keep(Place::Stray, byte)?)
    }

    /// Takes a byte of the line.
    ///
    /// # Errors
    ///
    /// `Behind` where something behind a cell in quotation marks is over. `Memory` may come at any time.
    pub(crate) fn take(&mut self, alloc: Global, separator: u8, byte: u8) -> Result<(), CellFault>
        ensures { Reads (λ _. (self.new)) result (byte_at separator self.old byte) }
    {
        match self.place {
            Place::Before => self.before(alloc, separator, byte),
            Place::Plain => self.plain(alloc, separator, byte),
            Place::Marked => self.marked(byte),
            Place::Closed => self.closed(alloc, separator, byte),
            Place::Past => self.past(alloc, separator, byte),
            Place::Stray => self.strayed(alloc, separator, byte),
        }
    }

    /// Ends the line, and gives the texts of its cells.
    ///
    /// # Errors
    ///
    /// `Unclosed` within quotation marks, `Behind` in what stands behind some. `Memory` may come at any time.
    pub(crate) fn finish(self, alloc: Global, separator: u8) -> Result<List<List<u8>>, CellFault>
        ensures { Reads (λ cells. cells) result (last_at separator self.place self) }
    {
        let Reading { place, cell, cells } = self;
        let mut cells = cells;
        let text = cell_text(alloc, cell.as_slice())?;
        match place {
            Place::Before if separator == b' ' => {}
            Place::Before => cells.push(List::new(alloc))?,
            Place::Marked => return Err(CellFault::Unclosed),
            Place::Stray => return Err(CellFault::Behind { word: text }),
            Place::Plain | Place::Closed | Place::Past => cells.push(text)?,
        }
        Ok(cells)
    }
}
