//! A basis with its memory.

use crate::basis::{Basis, BasisWorkspace, NO_COLUMN};
use crate::kernel::{InverseRow, Kernel, LOOSE};
use std::alloc::{AllocError, Global};

/// Returns so many zeros.
///
/// # Errors
///
/// `AllocError` where memory runs out.
pub fn make_zeros(alloc: Global, count: usize) -> Result<Vec<f64>, AllocError> {
    vec![in alloc; 0.0f64; count]
}

/// Returns so many zeros, and one more behind them.
///
/// # Errors
///
/// `AllocError` where memory runs out.
pub(crate) fn make_sums(alloc: Global, rows: usize) -> Result<Vec<f64>, AllocError> {
    let mut sums = make_zeros(alloc, rows)?;
    sums.push(0.0)?;
    Ok(sums)
}

/// Returns rows of zeros.
fn make_rows(alloc: Global, rows: usize) -> Result<Vec<InverseRow>, AllocError> {
    let mut made = Vec::with_capacity(alloc, rows)?;
    for _row in 0..rows {
        made.push(InverseRow {
            numbers: make_zeros(alloc, rows)?,
        })?;
    }
    Ok(made)
}

/// Returns room for a kernel, with no column.
fn make_kernel(alloc: Global, rows: usize) -> Result<Kernel, AllocError> {
    Ok(Kernel {
        rows: make_rows(alloc, rows)?,
        listed: Vec::with_capacity(alloc, rows)?,
        tight: Vec::with_capacity(alloc, rows)?,
        slots: vec![in alloc; LOOSE; rows]?,
    })
}

/// Returns an empty room for so many rows.
fn make_room(alloc: Global, rows: usize) -> Result<BasisWorkspace, AllocError> {
    Ok(BasisWorkspace {
        picks: Vec::with_capacity(alloc, rows)?,
        entering: make_zeros(alloc, rows.saturating_mul(2))?,
        row: make_zeros(alloc, rows)?,
        sums: make_sums(alloc, rows)?,
        changes: make_sums(alloc, rows)?,
        taken: vec![in alloc; false; rows]?,
        wanted: Vec::with_capacity(alloc, rows)?,
    })
}

/// Returns a kernel without room.
fn blank_kernel(alloc: Global) -> Kernel {
    Kernel {
        rows: Vec::new(alloc),
        listed: Vec::new(alloc),
        tight: Vec::new(alloc),
        slots: Vec::new(alloc),
    }
}

/// Returns no room.
fn blank_room(alloc: Global) -> BasisWorkspace {
    BasisWorkspace {
        picks: Vec::new(alloc),
        entering: Vec::new(alloc),
        row: Vec::new(alloc),
        sums: Vec::new(alloc),
        changes: Vec::new(alloc),
        taken: Vec::new(alloc),
        wanted: Vec::new(alloc),
    }
}

impl Basis {
    /// Returns a basis of a program without rows.
    pub fn blank(alloc: Global) -> Basis {
        Basis {
            kernel: blank_kernel(alloc),
            units: Vec::new(alloc),
            room: blank_room(alloc),
            work: 0,
        }
    }

    /// Becomes a basis without columns of a program of so many rows. It takes all its memory here.
    ///
    /// # Errors
    ///
    /// `AllocError` where memory runs out; nothing is said of the basis then.
    pub fn take_rows(&mut self, alloc: Global, rows: usize) -> Result<(), AllocError> {
        self.kernel = make_kernel(alloc, rows)?;
        self.units = vec![in alloc; NO_COLUMN; rows]?;
        self.room = make_room(alloc, rows)?;
        Ok(())
    }
}
