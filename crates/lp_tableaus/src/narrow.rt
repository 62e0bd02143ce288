//! The column of the least pivot among some.

use crate::columns::Columns;
use crate::line::NumberRow;
use crate::marks::Marks;
use lp_fractions::Place;

/// The most columns among which the one of the least pivot is chosen; the rules ask for 4 and for 16.
const MOST_NOMINEES: usize = 16;

/// A wanted column with its reduced cost and the number of its entries that are not 0.
#[derive(Clone, Copy, Drop)]
pub(crate) struct Nominee {
    pub(crate) column: usize,
    pub(crate) reduced: i128,
    pub(crate) length: usize,
}

impl Nominee {
    /// Says whether the reduced cost an entry is lower than that of another one.
    fn is_lower(&self, other: &Nominee) -> bool {
        let one = self.reduced.saturating_mul(other.length as i128);
        let two = other.reduced.saturating_mul(self.length as i128);
        one < two
    }
}

/// The wanted columns of the most negative reduced cost an entry, the lowest first.
#[derive(Drop)]
pub(crate) struct Nominees {
    most: usize,
    list: [Option<Nominee>; MOST_NOMINEES],
}

/// Says whether a column comes before what a place holds.
fn comes_before(one: Option<Nominee>, place: Option<Nominee>) -> bool {
    match (one, place) {
        (Some(one), Some(held)) => one.is_lower(&held),
        (Some(_), None) => true,
        (None, _) => false,
    }
}

impl Nominees {
    /// Returns a list for so many columns, at most 16.
    pub(crate) fn new(most: usize) -> Nominees {
        Nominees {
            most,
            list: [None; MOST_NOMINEES],
        }
    }

    /// Notes a column at its place, where it is low enough.
    pub(crate) fn note(&mut self, one: Nominee) {
        let mut carried = Some(one);
        for place in self.list.iter_mut().take(self.most) {
            let held = *place;
            if comes_before(carried, held) {
                *place = carried;
                carried = held;
            }
        }
    }
}

/// A row that may leave: its right side, and the entry of the entering column.
#[derive(Clone, Copy, Drop)]
struct Leaving {
    row: usize,
    right: i128,
    entry: i128,
    stays: bool,
}

impl Leaving {
    /// Says whether the row leaves rather than another one.
    fn is_before(&self, other: &Leaving) -> bool {
        let one = self.right.saturating_mul(other.entry);
        let two = other.right.saturating_mul(self.entry);
        if one != two {
            return one < two;
        }
        if self.stays == other.stays {
            self.entry > other.entry
        } else {
            other.stays
        }
    }
}

/// A pivot, as a quotient.
#[derive(Clone, Copy, Drop)]
struct Pivot {
    entry: i128,
    own: i128,
}

impl Pivot {
    /// Says whether it is below another one.
    fn is_below(&self, other: &Pivot) -> bool {
        self.entry.saturating_mul(other.own) < other.entry.saturating_mul(self.own)
    }
}

/// Returns the entry of a column in a row.
fn entry_at(row: &[i64], places: &[Place]) -> i128 {
    let mut sum = 0i128;
    for place in places {
        if let Some(number) = row.get(place.row as usize) {
            let product = number.saturating_mul(place.value);
            sum = sum.saturating_add(i128::from(product));
        }
    }
    sum
}

/// Returns the right side of a row, which is its last number.
fn right_of(row: &[i64]) -> i128 {
    match row.last() {
        Some(right) => i128::from(*right),
        None => 0,
    }
}

/// Returns the row that leaves where a column enters.
fn leaving_row(rows: &[NumberRow], places: &[Place], marks: &Marks) -> Option<Leaving> {
    let mut best: Option<Leaving> = None;
    for (row, line) in rows.iter().enumerate() {
        let entry = entry_at(line.as_slice(), places);
        if entry > 0 {
            let next = Leaving {
                row,
                right: right_of(line.as_slice()),
                entry,
                stays: marks.holds(row),
            };
            best = match best {
                Some(least) if !next.is_before(&least) => Some(least),
                _ => Some(next),
            };
        }
    }
    best
}

/// Returns the entry of a row's basic column in the row.
fn own_entry<C: Columns>(
    columns: &C,
    rows: &[NumberRow],
    basis: &[usize],
    row: usize,
) -> Option<i128>
    requires { C.Ready (C.state columns.now) }
{
    let line = rows.get(row)?;
    let basic = *basis.get(row)?;
    if basic >= columns.count() {
        return None;
    }
    Some(entry_at(line.as_slice(), columns.places(basic)))
}

/// Returns the pivot of a column that enters.
fn pivot_of<C: Columns>(
    columns: &C,
    rows: &[NumberRow],
    basis: &[usize],
    marks: &Marks,
    column: usize,
) -> Option<Pivot>
    requires { C.Ready (C.state columns.now) }
{
    if column >= columns.count() {
        return None;
    }
    let leaving = leaving_row(rows, columns.places(column), marks)?;
    let own = own_entry(columns, rows, basis, leaving.row)?;
    Some(Pivot {
        entry: leaving.entry,
        own,
    })
}

/// Returns the column of the least pivot among those that are nominated, the first of several.
pub(crate) fn narrowest_of<C: Columns>(
    columns: &C,
    rows: &[NumberRow],
    basis: &[usize],
    marks: &Marks,
    nominees: &Nominees,
) -> Option<usize>
    requires { C.Ready (C.state columns.now) }
{
    let mut least: Option<Pivot> = None;
    let mut found = None;
    for nominee in nominees.list.iter().flatten() {
        let Some(pivot) = pivot_of(columns, rows, basis, marks, nominee.column) else {
            continue;
        };
        let is_less = match least {
            Some(least) => pivot.is_below(&least),
            None => true,
        };
        if is_less {
            least = Some(pivot);
            found = Some(nominee.column);
        }
    }
    found
}
