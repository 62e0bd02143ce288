//! How many work at each cell.

ghost use Rattle.std.specs.Prelude.{◌≡◌, length};

use model_rosters::Cell;

/// Says whether a word of these codes works at a cell.
pub(crate) fn works(codes: &[u8], cell: &Cell) -> bool {
    match codes.get((cell.period as usize).saturating_sub(1)) {
        Some(code) => *code == cell.code,
        None => false,
    }
}

/// Counts a word in, at each cell where it works.
pub(crate) fn count_in(cells: &[Cell], codes: &[u8], counts: &mut [u32])
    requires { length counts.old ≡ length cells.now }
    ensures { length counts.new ≡ length counts.old }
{
    for (place, cell) in cells.iter().enumerate() {
        if works(codes, cell) {
            counts[place] = counts[place].saturating_add(1);
        }
    }
}

/// Counts a word out, at each cell where it works.
pub(crate) fn count_out(cells: &[Cell], codes: &[u8], counts: &mut [u32])
    requires { length counts.old ≡ length cells.now }
    ensures { length counts.new ≡ length counts.old }
{
    for (place, cell) in cells.iter().enumerate() {
        if works(codes, cell) {
            counts[place] = counts[place].saturating_sub(1);
        }
    }
}
