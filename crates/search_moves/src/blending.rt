//! Savings with the node's prices and noise.

ghost use Rattle.std.specs.Prelude.{◌≡◌, ◌^◌, All, length};
ghost use Rattle.model_rosters.specs.Sums.{Within};

use crate::drawing::Draws;
use crate::weighing::OUTSIDE;
use model_rosters::Cell;

/// In how many parts a price is blended, and a node's price is told.
pub(crate) const PARTS: i64 = 16;

/// How many units a blended saving has for one of cost.
pub(crate) const UNITS: u64 = 256;

/// How many values the noise of a saving has: those within one unit of cost.
const NOISES: usize = 513;

/// How the prices of a tree that comes are made.
#[derive(Clone, Copy, Drop)]
pub(crate) struct Blend {
    /// How much of a saving at a cell below its need is the node's price, 0 to 16 sixteenths.
    pub share: i64,
    /// The draws of the noise.
    pub noise: Draws,
}

/// Returns the noise at the next cell, within one unit of cost in units of 1/256.
fn drawn_noise(noise: &mut Draws) -> i64 {
    (noise.below(NOISES) as i64).saturating_sub(UNITS as i64)
}

/// Returns what one more employee saves at a cell where so many work, in units of cost; a count that comes
/// into its range, or goes out of it, is not seen.
fn plain_saving(cell: &Cell, count: u32) -> i64 {
    if count < cell.need {
        return i64::from(cell.under);
    }
    i64::from(cell.over).saturating_neg()
}

/// Returns what it is worth that one more employee brings a cell's count into its range, or out of it: more
/// than any tree costs in units of 1/256.
fn range_saving(cell: &Cell, count: u32) -> i64 {
    if count < cell.floor {
        return OUTSIDE as i64;
    }
    if count >= cell.ceiling {
        return (OUTSIDE as i64).saturating_neg();
    }
    0
}

/// Returns the saving at a cell where so many work, blended with the node's price there in sixteenths, in
/// units of 1/256.
fn blended_saving(cell: &Cell, count: u32, worth: i64, share: i64) -> i64 {
    let plain = plain_saving(cell, count).saturating_mul(PARTS);
    if count >= cell.need {
        return plain.saturating_mul(PARTS);
    }
    let own = plain.saturating_mul(PARTS.saturating_sub(share));
    own.saturating_add(worth.saturating_mul(share))
}

/// Returns a number that lies within 2^80, as each does that has 64 bits.
fn widened(number: i64) -> i128
    ensures { Within (2 ^ 80) result }
{
    i128::from(number)
}

/// Returns the node's price of a cell in sixteenths, 0 where none is known.
fn worth_at(worths: &[i64], place: usize) -> i64 {
    worths.get(place).copied().unwrap_or(0)
}

/// Returns the saving at a cell where so many work, blended with the node's price there in sixteenths, with
/// noise, in units of 1/256.
fn noisy_saving(cell: &Cell, count: u32, worth: i64, share: i64, noise: &mut Draws) -> i128
    ensures { Within (2 ^ 80) result }
{
    let saving = blended_saving(cell, count, worth, share)
        .saturating_add(range_saving(cell, count))
        .saturating_add(drawn_noise(noise));
    widened(saving)
}

/// Sets what one more employee saves at each cell, where so many work there and the node's prices are these
/// in sixteenths, blended, in units of 1/256.
pub(crate) fn set_blended(
    cells: &[Cell],
    counts: &[u32],
    worths: &[i64],
    blend: Blend,
    savings: &mut [i128],
)
    requires counts { length counts.now ≡ length cells.now }
    requires savings { length savings.old ≡ length cells.now }
    ensures length { length savings.new ≡ length savings.old }
    ensures small { All (Within (2 ^ 80)) savings.new }
{
    let mut noise = blend.noise;
    for (place, cell) in cells.iter().enumerate() {
        let worth = worth_at(worths, place);
        savings[place] = noisy_saving(cell, counts[place], worth, blend.share, &mut noise);
    }
}
