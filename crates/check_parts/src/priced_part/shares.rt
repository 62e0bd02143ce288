//! What the trees, the cells and the cuts bring to a value.

ghost use Rattle.std.specs.Prelude.{◌≡◌, ◌≤◌, ◌*◌, ◌^◌, ◌*ℤ◌, pos, All, IfSome, length};
ghost use Rattle.model_rosters.specs.Coverage.{penalty};
ghost use Rattle.model_rosters.specs.Folds.{sum_z};
ghost use Rattle.model_rosters.specs.Limits.{IsLimitedCell};
ghost use Rattle.model_rosters.specs.PriceLimits.{IsMult, AreRising, FitPrices, nonzero};
ghost use Rattle.model_rosters.specs.Reduced.{cell_prices, cut_prices};
ghost use Rattle.model_rosters.specs.SoundInstance.{IsSoundInstance};
ghost use Rattle.model_rosters.specs.Sums.{Within};
ghost use Rattle.law_bounds.specs.Lagrangian.{trees_share, cell_at, cell_share, share_of, cut_share, lagrangian_sum};

use model_rosters::{Cell, Cut, Instance, Mult, Side, penalty};

/// Returns the least that the trees of a roster bring, of at least `fewest` and at most `most`
/// trees, each at least the least reduced cost; 0 where the day has no tree.
fn trees_share(fewest: u32, most: u32, least: Option<i128>) -> i128
    requires fewest { fewest ≤ 64 }
    requires most { most ≤ 64 }
    requires least { IfSome least (Within (2 ^ 110)) }
    ensures value { result ≡ trees_share fewest most least }
    ensures within { Within (2 ^ 116) result }
{
    match least {
        Some(sum) if sum < 0 => i128::from(most) * sum,
        Some(sum) => i128::from(fewest) * sum,
        None => 0,
    }
}

/// Returns the price for each of so many employees.
fn price_of(price: i128, count: u32) -> i128
    requires price { Within (2 ^ 80) price }
    requires count { count ≤ 64 }
    ensures value { result ≡ price *ℤ pos count }
    ensures within { Within (2 ^ 86) result }
{
    price * i128::from(count)
}

/// Returns the penalty of so many employees at the cell, in units of `1 / d`.
fn penalty_of(d: u64, cell: &Cell, count: u32) -> i128
    requires d { d ≤ 2 ^ 30 }
    requires limited { IsLimitedCell cell.now }
    requires count { count ≤ 64 }
    ensures value { result ≡ pos d *ℤ pos (penalty cell.now count) }
    ensures within { Within (2 ^ 64) result }
{
    i128::from(d * penalty(cell, count))
}

/// Returns what this many employees at the cell bring: the penalty, and the price for each.
fn cell_at(d: u64, cell: &Cell, price: i128, count: u32) -> i128
    requires d { d ≤ 2 ^ 30 }
    requires limited { IsLimitedCell cell.now }
    requires price { Within (2 ^ 80) price }
    requires count { count ≤ 64 }
    ensures value { result ≡ cell_at d (record { cell = cell.now; price = price }) count }
    ensures within { Within (2 ^ 87) result }
{
    penalty_of(d, cell, count) + price_of(price, count)
}

/// Returns the least that the cell brings, over the counts from its floor to the lesser of its
/// ceiling and `most`.
fn cell_share(d: u64, cell: &Cell, price: i128, most: u32) -> i128
    requires d { d ≤ 2 ^ 30 }
    requires limited { IsLimitedCell cell.now }
    requires price { Within (2 ^ 80) price }
    requires most { most ≤ 64 }
    ensures value { result ≡ cell_share d most (record { cell = cell.now; price = price }) }
    ensures within { Within (2 ^ 87) result }
{
    let mut least = cell_at(d, cell, price, cell.floor);
    for further in 0..cell.ceiling.min(most).saturating_sub(cell.floor) {
        least = least.min(cell_at(d, cell, price, cell.floor + (further + 1)));
    }
    least
}

/// Returns the sum of the cells' shares.
fn cells_share(d: u64, cells: &[Cell], prices: &[i128], most: u32) -> i128
    requires d { d ≤ 2 ^ 30 }
    requires few { length cells.now ≤ 768 }
    requires limited { All IsLimitedCell cells.now }
    requires same { length prices.now ≡ length cells.now }
    requires small { All (Within (2 ^ 80)) prices.now }
    requires most { most ≤ 64 }
    ensures value { result ≡ sum_z (cell_share d most) (cell_prices cells.now prices.now) }
    ensures within { Within (2 ^ 87 * length cells.now) result }
{
    let mut sum = 0;
    for (place, cell) in cells.iter().enumerate() {
        sum += cell_share(d, cell, prices[place], most);
    }
    sum
}

/// Returns what the cut brings at least, at this multiplier.
fn share_of(cut: &Cut, mult: i128) -> i128
    requires b { cut.now.b ≤ 63 }
    requires mult { Within (2 ^ 80) mult }
    ensures value { result ≡ share_of cut.now.side mult cut.now.b }
    ensures within { Within (2 ^ 87) result }
{
    match cut.side {
        Side::Low => -price_of(mult, cut.b),
        Side::High => price_of(mult, cut.b + 1),
    }
}

/// Returns the sum of the cuts' shares, of which those without a multiplier are 0.
fn cuts_share(mult: &[Mult], cuts: &[Cut]) -> i128
    requires few { nonzero mult.now ≤ 1500 }
    requires mults { All (IsMult (length cuts.now)) mult.now }
    requires rising { AreRising mult.now }
    requires small { All (λ c. c.b ≤ 63) cuts.now }
    ensures value { result ≡ sum_z cut_share (cut_prices 1 cuts.now mult.now) }
    ensures within { Within (2 ^ 87 * nonzero mult.now) result }
{
    let mut sum = 0;
    for m in mult {
        sum += share_of(&cuts[m.cut as usize - 1], m.value);
    }
    sum
}

/// Returns the shares of the trees, the cells and the cuts together.
pub fn lagrangian_sum(
    instance: &Instance,
    d: u64,
    cell: &[i128],
    mult: &[Mult],
    cuts: &[Cut],
    least: Option<i128>,
) -> i128
    requires sound { IsSoundInstance instance.now }
    requires fit { FitPrices instance.now d cell.now mult.now cuts.now }
    requires small { All (λ c. c.b ≤ 63) cuts.now }
    requires least { IfSome least (Within (2 ^ 110)) }
    ensures value { result ≡ lagrangian_sum instance.now (record { d = d; cell = cell.now; mult = mult.now })
        cuts.now least }
    ensures within { Within (2 ^ 117) result }
{
    let most = instance.heads_max;
    let trees = trees_share(instance.heads_min, most, least);
    let cells = cells_share(d, instance.cells.as_slice(), cell, most);
    let cuts = cuts_share(mult, cuts);
    trees + cells + cuts
}
