//! What prices show at a path.

ghost use Rattle.std.specs.Prelude.{◌≡◌};
ghost use Rattle.law_bounds.specs.Priced.{IsPricedValue};
ghost use Rattle.lp_master_rows.specs.search_day.Rooms.{ArePricing, StayPricing};
ghost use Rattle.search_primal.specs.Jobs.{IsSearchedDay};
ghost use Rattle.search_primal.specs.Solutions.{CanShow};

use check_parts::value_from_least;
use lp_master_rows::Pricing;
use model_rosters::{Cut, Prices};
use search_primal::SearchedDay;

/// Returns what prices show at a path of cuts: no roster whose trees meet the cuts costs less.
pub(crate) fn shown_value(
    searched: &SearchedDay,
    prices: &Prices,
    cuts: &[Cut],
    pricing: &mut Pricing,
) -> u64
    requires searched { IsSearchedDay searched.now }
    requires pricing { ArePricing searched.now.day pricing.old }
    requires most { pricing.old.room.most ≡ 1500 }
    requires prices { CanShow searched.now.day.instance.now prices.now cuts.now }
    ensures value { IsPricedValue searched.now.day.instance.now prices.now cuts.now result }
    ensures pricing { StayPricing searched.now.day pricing.old pricing.new }
{
    let instance = searched.day.instance;
    let cell = prices.cell.as_slice();
    let mult = prices.mult.as_slice();
    pricing.room.set_parts(instance, prices.d, cell, mult, cuts);
    let least = pricing.pricer.cheapest(searched.day.graph, &pricing.room);
    value_from_least(
        instance,
        prices.d,
        cell,
        mult,
        cuts,
        least,
        searched.derives,
    )
}
