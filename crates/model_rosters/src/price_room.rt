//! The room for prices.

ghost use Rattle.std.specs.Prelude.{◌≡◌, ◌≤◌, ◌*◌, ◌^◌, All, IfOk, length, vec_capacity};
ghost use Rattle.model_rosters.specs.ArcEntries.{AreSorted, AreMarked, IsEntryWithin};
ghost use Rattle.model_rosters.specs.Sums.{Within};

use crate::arc_prices::{ArcPrice, MARKS, arc_price, set_arcs, set_paid};
use crate::fill::{set_letters, set_rules};
use crate::grammar::ArcKey;
use crate::instance::{Cut, Instance, Mult, Prices};
use crate::memory::Memory;
use crate::prices::LetterPrice;
use std::alloc::Global;

/// The prices under which the sum of a tree is its reduced cost. They are set again and again in
/// memory that is taken once.
#[derive(Drop)]
pub struct PriceRoom {
    periods: usize,
    codes: usize,
    most: usize,
    letters: Vec<i128>,
    rules: Vec<i128>,
    arcs: Vec<ArcPrice>,
    marks: Vec<bool>,
    ghost short: { periods ≤ 96 },
    ghost whole: { length letters.items ≡ codes * periods },
    ghost small_letters: { All (Within (2 ^ 96)) letters.items },
    ghost small_rules: { All (Within (2 ^ 96)) rules.items },
    ghost sorted_arcs: { AreSorted arcs.items },
    ghost marked_arcs: { AreMarked marks.items arcs.items },
    ghost small_arcs: { All (IsEntryWithin (2 ^ 96)) arcs.items },
    ghost room: { most ≤ vec_capacity arcs },
}

impl PriceRoom {
    ghost use Rattle.model_rosters.specs.Agreement.{Agree};
    ghost use Rattle.model_rosters.specs.PriceLimits.{FitPrices, AreWide};
    ghost use Rattle.model_rosters.specs.PriceRooms.{price_view, IsRoomFor};
    ghost use Rattle.model_rosters.specs.Reduced.{
      cell_prices,
      cut_prices,
      cuts_paid,
      view_of,
      reduced_view,
    };
    ghost use Rattle.model_rosters.specs.SoundInstance.{IsSoundInstance};

    /// Returns a room for prices of instances with as many periods, codes and rules, and for this many
    /// multipliers. It takes all its memory here.
    ///
    /// # Errors
    ///
    /// `Memory` where memory runs out; nothing is kept then.
    pub fn for_cuts(alloc: Global, instance: &Instance, most: usize) -> Result<PriceRoom, Memory>
        requires { IsSoundInstance instance.now }
        ensures room { IfOk result (λ r. IsRoomFor r instance.now) }
        ensures most { IfOk result (λ r. r.most ≡ most) }
    {
        let periods = instance.grammar.periods as usize;
        let codes = instance.grammar.codes.len();
        let letters = zeros(alloc, codes * periods)?;
        let rules = zeros(alloc, instance.grammar.rules.len())?;
        let marks = no_marks(alloc)?;
        let arcs = Vec::with_capacity(alloc, most)?;
        Ok(PriceRoom {
            periods,
            codes,
            most,
            letters,
            rules,
            arcs,
            marks,
        })
    }

    /// Holds these prices, in place of the ones before. Takes no memory.
    ///
    /// Afterwards the sum of a tree of the day is its reduced cost at the path of cuts.
    pub fn set(&mut self, instance: &Instance, prices: &Prices, cuts: &[Cut])
        requires sound { IsSoundInstance instance.now }
        requires room { IsRoomFor self.old instance.now }
        requires few { length prices.now.mult ≤ self.old.most }
        requires fit { FitPrices instance.now prices.now.d prices.now.cell prices.now.mult cuts.now }
        ensures room { IsRoomFor self.new instance.now }
        ensures most { self.new.most ≡ self.old.most }
        ensures value { Agree instance.now.grammar (price_view self.new)
            (reduced_view instance.now prices.now cuts.now) }
    {
        self.set_parts(
            instance,
            prices.d,
            prices.cell.as_slice(),
            prices.mult.as_slice(),
            cuts,
        );
    }

    /// Holds the prices that these parts make: a denominator of 1 to 2^30, a price for each cell
    /// within plus or minus 2^80, and multipliers of cuts, each 0 to 2^80 and at most 1,500 of them not
    /// 0, by rising numbers of cuts. Takes no memory.
    pub fn set_parts(
        &mut self,
        instance: &Instance,
        d: u64,
        cell: &[i128],
        mult: &[Mult],
        cuts: &[Cut],
    )
        requires sound { IsSoundInstance instance.now }
        requires room { IsRoomFor self.old instance.now }
        requires few { length mult.now ≤ self.old.most }
        requires fit { FitPrices instance.now d cell.now mult.now cuts.now }
        ensures room { IsRoomFor self.new instance.now }
        ensures most { self.new.most ≡ self.old.most }
        ensures value { Agree instance.now.grammar (price_view self.new)
            (view_of instance.now.grammar d (cell_prices instance.now.cells cell.now)
            (cut_prices 1 cuts.now mult.now)) }
    {
        set_rules(
            &mut self.rules,
            instance.grammar.rules.as_slice(),
            u128::from(d),
        );
        set_letters(
            &mut self.letters,
            self.periods,
            instance.cells.as_slice(),
            cell,
        );
        set_arcs(&mut self.arcs, &mut self.marks, mult, cuts);
    }

    /// Holds wide prices: a denominator up to 2^80, a price for each cell, and for each cut what a
    /// tree with its arc is paid, each within plus or minus 2^80. Takes no memory.
    ///
    /// The room must have been made for as many multipliers as there are cuts.
    pub fn set_wide(
        &mut self,
        instance: &Instance,
        d: u128,
        cell: &[i128],
        paid: &[i128],
        cuts: &[Cut],
    )
        requires sound { IsSoundInstance instance.now }
        requires room { IsRoomFor self.old instance.now }
        requires few { length cuts.now ≤ self.old.most }
        requires fit { AreWide instance.now d cell.now paid.now cuts.now }
        ensures room { IsRoomFor self.new instance.now }
        ensures most { self.new.most ≡ self.old.most }
        ensures value { Agree instance.now.grammar (price_view self.new)
            (view_of instance.now.grammar d (cell_prices instance.now.cells cell.now)
            (cuts_paid cuts.now paid.now)) }
    {
        set_rules(&mut self.rules, instance.grammar.rules.as_slice(), d);
        set_letters(
            &mut self.letters,
            self.periods,
            instance.cells.as_slice(),
            cell,
        );
        set_paid(&mut self.arcs, &mut self.marks, cuts, paid);
    }
}

/// Returns marks of arcs, none of them set.
fn no_marks(alloc: Global) -> Result<Vec<bool>, Memory> {
    Ok(Vec::from_elem(alloc, false, MARKS)?)
}

/// Returns this many zeros.
fn zeros(alloc: Global, count: usize) -> Result<Vec<i128>, Memory>
    ensures length { IfOk result (λ v. length v.items ≡ count) }
    ensures small { IfOk result (λ v. All (Within (2 ^ 96)) v.items) }
{
    Ok(Vec::from_elem(alloc, 0, count)?)
}

impl LetterPrice for PriceRoom {
    ghost use Rattle.model_rosters.specs.PriceRooms.{price_view};
    ghost use Rattle.model_rosters.specs.RoomLaws.{view-small};

    ghost view = { price_view };

    /// Returns the price of the letter that is held, none beyond the room's letters.
    fn letter(&self, code: u8, period: u8) -> Option<i128> {
        let place = code as usize * self.periods + (period as usize).saturating_sub(1);
        self.letters.get(place).copied()
    }

    /// Returns the price of the arc that is held, 0 where no cut is on it.
    fn arc(&self, arc: &ArcKey) -> i128 {
        arc_price(self.arcs.as_slice(), self.marks.as_slice(), arc)
    }

    /// Returns the arcs with cuts and their prices.
    fn arc_prices(&self) -> Option<&[ArcPrice]> {
        Some(self.arcs.as_slice())
    }

    /// Returns the price of the rule that is held, 0 where there is no rule of this number.
    fn rule(&self, rule: u8) -> i128 {
        let Some(place) = (rule as usize).checked_sub(1) else {
            return 0;
        };
        match self.rules.get(place) {
            Some(price) => *price,
            None => 0,
        }
    }

    ghost all_within = { λ s. view-small s.periods s.letters.items s.rules.items s.arcs.items s.small_letters
        s.small_rules s.sorted_arcs s.small_arcs };
}
