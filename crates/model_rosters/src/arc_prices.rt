//! What cuts on an arc pay.

ghost use Rattle.std.specs.Prelude.{
  ℕ,
  ◌≡◌,
  ◌≤◌,
  ◌<◌,
  ◌+◌,
  ◌+ℤ◌,
  ◌↔◌,
  ◌≤ℤ◌,
  ◌^◌,
  pos,
  neg_ℤ,
  false,
  All,
  IsTrue,
  IsFalse,
  List,
  Some,
  length,
  slice_get,
  slice_index_or,
  slice_set,
  true,
  vec_capacity,
};
ghost use Rattle.std.specs.List.{insert};
ghost use Rattle.model_rosters.specs.ArcEntries.{is_before, mark_place, AreSorted, AreMarked, IsEntryWithin, IsSearched, raised};
ghost use Rattle.model_rosters.specs.Arcs.{same_arc};
ghost use Rattle.model_rosters.specs.PriceLimits.{IsMult, AreRising, nonzero};
ghost use Rattle.model_rosters.specs.Reduced.{signed, cut_prices, cuts_paid, arc_price};
ghost use Rattle.model_rosters.specs.RoomPrices.{entry_price, listed_price};
ghost use Rattle.model_rosters.specs.Sums.{Within};

use crate::grammar::ArcKey;
use crate::instance::{Cut, Mult, Side};

/// What a tree that has the arc pays, for all the cuts on it.
#[derive(Clone, Copy, Debug, Drop)]
pub struct ArcPrice {
    pub arc: ArcKey,
    pub price: i128,
}

/// Returns the price of the arc: that of its entry, or 0 where it has none.
pub(crate) fn arc_price(entries: &[ArcPrice], marks: &[bool], arc: &ArcKey) -> i128
    requires sorted { AreSorted entries.now }
    requires marked { AreMarked marks.now entries.now }
    requires small { All (IsEntryWithin (2 ^ 96)) entries.now }
    ensures value { result ≡ listed_price entries.now arc.now }
    ensures within { Within (2 ^ 96) result }
{
    if entries.is_empty() {
        return 0;
    }
    if is_unmarked(marks, arc) {
        return 0;
    }
    let place = place_of(entries, arc);
    match entries.get(place) {
        Some(entry) => entry_price(entry, arc),
        None => 0,
    }
}

/// Returns whether no entry has an arc whose mark stands where the arc's does.
fn is_unmarked(marks: &[bool], arc: &ArcKey) -> bool
    ensures { IsTrue result ↔ (slice_get marks.now (mark_place arc.now) ≡ Some false) }
{
    match marks.get(mark_place(arc)) {
        Some(mark) => !*mark,
        None => false,
    }
}

/// How many marks there are, so that few of some thousand arcs share one.
pub(crate) const MARKS: usize = 16384;

/// Returns where the mark of the arc stands.
fn mark_place(arc: &ArcKey) -> usize
    ensures { result ≡ mark_place arc.now }
{
    let suffix = arc.rule as usize * 8 + arc.suffix as usize;
    let span = arc.start as usize * 1543 + arc.len as usize * 389;
    (suffix * 16 + span + arc.part as usize * 97) % MARKS
}

/// Returns the first place from which on no entry's arc comes before this one.
fn place_of(entries: &[ArcPrice], arc: &ArcKey) -> usize
    requires { AreSorted entries.now }
    ensures { IsSearched entries.now arc.now result result }
{
    let mut low = 0;
    let mut high = entries.len();
    while low < high {
        let middle = low + (high - low) / 2;
        if is_before(&entries[middle].arc, arc) {
            low = middle + 1;
        } else {
            high = middle;
        }
    }
    low
}

/// Returns whether the first number in which the arcs differ is smaller in the first one.
fn is_before(a: &ArcKey, b: &ArcKey) -> bool
    ensures { result ≡ is_before a.now b.now }
{
    if a.rule != b.rule {
        return a.rule < b.rule;
    }
    if a.suffix != b.suffix {
        return a.suffix < b.suffix;
    }
    if a.start != b.start {
        return a.start < b.start;
    }
    if a.len != b.len {
        return a.len < b.len;
    }
    a.part < b.part
}

/// Returns what the entry says of the price of the arc.
fn entry_price(entry: &ArcPrice, arc: &ArcKey) -> i128
    requires { IsEntryWithin (2 ^ 96) entry.now }
    ensures value { result ≡ entry_price arc.now entry.now }
    ensures within { Within (2 ^ 96) result }
{
    if is_same(&entry.arc, arc) {
        entry.price
    } else {
        0
    }
}

/// Says whether an entry is the arc.
fn is_same(entry: &ArcKey, arc: &ArcKey) -> bool
    ensures { result ≡ same_arc entry.now arc.now }
{
    entry.rule == arc.rule
        && entry.suffix == arc.suffix
        && entry.start == arc.start
        && entry.len == arc.len
        && entry.part == arc.part
}

/// Sums up what each cut with a multiplier adds to the price of its arc, in place of the entries
/// before. Takes no memory.
pub(crate) fn set_arcs(
    entries: &mut Vec<ArcPrice>,
    marks: &mut Vec<bool>,
    mult: &[Mult],
    cuts: &[Cut],
)
    requires room { length mult.now ≤ vec_capacity entries.old }
    requires few { nonzero mult.now ≤ 65536 }
    requires mults { All (IsMult (length cuts.now)) mult.now }
    requires rising { AreRising mult.now }
    ensures value { (a : ArcKey) → listed_price entries.new.items a
        ≡ arc_price (cut_prices 1 cuts.now mult.now) a }
    ensures sorted { AreSorted entries.new.items }
    ensures marked { AreMarked marks.new.items entries.new.items }
    ensures small { All (IsEntryWithin (2 ^ 96)) entries.new.items }
    ensures capacity { vec_capacity entries.old ≤ vec_capacity entries.new }
{
    entries.clear();
    marks.fill(false);
    for m in mult {
        let cut = &cuts[m.cut as usize - 1];
        add(entries, marks, entry(cut, m));
    }
}

/// Sums up what each cut pays for its arc, in place of the entries before. Takes no memory.
pub(crate) fn set_paid(
    entries: &mut Vec<ArcPrice>,
    marks: &mut Vec<bool>,
    cuts: &[Cut],
    prices: &[i128],
)
    requires room { length cuts.now ≤ vec_capacity entries.old }
    requires few { length cuts.now ≤ 65536 }
    requires prices { length prices.now ≡ length cuts.now }
    requires within { All (Within (2 ^ 80)) prices.now }
    ensures value { (a : ArcKey) → listed_price entries.new.items a
        ≡ arc_price (cuts_paid cuts.now prices.now) a }
    ensures sorted { AreSorted entries.new.items }
    ensures marked { AreMarked marks.new.items entries.new.items }
    ensures small { All (IsEntryWithin (2 ^ 96)) entries.new.items }
    ensures capacity { vec_capacity entries.old ≤ vec_capacity entries.new }
{
    entries.clear();
    marks.fill(false);
    for (place, cut) in cuts.iter().enumerate() {
        add(entries, marks, paid_entry(cut, prices[place]));
    }
}

/// Adds an entry to that of the same arc, or puts it in its place. Takes no memory.
fn add(entries: &mut Vec<ArcPrice>, marks: &mut Vec<bool>, entry: ArcPrice)
    requires room { length entries.old.items < vec_capacity entries.old }
    requires sorted { AreSorted entries.old.items }
    requires marked { AreMarked marks.old.items entries.old.items }
    requires small { All (IsEntryWithin (2 ^ 96)) entries.old.items }
    requires entry { IsEntryWithin (2 ^ 80) entry }
    ensures value { (a : ArcKey) → listed_price entries.new.items a
        ≡ listed_price entries.old.items a +ℤ entry_price a entry }
    ensures sorted { AreSorted entries.new.items }
    ensures marked { AreMarked marks.new.items entries.new.items }
    ensures small { (n k : ℕ) → All (IsEntryWithin n) entries.old.items → IsEntryWithin k entry
        → All (IsEntryWithin (n + k)) entries.new.items }
    ensures length { length entries.new.items ≤ length entries.old.items + 1 }
    ensures capacity { vec_capacity entries.old ≤ vec_capacity entries.new }
{
    mark(marks, &entry.arc);
    let place = place_of(entries.as_slice(), &entry.arc);
    if has_arc(entries.as_slice(), place, &entry.arc) {
        raise(entries, place, &entry);
    } else {
        put(entries, place, entry);
    }
}

/// Returns whether the entry at the place is there and has the arc.
fn has_arc(entries: &[ArcPrice], place: usize, arc: &ArcKey) -> bool
    ensures there { IsTrue result → (place < length entries.now)
        × ((d : ArcPrice) → same_arc (slice_index_or entries.now place d).arc arc.now ≡ true) }
    ensures other { IsFalse result → (d : ArcPrice) → place < length entries.now
        → same_arc (slice_index_or entries.now place d).arc arc.now ≡ false }
{
    match entries.get(place) {
        Some(entry) => is_same(&entry.arc, arc),
        None => false,
    }
}

/// Adds the price of another entry to that of the entry at the place.
fn raise(entries: &mut Vec<ArcPrice>, place: usize, entry: &ArcPrice)
    requires there { place < length entries.old.items }
    requires small { All (IsEntryWithin (2 ^ 96)) entries.old.items }
    requires within { IsEntryWithin (2 ^ 80) entry.now }
    ensures items { (d : ArcPrice) → entries.new.items
        ≡ slice_set entries.old.items place
        (raised (slice_index_or entries.old.items place d) entry.now.price) }
    ensures capacity { vec_capacity entries.old ≤ vec_capacity entries.new }
{
    let sum = sum_of(&entries[place], entry);
    entries[place].price = sum;
}

/// Returns the sum of the prices of two entries.
fn sum_of(entry: &ArcPrice, added: &ArcPrice) -> i128
    requires entry { IsEntryWithin (2 ^ 96) entry.now }
    requires added { IsEntryWithin (2 ^ 80) added.now }
    ensures { result ≡ entry.now.price +ℤ added.now.price }
{
    entry.price + added.price
}

/// Puts an entry in its place. Takes no memory.
fn put(entries: &mut Vec<ArcPrice>, place: usize, entry: ArcPrice)
    requires room { length entries.old.items < vec_capacity entries.old }
    requires place { place ≤ length entries.old.items }
    ensures items { entries.new.items ≡ insert entries.old.items place entry }
    ensures capacity { vec_capacity entries.old ≤ vec_capacity entries.new }
{
    let _ = entries.insert(place, entry);
}

/// Sets the mark of the arc.
fn mark(marks: &mut Vec<bool>, arc: &ArcKey)
    ensures here { slice_get marks.new.items (mark_place arc.now) ≡ Some false → ⊥ }
    ensures kept { (k : ℕ) → slice_get marks.new.items k ≡ Some false
        → slice_get marks.old.items k ≡ Some false }
{
    let place = mark_place(arc);
    if place < marks.len() {
        marks[place] = true;
    }
}

/// Returns what the cut adds to the price of its arc at this multiplier.
fn entry(cut: &Cut, mult: &Mult) -> ArcPrice
    requires least { pos 0 ≤ℤ mult.now.value }
    requires most { mult.now.value ≤ℤ pos (2 ^ 80) }
    ensures value { result ≡ record { arc = cut.now.arc; price = signed cut.now.side mult.now.value } }
    ensures small { IsEntryWithin (2 ^ 80) result }
{
    ArcPrice {
        arc: cut.arc,
        price: signed(cut.side, mult.value),
    }
}

/// Returns what the cut adds to the price of its arc where a tree with the arc is paid this price.
fn paid_entry(cut: &Cut, price: i128) -> ArcPrice
    requires { Within (2 ^ 80) price }
    ensures value { result ≡ record { arc = cut.now.arc; price = neg_ℤ price } }
    ensures small { IsEntryWithin (2 ^ 80) result }
{
    ArcPrice {
        arc: cut.arc,
        price: -price,
    }
}

/// Returns a value of 0 or more with the sign of a side: with `High` it is negated.
fn signed(side: Side, value: i128) -> i128
    requires least { pos 0 ≤ℤ value }
    requires most { value ≤ℤ pos (2 ^ 80) }
    ensures value { result ≡ signed side value }
    ensures within { Within (2 ^ 80) result }
{
    match side {
        Side::Low => value,
        Side::High => -value,
    }
}
