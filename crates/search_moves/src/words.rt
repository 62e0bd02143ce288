//! The cheapest trees of words, added to the pool.

ghost use Rattle.std.specs.Prelude.{◌≡◌, ◌≢◌, ◌<◌, [], All, IfOk, IsTrue, List as Many, OnOk, length};
ghost use Rattle.model_rosters.specs.Room.{most_uses};
ghost use Rattle.tree_cheapest.specs.Pricers.{IsMadeFor};
ghost use Rattle.model_rosters.specs.word_prices.Prices.{word_view};
ghost use Rattle.model_rosters.specs.tree_laws.DaySteps.{AreDaySteps};
ghost use Rattle.tree_pool.specs.Pools.{IsPool, PoolTree};
ghost use Rattle.lp_master_rows.specs.search_day.Days.{IsDay};
ghost use Rattle.lp_master_rows.specs.search_day.Rooms.{Grows};
ghost use Rattle.search_candidates.specs.Priced.{IsPriced};
ghost use Rattle.search_moves.specs.Tools.{AreColumns, IsFoundIn, IsPricedWith};

use check_parts::{team_at, team_count};
use lp_master_rows::Day;
use model_rosters::{List, Memory, Shift, TreeRoom, WordPrices};
use search_candidates::team_arc;
use std::alloc::Global;
use tree_cheapest::Pricer;
use tree_pool::Pool;

/// Leaves in the room the steps of a cheapest tree of a word of a group, where it has one.
fn write_group_word(
    day: &Day,
    pricer: &Pricer,
    prices: &WordPrices,
    group: u8,
    room: &mut TreeRoom,
) -> bool
    requires priced { IsPriced day.now (word_view prices.now.grammar.now prices.now.word.now) pricer.now }
    requires groups { day.now.instance.now.groups ≢ [] }
    requires room { room.old.most ≡ most_uses day.now.instance.now.grammar }
    ensures yes { IsTrue result → AreDaySteps day.now.instance.now.grammar room.new.steps }
    ensures kept { room.new.most ≡ room.old.most }
{
    let place = (group as usize).saturating_sub(1);
    if place >= team_count(day.instance) {
        return false;
    }
    let team = team_at(day.instance, place);
    let Some(arc) = day.graph.find(&team_arc(day.instance, &team)) else {
        return false;
    };
    if pricer.sum_under(day.graph, prices, arc).is_none() {
        return false;
    }
    pricer.tree_under(day.graph, prices, arc, room);
    true
}

/// Leaves in the room the steps of a cheapest tree of a word of a team, and says whether it has one. Over all
/// trees of the day the least sum is `least`.
fn write_word(
    day: &Day,
    pricer: &Pricer,
    prices: &WordPrices,
    least: Option<i128>,
    group: u8,
    room: &mut TreeRoom,
) -> bool
    requires priced { IsPricedWith day.now (word_view prices.now.grammar.now prices.now.word.now) pricer.now
        least }
    requires room { room.old.most ≡ most_uses day.now.instance.now.grammar }
    ensures yes { IsTrue result → AreDaySteps day.now.instance.now.grammar room.new.steps }
    ensures kept { room.new.most ≡ room.old.most }
{
    if !day.instance.groups.is_empty() {
        return write_group_word(day, pricer, prices, group, room);
    }
    if least.is_none() {
        return false;
    }
    pricer.tree(day.graph, prices, room);
    true
}

/// Adds to the pool a cheapest tree of a shift's word in its team, where there is one and the pool lacks it,
/// and returns its number there.
///
/// # Errors
///
/// `Memory` where memory runs out.
fn add_word(
    day: &Day,
    shift: &Shift,
    pricer: &mut Pricer,
    room: &mut TreeRoom,
    pool: &mut Pool,
) -> Result<Option<usize>, Memory>
    requires day { IsDay day.now }
    requires pricer { IsMadeFor day.now.graph.now pricer.old }
    requires room { room.old.most ≡ most_uses day.now.instance.now.grammar }
    requires pool { IsPool day.now.instance.now.grammar pool.old }
    ensures found { IfOk result (IsFoundIn pool.new) }
    ensures kept { room.new.most ≡ room.old.most }
    ensures pricer { IsMadeFor day.now.graph.now pricer.new }
    ensures pool { Grows day.now pool.old pool.new }
{
    let prices = WordPrices::new(&day.instance.grammar, shift.word.as_slice());
    let least = pricer.cheapest(day.graph, &prices);
    if !write_word(day, pricer, &prices, least, shift.group, room) {
        return Ok(None);
    }
    let column = pool.add(&day.instance.grammar, room.steps())?;
    Ok(Some(column))
}

/// Says whether the shift before a place is of the same team and has the same word.
fn is_repeated(shifts: &[Shift], place: usize, shift: &Shift) -> bool {
    match place.checked_sub(1) {
        Some(before) => match shifts.get(before) {
            Some(other) => other.group == shift.group && other.word == shift.word,
            None => false,
        },
        None => false,
    }
}

/// Returns the number of a tree of a shift's word in the pool, which is the last one where the shift before
/// it is the same; where it is not it may be added.
///
/// # Errors
///
/// `Memory` where memory runs out.
fn next_word(
    day: &Day,
    shift: &Shift,
    last: Option<usize>,
    is_again: bool,
    pricer: &mut Pricer,
    room: &mut TreeRoom,
    pool: &mut Pool,
) -> Result<Option<usize>, Memory>
    requires day { IsDay day.now }
    requires last { IsFoundIn pool.old last }
    requires pricer { IsMadeFor day.now.graph.now pricer.old }
    requires room { room.old.most ≡ most_uses day.now.instance.now.grammar }
    requires pool { IsPool day.now.instance.now.grammar pool.old }
    ensures found { IfOk result (IsFoundIn pool.new) }
    ensures kept { room.new.most ≡ room.old.most }
    ensures pricer { IsMadeFor day.now.graph.now pricer.new }
    ensures pool { Grows day.now pool.old pool.new }
{
    if is_again {
        return Ok(last);
    }
    add_word(day, shift, pricer, room, pool)
}

/// Adds a number to a list, where there is one.
///
/// # Errors
///
/// `Memory` where memory runs out.
fn push_found(columns: &mut List<usize>, column: Option<usize>) -> Result<(), Memory>
    ensures { (trees : Many PoolTree) → IsFoundIn trees column → AreColumns trees columns.old
        → OnOk result (AreColumns trees columns.new) }
{
    if let Some(column) = column {
        columns.push(column)?;
    }
    Ok(())
}

/// Adds to the pool a cheapest tree of the word of each shift in its team, where there is one, and returns
/// the trees' numbers, in the order of the shifts.
///
/// # Errors
///
/// `Memory` where memory runs out; the pricer is still one for the graph then, and the pool has its trees
/// under their numbers, and perhaps further trees of the day.
pub fn add_words(
    alloc: Global,
    day: &Day,
    shifts: &[Shift],
    pricer: &mut Pricer,
    pool: &mut Pool,
) -> Result<List<usize>, Memory>
    requires day { IsDay day.now }
    requires pricer { IsMadeFor day.now.graph.now pricer.old }
    requires pool { IsPool day.now.instance.now.grammar pool.old }
    ensures within { IfOk result (λ found. All (λ c. c < length pool.new) found) }
    ensures pricer { IsMadeFor day.now.graph.now pricer.new }
    ensures pool { Grows day.now pool.old pool.new }
{
    let mut room = TreeRoom::for_grammar(alloc, &day.instance.grammar)?;
    let mut columns = List::new(alloc);
    let mut last = None;
    for (place, shift) in shifts.iter().enumerate() {
        let is_again = is_repeated(shifts, place, shift);
        last = next_word(day, shift, last, is_again, pricer, &mut room, pool)?;
        push_found(&mut columns, last)?;
    }
    Ok(columns)
}
