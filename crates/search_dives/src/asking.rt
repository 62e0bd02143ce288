//! Trees that are cheap at the float program's prices.

ghost use Rattle.std.specs.Prelude.{◌≡◌, ◌≤◌, ◌^◌, ℤ, All, IfSome, OnOk, length, unsigned_abs};
ghost use Rattle.model_rosters.specs.PriceRooms.{IsRoomFor};
ghost use Rattle.model_rosters.specs.Sums.{Within};
ghost use Rattle.lp_master_rows.specs.node_task.Tasks.{IsTask};
ghost use Rattle.search_dives.specs.Parts.{HasRooms, HoldsTree, IsQuote, CanAsk, IsProgram, IsDiving, StayTools};

use crate::descent::Descent;
use crate::least::{find_least, pooled};
use crate::others::list_others;
use crate::workspace::{DiveWorkspace, Quote};
use lp_float_programs::Q24;
use lp_master_rows::{NodeRows, NodeTask};
use model_rosters::{Memory, PriceRoom};
use std::alloc::Global;
use tree_pool::Pool;
use tree_short_order::ShortOrder;

/// The unit of a float program's prices, one in 2^24.
const KAPPA: u128 = 16_777_216;

/// A reduced cost from here on, -2^-11, is taken for none.
const CHEAPER: i128 = -8_192;

/// The greatest price of a row in size that is asked at, 2^56 in units of 2^-24.
const MOST_ROW_PRICE: i128 = 72_057_594_037_927_936;

/// The greatest price of a cell or a cut in size, 2^80: a room of prices takes none above it.
const MOST_CELL_PRICE: i128 = 1_208_925_819_614_629_174_706_176;

/// Returns the price of a row, 0 where there is none.
fn narrow(prices: &[Q24], row: usize) -> i128
    ensures { unsigned_abs result ≤ 2 ^ 56 }
{
    match prices.get(row) {
        Some(price) => i128::from(price.raw()).clamp(-MOST_ROW_PRICE, MOST_ROW_PRICE),
        None => 0,
    }
}

/// Copies the prices of rows.
fn copy_prices(out: &mut [i128], prices: &[Q24])
    ensures length { length out.new ≡ length out.old }
    ensures narrow { All (λ (z : ℤ). unsigned_abs z ≤ 2 ^ 56) out.new }
{
    for row in 0..out.len() {
        out[row] = narrow(prices, row);
    }
}

/// Returns a number within 2^80.
fn wide(number: i128) -> i128
    ensures { Within (2 ^ 80) result }
{
    number.clamp(-MOST_CELL_PRICE, MOST_CELL_PRICE)
}

/// Brings numbers within 2^80.
fn limit(numbers: &mut [i128])
    ensures length { length numbers.new ≡ length numbers.old }
    ensures small { All (Within (2 ^ 80)) numbers.new }
{
    for place in 0..numbers.len() {
        numbers[place] = wide(numbers[place]);
    }
}

/// Gathers the prices of rows by cells and cuts.
fn gather(task: &NodeTask, prices: &[Q24], quote: &mut Quote)
    requires task { IsTask task.now }
    requires quote { IsQuote task.now quote.old }
    ensures quote { IsQuote task.now quote.new }
    ensures small { All (Within (2 ^ 80)) quote.new.numbers.items }
{
    copy_prices(&mut quote.y, prices);
    let cells = task.day.instance.cells.len();
    task.rows.gather(&quote.y, cells, &mut quote.numbers);
    limit(&mut quote.numbers);
}

/// Sets the room to gathered prices.
fn set_room(task: &NodeTask, numbers: &[i128], room: &mut PriceRoom)
    requires task { IsTask task.now }
    requires small { All (Within (2 ^ 80)) numbers.now }
    requires rooms { HasRooms task.now numbers.now room.old }
    ensures room { IsRoomFor room.new task.now.day.instance.now }
    ensures most { room.new.most ≡ room.old.most }
{
    let instance = task.day.instance;
    let cells = instance.cells.len();
    let (cell, others) = numbers.split_at(cells);
    let (_, paid) = others.split_at(2);
    room.set_wide(instance, KAPPA, cell, paid, task.cuts);
}

/// Returns the price of both rows of the heads.
fn head_price(rows: &NodeRows, quote: &Quote) -> i128 {
    let head = rows.first_head();
    let least = quote.y.get(head).copied().unwrap_or(0);
    let most = quote.y.get(head.saturating_add(1)).copied().unwrap_or(0);
    least.saturating_add(most)
}

/// Leaves in the workspace's room a tree of least reduced cost at the float program's prices, and returns
/// that, in units of 2^-24.
fn find_cheapest(
    task: &NodeTask,
    prices: &[Q24],
    order: &mut ShortOrder,
    workspace: &mut DiveWorkspace,
) -> Option<i128>
    requires { CanAsk task.now order.old workspace.old }
    ensures found { IfSome result (λ _. HoldsTree task.now workspace.new) }
    ensures tools { CanAsk task.now order.new workspace.new }
{
    gather(task, prices, &mut workspace.quote);
    set_room(task, &workspace.quote.numbers, &mut workspace.quote.room);
    let Some(least) = find_least(&task.day, &workspace.quote.room, order, &mut workspace.tree)
    else {
        return None;
    };
    Some(least.saturating_sub(head_price(task.rows, &workspace.quote)))
}

/// Lists trees that are cheap at the float program's prices, a cheapest one and further ones under other arcs
/// of the root, and says whether there is one. Notes what the prices show.
///
/// # Errors
///
/// `Memory` where memory runs out; nothing is said of the program then. The order and the workspace are still
/// those of the graph and of the node, and the pool has its trees under their numbers, and perhaps further
/// trees of the day.
pub(crate) fn ask(
    alloc: Global,
    task: &NodeTask,
    order: &mut ShortOrder,
    pool: &mut Pool,
    descent: &mut Descent,
) -> Result<bool, Memory>
    requires { IsDiving task.now order.old pool.old descent.old }
    ensures program { OnOk result (IsProgram (length pool.new) descent.new.program) }
    ensures tools { StayTools task.now order.new pool.old pool.new descent.new.workspace }
{
    descent.program.touch(task.day.graph.arcs().len());
    let prices = descent.program.float_program.prices();
    let Some(reduced) = find_cheapest(task, prices, order, &mut descent.workspace) else {
        return Ok(false);
    };
    descent
        .program
        .note(task.rows, &descent.workspace.quote.y, reduced);
    if reduced >= CHEAPER {
        return Ok(false);
    }
    let column = pooled(&task.day, &descent.workspace.tree, pool)?;
    descent.program.list(alloc, task, pool, column)?;
    let limit = head_price(task.rows, &descent.workspace.quote).saturating_add(CHEAPER);
    list_others(alloc, task, limit, column, order, pool, descent)?;
    Ok(true)
}
