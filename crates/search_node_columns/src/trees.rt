//! A cheapest tree.

ghost use Rattle.std.specs.Prelude.{ℤ, ◌≡◌, ◌≤◌, ◌<◌, ◌^◌, length, unsigned_abs, All, IfOk, IfErr, IfSome, IfNone};
ghost use Rattle.std.specs.Bool.{OnTrue, OnFalse};
ghost use Rattle.model_rosters.specs.PriceRooms.{IsRoomFor};
ghost use Rattle.model_rosters.specs.Room.{most_uses};
ghost use Rattle.tree_cheapest.specs.Pricers.{IsMadeFor};
ghost use Rattle.model_rosters.specs.tree_laws.DaySteps.{AreDaySteps};
ghost use Rattle.tree_pool.specs.Pools.{IsPool};
ghost use Rattle.lp_master_rows.specs.search_day.Rooms.{Grows};
ghost use Rattle.lp_master_rows.specs.node_task.Tasks.{IsTask, row_count};
ghost use Rattle.search_node_columns.specs.Columns.{HasMore};
ghost use Rattle.search_node_columns.specs.Listing.{ArePrices, HasRooms, HasPrices, IsTreeColumn, ListsTree};
ghost use Rattle.search_node_columns.specs.Listing.{FindsCheaper, FindsNone, IsCheaperTree};
ghost use Rattle.search_node_columns.specs.Priced.{AreNarrowPrices, heads_price};
ghost use Rattle.search_node_columns.specs.Tools.{AreTools, StayTools};

use crate::workspace::{ColumnWorkspace, Held, Kind};
use lp_master_rows::NodeTask;
use model_rosters::{List, Memory, PriceRoom, Step, TreeRoom};
use std::alloc::Global;
use tree_cheapest::Pricer;
use tree_pool::Pool;

/// Sets the prices under which the sum of a tree is its reduced cost and the prices of the rows of
/// the heads. Takes no memory.
pub(crate) fn set_prices(
    task: &NodeTask,
    y: &[i128],
    kappa: i128,
    numbers: &mut [i128],
    prices: &mut PriceRoom,
)
    requires prices { ArePrices task.now y.now kappa }
    requires rooms { HasRooms task.now numbers.old prices.old }
    ensures numbers { length numbers.new ≡ length numbers.old }
    ensures room { IsRoomFor prices.new task.now.day.instance.now }
    ensures most { prices.new.most ≡ prices.old.most }
    ensures value { HasPrices task.now y.now kappa prices.new }
{
    let instance = task.day.instance;
    let cells = instance.cells.len();
    task.rows.gather(y, cells, numbers);
    let (cell, others) = numbers.split_at(cells);
    let (_, paid) = others.split_at(2);
    prices.set_wide(instance, kappa.unsigned_abs(), cell, paid, task.cuts);
}

/// Returns the price of both rows of the heads.
pub(crate) fn price_of_heads(task: &NodeTask, y: &[i128]) -> i128
    requires task { IsTask task.now }
    requires y { length y.now ≡ row_count task.now }
    requires narrow { All (λ (z : ℤ). unsigned_abs z ≤ 2 ^ 56) y.now }
    ensures value { result ≡ heads_price task.now.day.instance.now y.now }
{
    let head = task.rows.first_head();
    y[head] + y[head + 1]
}

/// Looks for a tree of the day that has a negative reduced cost, and leaves one of least reduced cost
/// in the room where there is one. Takes no memory.
pub(crate) fn find_tree(
    task: &NodeTask,
    y: &[i128],
    kappa: i128,
    prices: &PriceRoom,
    pricer: &mut Pricer,
    room: &mut TreeRoom,
) -> bool
    requires prices { ArePrices task.now y.now kappa }
    requires value { HasPrices task.now y.now kappa prices.now }
    requires made { IsMadeFor task.now.day.graph.now pricer.old }
    requires room { room.old.most ≡ most_uses task.now.day.instance.now.grammar }
    ensures made { IsMadeFor task.now.day.graph.now pricer.new }
    ensures room { room.new.most ≡ room.old.most }
    ensures some { OnTrue result (FindsCheaper task.now y.now kappa room.new) }
    ensures none { OnFalse result (FindsNone task.now y.now kappa) }
{
    let heads = price_of_heads(task, y);
    let graph = task.day.graph;
    let Some(least) = pricer.cheapest(graph, prices) else {
        return false;
    };
    if least >= heads {
        return false;
    }
    pricer.tree(graph, prices, room);
    true
}

/// Lists a tree of the day, which the pool gets where it lacks it, and returns the number of its column.
///
/// # Errors
///
/// `Memory` where memory runs out; the listed columns are as before then, and the pool may have grown.
pub(crate) fn list_tree(
    alloc: Global,
    task: &NodeTask,
    steps: &[Step],
    pool: &mut Pool,
    held: &mut List<Held>,
) -> Result<usize, Memory>
    requires task { IsTask task.now }
    requires steps { AreDaySteps task.now.day.instance.now.grammar steps.now }
    requires pool { IsPool task.now.day.instance.now.grammar pool.old }
    ensures pool { Grows task.now.day pool.old pool.new }
    ensures listed { IfOk result (ListsTree task.now pool.new steps.now held.old held.new) }
    ensures kept { IfErr result (λ _. held.new ≡ held.old) }
{
    let tree = pool.add(&task.day.instance.grammar, steps)?;
    let column = held.len();
    held.push(tree_column(alloc, task, pool, tree)?)?;
    Ok(column)
}

/// Returns the column of a tree of the pool.
///
/// # Errors
///
/// `Memory` where memory runs out; nothing is kept then.
pub(crate) fn tree_column(
    alloc: Global,
    task: &NodeTask,
    pool: &Pool,
    tree: usize,
) -> Result<Held, Memory>
    requires tree { tree < length pool.now }
    ensures held { IfOk result (IsTreeColumn task.now pool.now) }
    ensures kind { IfOk result (λ h. h.kind ≡ Kind.OfTree tree) }
{
    Ok(Held {
        kind: Kind::OfTree(tree),
        places: task.rows.places_of(alloc, task.cuts, pool, tree)?,
        cost: i64::from(pool.cost(tree)),
    })
}

/// Lists a tree of the day of the least reduced cost where that is negative, and returns the number of its
/// column. The prices of the rows are `y` over `kappa`. The pool gets the tree where it lacks it.
///
/// # Errors
///
/// `Memory` where memory runs out; the listed columns are as before, and the pool may have grown then.
pub fn list_cheapest(
    alloc: Global,
    task: &NodeTask,
    y: &[i128],
    kappa: i128,
    pricer: &mut Pricer,
    pool: &mut Pool,
    workspace: &mut ColumnWorkspace,
) -> Result<Option<usize>, Memory>
    requires task { IsTask task.now }
    requires y { length y.now ≡ row_count task.now }
    requires narrow { AreNarrowPrices y.now kappa }
    requires tools { AreTools task.now pricer.old pool.old workspace.old }
    ensures tools { StayTools task.now pricer.new pool.old pool.new workspace.new }
    ensures more { HasMore workspace.old.held workspace.new.held }
    ensures found { IfOk result (λ a. IfSome a (IsCheaperTree task.now y.now kappa pool.new workspace.new.held)) }
    ensures none { IfOk result (λ a. IfNone a (FindsNone task.now y.now kappa)) }
{
    set_prices(
        task,
        y,
        kappa,
        &mut workspace.numbers,
        &mut workspace.prices,
    );
    let found = find_tree(
        task,
        y,
        kappa,
        &workspace.prices,
        pricer,
        &mut workspace.tree,
    );
    if !found {
        return Ok(None);
    }
    let column = list_tree(
        alloc,
        task,
        workspace.tree.steps(),
        pool,
        &mut workspace.held,
    )?;
    Ok(Some(column))
}
