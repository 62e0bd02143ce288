//! The cells of a code, and the day.

ghost use Rattle.std.specs.Prelude.{◌≡◌, ◌≤◌, ◌<◌, ◌++◌, ◌∷◌, [], IfOk, OnOk};
ghost use Rattle.model_rosters.specs.Demands.{demand_cells, all_cells};
ghost use Rattle.model_rosters.specs.SoundInstance.{IsSoundInstance};
ghost use Rattle.model_made_days.specs.Draws.{after};
ghost use Rattle.model_made_days.specs.Made.{drawn, made_instance};

use crate::generator::Generator;
use crate::parts::{FIRST_WORK, SECOND_WORK, grammar};
use model_rosters::{Cell, Instance, List, Memory};
use std::alloc::Global;

/// Adds the cells of a code for a day of so many periods, whose needs are drawn below `limit`.
fn add_demand(
    generator: &mut Generator,
    cells: &mut List<Cell>,
    code: u8,
    limit: u32,
    under: u32,
    periods: u8,
) -> Result<(), Memory>
    requires { 1 ≤ limit }
    ensures cells { OnOk result (cells.new
        ≡ cells.old ++ demand_cells (drawn generator.old 0 limit code under periods)) }
    ensures state { OnOk result (generator.new ≡ after generator.old periods) }
{
    for before in 0..periods {
        cells.push(Cell {
            code,
            period: before + 1,
            need: generator.draw(limit),
            under,
            over: 1,
            floor: 0,
            ceiling: 64,
        })?;
    }
    Ok(())
}

/// Returns the cells of both work codes, whose needs are drawn one after another.
fn cells(
    alloc: Global,
    mut generator: Generator,
    under: u32,
    periods: u8,
) -> Result<List<Cell>, Memory>
    ensures { IfOk result (λ l. l ≡ all_cells (drawn generator 0 4 0 under periods
        ∷ drawn (after generator periods) 0 3 1 under periods ∷ [])) }
{
    let mut cells = List::new(alloc);
    add_demand(&mut generator, &mut cells, FIRST_WORK, 4, under, periods)?;
    add_demand(&mut generator, &mut cells, SECOND_WORK, 3, under, periods)?;
    Ok(cells)
}

/// Returns the day that the number decides: 24 to 36 periods and up to 10 employees, who work at `a` and `b`
/// with a meal and a break. Costs and needs are drawn too. It is the same day at each call.
///
/// # Errors
///
/// `Memory` where memory runs out; nothing is kept then.
pub fn make_instance(alloc: Global, number: u32) -> Result<Instance, Memory>
    ensures made { IfOk result (λ i. i ≡ made_instance number) }
    ensures sound { IfOk result IsSoundInstance }
{
    let mut generator = Generator::new(number);
    let periods = 24 + generator.draw(13) as u8;
    let cost = 10 + generator.draw(11);
    let under = 20 + generator.draw(11);
    let cells = cells(alloc, generator, under, periods)?;
    Ok(Instance {
        grammar: grammar(alloc, periods, cost)?,
        heads_min: 0,
        heads_max: 10,
        groups: List::new(alloc),
        cells,
    })
}
