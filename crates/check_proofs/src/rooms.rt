//! Rooms for what nodes show.

ghost use Rattle.std.specs.Prelude.{◌≡◌, IfOk};
ghost use Rattle.model_rosters.specs.SoundInstance.{IsSoundInstance};
ghost use Rattle.check_proofs.specs.Rooms.{AreRoomsFor};

use check_parts::Balances;
use model_rosters::{Instance, Memory, PriceRoom};
use std::alloc::Global;

/// How many multipliers prices may have.
const MOST_MULTS: usize = 1500;

/// Rooms for what the nodes of certificates show.
#[derive(Drop)]
pub(crate) struct Rooms {
    /// For prices.
    pub prices: PriceRoom,
    /// For the counts of a pinned leaf.
    pub balances: Balances,
}

impl Rooms {
    /// Returns the rooms for certificates of an instance.
    ///
    /// # Errors
    ///
    /// `Memory` where memory runs out; nothing is kept then.
    pub fn for_instance(alloc: Global, instance: &Instance) -> Result<Rooms, Memory>
        requires { IsSoundInstance instance.now }
        ensures { IfOk result (AreRoomsFor instance.now) }
    {
        let prices = PriceRoom::for_cuts(alloc, instance, MOST_MULTS)?;
        let balances = Balances::for_instance(alloc, &instance.grammar)?;
        Ok(Rooms { prices, balances })
    }
}
