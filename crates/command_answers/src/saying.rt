//! A text said, and the statuses of refusals.

ghost use Rattle.std.specs.Prelude.{◌≡◌, ◌≢◌, ◌≤◌, ◌++◌, ◌⊎◌, ◌<◌, ◌-◌, ◌^◌, IfSome, IsSomeAnd, IsTrue, Some};
ghost use Rattle.command_shelf.specs.Shelf.{SaidPart, one_more};

use command_shelf::{Shelf, ShelfFault};

/// The status of a call that the shelf refused.
pub const FAILED: u8 = 6;

/// The status of a call that memory did not suffice for.
pub const MEMORY: u8 = 7;

/// Returns the status of a refusal of the shelf.
pub fn status_of(fault: ShelfFault) -> u8
    ensures failed { fault ≡ ShelfFault.Failed → result ≡ 6 }
    ensures memory { fault ≡ ShelfFault.Memory → result ≡ 7 }
{
    match fault {
        ShelfFault::Failed => FAILED,
        ShelfFault::Memory => MEMORY,
    }
}

/// Says a text at once, and returns the status, or that of a refusal.
pub fn say<S: Shelf>(shelf: &mut S, output: &[u8], status: u8) -> u8
    requires { (status ≢ 6) × (status ≢ 7) }
    ensures status { (result ≡ status) ⊎ ((result ≡ 6) ⊎ (result ≡ 7)) }
    ensures said { result ≡ status → IfSome (S.told shelf.old).said
        (λ s. (S.told shelf.new).said ≡ Some (s ++ output.now)) }
    ensures part { IfSome (S.told shelf.old).said (λ s. IsSomeAnd (S.told shelf.new).said
        (SaidPart output.now s)) }
    ensures held { (S.told shelf.new).held ≡ (S.told shelf.old).held }
    ensures never_falls { (S.told shelf.old).faults ≤ (S.told shelf.new).faults }
    ensures cause { result ≡ 6 → one_more (S.told shelf.old).faults ≤ (S.told shelf.new).faults }
    ensures quiet { IsTrue (S.told shelf.old).steady → (S.told shelf.new).faults ≡ (S.told shelf.old).faults }
{
    match shelf.say(output) {
        Ok(()) => status,
        Err(fault) => status_of(fault),
    }
}
