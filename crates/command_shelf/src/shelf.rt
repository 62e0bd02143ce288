//! The trait of shelves.

ghost use Rattle.std.specs.Prelude.{◌≡◌, ◌≤◌, ◌+◌, ◌++◌, length, false, Some, OnOk, IfSome, IsSome, IsSomeAnd, IsTrue, Err};
ghost use Rattle.std.specs.FinMap as fin;
ghost use Rattle.command_shelf.specs.Shelf.{Told, HasCause, Fetched, Begins, AgreesElsewhere, SaidPart, most_faults};
ghost use Rattle.command_shelf.specs.Stores.{may_store};

use crate::fault::ShelfFault;

/// Texts that are held by name, and a place to say bytes.
///
/// What is said to a person beside that is a note: no clause speaks of it, and it changes nothing that the
/// shelf tells. A shelf that refuses a call notes why.
///
/// A shelf tells what it holds, what was said, and how often the outside refused a call; that
/// count stops at 2^64 - 1. While it is steady the outside refuses nothing but the fetch of an
/// absent name, and the store under a name that holds a text which is no certificate.
pub trait Shelf {
    // What the shelf tells of itself.
    ghost told: { Self → Told };

    /// Appends the first bytes under the name: so many at most, and one more where there are more. So a text
    /// that is too long is known by what is appended, and no more of it is read.
    ///
    /// # Errors
    ///
    /// `Failed` where the outside refuses the call, which the count of faults tells, and `Memory` where
    /// memory runs out; `into` still begins with what it held then.
    fn fetch(&mut self, name: &str, most: usize, into: &mut Vec<u8>) -> Result<(), ShelfFault>
        ensures fetched { OnOk result (IfSome (told self.old).held
            (λ h. Fetched h name.now most into.old.items into.new.items)) }
        ensures begins { Begins into.old.items into.new.items }
        ensures limit { length into.new.items ≤ length into.old.items + (most + 1) }

        ensures held_stays { (told self.new).held ≡ (told self.old).held }
        ensures said_stays { (told self.new).said ≡ (told self.old).said }

        ensures cause { HasCause (told self.old).faults (told self.new).faults result }
        ensures stays_steady { IsTrue (told self.old).steady → IsTrue (told self.new).steady }
        ensures bounded { (told self.new).faults ≤ most_faults }
        // A steady shelf refuses only an absent name.
        ensures quiet { IsTrue (told self.old).steady → IfSome (told self.old).held
            (λ h. IsSome (fin.get h name.now) → (told self.new).faults ≡ (told self.old).faults) };

    /// Asks whether a text may be stored under the name: where it is free, or holds a text that is empty or
    /// whose first line is `proof 1` or `proof 2`. A shelf may try on the outside what a store would do there
    /// but change what is held: the disk's makes the new file of a store and removes it at once, and a
    /// process that ends between the two leaves it, empty.
    ///
    /// # Errors
    ///
    /// `Failed` where it may not, or where the outside fails; `Memory` where memory runs out.
    fn may_store(&mut self, name: &str) -> Result<(), ShelfFault>
        ensures may { OnOk result (IfSome (told self.old).held (λ h. IsTrue (may_store h name.now))) }

        ensures held_stays { (told self.new).held ≡ (told self.old).held }
        ensures said_stays { (told self.new).said ≡ (told self.old).said }

        ensures cause { HasCause (told self.old).faults (told self.new).faults result }
        ensures stays_steady { IsTrue (told self.old).steady → IsTrue (told self.new).steady }
        ensures bounded { (told self.new).faults ≤ most_faults }
        ensures quiet { IsTrue (told self.old).steady → IfSome (told self.old).held
            (λ h. IsTrue (may_store h name.now) → (told self.new).faults ≡ (told self.old).faults) };

    /// Makes the name hold the bytes, where a text may be stored under it; a text that may not be stored over
    /// stands.
    ///
    /// # Errors
    ///
    /// `Failed` where the name may not be stored under, or where the outside fails, which the count of faults
    /// tells; `Memory` where memory runs out. What is held is as before then.
    fn store(&mut self, name: &str, bytes: &[u8]) -> Result<(), ShelfFault>
        ensures stored { OnOk result (IfSome (told self.old).held
            (λ h. (told self.new).held ≡ Some (fin.insert h name.now bytes.now))) }
        // No text is lost but an empty one and one that begins with a proof text's first line.
        ensures may { OnOk result (IfSome (told self.old).held (λ h. IsTrue (may_store h name.now))) }
        ensures kept { IfSome (told self.old).held
            (λ h. may_store h name.now ≡ false → (told self.new).held ≡ (told self.old).held) }
        // Whatever the answer, no other name changes, and the shelf goes on to tell.
        ensures others { IfSome (told self.old).held
            (λ h. IsSomeAnd (told self.new).held (AgreesElsewhere name.now h)) }
        ensures memory { result ≡ Err ShelfFault.Memory → (told self.new).held ≡ (told self.old).held }
        ensures failed { result ≡ Err ShelfFault.Failed → (told self.new).held ≡ (told self.old).held }
        ensures said_stays { (told self.new).said ≡ (told self.old).said }

        ensures cause { HasCause (told self.old).faults (told self.new).faults result }
        ensures stays_steady { IsTrue (told self.old).steady → IsTrue (told self.new).steady }
        ensures bounded { (told self.new).faults ≤ most_faults }
        // A steady shelf refuses only a text that may not be stored over.
        ensures quiet { IsTrue (told self.old).steady → IfSome (told self.old).held
            (λ h. IsTrue (may_store h name.now) → (told self.new).faults ≡ (told self.old).faults) };

    /// Appends the bytes to what was said.
    ///
    /// # Errors
    ///
    /// `Failed` where the outside refuses the call, which the count of faults tells, and `Memory` where
    /// memory runs out; a front of the bytes may have been said then.
    fn say(&mut self, bytes: &[u8]) -> Result<(), ShelfFault>
        ensures appended { OnOk result (IfSome (told self.old).said
            (λ s. (told self.new).said ≡ Some (s ++ bytes.now))) }
        // Whatever the answer, and the shelf goes on to tell.
        ensures part { IfSome (told self.old).said
            (λ s. IsSomeAnd (told self.new).said (SaidPart bytes.now s)) }
        ensures held_stays { (told self.new).held ≡ (told self.old).held }

        ensures cause { HasCause (told self.old).faults (told self.new).faults result }
        ensures stays_steady { IsTrue (told self.old).steady → IsTrue (told self.new).steady }
        ensures bounded { (told self.new).faults ≤ most_faults }
        ensures quiet { IsTrue (told self.old).steady → (told self.new).faults ≡ (told self.old).faults };

    /// Tells a person something, outside what is said. The text has no line feed at its end: the shelf adds
    /// it. A note that the outside refuses is lost, and so is one for which memory does not suffice.
    fn note(&mut self, text: &str)
        ensures { told self.new ≡ told self.old };

    // A steady shelf tells all.
    ghost tells: { (s : Self) → IsTrue (told s).steady → IsSome (told s).held × IsSome (told s).said };
}
