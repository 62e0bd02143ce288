//! The outside of a program: texts that are held by name, bytes that are said, and notes to a person.
//!
//! A program over a [`Shelf`] is proved once for the disk and for both shelves in memory.
//!
//! - `Shelf` is the trait. Its one ghost member `told` is what a shelf tells of itself: what it holds and
//!   what was said, where it tells them, its count of faults, and whether it is steady. Each call says what
//!   it does to these four: a fetch and a say store nothing, a store changes one name, and none where it is
//!   refused, the count of faults never falls, rises where the outside refused the call, and is at most 2^64
//!   - 1.
//! - A **fetch** has a limit: what is appended is the text's first bytes, one more than the limit at most
//!   (`Shelf.front_to`). So a text that is too long is known by these bytes.
//! - A text is stored **only where nothing is lost**: under a name that is free, or that holds a text which
//!   is empty or whose first line is `proof 1` or `proof 2` (`Stores.may_store`). `may_store` asks for it,
//!   and `store` asks again; any other text stands. A steady shelf refuses no other store.
//! - A **note** changes nothing that the shelf tells, and no clause says what becomes of it: what the outside
//!   or memory refuses is lost. A shelf that refuses a call notes the name and why. The shelf ends each note
//!   with a line feed.
//! - `MemoryShelf` and `QuietShelf` keep all in memory, and tell all. Each call says its whole effect, and
//!   which numbered calls of a `MemoryShelf` fail; those of `may_store` have no number. A `MemoryShelf` keeps
//!   its notes, a `QuietShelf` drops them.
//! - `read_bytes` and `write_bytes` do so with any reader and any writer: what the disk's shelf does with
//!   files and with standard output.
//! - `DiskShelf` is files, standard output, and standard error for notes. It tells its count of faults alone,
//!   and reads no more of a file than is asked. What it stores under a free name or over a file goes to
//!   NAME`.new`, or where that stands to the first of NAME`.new1` to NAME`.new9` that does not, and is
//!   renamed once the disk has it; the new file has the old one's mode. `may_store` makes that file and
//!   removes it. A link to a file is followed, one that leads nowhere and a file that nobody may write are
//!   refused; devices, pipes and what a link leads to by way of `/proc` are written as they are.
#![tactic(auto)]

mod disk;
mod fault;
mod heard;
mod memory;
mod new_file;
mod place;
mod quiet;
mod replaceable;
mod shelf;
mod stream;
mod texts;

pub use disk::DiskShelf;
pub use fault::ShelfFault;
pub use memory::MemoryShelf;
pub use quiet::QuietShelf;
pub use shelf::Shelf;
pub use stream::{read_bytes, write_bytes};
