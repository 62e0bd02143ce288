//! One piece of a proof text.

use model_rosters::ArcKey;

/// A piece of a proof text. Its word and its prices lie in the room with which it was read.
#[derive(Clone, Copy, Debug, PartialEq, Eq, Drop)]
pub enum Piece {
    /// What the roster costs, or none where there is no roster.
    Cost(Option<u64>),
    /// The bound; none says that no roster is allowed.
    Bound(Option<u64>),
    /// A shift of the roster, whose word lies in the room.
    Shift {
        /// The number of the group, from 1, or 0 on a day without groups.
        group: u8,
        price: u64,
    },
    /// A split of the node's rosters by how many of their trees have an arc.
    Split {
        arc: ArcKey,
        /// 0 to 63.
        b: u32,
        /// Whether the node has prices, which then lie in the room.
        priced: bool,
    },
    /// A leaf with prices, which lie in the room.
    Priced,
    /// A leaf whose cuts leave each arc one count.
    Pinned,
    /// A leaf that shows nothing.
    Bare,
    /// The end of the text, behind which no line stands.
    End,
}
