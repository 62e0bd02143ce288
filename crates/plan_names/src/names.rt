//! Names.

use model_rosters::Window;
use plan_laws::{Activity, NamedLines};

/// A name of the rules that are written for a plan. A plus is what a period costs more by the duty lines that
/// use the name; a set is the activities that a stretch may have.
#[derive(Clone, Copy, Drop)]
pub enum RuleName<'a> {
    /// A letter of an activity, by lines of a plus.
    Letter(u32, Activity),
    /// One or more letters of an activity.
    Run(u32, Activity),
    /// A block of an activity.
    Block(u32, Activity),
    /// A block of a free activity of a set.
    FreeBlock(u32, &'a [Activity]),
    /// A list of blocks.
    AnyList(u32, &'a [Activity]),
    /// A list of blocks that begins with a free activity.
    OpenList(u32, &'a [Activity]),
    /// A list of blocks that begins with this activity.
    ListFrom(u32, &'a [Activity], Activity),
    /// A list of blocks that begins with another activity.
    OtherList(u32, &'a [Activity], Activity),
    /// A stretch, and how many periods it has.
    Stretch(u32, &'a [Activity], Window),
    /// A rest of a pause, and the periods in which it may begin, where the line says so.
    Rest(u32, Activity, Option<Window>),
    /// Time off.
    Off,
    /// Time off from one start of duties to the next.
    Step,
    /// Time off from a start to a later one.
    Steps,
    /// Time off before a duty.
    Lead,
    /// A duty of one of these lines.
    Duty(&'a NamedLines),
    /// A day with a duty of one of these lines.
    Day(&'a NamedLines),
    /// A day with a duty of any of these lines.
    AnyDay(&'a [NamedLines]),
}
