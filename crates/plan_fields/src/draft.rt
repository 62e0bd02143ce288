//! What the lines so far say.

ghost use Rattle.std.specs.Prelude.{◌≡◌};
ghost use Rattle.plan_fields.specs.Drafts.{decimals_of, no_draft};

use model_rosters::List;
use plan_meaning::{Duty, Extra, Lengths, Money, Need, PlanCode, Staff};
use std::alloc::Global;

/// What the lines of a plan so far say, beside its title and its day; each list in the order of its lines.
#[derive(Drop)]
pub struct Draft {
    /// What amounts are counted in, where it is said.
    pub money: Option<Money>,
    /// The codes of work and the pauses, at most 8 and 23.
    pub codes: List<PlanCode>,
    /// Where codes cost more.
    pub extras: List<Extra>,
    /// What a change of activity costs, where it is said: an amount, or none where none may change.
    pub change: Option<Option<u32>>,
    /// How long work lasts without a pause, where it is said.
    pub stretch: Option<Lengths>,
    /// At multiples of what duties begin, where it is said.
    pub starts: Option<u32>,
    /// The duty lines.
    pub duties: List<Duty>,
    /// The staff lines, one without a name, or at most 8 with names.
    pub staff: List<Staff>,
    /// The need lines, at most one of a code.
    pub needs: List<Need>,
}

/// Returns the draft before any line.
pub fn no_draft(alloc: Global) -> Draft
    ensures { result ≡ no_draft }
{
    Draft {
        money: None,
        codes: List::new(alloc),
        extras: List::new(alloc),
        change: None,
        stretch: None,
        starts: None,
        duties: List::new(alloc),
        staff: List::new(alloc),
        needs: List::new(alloc),
    }
}

/// Returns how many decimals amounts have: none where nothing is said of money.
pub fn decimals_of(draft: &Draft) -> u8
    ensures { result ≡ decimals_of draft.now }
{
    match &draft.money {
        Some(money) => money.decimals,
        None => 0,
    }
}
