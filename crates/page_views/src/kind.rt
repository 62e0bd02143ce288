//! What the first word asks for, and as what a roster is shown.

ghost use Rattle.std.specs.Prelude.{◌≡◌};
ghost use Rattle.page_views.specs.Kinds.{kind_for};
ghost use Rattle.page_views.specs.Kinds.{first_word};

use crate::sums::Sums;
use page_csv::{Date, Setting};

/// The day of a calendar, and whose events it has.
#[derive(Clone, Copy, Debug, PartialEq, Eq, Drop)]
pub struct CalendarDay {
    /// The day on which the first period begins.
    pub date: Date,
    /// The number of the one shift whose events it has, 1 to 64; all have theirs where there is none.
    pub shift: Option<u32>,
}

/// What the events of a calendar share, and whose they are.
#[derive(Clone, Copy, Debug, PartialEq, Eq, Drop)]
pub struct DayEvents {
    /// The day and the clock.
    pub setting: Setting,
    /// The number of the one shift whose events they are, 1 to 64; those of all where there is none.
    pub shift: Option<u32>,
}

/// What the first word asks for, where no day is asked for.
#[derive(Clone, Copy, Debug, PartialEq, Eq, Drop)]
pub enum FirstWord {
    /// A page.
    Page,
    /// The table of a roster.
    Table,
    /// The table of how it covers each cell.
    Coverage,
}

/// As what a roster is shown.
#[derive(Clone, Copy, Debug, Drop)]
pub enum Kind {
    /// As a page that was made from texts with these sums.
    Page(Sums),
    /// As the table of its roster.
    Table,
    /// As the table of how it covers each cell.
    Coverage,
    /// As the calendar of its roster.
    Calendar(DayEvents),
}

/// Returns what the first word asks for.
#[tactic(auto, unfolding(crate::specs::Kinds::first_word))]
pub fn first_word(word: &str) -> Option<FirstWord>
    ensures { result ≡ first_word word.now }
{
    if word == "page" {
        return Some(FirstWord::Page);
    }
    if word == "table" {
        return Some(FirstWord::Table);
    }
    if word == "coverage" {
        return Some(FirstWord::Coverage);
    }
    None
}

/// Returns as what a roster is shown, where this word asks for it and texts with these sums were read.
pub fn kind_for(word: FirstWord, sums: Sums) -> Kind
    ensures { result ≡ kind_for word sums }
{
    match word {
        FirstWord::Page => Kind::Page(sums),
        FirstWord::Table => Kind::Table,
        FirstWord::Coverage => Kind::Coverage,
    }
}
