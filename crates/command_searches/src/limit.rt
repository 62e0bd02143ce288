//! How long a search may take.

ghost use Rattle.std.specs.Prelude.{◌≡◌, ◌≤◌};
ghost use Rattle.command_searches.specs.Limits.{IsLimit, seconds_of, turns_of};

/// How long a search may take.
#[derive(Clone, Copy, Debug, PartialEq, Eq, Drop)]
pub enum Limit {
    /// So many turns, 1 to 10,000.
    Turns(u32),
    /// So many seconds, 1 to 86,400; then the turn under way ends early too.
    Seconds(u32),
}

/// The most turns of a search.
const MOST_TURNS: u32 = 10_000;

impl Limit {
    /// Returns how many turns a search may take at most.
    pub fn turns(self) -> u32
        ensures turns { result ≡ turns_of self }
        ensures within { IsLimit self → (1 ≤ result) × (result ≤ 10000) }
    {
        match self {
            Limit::Turns(turns) => turns,
            Limit::Seconds(_) => MOST_TURNS,
        }
    }

    /// Returns after how many seconds it is to stop, where seconds limit it.
    pub fn seconds(self) -> Option<u32>
        ensures { result ≡ seconds_of self }
    {
        match self {
            Limit::Turns(_) => None,
            Limit::Seconds(seconds) => Some(seconds),
        }
    }
}
