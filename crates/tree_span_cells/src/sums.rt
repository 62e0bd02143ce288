//! Optional sums, and the least of them.

ghost use Rattle.std.specs.Prelude.{◌≡◌, ◌≤◌, ◌<◌, ◌^◌, ◌⊎◌, IfSome, Some};
ghost use Rattle.model_rosters.specs.Sums.{plus, Within, IsLesser};
ghost use Rattle.tree_span_cells.specs.Numbers.{sum_below};

/// Returns the sum of two sums, none where either is not there.
pub fn add(a: Option<i128>, b: Option<i128>) -> Option<i128>
    requires a { IfSome a (Within (2 ^ 111)) }
    requires b { IfSome b (Within (2 ^ 111)) }
    ensures { result ≡ plus a b }
{
    Some(a? + b?)
}

/// Returns the sum of a first part, its arc and the other parts, none where either sum is not there.
pub fn add_part(first: Option<i128>, arc: i128, rest: Option<i128>) -> Option<i128>
    requires first { IfSome first (Within (2 ^ 110)) }
    requires arc { Within (2 ^ 96) arc }
    requires rest { IfSome rest (Within (2 ^ 110)) }
    ensures { result ≡ plus first (plus (Some arc) rest) }
{
    match (first, rest) {
        (Some(head), Some(tail)) => Some(head + (arc + tail)),
        _ => None,
    }
}

/// A least sum so far, and the number of what has it: a rule's number, or a first part's length.
#[derive(Clone, Copy, Drop)]
pub struct Choice {
    /// The sum, none where nothing so far has one.
    pub sum: Option<i128>,
    /// The number of the first one that has it, 0 where nothing has.
    pub number: u8,
}

impl Choice {
    /// Returns the choice from nothing.
    pub fn none() -> Choice
        ensures { result ≡ record { sum = None; number = 0 } }
    {
        Choice {
            sum: None,
            number: 0,
        }
    }

    /// Returns the better of this choice and a new one; where they are equal, this one.
    pub fn or(self, sum: Option<i128>, number: u8) -> Choice
        ensures lesser { IsLesser self.sum sum result.sum }
        ensures chosen { (result ≡ self) ⊎ ((result.sum ≡ sum) × (result.number ≡ number)) }
    {
        match (self.sum, sum) {
            (_, None) => self,
            (Some(x), Some(y)) if x <= y => self,
            _ => Choice { sum, number },
        }
    }
}

// From this number on, a sum of numbers is none.
const NO_LEAST: i128 = 1 << 119;

/// A least sum so far as a number, and the length of the first part that has it.
#[derive(Clone, Copy, Drop)]
pub struct LeastPart {
    /// The number, 2^119 where nothing so far has a sum.
    pub number: i128,
    /// The length of the first part, 0 where nothing has a sum.
    pub part: u8,
}

impl LeastPart {
    /// Returns what stands for none.
    pub fn none() -> LeastPart
        ensures { sum_below result.number ≡ None }
    {
        LeastPart {
            number: NO_LEAST,
            part: 0,
        }
    }

    /// Takes the new one in its place where that is better; where they are equal, it stays.
    pub fn take(&mut self, number: i128, part: u8)
        ensures lesser { IsLesser (sum_below self.old.number) (sum_below number) (sum_below self.new.number) }
        ensures chosen { (self.new ≡ self.old) ⊎ (self.new ≡ record { number = number; part = part }) }
    {
        if number < self.number {
            self.number = number;
            self.part = part;
        }
    }

    /// Returns the choice that this is.
    pub fn choice(self) -> Choice
        ensures sum { result.sum ≡ sum_below self.number }
        ensures number { result.number ≡ self.part }
    {
        let sum = if self.number < NO_LEAST {
            Some(self.number)
        } else {
            None
        };
        Choice {
            sum,
            number: self.part,
        }
    }
}
