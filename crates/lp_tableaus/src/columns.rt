//! The trait of columns.

ghost use Rattle.std.specs.Prelude.{
  ℕ,
  ◌≡◌,
  ◌<◌,
  ◌≤◌,
  ◌^◌,
  ◌⊎◌,
  pos,
  ◌<ℤ◌,
  unsigned_abs,
  List,
  Some,
  Bool,
  IsTrue,
  false,
  All,
  length,
  slice_get,
  IfOk,
  IfErr,
  IfSome,
  IfNone,
};
ghost use Rattle.law_bounds.specs.linear_programs.Program.{Program, reduced, IsPricedOut};
ghost use Rattle.lp_fractions.specs.Row.{at};
ghost use Rattle.lp_fractions.specs.pivot_rows.Columns.{IsColumn};
ghost use Rattle.lp_tableaus.specs.Risen.{HasRisen};
ghost use Rattle.lp_tableaus.specs.Refused.{IsColumnsFault};

use lp_fractions::{Place, Tally, TooWide};

/// Why columns could not be priced.
#[derive(Clone, Copy, Debug, PartialEq, Eq, Drop)]
pub enum ColumnsFault {
    /// A number left the range.
    Wide(TooWide),
    /// Memory did not suffice.
    Memory,
}

/// The columns of a linear program, some of which are listed.
///
/// The program is told by a site, which no call changes. Columns are listed under numbers from 0 on;
/// what is listed stays listed under its number.
pub trait Columns {
    ghost Key: { Type 0 };

    ghost Site: { Type 0 };

    ghost site: { Self → Site };

    ghost program: { Site → Program Key };

    // Whether nothing stops what is done with them.
    ghost calm: { Site → Bool };

    ghost State: { Type 0 };

    ghost state: { Self → State };

    ghost Ready: { State → Type 0 };

    ghost Lists: { State → ℕ → Key → Type 0 };

    ghost size: { State → ℕ };

    ghost Kept: { State → State → Type 0 };

    ghost same: { (a : State) → Kept a a };

    ghost chain: { (a b c : State) → Kept a b → Kept b c → Kept a c };

    ghost still: { (a b : State) (j : ℕ) (k : Key) → Kept a b → Lists a j k → Lists b j k };

    /// Returns the number of rows.
    fn rows(&self) -> usize
        requires { Ready (state self.now) }
        ensures { result ≡ (program (site self.now)).rows };

    /// Returns how many columns are listed. Each is one of the program.
    fn count(&self) -> usize
        requires { Ready (state self.now) }
        ensures value { result ≡ size (state self.now) }
        ensures keys { (j : ℕ) → j < size (state self.now) → (k : Key) × Lists (state self.now) j k
            × (program (site self.now)).belongs k }
        ensures inside { (j : ℕ) (k : Key) → Lists (state self.now) j k → j < size (state self.now) };

    /// Returns the entries of a listed column that are not 0, in the order of the rows.
    fn places(&self, column: usize) -> &[Place]
        requires ready { Ready (state self.now) }
        requires column { column < size (state self.now) }
        ensures { (k : Key) → Lists (state self.now) column k
            → IsColumn (program (site self.now)).rows ((program (site self.now)).column k).entry result.now };

    /// Returns the cost of a listed column.
    fn cost(&self, column: usize) -> i64
        requires ready { Ready (state self.now) }
        requires column { column < size (state self.now) }
        ensures { (k : Key) → Lists (state self.now) column k
            → result ≡ ((program (site self.now)).column k).cost };

    /// Returns listed columns that are wanted in a solution, the most wanted first. Any are lawful:
    /// they steer the pivots, and change no answer's meaning.
    fn wanted(&self) -> &[u32]
        requires { Ready (state self.now) }
        ensures { All (λ (j : ℕ). j < size (state self.now)) result.now };

    /// Says whether what is done with them is to stop.
    fn is_over(&self) -> bool
        ensures { IsTrue (calm (site self.now)) → result ≡ false };

    /// Returns a column, which is then listed, that has a negative reduced cost at `y / kappa`, or
    /// none where no column of the program has.
    ///
    /// # Errors
    ///
    /// `Wide` only where `kappa` or a number of `y` is above 2^56 in size, which the tally counts; `Memory`
    /// where memory runs out. Listed columns keep their numbers then too.
    fn price_out(
        &mut self,
        y: &[i128],
        kappa: i128,
        tally: &mut Tally,
    ) -> Result<Option<usize>, ColumnsFault>
        requires ready { Ready (state self.old) }
        requires y { length y.now ≡ (program (site self.old)).rows }
        requires kappa { pos 0 <ℤ kappa }
        ensures site { site self.new ≡ site self.old }
        ensures ready { Ready (state self.new) }
        ensures kept { Kept (state self.old) (state self.new) }
        ensures size { size (state self.old) ≤ size (state self.new) }
        ensures found { IfOk result (λ answer. IfSome answer (λ j. (j < size (state self.new))
            × (k : Key) × Lists (state self.new) j k × ((program (site self.old)).belongs k)
            × (reduced (program (site self.old)).rows (at y.now) kappa ((program (site self.old)).column k)
            <ℤ pos 0))) }
        ensures none { IfOk result (λ answer. IfNone answer
            (IsPricedOut (program (site self.old)) (at y.now) kappa)) }
        ensures wide { IfErr result
            (IsColumnsFault (program (site self.old)).rows y.now kappa tally.old tally.new) }
        ensures counts { (tally.old.wide ≤ tally.new.wide) × (tally.new.spent ≡ tally.old.spent) };
}
