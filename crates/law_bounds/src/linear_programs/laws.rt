//! The trait of linear programs, and the laws on their solutions.

ghost use Rattle.std.specs.Prelude.{◌≡◌, ◌↔◌, ◌<◌, ◌+◌, ℕ, ℤ, pos, unsigned_abs, ◌*ℤ◌, ◌≤ℤ◌, ◌<ℤ◌, List};
ghost use Rattle.law_bounds.specs.linear_programs.Sums.{dot};
ghost use Rattle.law_bounds.specs.linear_programs.RowStep.{IsRowStep, MeetsRow};
ghost use Rattle.law_bounds.specs.linear_programs.Program.{Program, IsSound, IsPricedOut, unit_vector};
ghost use Rattle.law_bounds.specs.linear_programs.Solution.{Weighted, IsSolution, IsValue, IsBasic, CostsLeast, HaveSameSums, Each, Uses, cost_of};
ghost use Rattle.law_bounds.specs.linear_programs.Example.{example_program, last_tableau};
ghost use Rattle.law_bounds.specs.linear_programs.Tableau.{Tableau, PivotPath, IsTableauSolution, on_basis};

/// Any linear program, for the laws that hold of each. Its columns are told apart by keys.
pub trait LinearProgram {
    ghost Key: { Type 0 };

    ghost program: { Self → Program Key };
}

/// Weak duality: prices that leave no column of the set a negative reduced cost bound the cost of
/// each solution from below.
pub fn prices_bound_solutions<P: LinearProgram>(program: &P)
    ensures { (y : ℕ → ℤ) (kappa : ℤ) → IsPricedOut (P.program program.now) y kappa →
        (ws : List (Weighted P.Key)) (q : ℕ) → IsSolution (P.program program.now) ws q →
        (pos q *ℤ dot (P.program program.now).rows y (P.program program.now).right) ≤ℤ
        (kappa *ℤ cost_of (P.program program.now).column ws) }
{}

/// At the end of each pivot path a vector meets the rows of the tableau exactly where it meets the
/// rows of the program.
pub fn paths_keep_solutions<P: LinearProgram>(program: &P)
    ensures { IsSound (P.program program.now) → (n : ℕ) (t : Tableau P.Key) →
        PivotPath (P.program program.now) n t → (v : ℕ → ℤ) (q : ℤ) → ((r : ℕ) →
        r < (P.program program.now).rows → dot (P.program program.now).rows (t.row r) v ≡
        q *ℤ t.right r) ↔ ((i : ℕ) → i < (P.program program.now).rows → v i ≡
        q *ℤ (P.program program.now).right i) }
{}

/// At the end of each pivot path no right side is negative, `kappa` is above 0, and the value is the
/// sum of the program's right sides times the prices.
pub fn paths_stay_feasible<P: LinearProgram>(program: &P)
    ensures right { IsSound (P.program program.now) → (n : ℕ) (t : Tableau P.Key) →
        PivotPath (P.program program.now) n t → (r : ℕ) → r < (P.program program.now).rows →
        pos 0 ≤ℤ t.right r }
    ensures kappa { IsSound (P.program program.now) → (n : ℕ) (t : Tableau P.Key) →
        PivotPath (P.program program.now) n t → pos 0 <ℤ t.kappa }
    ensures value { IsSound (P.program program.now) → (n : ℕ) (t : Tableau P.Key) →
        PivotPath (P.program program.now) n t → t.value ≡
        dot (P.program program.now).rows t.y (P.program program.now).right }
{}

/// At the end of a pivot path that leaves no column of the set a negative reduced cost, the value
/// over `kappa` is that of the program.
pub fn priced_out_paths_are_optimal<P: LinearProgram>(program: &P)
    ensures { IsSound (P.program program.now) → (n : ℕ) (t : Tableau P.Key) →
        PivotPath (P.program program.now) n t → IsPricedOut (P.program program.now) t.y t.kappa →
        IsValue (P.program program.now) t.value (unsigned_abs t.kappa) }
{}

/// At the end of each pivot path the tableau has a solution, which is basic and costs the value over
/// `kappa`.
pub fn tableau_solutions_are_basic<P: LinearProgram>(program: &P)
    ensures some { IsSound (P.program program.now) → (n : ℕ) (t : Tableau P.Key) →
        PivotPath (P.program program.now) n t → (w : ℕ → ℕ) × (q : ℕ) ×
        IsTableauSolution (P.program program.now) t w q }
    ensures basic { IsSound (P.program program.now) → (n : ℕ) (t : Tableau P.Key) →
        PivotPath (P.program program.now) n t → (w : ℕ → ℕ) (q : ℕ) →
        IsTableauSolution (P.program program.now) t w q →
        IsBasic (P.program program.now) (on_basis t.basis w (P.program program.now).rows) q }
    ensures cost { IsSound (P.program program.now) → (n : ℕ) (t : Tableau P.Key) →
        PivotPath (P.program program.now) n t → (w : ℕ → ℕ) (q : ℕ) →
        IsTableauSolution (P.program program.now) t w q →
        t.kappa *ℤ cost_of (P.program program.now).column (on_basis t.basis w (P.program program.now).rows)
        ≡ pos q *ℤ t.value }
{}

/// A value is that of each fraction equal to it.
pub fn equal_fractions_are_values<P: LinearProgram>(program: &P)
    ensures { (v w : ℤ) (q r : ℕ) → 0 < q → w *ℤ pos q ≡ v *ℤ pos r →
        IsValue (P.program program.now) w r → IsValue (P.program program.now) v q }
{}

/// At the end of a pivot path that leaves no column of the set a negative reduced cost, no solution
/// costs less than that of the tableau.
pub fn priced_out_solutions_cost_least<P: LinearProgram>(program: &P)
    ensures { IsSound (P.program program.now) → (n : ℕ) (t : Tableau P.Key) →
        PivotPath (P.program program.now) n t → IsPricedOut (P.program program.now) t.y t.kappa →
        (w : ℕ → ℕ) (q : ℕ) → IsTableauSolution (P.program program.now) t w q →
        CostsLeast (P.program program.now) (on_basis t.basis w (P.program program.now).rows) q }
{}

/// Weighted keys with the same sums as a basic solution, all of which it uses, are a basic solution,
/// and of least cost where that one is.
pub fn same_sums_stay_basic<P: LinearProgram>(program: &P)
    ensures basic { (ws vs : List (Weighted P.Key)) (q : ℕ) → HaveSameSums ws vs →
        Each (P.program program.now).belongs vs → ((k : P.Key) → Uses vs k → Uses ws k) →
        IsBasic (P.program program.now) ws q → IsBasic (P.program program.now) vs q }
    ensures least { (ws vs : List (Weighted P.Key)) (q : ℕ) → HaveSameSums ws vs →
        CostsLeast (P.program program.now) ws q → CostsLeast (P.program program.now) vs q }
{}

/// A vector times the unit vector of a row is the number at that row.
pub fn unit_vectors_pick()
    ensures { (n r : ℕ) (y : ℕ → ℤ) → r < n → dot n y (unit_vector r) ≡ y r }
{}

/// A vector that meets two rows meets the row that a step leaves, and one that meets the new row and
/// the other one meets the row before, where `p` is above 0. Right sides stand at place `m`.
pub fn row_steps_keep_solutions()
    ensures after { (m : ℕ) (p : ℤ) (row : ℕ → ℤ) (a : ℤ) (other left : ℕ → ℤ) (g : ℤ) →
        IsRowStep (m + 1) p row a other left g → (v : ℕ → ℤ) (q : ℤ) → MeetsRow m row v q →
        MeetsRow m other v q → MeetsRow m left v q }
    ensures before { (m : ℕ) (p : ℤ) (row : ℕ → ℤ) (a : ℤ) (other left : ℕ → ℤ) (g : ℤ) →
        IsRowStep (m + 1) p row a other left g → pos 0 <ℤ p → (v : ℕ → ℤ) (q : ℤ) →
        MeetsRow m left v q → MeetsRow m other v q → MeetsRow m row v q }
{}

/// Rows with the same numbers take the same step.
pub fn row_steps_read_numbers()
    ensures { (n : ℕ) (p : ℤ) (row row' : ℕ → ℤ) (a : ℤ) (other other' left left' : ℕ → ℤ) (g : ℤ) →
        IsRowStep n p row a other left g → ((k : ℕ) → k < n → row k ≡ row' k) → ((k : ℕ) → k < n →
        other k ≡ other' k) → ((k : ℕ) → k < n → left k ≡ left' k) →
        IsRowStep n p row' a other' left' g }
{}

/// A worked program: one step leads to a tableau that is priced out, with the value 2.
pub fn example_is_optimal()
    ensures sound { IsSound example_program }
    ensures path { PivotPath example_program 1 last_tableau }
    ensures priced { IsPricedOut example_program last_tableau.y last_tableau.kappa }
    ensures value { IsValue example_program (pos 2) 1 }
{}
