//! Ranks that one-symbol rules raise, or a cycle of them.

ghost use Rattle.std.specs.Prelude.{
  ℕ,
  ◌≡◌,
  ◌<◌,
  ◌≤◌,
  ◌↔◌,
  ◌==◌,
  ◌∷◌,
  [],
  length,
  slice_index,
  max,
  min,
  count_by,
  IsTrue,
  IfErr,
  IfOk,
  IsOk,
  IfNone,
  IfSome,
  ◌⊎◌,
  MatchOption,
};
ghost use Rattle.std.specs.Int.{bit_at};
ghost use Rattle.model_rosters.specs.Ranks.{
  HasNames,
  reach_bit,
  ReachesOnlyLed,
  ReachesSteps,
  IsClosedBelow,
};
ghost use Rattle.model_rosters.specs.UnitRules.{IsFirstOnCycle, IsOnCycle, IsRanked};

use crate::grammar::{Grammar, Rule, Sym};

/// How many names a grammar may have.
pub const MOST_NAMES: usize = 33;

/// For each name, the names that one-symbol rules lead to from it, as the bits of a number.
type Reach = [u64; MOST_NAMES];

/// Returns a rank of each name that every one-symbol rule raises, below the number of names.
///
/// Takes no memory.
///
/// # Errors
///
/// The first name on a cycle, where one-symbol rules lead from a name back to it: then there is no such rank.
pub fn unit_ranks(grammar: &Grammar) -> Result<[u8; MOST_NAMES], u8>
    requires { HasNames grammar.now }
    ensures ranked { IfOk result
        (λ ranks. IsRanked grammar.now (λ x. slice_index ranks x) (length grammar.now.names)) }
    ensures found { ((rank : ℕ → ℕ) × IsRanked grammar.now rank (length grammar.now.names))
        → IsOk result }
    ensures cycle { IfErr result (IsFirstOnCycle grammar.now) }
    ensures exists { IfErr result (λ x. x < length grammar.now.names) }
{
    let reach = reach_of(grammar);
    let rows = &reach[..grammar.names.len()];
    match first_on_cycle(rows) {
        Some(name) => Err(name),
        None => Ok(ranks(rows)),
    }
}

/// Says that a grammar whose names have ranks has no name on a cycle.
pub fn ranked_has_no_cycle()
    ensures { (g : Grammar) (rank : ℕ → ℕ) (names : ℕ) → IsRanked g rank names
        → (x : ℕ) → IsOnCycle g x → ⊥ }
{}

/// Returns whether the set contains the name.
fn contains(set: u64, name: u8) -> bool
    requires { name < 64 }
    ensures { IsTrue result ↔ (bit_at set name ≡ 1) }
{
    set >> name & 1 == 1
}

/// Returns the name that a rule of one symbol leads to.
fn target(rule: &Rule) -> Option<u8>
    ensures { MatchOption result
        ((y : ℕ) → rule.now.right ≡ Sym.Name y ∷ [] → ⊥)
        (λ y. rule.now.right ≡ Sym.Name y ∷ []) }
{
    match rule.right.as_slice() {
        [Sym::Name(name)] => Some(*name),
        _ => None,
    }
}

/// Adds one name to the names that a name reaches.
fn add(reach: &mut Reach, from: u8, to: u8)
    requires from_in { from < 33 }
    requires to_in { to < 33 }
    ensures added { reach_bit reach.new from to ≡ 1 }
    ensures only { (x y : ℕ) → reach_bit reach.new x y ≡ 1
        → (reach_bit reach.old x y ≡ 1) ⊎ ((x ≡ from) × (y ≡ to)) }
    ensures kept { (x y : ℕ) → reach_bit reach.old x y ≡ 1 → reach_bit reach.new x y ≡ 1 }
{
    reach[from as usize] |= 1 << to;
}

/// Adds the name that the rule leads to, if it is a rule of one symbol.
fn add_step(reach: &mut Reach, rule: &Rule)
    requires left_in { rule.now.left < 33 }
    requires right_in { (y : ℕ) → rule.now.right ≡ Sym.Name y ∷ [] → y < 33 }
    ensures added { (y : ℕ) → rule.now.right ≡ Sym.Name y ∷ []
        → reach_bit reach.new rule.now.left y ≡ 1 }
    ensures only { (x y : ℕ) → reach_bit reach.new x y ≡ 1 → (reach_bit reach.old x y ≡ 1)
        ⊎ ((x ≡ rule.now.left) × (rule.now.right ≡ Sym.Name y ∷ [])) }
    ensures kept { (x y : ℕ) → reach_bit reach.old x y ≡ 1 → reach_bit reach.new x y ≡ 1 }
{
    let Some(name) = target(rule) else {
        return;
    };
    add(reach, rule.left, name);
}

/// Returns the names that each name leads to by one rule.
fn steps(grammar: &Grammar) -> Reach
    requires { HasNames grammar.now }
    ensures led { ReachesOnlyLed grammar.now result }
    ensures steps { ReachesSteps grammar.now result }
{
    let mut reach = [0; MOST_NAMES];
    for rule in grammar.rules.as_slice() {
        add_step(&mut reach, rule);
    }
    reach
}

/// Returns the set, with what the pivot reaches if the set contains the pivot.
fn extended(set: u64, pivot: u8, from_pivot: u64) -> u64
    requires { pivot < 64 }
    ensures { (y : ℕ) → bit_at result y
        ≡ max (bit_at set y) (min (bit_at set pivot) (bit_at from_pivot y)) }
{
    if contains(set, pivot) {
        set | from_pivot
    } else {
        set
    }
}

/// Lets each name that reaches the pivot reach what the pivot reaches.
fn pass_through(reach: &mut Reach, pivot: u8)
    requires { pivot < 33 }
    ensures { (x y : ℕ) → reach_bit reach.new x y ≡ max
        (reach_bit reach.old x y)
        (min (reach_bit reach.old x pivot) (reach_bit reach.old pivot y)) }
{
    let from_pivot = reach[pivot as usize];
    for row in reach.iter_mut() {
        *row = extended(*row, pivot, from_pivot);
    }
}

/// Returns the names that each name leads to, by Warshall's transitive closure.
fn reach_of(grammar: &Grammar) -> Reach
    requires { HasNames grammar.now }
    ensures led { ReachesOnlyLed grammar.now result }
    ensures steps { ReachesSteps grammar.now result }
    ensures closed { IsClosedBelow 33 result }
{
    let mut reach = steps(grammar);
    for pivot in 0..MOST_NAMES as u8 {
        pass_through(&mut reach, pivot);
    }
    reach
}

/// Returns the first name that reaches itself.
fn first_on_cycle(reach: &[u64]) -> Option<u8>
    requires { length reach.now ≤ 33 }
    ensures none { IfNone result
        ((x : ℕ) → x < length reach.now → reach_bit reach.now x x ≡ 1 → ⊥) }
    ensures exists { IfSome result (λ x. x < length reach.now) }
    ensures reached { IfSome result (λ x. reach_bit reach.now x x ≡ 1) }
    ensures first { IfSome result (λ x. (y : ℕ) → y < x → reach_bit reach.now y y ≡ 1 → ⊥) }
{
    for (name, row) in reach.iter().enumerate() {
        if contains(*row, name as u8) {
            return Some(name as u8);
        }
    }
    None
}

/// Returns how many names reach the name.
fn rank(reach: &[u64], name: u8) -> u8
    requires few { length reach.now ≤ 33 }
    requires exists { name < 33 }
    ensures { result ≡ count_by (λ row. bit_at row name == 1) reach.now }
{
    reach.iter().filter(|row| contains(**row, name)).count() as u8
}

/// Returns for each name how many names reach it.
fn ranks(reach: &[u64]) -> [u8; MOST_NAMES]
    requires { length reach.now ≤ 33 }
    ensures { (x : ℕ) → x < 33
        → slice_index result x ≡ count_by (λ row. bit_at row x == 1) reach.now }
{
    let mut ranks = [0; MOST_NAMES];
    for name in 0..MOST_NAMES as u8 {
        ranks[name as usize] = rank(reach, name);
    }
    ranks
}
