//! Groups and the names that the start name leads to.

ghost use Rattle.std.specs.Prelude.{◌≡◌, ◌↔◌, IsTrue};
ghost use Rattle.tree_findings.specs.Findings.{has_group, is_only, is_team, IsAbsentTeam};

use model_rosters::{Grammar, Group, Sym};

// Whether one of the groups has a name.
fn has_group(groups: &[Group], name: usize) -> bool
    ensures { result ≡ has_group groups.now name }
{
    groups.iter().any(|group| group.name as usize == name)
}

// Whether the symbols are a name alone.
fn is_only(name: usize, right: &[Sym]) -> bool
    ensures { result ≡ is_only name right.now }
{
    match right {
        [Sym::Name(only)] => *only as usize == name,
        _ => false,
    }
}

// Whether a rule of the start name has a name as its one symbol.
fn is_team(own: &Grammar, name: usize) -> bool
    ensures { result ≡ is_team own.now name }
{
    own.rules.as_slice().iter().any(|rule| rule.left == own.start
        && is_only(name, rule.right.as_slice()))
}

/// Returns whether the start name leads to a name on a day with groups, and neither has a group.
pub(crate) fn is_absent_team(own: &Grammar, groups: &[Group], name: usize) -> bool
    ensures { IsTrue result ↔ IsAbsentTeam own.now groups.now name }
{
    !groups.is_empty()
        && is_team(own, name)
        && !has_group(groups, name)
        && !has_group(groups, own.start as usize)
}
