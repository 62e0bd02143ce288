//! Which arcs are letters.

use model_rosters::{ArcKey, Grammar, Sym};

/// Returns the one code that a rule makes; `None` where it makes more.
fn code_of(grammar: &Grammar, rule: u8) -> Option<u8> {
    let place = (rule as usize).checked_sub(1)?;
    match grammar.rules.as_slice().get(place)?.right.as_slice() {
        [Sym::Code(code)] => Some(*code),
        _ => None,
    }
}

/// Returns how often a code stands on the right sides of the rules.
fn places_of(grammar: &Grammar, code: u8) -> u32 {
    let mut places = 0u32;
    for rule in grammar.rules.as_slice() {
        for symbol in rule.right.as_slice() {
            if *symbol == Sym::Code(code) {
                places = places.saturating_add(1);
            }
        }
    }
    places
}

/// Says whether an arc is a letter: its rule makes one code, which stands nowhere else. The arc's count is
/// the number of shifts that have that code at its period.
pub(crate) fn is_letter(grammar: &Grammar, arc: &ArcKey) -> bool {
    match code_of(grammar, arc.rule) {
        Some(code) => places_of(grammar, code) == 1,
        None => false,
    }
}
