//! The grammar.

ghost use Rattle.std.specs.Prelude.{◌≡◌, ◌≤◌, length, map, IfErr, IfOk};
ghost use Rattle.model_rosters.specs.Sound.{IsPlain, IsSound};
ghost use Rattle.plan_names.specs.Views.{kind_of};
ghost use Rattle.plan_rules.specs.Grammars.{IsGrammarOf};
ghost use Rattle.plan_rules.specs.Others.{IsOther};
ghost use Rattle.plan_rules.specs.Outcomes.{HasWritten, IsRefused};

use crate::codes::plan_codes;
use crate::fault::WriteFault;
use crate::gather::{all_names, rule_count};
use crate::numbers::{all_rules, place_of};
use crate::texts::name_texts;
use model_rosters::{Grammar, is_plain, is_sound};
use plan_laws::{NamedLines, PeriodPlan};
use plan_names::{RuleName, start_name};
use std::alloc::Global;

/// The most codes of a rules text.
const MOST_CODES: usize = 32;

/// The most names of a rules text.
const MOST_NAMES: usize = 32;

/// The most rules of a rules text.
const MOST_RULES: u64 = 64;

// Returns the grammar of the names.
fn grammar_of(
    alloc: Global,
    plan: &PeriodPlan,
    staff: &[NamedLines],
    names: &[RuleName<'_>],
) -> Result<Grammar, WriteFault>
    requires { length names.now ≤ 32 }
    ensures is { IfOk result (λ g. IsGrammarOf plan.now staff.now (map kind_of names.now) g) }
    ensures other { IfErr result IsOther }
{
    let codes = plan_codes(alloc, plan)?;
    if codes.len() > MOST_CODES {
        return Err(WriteFault::Unsound);
    }
    let rules = all_rules(alloc, plan, staff, codes.as_slice(), names)?;
    let texts = name_texts(alloc, names)?;
    Ok(Grammar {
        periods: plan.periods,
        codes,
        names: texts,
        rules,
        start: place_of(names, start_name(staff)),
    })
}

// Returns the grammar, if it is a sound one.
fn checked(grammar: Grammar) -> Result<Grammar, WriteFault>
    ensures sound { IfOk result (λ g. (g ≡ grammar) × IsSound g × IsPlain g) }
    ensures other { IfErr result IsOther }
{
    if is_sound(&grammar) && is_plain(&grammar) {
        return Ok(grammar);
    }
    Err(WriteFault::Unsound)
}

/// Returns the grammar of a plan: its name of all days has the shifts of all duty lines, and each duty name
/// those of its lines, each at exactly its price. Either there is one `NamedLines` under no name, or each
/// has a name.
///
/// # Errors
///
/// `TooManyRules` where there would be more than 64 rules or 32 names, with both numbers, `Unsound` where
/// the numbers or names of the plan make no sound grammar, `Memory` where memory runs out.
pub fn written_rules(
    alloc: Global,
    plan: &PeriodPlan,
    staff: &[NamedLines],
) -> Result<Grammar, WriteFault>
    ensures written { IfOk result (λ g. HasWritten plan.now staff.now g) }
    ensures refused { IfErr result (λ fault. IsRefused plan.now staff.now fault) }
{
    let names = all_names(alloc, plan, staff)?;
    let count = rule_count(alloc, plan, staff, names.as_slice())?;
    if names.len() > MOST_NAMES || count > MOST_RULES {
        return Err(WriteFault::TooManyRules {
            rules: count,
            names: names.len() as u64,
        });
    }
    checked(grammar_of(alloc, plan, staff, names.as_slice())?)
}
