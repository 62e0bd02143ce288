//! The rules of runs and of blocks.

ghost use Rattle.std.specs.Prelude.{◌≡◌, ◌++◌, ◌+◌, nat_le, map, IfOk, OnOk, true};
ghost use Rattle.plan_laws.specs.Names.{block_rules, longer_rules, rules_for, run as run_kind};
ghost use Rattle.plan_names.specs.Views.{rule_of};
ghost use Rattle.plan_names.specs.Rules.{run_rules};

use crate::names::RuleName;
use crate::rule::NameRule;
use crate::symbols::{WHOLE, add_rule, copies, one, only, plain, two};
use model_rosters::{List, Memory, Window};
use plan_laws::Activity;
use std::alloc::Global;

/// The most symbols that a rule can have.
const MOST_SYMBOLS: u8 = 8;

/// Returns the rules of a run of letters.
///
/// # Errors
///
/// `Memory` where memory runs out.
pub(crate) fn run_rules<'a>(
    alloc: Global,
    plus: u32,
    activity: Activity,
) -> Result<List<NameRule<'a>>, Memory>
    ensures { IfOk result (λ rules. map rule_of rules ≡ run_rules plus activity) }
{
    let letter = RuleName::Letter(plus, activity);
    let mut rules = only(alloc, plain(0, one(alloc, letter)?))?;
    let longer = two(alloc, letter, RuleName::Run(plus, activity))?;
    add_rule(&mut rules, plain(0, longer))?;
    Ok(rules)
}

// Appends the rule of a letter more, where a block may have more than its least letters.
fn add_longer<'a>(
    alloc: Global,
    plus: u32,
    activity: Activity,
    rules: &mut List<NameRule<'a>>,
) -> Result<(), Memory>
    ensures { OnOk result (map rule_of rules.new ≡ map rule_of rules.old
        ++ longer_rules plus (nat_le (activity.least + 1) activity.greatest) activity) }
{
    if activity.least >= activity.greatest {
        return Ok(());
    }
    let right = two(
        alloc,
        RuleName::Letter(plus, activity),
        RuleName::Block(plus, activity),
    )?;
    let span = Window {
        lo: activity.least + 1,
        hi: activity.greatest,
    };
    add_rule(
        rules,
        NameRule {
            span,
            ..plain(0, right)
        },
    )
}

// Returns the rules of a block whose least letters a rule can have.
fn short_block<'a>(
    alloc: Global,
    plus: u32,
    activity: Activity,
) -> Result<List<NameRule<'a>>, Memory>
    ensures { IfOk result (λ rules. map rule_of rules ≡ block_rules plus true activity) }
{
    let letter = RuleName::Letter(plus, activity);
    let mut rules = only(alloc, plain(0, copies(alloc, activity.least, letter)?))?;
    add_longer(alloc, plus, activity, &mut rules)?;
    Ok(rules)
}

/// Returns the rules of a block: its least letters and more of them, or a run where those are more than a
/// rule can have.
///
/// # Errors
///
/// `Memory` where memory runs out.
pub(crate) fn block_rules<'a>(
    alloc: Global,
    plus: u32,
    activity: Activity,
) -> Result<List<NameRule<'a>>, Memory>
    ensures { IfOk result (λ rules. map rule_of rules ≡ block_rules plus (nat_le activity.least 8) activity) }
{
    if activity.least <= MOST_SYMBOLS {
        return short_block(alloc, plus, activity);
    }
    let right = one(alloc, RuleName::Run(plus, activity))?;
    let span = Window {
        lo: activity.least,
        hi: activity.greatest,
    };
    only(
        alloc,
        NameRule {
            span,
            ..plain(0, right)
        },
    )
}
