//! The next rule uses.

ghost use Rattle.std.specs.Prelude.{◌≡◌, ◌^◌, ◌+◌, ◌≤◌, ◌<◌, IfOk, OnOk, MatchOption, IfSome, Some, length, slice_get};
ghost use Rattle.model_rosters.specs.declared.grammar.Rule.{Rule as RuleValue};
ghost use Rattle.model_rosters.specs.Grammar.{rule_at};
ghost use Rattle.model_rosters.specs.Sums.{Within};
ghost use Rattle.tree_ranking.specs.Frames.{IsSums, IsFrame, right_of};
ghost use Rattle.tree_ranking.specs.Children.{IsUseSum, HasNoSum, AreChildrenTo, AreChildren};

use crate::candidate::{Child, inside};
use crate::frame::Frame;
use crate::sums::{Sums, frame_least, part_price};
use model_rosters::{Grammar, LetterPrice, Memory, Step, Sym, rule_of};
use std::alloc::Global;
use tree_span_cells::may_stand;

// The least sum of what a frame derives by a use of a rule of so many periods for its first symbol,
// which is a name.
fn use_sum<P: LetterPrice>(
    grammar: &Grammar,
    prices: &P,
    sums: &Sums,
    frame: Frame,
    name: u8,
    number: u8,
    len: u8,
) -> Option<i128>
    requires sums { IsSums grammar.now (P.view prices.now) sums.now }
    requires frame { IsFrame grammar.now frame }
    requires symbol { slice_get (right_of grammar.now frame.suffix.rule) frame.suffix.from ≡ Some
        (Sym.Name name) }
    requires rule { (1 ≤ number) × (number ≤ length grammar.now.rules) }
    requires some { 1 ≤ len }
    requires high { len ≤ frame.span.len }
    ensures value { MatchOption result (HasNoSum grammar.now (P.view prices.now) frame number len)
        (IsUseSum grammar.now (P.view prices.now) frame number len) }
    ensures within { IfSome result (Within (2 ^ 113)) }
{
    let rule = rule_of(grammar, number);
    if !may_stand(rule, grammar.periods, frame.span.start, len) {
        return None;
    }
    let step = Step {
        rule: number,
        start: frame.span.start,
        len,
    };
    let Some(others) = frame_least(grammar, prices, sums, frame.after(len)) else {
        return None;
    };
    let Some(inner) = frame_least(grammar, prices, sums, inside(step)) else {
        return None;
    };
    let arc = part_price(grammar, prices, frame, len);
    Some((prices.rule(number) + inner) + (arc + others))
}

// Adds the children by one rule of the name, the shorter ones first.
fn add_children<P: LetterPrice>(
    grammar: &Grammar,
    prices: &P,
    sums: &Sums,
    frame: Frame,
    name: u8,
    base: i128,
    number: u8,
    children: &mut Vec<Child>,
) -> Result<(), Memory>
    requires sums { IsSums grammar.now (P.view prices.now) sums.now }
    requires frame { IsFrame grammar.now frame }
    requires symbol { slice_get (right_of grammar.now frame.suffix.rule) frame.suffix.from ≡ Some
        (Sym.Name name) }
    requires base { Within (2 ^ 112) base }
    requires rule { (1 ≤ number) × (number ≤ length grammar.now.rules) }
    requires left { (rule : RuleValue) → rule_at grammar.now number ≡ Some rule → rule.left ≡ name }
    requires children { AreChildrenTo grammar.now (P.view prices.now) frame name base number 1
        children.old.items }
    ensures { OnOk result (AreChildrenTo grammar.now (P.view prices.now) frame name base number
        (frame.span.len + 1) children.new.items) }
{
    for len in 1..frame.span.len + 1 {
        if let Some(sum) = use_sum(grammar, prices, sums, frame, name, number, len) {
            let child = Child {
                sum: base + sum,
                rule: number,
                len,
            };
            children.push(child)?;
        }
    }
    Ok(())
}

/// Returns the next rule uses for a name that is the first symbol of a frame, in their order. Their sums
/// are those of the frame above a base.
///
/// # Errors
///
/// `Memory` where memory runs out; nothing is kept then.
pub fn children_of<P: LetterPrice>(
    alloc: Global,
    grammar: &Grammar,
    prices: &P,
    sums: &Sums,
    frame: Frame,
    name: u8,
    base: i128,
) -> Result<Vec<Child>, Memory>
    requires sums { IsSums grammar.now (P.view prices.now) sums.now }
    requires frame { IsFrame grammar.now frame }
    requires symbol { slice_get (right_of grammar.now frame.suffix.rule) frame.suffix.from ≡ Some
        (Sym.Name name) }
    requires base { Within (2 ^ 112) base }
    ensures { IfOk result (λ chs. AreChildren grammar.now (P.view prices.now) frame name base chs.items) }
{
    let mut children = Vec::new(alloc);
    for number in 1..grammar.rules.len() as u8 + 1 {
        if rule_of(grammar, number).left == name {
            add_children(
                grammar,
                prices,
                sums,
                frame,
                name,
                base,
                number,
                &mut children,
            )?;
        }
    }
    Ok(children)
}
