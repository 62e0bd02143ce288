//! The line of a node.

ghost use Rattle.std.specs.Prelude.{ℕ, ◌≡◌, ◌<◌, List, ◌∷◌, Err, IfOk, MatchOption};
ghost use Rattle.std.specs.Option.{option_copied};
ghost use Rattle.model_rosters.specs.declared.instance.Group.{Group};
ghost use Rattle.check_certificates.specs.Sound.{most_rule};
ghost use Rattle.text_proof_pieces.specs.NodeLines.{arc_at, own_at, split_of, split_at, priced_at, leaf_at, node_at};
ghost use Rattle.text_proof_pieces.specs.declared.fault.PieceFault.TheVariants.{UnknownLine};

use crate::fault::PieceFault;
use crate::field::number;
use check_certificates::MOST_NODES;
use model_rosters::{ArcKey, Group};
use text_lines::{Line, Words};

/// What the line of a node says.
#[derive(Clone, Copy, Drop)]
pub enum NodeLine {
    Split {
        arc: ArcKey,
        /// 0 to 63.
        b: u32,
        /// The denominator of the node's prices, where it has some.
        d: Option<u64>,
    },
    Priced {
        /// The denominator of the prices.
        d: u64,
    },
    Pinned,
    Bare,
}

/// A certificate has at most so many nodes.
const MOST_LINES: u32 = MOST_NODES as u32;

/// Denominators are no greater.
const MOST_DENOMINATOR: u128 = 1 << 30;

// Returns the greatest number of a rule, with groups and without.
fn most_rule(groups: &[Group]) -> u128
    ensures { result ≡ most_rule groups.now }
{
    if groups.is_empty() { 64 } else { 72 }
}

// The words of an arc.
#[derive(Clone, Copy, Drop)]
struct ArcWords<'a> {
    rule: &'a [u8],
    suffix: &'a [u8],
    start: &'a [u8],
    len: &'a [u8],
    part: &'a [u8],
}

// Takes the words of a split's arc.
#[tactic(auto, unfolding(crate::specs::NodeLines::split_at))]
fn arc_words<'a>(words: &mut Words<'a>) -> Option<ArcWords<'a>>
    ensures { MatchOption result
        ((k : ℕ) (groups : List Group) (n : ℕ) → split_at k groups n words.old ≡ Err (UnknownLine k))
        (λ a. words.old ≡ a.rule.now ∷ a.suffix.now ∷ a.start.now ∷ a.len.now ∷ a.part.now ∷ words.new) }
{
    let Some(rule) = words.next() else {
        return None;
    };
    let Some(suffix) = words.next() else {
        return None;
    };
    let Some(start) = words.next() else {
        return None;
    };
    let Some(len) = words.next() else {
        return None;
    };
    let Some(part) = words.next() else {
        return None;
    };
    Some(ArcWords {
        rule,
        suffix,
        start,
        len,
        part,
    })
}

// Reads an arc.
#[tactic(auto, unfolding(crate::specs::NodeLines::arc_at))]
fn arc(line: u32, groups: &[Group], words: &ArcWords<'_>) -> Result<ArcKey, PieceFault>
    ensures { result ≡ arc_at line groups.now words.now.rule.now words.now.suffix.now words.now.start.now
        words.now.len.now words.now.part.now }
{
    let rule = number(line, 1, most_rule(groups), words.rule)? as u8;
    let suffix = number(line, 0, 6, words.suffix)? as u8;
    let start = number(line, 1, 96, words.start)? as u8;
    let len = number(line, 1, 96, words.len)? as u8;
    let part = number(line, 1, 96, words.part)? as u8;
    Ok(ArcKey {
        rule,
        suffix,
        start,
        len,
        part,
    })
}

// Reads the denominator of a split's prices, where it has some.
fn own(line: u32, word: Option<&[u8]>) -> Result<Option<u64>, PieceFault>
    ensures { result ≡ own_at line (option_copied word.entry) }
{
    let Some(word) = word else {
        return Ok(None);
    };
    let d = number(line, 1, MOST_DENOMINATOR, word)? as u64;
    Ok(Some(d))
}

// Reads the numbers of a split.
#[tactic(auto, unfolding(crate::specs::NodeLines::split_of))]
fn split_of(
    line: u32,
    groups: &[Group],
    words: &ArcWords<'_>,
    b: &[u8],
    d: Option<&[u8]>,
) -> Result<NodeLine, PieceFault>
    ensures { result ≡ split_of line groups.now words.now.rule.now words.now.suffix.now words.now.start.now
        words.now.len.now words.now.part.now b.now (option_copied d.entry) }
{
    let arc = arc(line, groups, words)?;
    let b = number(line, 0, 63, b)? as u32;
    let d = own(line, d)?;
    Ok(NodeLine::Split { arc, b, d })
}

// Reads the line of a split, behind its first word.
#[tactic(auto, unfolding(crate::specs::NodeLines::split_at))]
fn split(
    line: u32,
    groups: &[Group],
    nodes: u32,
    words: &mut Words<'_>,
) -> Result<NodeLine, PieceFault>
    ensures value { result ≡ split_at line groups.now nodes words.old }
    ensures few { IfOk result (λ _. nodes < 20001) }
{
    let Some(arc) = arc_words(words) else {
        return Err(PieceFault::UnknownLine { line });
    };
    let Some(b) = words.next() else {
        return Err(PieceFault::UnknownLine { line });
    };
    let d = words.next();
    if let Some(_) = words.next() {
        return Err(PieceFault::UnknownLine { line });
    }
    if MOST_LINES <= nodes {
        return Err(PieceFault::TooManyNodes { line });
    }
    split_of(line, groups, &arc, b, d)
}

// Reads the line of a priced leaf, behind its first word.
#[tactic(auto, unfolding(crate::specs::NodeLines::priced_at))]
fn priced(line: u32, nodes: u32, words: &mut Words<'_>) -> Result<NodeLine, PieceFault>
    ensures value { result ≡ priced_at line nodes words.old }
    ensures few { IfOk result (λ _. nodes < 20001) }
{
    let Some(d) = words.next() else {
        return Err(PieceFault::UnknownLine { line });
    };
    if let Some(_) = words.next() {
        return Err(PieceFault::UnknownLine { line });
    }
    if MOST_LINES <= nodes {
        return Err(PieceFault::TooManyNodes { line });
    }
    let d = number(line, 1, MOST_DENOMINATOR, d)? as u64;
    Ok(NodeLine::Priced { d })
}

// Reads the line of a leaf without prices, behind its first word.
#[tactic(auto, unfolding(crate::specs::NodeLines::leaf_at))]
fn leaf(
    line: u32,
    nodes: u32,
    leaf: NodeLine,
    words: &mut Words<'_>,
) -> Result<NodeLine, PieceFault>
    ensures value { result ≡ leaf_at line nodes leaf words.old }
    ensures few { IfOk result (λ _. nodes < 20001) }
{
    if let Some(_) = words.next() {
        return Err(PieceFault::UnknownLine { line });
    }
    if MOST_LINES <= nodes {
        return Err(PieceFault::TooManyNodes { line });
    }
    Ok(leaf)
}

/// Reads the line of a node, before which so many nodes stand.
///
/// # Errors
///
/// The line's first fault, as `node_at` says it, with the line's number: `UnknownLine`, `TooManyNodes` past
/// 20,001 nodes, `BadNumber` or `OutOfRange`.
#[tactic(auto, unfolding(crate::specs::NodeLines::node_at))]
pub fn node_line(groups: &[Group], nodes: u32, line: &Line<'_>) -> Result<NodeLine, PieceFault>
    ensures value { result ≡ node_at line.now.number groups.now nodes line.now.words }
    ensures few { IfOk result (λ _. nodes < 20001) }
{
    let number = line.number();
    let mut words = line.words();
    let Some(first) = words.next() else {
        return Err(PieceFault::UnknownLine { line: number });
    };
    if first == b"split".as_slice() {
        split(number, groups, nodes, &mut words)
    } else if first == b"priced".as_slice() {
        priced(number, nodes, &mut words)
    } else if first == b"pinned".as_slice() {
        leaf(number, nodes, NodeLine::Pinned, &mut words)
    } else if first == b"bare".as_slice() {
        leaf(number, nodes, NodeLine::Bare, &mut words)
    } else {
        Err(PieceFault::UnknownLine { line: number })
    }
}
