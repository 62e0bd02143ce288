//! The next piece.

ghost use Rattle.std.specs.Prelude.{◌≡◌, ◌≤◌, ◌+◌, ◌<◌, [], ◌∷◌, Ok, Err, length, IfOk, IfSome, MatchResult, MatchOption};
ghost use Rattle.model_rosters.specs.declared.instance.Instance.{Instance as Day};
ghost use Rattle.model_rosters.specs.SoundInstance.{IsSoundInstance};
ghost use Rattle.text_proof_pieces.specs.PieceList.{Place, start, bounds, shifts, nodes as nodes_due, ended, wants, begin, pieces_from, spot_of, FollowsAt};
ghost use Rattle.text_proof_pieces.specs.Next.{Gives};
ghost use Rattle.text_proof_pieces.specs.Told.{done};
ghost use Rattle.text_proof_pieces.specs.declared.stage.Stage.TheVariants.{Over};

use crate::ahead::Ahead;
use crate::block::price_block;
use crate::fault::PieceFault;
use crate::line::{amount_line, is_end, is_header};
use crate::lines::next_line;
use crate::node::{NodeLine, node_line};
use crate::piece::Piece;
use crate::room::CertRoom;
use crate::shift::shift_line;
use crate::stage::Stage;
use model_rosters::Instance;
use text_lines::BadByte;

/// A piece, and what the text goes on with behind it.
#[derive(Clone, Copy, Drop)]
pub struct Next {
    pub piece: Piece,
    pub stage: Stage,
    /// How many nodes stand before.
    pub nodes: u32,
}

// Reads the header and the cost.
fn start(
    lines: &mut Ahead<'_>,
    instance: &Instance,
    room: &mut CertRoom,
) -> Result<Next, PieceFault>
    ensures value { (p : Place) → Gives (pieces_from instance.now start p lines.old) instance.now room.new
        lines.new result }
    ensures follows { IfOk result (λ x. FollowsAt x.stage x.nodes room.new.halves) }
    ensures few { IfOk result (λ x. x.nodes ≤ 20001) }
    ensures made { room.new.most ≡ room.old.most }
{
    let header = next_line(lines)?;
    if !is_header(instance.groups.as_slice(), &header) {
        return Err(PieceFault::BadHeader {
            line: header.number(),
        });
    }
    let line = next_line(lines)?;
    let cost = amount_line(&line, b"cost")?;
    room.clear();
    Ok(Next {
        piece: Piece::Cost(cost),
        stage: Stage::Bound {
            paid: cost.is_some(),
        },
        nodes: 0,
    })
}

// Reads the bound.
fn bound(
    lines: &mut Ahead<'_>,
    instance: &Instance,
    room: &mut CertRoom,
    nodes: u32,
    paid: bool,
) -> Result<Next, PieceFault>
    requires few { nodes ≤ 20001 }
    requires follows { length room.old.halves ≤ nodes }
    ensures value { Gives (pieces_from instance.now (bounds paid)
        (record { nodes = nodes; halves = room.old.halves }) lines.old) instance.now room.new lines.new
        result }
    ensures follows { IfOk result (λ x. FollowsAt x.stage x.nodes room.new.halves) }
    ensures few { IfOk result (λ x. x.nodes ≤ 20001) }
    ensures made { room.new.most ≡ room.old.most }
{
    let line = next_line(lines)?;
    let bound = amount_line(&line, b"bound")?;
    let stage = if paid {
        Stage::Shifts { count: 0 }
    } else {
        Stage::Nodes
    };
    Ok(Next {
        piece: Piece::Bound(bound),
        stage,
        nodes,
    })
}

// Reads what stands behind the line `end`.
fn end(lines: &mut Ahead<'_>) -> Result<(), PieceFault>
    ensures { (i : Day) (p : Place) → MatchResult result (λ _. pieces_from i ended p lines.old ≡ Ok done ∷ [])
        (λ e. pieces_from i ended p lines.old ≡ Err e ∷ []) }
{
    match lines.next() {
        None => Ok(()),
        Some(Err(BadByte { line })) => Err(PieceFault::BadByte { line }),
        Some(Ok(line)) => Err(PieceFault::Trailing {
            line: line.number(),
        }),
    }
}

// Reads what stands behind the line of a node, and takes the node into the tree.
fn begun(
    lines: &mut Ahead<'_>,
    instance: &Instance,
    room: &mut CertRoom,
    before: u32,
    head: NodeLine,
) -> Result<Next, PieceFault>
    requires sound { IsSoundInstance instance.now }
    requires made { length instance.now.cells ≤ room.old.most }
    requires few { before < 20001 }
    requires follows { length room.old.halves ≤ before }
    ensures value { Gives (begin head (record { nodes = before; halves = room.old.halves })
        (λ s p. pieces_from instance.now s p lines.old)) instance.now room.new lines.new result }
    ensures follows { IfOk result (λ x. FollowsAt x.stage x.nodes room.new.halves) }
    ensures few { IfOk result (λ x. x.nodes ≤ 20001) }
    ensures made { room.new.most ≡ room.old.most }
{
    let nodes = before + 1;
    let stage = Stage::Nodes;
    match head {
        NodeLine::Split { arc, b, d: None } => {
            room.open_split();
            let priced = false;
            let piece = Piece::Split { arc, b, priced };
            Ok(Next {
                piece,
                stage,
                nodes,
            })
        }
        NodeLine::Split { arc, b, d: Some(d) } => {
            price_block(lines, instance, room, d)?;
            room.open_split();
            let priced = true;
            let piece = Piece::Split { arc, b, priced };
            Ok(Next {
                piece,
                stage,
                nodes,
            })
        }
        NodeLine::Priced { d } => {
            price_block(lines, instance, room, d)?;
            room.end_halves();
            let piece = Piece::Priced;
            Ok(Next {
                piece,
                stage,
                nodes,
            })
        }
        NodeLine::Pinned => {
            room.end_halves();
            let piece = Piece::Pinned;
            Ok(Next {
                piece,
                stage,
                nodes,
            })
        }
        NodeLine::Bare => {
            room.end_halves();
            let piece = Piece::Bare;
            Ok(Next {
                piece,
                stage,
                nodes,
            })
        }
    }
}

// Whether the tree wants a further node.
fn wants(nodes: u32, room: &CertRoom) -> bool
    ensures { result ≡ wants (record { nodes = nodes; halves = room.now.halves }) }
{
    nodes == 0 || 0 < room.open_splits()
}

// Reads a node, or the end behind the whole tree.
fn node(
    lines: &mut Ahead<'_>,
    instance: &Instance,
    room: &mut CertRoom,
    nodes: u32,
) -> Result<Next, PieceFault>
    requires sound { IsSoundInstance instance.now }
    requires made { length instance.now.cells ≤ room.old.most }
    requires few { nodes ≤ 20001 }
    requires follows { length room.old.halves ≤ nodes }
    ensures value { Gives (pieces_from instance.now nodes_due
        (record { nodes = nodes; halves = room.old.halves }) lines.old) instance.now room.new lines.new
        result }
    ensures follows { IfOk result (λ x. FollowsAt x.stage x.nodes room.new.halves) }
    ensures few { IfOk result (λ x. x.nodes ≤ 20001) }
    ensures made { room.new.most ≡ room.old.most }
{
    let line = next_line(lines)?;
    if wants(nodes, room) {
        let head = node_line(instance.groups.as_slice(), nodes, &line)?;
        return begun(lines, instance, room, nodes, head);
    }
    if !is_end(&line) {
        return Err(PieceFault::Trailing {
            line: line.number(),
        });
    }
    end(lines)?;
    Ok(Next {
        piece: Piece::End,
        stage: Stage::Over,
        nodes,
    })
}

// Reads a shift behind so many, or else a node.
fn shift(
    lines: &mut Ahead<'_>,
    instance: &Instance,
    room: &mut CertRoom,
    nodes: u32,
    count: u32,
) -> Result<Next, PieceFault>
    requires sound { IsSoundInstance instance.now }
    requires made { length instance.now.cells ≤ room.old.most }
    requires few { nodes ≤ 20001 }
    requires follows { length room.old.halves ≤ nodes }
    ensures value { Gives (pieces_from instance.now (shifts count)
        (record { nodes = nodes; halves = room.old.halves }) lines.old) instance.now room.new lines.new
        result }
    ensures follows { IfOk result (λ x. FollowsAt x.stage x.nodes room.new.halves) }
    ensures few { IfOk result (λ x. x.nodes ≤ 20001) }
    ensures made { room.new.most ≡ room.old.most }
{
    let Some(line) = lines.next_shift(instance.groups.as_slice()) else {
        return node(lines, instance, room, nodes);
    };
    let shift = shift_line(instance, room, count, &line)?;
    Ok(Next {
        piece: Piece::Shift {
            group: shift.group,
            price: shift.price,
        },
        stage: Stage::Shifts { count: count + 1 },
        nodes,
    })
}

/// Reads the next piece, at this stage and behind so many nodes; nothing where all was given.
pub fn next_piece(
    lines: &mut Ahead<'_>,
    instance: &Instance,
    room: &mut CertRoom,
    stage: Stage,
    nodes: u32,
) -> Option<Result<Next, PieceFault>>
    requires sound { IsSoundInstance instance.now }
    requires made { length instance.now.cells ≤ room.old.most }
    requires few { nodes ≤ 20001 }
    requires follows { FollowsAt stage nodes room.old.halves }
    ensures value { MatchOption result (stage ≡ Over)
        (λ r. Gives (pieces_from instance.now (spot_of stage)
        (record { nodes = nodes; halves = room.old.halves }) lines.old) instance.now room.new lines.new r) }
    ensures follows { IfSome result (λ r. IfOk r (λ x. FollowsAt x.stage x.nodes room.new.halves)) }
    ensures few { IfSome result (λ r. IfOk r (λ x. x.nodes ≤ 20001)) }
    ensures made { room.new.most ≡ room.old.most }
{
    match stage {
        Stage::Over => None,
        Stage::TooLong => Some(Err(PieceFault::TooLong)),
        Stage::Start => Some(start(lines, instance, room)),
        Stage::Bound { paid } => Some(bound(lines, instance, room, nodes, paid)),
        Stage::Shifts { count } => Some(shift(lines, instance, room, nodes, count)),
        Stage::Nodes => Some(node(lines, instance, room, nodes)),
    }
}
