//! The price block of a node.

ghost use Rattle.std.specs.Prelude.{ℕ, ◌≡◌, ◌+◌, ◌≤◌, ◌<◌, [], ◌∷◌, Ok, Err, length, MatchResult, OnOk};
ghost use Rattle.model_rosters.specs.SoundInstance.{IsSoundInstance};
ghost use Rattle.text_lines.specs.Steps.{each};
ghost use Rattle.text_proof_pieces.specs.declared.node.NodeLine.{NodeLine};
ghost use Rattle.text_proof_pieces.specs.Ahead.{NoMult};
ghost use Rattle.text_proof_pieces.specs.PieceList.{Place, block, nodes, node_read, pieces_from, node_of};
ghost use Rattle.text_proof_pieces.specs.PriceLines.{due_byte, price_step, price_line, last_cut, mult_of, mult_line};
ghost use Rattle.text_proof_pieces.specs.Told.{node};

use crate::ahead::Ahead;
use crate::fault::PieceFault;
use crate::field::{number, signed};
use crate::lines::next_line;
use crate::room::CertRoom;
use check_certificates::{MOST_MULTIPLIERS, MOST_PRICE};
use model_rosters::{Instance, Mult, base_cut_count};
use text_lines::{Line, Words, words_left};

/// Returns the byte of the code whose prices are due behind so many prices.
pub fn due_byte(instance: &Instance, prices: usize) -> u8
    ensures { result ≡ due_byte instance.now prices }
{
    let code = match instance.cells.as_slice().get(prices) {
        Some(cell) => cell.code,
        None => 0,
    };
    match instance.grammar.codes.as_slice().get(code as usize) {
        Some(def) => def.byte,
        None => 0,
    }
}

// Reads a price for each word.
fn prices(room: &mut CertRoom, line: u32, words: &mut Words<'_>) -> Result<(), PieceFault>
    requires { length room.old.cell + length words.old ≤ room.old.most }
    ensures value { MatchResult result
        (λ _. each (price_step line) room.old.cell words.old ≡ Ok (room.new.cell))
        (λ e. each (price_step line) room.old.cell words.old ≡ Err e) }
    ensures long { OnOk result (length room.new.cell ≡ length room.old.cell + length words.old) }
    ensures kept { room.new ≡ record room.old { cell = room.new.cell } }
{
    while let Some(word) = words.next() {
        room.push_price(signed(line, word)?);
    }
    Ok(())
}

// Reads the line of the prices of one code.
#[tactic(auto, unfolding(crate::specs::PriceLines::price_line))]
fn price_line(instance: &Instance, room: &mut CertRoom, line: &Line<'_>) -> Result<(), PieceFault>
    requires { length room.old.cell + instance.now.grammar.periods ≤ room.old.most }
    ensures value { MatchResult result
        (λ _. price_line line.now.number instance.now room.old.cell line.now.words ≡ Ok (room.new.cell))
        (λ e. price_line line.now.number instance.now room.old.cell line.now.words ≡ Err e) }
    ensures long { OnOk result (length room.new.cell ≡ length room.old.cell + instance.now.grammar.periods) }
    ensures kept { room.new ≡ record room.old { cell = room.new.cell } }
{
    let number = line.number();
    let mut words = line.words();
    let Some(first) = words.next() else {
        return Err(PieceFault::UnknownLine { line: number });
    };
    let Some(code) = words.next() else {
        return Err(PieceFault::UnknownLine { line: number });
    };
    if first != b"price".as_slice() {
        return Err(PieceFault::UnknownLine { line: number });
    }
    if code != [due_byte(instance, room.cells().len())].as_slice() {
        return Err(PieceFault::UnknownLine { line: number });
    }
    let mut rest = words.again();
    if words_left(&mut rest) != instance.grammar.periods as usize {
        return Err(PieceFault::UnknownLine { line: number });
    }
    prices(room, number, &mut words)
}

// Reads the lines of prices behind the line of a node.
fn price_lines(
    lines: &mut Ahead<'_>,
    instance: &Instance,
    room: &mut CertRoom,
) -> Result<(), PieceFault>
    requires sound { IsSoundInstance instance.now }
    requires made { length instance.now.cells ≤ room.old.most }
    requires none { room.old.cell ≡ [] }
    ensures value { (h : NodeLine) (p : Place) → MatchResult result
        (λ _. pieces_from instance.now (block h [] []) p lines.old ≡ pieces_from instance.now
        (block h room.new.cell []) p lines.new)
        (λ e. pieces_from instance.now (block h [] []) p lines.old ≡ Err e ∷ []) }
    ensures whole { OnOk result (length room.new.cell ≡ length instance.now.cells) }
    ensures kept { room.new ≡ record room.old { cell = room.new.cell } }
{
    while room.cells().len() < instance.cells.len() {
        let line = next_line(lines)?;
        price_line(instance, room, &line)?;
    }
    Ok(())
}

// Reads a multiplier of a later one of so many cuts.
#[tactic(auto, unfolding(crate::specs::PriceLines::mult_of))]
fn mult(
    room: &mut CertRoom,
    cuts: u32,
    line: u32,
    cut: &[u8],
    value: &[u8],
) -> Result<(), PieceFault>
    requires { length room.old.mult < 1500 }
    ensures value { MatchResult result
        (λ _. mult_of line cuts room.old.mult cut.now value.now ≡ Ok (room.new.mult))
        (λ e. mult_of line cuts room.old.mult cut.now value.now ≡ Err e) }
    ensures kept { room.new ≡ record room.old { mult = room.new.mult } }
{
    let least = u128::from(room.last_cut()) + 1;
    let cut = number(line, least, u128::from(cuts), cut)? as u32;
    let value = number(line, 1, MOST_PRICE.unsigned_abs(), value)? as i128;
    room.push_mult(Mult { cut, value });
    Ok(())
}

// Reads the line of a multiplier.
#[tactic(auto, unfolding(crate::specs::PriceLines::mult_line))]
fn mult_line(room: &mut CertRoom, cuts: u32, line: &Line<'_>) -> Result<(), PieceFault>
    ensures value { MatchResult result
        (λ _. mult_line line.now.number cuts room.old.mult line.now.words ≡ Ok (room.new.mult))
        (λ e. mult_line line.now.number cuts room.old.mult line.now.words ≡ Err e) }
    ensures kept { room.new ≡ record room.old { mult = room.new.mult } }
{
    let number = line.number();
    let mut words = line.words();
    let Some(_) = words.next() else {
        return Err(PieceFault::UnknownLine { line: number });
    };
    let Some(cut) = words.next() else {
        return Err(PieceFault::UnknownLine { line: number });
    };
    let Some(value) = words.next() else {
        return Err(PieceFault::UnknownLine { line: number });
    };
    if let Some(_) = words.next() {
        return Err(PieceFault::UnknownLine { line: number });
    }
    if MOST_MULTIPLIERS <= room.mults().len() {
        return Err(PieceFault::OutOfRange { line: number });
    }
    mult(room, cuts, number, cut, value)
}

// Reads the lines of multipliers behind the lines of prices.
fn mult_lines(
    lines: &mut Ahead<'_>,
    instance: &Instance,
    room: &mut CertRoom,
) -> Result<(), PieceFault>
    requires groups { length instance.now.groups ≤ 8 }
    requires whole { length room.old.cell ≡ length instance.now.cells }
    requires none { room.old.mult ≡ [] }
    requires halves { length room.old.halves ≤ 20001 }
    ensures value { (h : NodeLine) (n : ℕ) → MatchResult result
        (λ _. pieces_from instance.now (block h room.old.cell [])
        (record { nodes = n; halves = room.old.halves }) lines.old ≡ pieces_from instance.now
        (block h room.old.cell room.new.mult) (record { nodes = n; halves = room.old.halves }) lines.new)
        (λ e. pieces_from instance.now (block h room.old.cell [])
        (record { nodes = n; halves = room.old.halves }) lines.old ≡ Err e ∷ []) }
    ensures next { OnOk result (NoMult lines.new) }
    ensures kept { room.new ≡ record room.old { mult = room.new.mult } }
{
    let cuts = (base_cut_count(instance) + room.open_splits()) as u32;
    while let Some(line) = lines.next_mult() {
        mult_line(room, cuts, &line)?;
    }
    Ok(())
}

/// Reads the price block behind the line of a node, whose prices the room then holds.
///
/// # Errors
///
/// The first fault of the block, as the piece that `pieces_from` says is due. The room's word and its halves
/// are as before then, and nothing is said of its prices.
pub fn price_block(
    lines: &mut Ahead<'_>,
    instance: &Instance,
    room: &mut CertRoom,
    d: u64,
) -> Result<(), PieceFault>
    requires sound { IsSoundInstance instance.now }
    requires made { length instance.now.cells ≤ room.old.most }
    requires halves { length room.old.halves ≤ 20001 }
    ensures value { (h : NodeLine) (n : ℕ) → MatchResult result
        (λ _. pieces_from instance.now (block h [] []) (record { nodes = n; halves = room.old.halves })
        lines.old
        ≡ Ok (node (node_of h room.new.cell room.new.mult)) ∷ pieces_from instance.now nodes
        (node_read h (record { nodes = n; halves = room.old.halves })) lines.new)
        (λ e. pieces_from instance.now (block h [] []) (record { nodes = n; halves = room.old.halves })
        lines.old ≡ Err e ∷ []) }
    ensures kept { room.new ≡ record room.old { d = d; cell = room.new.cell; mult = room.new.mult } }
{
    room.begin_prices(d);
    price_lines(lines, instance, room)?;
    mult_lines(lines, instance, room)?;
    Ok(())
}
