//! The lines of a certificate, and those that reports have too.

ghost use Rattle.std.specs.Prelude.{◌≡◌, ◌≤◌, ◌+◌, ◌*◌, ◌/◌, ◌++◌, [], ◌∷◌, All, codes as text, length, map, IfOk, OnOk};
ghost use Rattle.text_lines.specs.Numbers.{number_text};
ghost use Rattle.text_lines.specs.Written.{written, tail};
ghost use Rattle.model_rosters.specs.Folds.{sum_n};
ghost use Rattle.model_rosters.specs.SoundInstance.{IsSoundInstance};
ghost use Rattle.check_certificates.specs.Sound.{IsSoundCert};
ghost use Rattle.text_proof_pieces.specs.PriceLines.{due_byte};
ghost use Rattle.text_certificates.specs.Written.{
  header_words,
  amount_word,
  amount_words,
  group_name,
  shift_line,
  head_words,
  price_words,
  price_lines,
  mult_words,
  block_lines,
  node_lines,
  tree_lines,
  cert_text,
  HasPrices,
  split_words,
  end_words,
  node_values,
};

use check_certificates::{Cert, Node};
use model_rosters::{ArcKey, Group, Instance, List, Memory, Mult, Prices, Shift};
use std::alloc::Global;
use text_lines::{field, put, signed_field, word};
use text_proof_pieces::due_byte;

// Appends the header, with groups and without.
fn header(out: &mut List<u8>, groups: &[Group]) -> Result<(), Memory>
    ensures { OnOk result (out.new ≡ out.old ++ written (header_words groups.now ∷ [])) }
{
    put(out, b"proof")?;
    if groups.is_empty() {
        word(out, b"1")?;
    } else {
        word(out, b"2")?;
    }
    out.push(b'\n')?;
    Ok(())
}

// Appends a cost or a bound.
fn amount(out: &mut List<u8>, value: Option<u64>) -> Result<(), Memory>
    ensures { OnOk result (out.new ≡ out.old ++ tail (amount_word value ∷ [])) }
{
    match value {
        None => word(out, b"none"),
        Some(value) => field(out, value),
    }
}

/// Appends a line of a word and of a cost or a bound.
///
/// # Errors
///
/// `Memory` where memory runs out; a part of it may stand there then.
pub fn amount_line(out: &mut List<u8>, first: &[u8], value: Option<u64>) -> Result<(), Memory>
    ensures { OnOk result (out.new ≡ out.old ++ written (amount_words first.now value ∷ [])) }
{
    put(out, first)?;
    amount(out, value)?;
    out.push(b'\n')?;
    Ok(())
}

/// Returns the name of the group of this number, or nothing on a day without groups.
pub fn group_name(instance: &Instance, group: u8) -> &[u8]
    ensures { result.now ≡ group_name instance.now group }
{
    let place = (group as usize).saturating_sub(1);
    match instance.groups.as_slice().get(place) {
        None => b"",
        Some(group) => match instance.grammar.names.as_slice().get(group.name as usize) {
            None => b"",
            Some(name) => name.as_slice(),
        },
    }
}

// Appends the line of a shift.
fn shift_line(out: &mut List<u8>, instance: &Instance, shift: &Shift) -> Result<(), Memory>
    ensures { OnOk result (out.new ≡ out.old ++ written (shift_line instance.now shift.now ∷ [])) }
{
    put(out, b"shift")?;
    if !instance.groups.is_empty() {
        word(out, group_name(instance, shift.group))?;
    }
    word(out, shift.word.as_slice())?;
    field(out, shift.price)?;
    out.push(b'\n')?;
    Ok(())
}

/// Appends a line for each shift.
///
/// # Errors
///
/// `Memory` where memory runs out; a part of them may stand there then.
pub fn shift_lines(out: &mut List<u8>, instance: &Instance, shifts: &[Shift]) -> Result<(), Memory>
    ensures { OnOk result (out.new ≡ out.old ++ written (map (shift_line instance.now) shifts.now)) }
{
    for shift in shifts {
        shift_line(out, instance, shift)?;
    }
    Ok(())
}

// Writes the words of a split, but for the denominator of its prices.
fn split(out: &mut List<u8>, arc: &ArcKey, b: u32) -> Result<(), Memory>
    ensures { OnOk result (out.new ≡ out.old ++ text "split" ++ tail (split_words arc.now b)) }
{
    put(out, b"split")?;
    field(out, arc.rule as u64)?;
    field(out, arc.suffix as u64)?;
    field(out, arc.start as u64)?;
    field(out, arc.len as u64)?;
    field(out, arc.part as u64)?;
    field(out, b as u64)?;
    Ok(())
}

// Writes the line of a node.
fn head_line(out: &mut List<u8>, node: &Node) -> Result<(), Memory>
    ensures { OnOk result (out.new ≡ out.old ++ written (head_words node.now ∷ [])) }
{
    match node {
        Node::Split {
            arc,
            b,
            prices: None,
        } => split(out, arc, *b)?,
        Node::Split {
            arc,
            b,
            prices: Some(prices),
        } => {
            split(out, arc, *b)?;
            field(out, prices.d)?;
        }
        Node::Priced { prices } => {
            put(out, b"priced")?;
            field(out, prices.d)?;
        }
        Node::Pinned => put(out, b"pinned")?,
        Node::Bare => put(out, b"bare")?,
    }
    out.push(b'\n')?;
    Ok(())
}

// Appends each number behind a space.
fn numbers(out: &mut List<u8>, values: &[i128]) -> Result<(), Memory>
    ensures { OnOk result (out.new ≡ out.old ++ tail (map number_text values.now)) }
{
    for value in values {
        signed_field(out, value)?;
    }
    Ok(())
}

// Writes the line of the prices of a code.
fn price_line(out: &mut List<u8>, code: u8, prices: &[i128]) -> Result<(), Memory>
    ensures { OnOk result (out.new ≡ out.old ++ written (price_words code prices.now ∷ [])) }
{
    put(out, b"price")?;
    word(out, &[code])?;
    numbers(out, prices)?;
    out.push(b'\n')?;
    Ok(())
}

// Writes the lines of the prices of all codes.
fn price_lines(out: &mut List<u8>, instance: &Instance, prices: &[i128]) -> Result<(), Memory>
    requires sound { IsSoundInstance instance.now }
    requires whole { length prices.now ≡ length instance.now.cells }
    ensures { OnOk result (out.new ≡ out.old ++ written
        (price_lines instance.now 0 (length prices.now / instance.now.grammar.periods) prices.now)) }
{
    let mut place = 0;
    let mut rest = prices;
    while !rest.is_empty() {
        let (first, others) = rest.split_at(instance.grammar.periods as usize);
        price_line(out, due_byte(instance, place), first)?;
        place += first.len();
        rest = others;
    }
    Ok(())
}

// Appends the line of a multiplier.
fn mult_line(out: &mut List<u8>, mult: &Mult) -> Result<(), Memory>
    ensures { OnOk result (out.new ≡ out.old ++ written (mult_words mult.now ∷ [])) }
{
    put(out, b"mult")?;
    field(out, mult.cut as u64)?;
    signed_field(out, &mult.value)?;
    out.push(b'\n')?;
    Ok(())
}

// Appends a line for each multiplier.
fn mult_lines(out: &mut List<u8>, mults: &[Mult]) -> Result<(), Memory>
    ensures { OnOk result (out.new ≡ out.old ++ written (map mult_words mults.now)) }
{
    for mult in mults {
        mult_line(out, mult)?;
    }
    Ok(())
}

// Writes the price block of a node.
fn block_lines(out: &mut List<u8>, instance: &Instance, prices: &Prices) -> Result<(), Memory>
    requires sound { IsSoundInstance instance.now }
    requires whole { length prices.now.cell ≡ length instance.now.cells }
    ensures { OnOk result (out.new ≡ out.old ++ written (block_lines instance.now prices.now)) }
{
    price_lines(out, instance, prices.cell.as_slice())?;
    mult_lines(out, prices.mult.as_slice())?;
    Ok(())
}

// Writes the line of a node, and its price block where it has prices.
fn node_lines(out: &mut List<u8>, instance: &Instance, node: &Node) -> Result<(), Memory>
    requires sound { IsSoundInstance instance.now }
    requires whole { HasPrices instance.now node.now }
    ensures { OnOk result (out.new ≡ out.old ++ written (node_lines instance.now node.now)) }
{
    head_line(out, node)?;
    match node {
        Node::Split {
            prices: Some(prices),
            ..
        }
        | Node::Priced { prices } => block_lines(out, instance, prices)?,
        _ => {}
    }
    Ok(())
}

// Appends the lines of all nodes.
fn tree_lines(out: &mut List<u8>, instance: &Instance, nodes: &[Node]) -> Result<(), Memory>
    requires sound { IsSoundInstance instance.now }
    requires whole { All (HasPrices instance.now) nodes.now }
    ensures { OnOk result (out.new ≡ out.old ++ written (tree_lines instance.now nodes.now)) }
{
    for node in nodes {
        node_lines(out, instance, node)?;
    }
    Ok(())
}

// Appends the last line.
fn end_line(out: &mut List<u8>) -> Result<(), Memory>
    ensures { OnOk result (out.new ≡ out.old ++ written (end_words ∷ [])) }
{
    put(out, b"end\n")
}

// Writes all lines.
fn cert_lines(alloc: Global, instance: &Instance, cert: &Cert) -> Result<List<u8>, Memory>
    requires sound { IsSoundInstance instance.now }
    requires cert { IsSoundCert instance.now cert.now }
    ensures { IfOk result (λ t. t ≡ cert_text instance.now cert.now) }
{
    let mut out = List::new(alloc);
    header(&mut out, instance.groups.as_slice())?;
    amount_line(&mut out, b"cost", cert.cost)?;
    amount_line(&mut out, b"bound", cert.bound)?;
    shift_lines(&mut out, instance, cert.shifts.as_slice())?;
    tree_lines(&mut out, instance, cert.nodes.as_slice())?;
    end_line(&mut out)?;
    Ok(out)
}

/// Writes the text of a sound certificate, with one space between words and no comment. It has at most 10,000
/// bytes, and 128 more for each node and 40 more for each price and each multiplier.
///
/// # Errors
///
/// `Memory` where memory runs out; there is no text then.
pub fn write_cert(alloc: Global, instance: &Instance, cert: &Cert) -> Result<List<u8>, Memory>
    requires sound { IsSoundInstance instance.now }
    requires cert { IsSoundCert instance.now cert.now }
    ensures text { IfOk result (λ t. t ≡ cert_text instance.now cert.now) }
    ensures short { IfOk result (λ t. length t ≤ 10000 + 128 * length cert.now.nodes
        + 40 * sum_n node_values cert.now.nodes) }
{
    let text = cert_lines(alloc, instance, cert)?;
    Ok(text)
}
