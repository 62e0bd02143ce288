//! The room for what pieces hold.

ghost use Rattle.std.specs.Prelude.{◌≡◌, ◌+◌, ◌<◌, ◌≤◌, [], ◌∷◌, ◌++◌, false, length, reverse, vec_capacity, IfOk};
ghost use Rattle.text_proof_pieces.specs.PieceList.{after_leaf};
ghost use Rattle.text_proof_pieces.specs.PriceLines.{last_cut};

use check_certificates::{MOST_MULTIPLIERS, MOST_NODES};
use model_rosters::{Instance, Memory, Mult};
use std::alloc::Global;
use std::marker::Model;

/// How many bytes a word has at most.
const MOST_BYTES: usize = 96;

/// Room for what the pieces of a proof text need: a word, the prices of a node, and the open splits.
/// A contract sees these, and for how many cells there is room.
#[derive(Drop)]
pub struct CertRoom {
    word: Vec<u8>,
    d: u64,
    cells: Vec<i128>,
    mults: Vec<Mult>,
    // For each open split, whether its High half is being read.
    halves: Vec<bool>,
    most: usize,
}

impl Model for CertRoom {
    ghost use Rattle.std.specs.Prelude.{◌≤◌, reverse, vec_capacity};
    ghost use Rattle.text_proof_pieces.specs.Told.{RoomView};

    ghost Value = { RoomView };

    ghost view = { λ r. record {
      word = r.word.items;
      d = r.d;
      cell = r.cells.items;
      mult = r.mults.items;
      halves = reverse r.halves.items;
      most = r.most;
    } };

    ghost invariant = { λ r. (96 ≤ vec_capacity r.word) × (r.most ≤ vec_capacity r.cells)
        × (1500 ≤ vec_capacity r.mults) × (20001 ≤ vec_capacity r.halves) };
}

// Returns a list of no items, with room for so many.
fn with_room<T>(alloc: Global, most: usize) -> Result<Vec<T>, Memory>
    ensures empty { IfOk result (λ v. v.items ≡ []) }
    ensures room { IfOk result (λ v. most ≤ vec_capacity v) }
{
    Ok(Vec::with_capacity(alloc, most)?)
}

// Makes these bytes the items, for which there is room.
fn fill(items: &mut Vec<u8>, bytes: &[u8])
    requires { length bytes.now ≤ vec_capacity items.old }
    ensures value { items.new.items ≡ bytes.now }
    ensures room { vec_capacity items.old ≤ vec_capacity items.new }
{
    items.clear();
    let _ = items.extend_from_slice(bytes);
}

// Ends the halves of which a leaf is the last node.
fn end_halves(halves: &mut Vec<bool>)
    ensures value { reverse halves.new.items ≡ after_leaf (reverse halves.old.items) }
    ensures less { length halves.new.items ≤ length halves.old.items }
    ensures room { vec_capacity halves.old ≤ vec_capacity halves.new }
{
    while let Some(high) = halves.pop() {
        if !high {
            let _ = halves.push(true);
            return;
        }
    }
}

impl CertRoom {
    /// Takes all the memory that the pieces of a proof text for an instance need: for a word of 96
    /// bytes, a price of each cell, 1,500 multipliers and 20,001 open splits.
    ///
    /// # Errors
    ///
    /// `Memory` where memory runs out; nothing is kept then.
    pub fn for_instance(alloc: Global, instance: &Instance) -> Result<CertRoom, Memory>
        ensures { IfOk result (λ r. r ≡ record {
          word = [];
          d = 1;
          cell = [];
          mult = [];
          halves = [];
          most = length instance.now.cells;
        }) }
    {
        let most = instance.cells.len();
        Ok(CertRoom {
            word: with_room(alloc, MOST_BYTES)?,
            d: 1,
            cells: with_room(alloc, most)?,
            mults: with_room(alloc, MOST_MULTIPLIERS)?,
            halves: with_room(alloc, MOST_NODES)?,
            most,
        })
    }

    /// Returns the word of the last piece that has one.
    pub fn word(&self) -> &[u8]
        ensures { result.now ≡ self.now.word }
    {
        self.word.as_slice()
    }

    /// Returns the denominator of the prices of the last piece that has prices.
    pub fn d(&self) -> u64
        ensures { result ≡ self.now.d }
    {
        self.d
    }

    /// Returns the prices of the cells of the last piece that has prices, in units of `1 / d`.
    pub fn cells(&self) -> &[i128]
        ensures { result.now ≡ self.now.cell }
    {
        self.cells.as_slice()
    }

    /// Returns the multipliers of the last piece that has prices, by rising numbers of cuts.
    pub fn mults(&self) -> &[Mult]
        ensures { result.now ≡ self.now.mult }
    {
        self.mults.as_slice()
    }

    // Holds another word.
    pub(crate) fn hold_word(&mut self, word: &[u8])
        requires { length word.now ≤ 96 }
        ensures { self.new ≡ record self.old { word = word.now } }
    {
        fill(&mut self.word, word);
    }

    // Holds prices of a denominator, of which none is read.
    pub(crate) fn begin_prices(&mut self, d: u64)
        ensures { self.new ≡ record self.old { d = d; cell = []; mult = [] } }
    {
        self.d = d;
        self.cells.clear();
        self.mults.clear();
    }

    // Adds the price of the next cell.
    pub(crate) fn push_price(&mut self, price: i128)
        requires { length self.old.cell < self.old.most }
        ensures { self.new ≡ record self.old { cell = self.old.cell ++ price ∷ [] } }
    {
        let _ = self.cells.push(price);
    }

    // Adds the next multiplier.
    pub(crate) fn push_mult(&mut self, mult: Mult)
        requires { length self.old.mult < 1500 }
        ensures { self.new ≡ record self.old { mult = self.old.mult ++ mult ∷ [] } }
    {
        let _ = self.mults.push(mult);
    }

    // The cut of the last multiplier, or 0.
    pub(crate) fn last_cut(&self) -> u32
        ensures { result ≡ last_cut self.now.mult }
    {
        match self.mults.last() {
            Some(mult) => mult.cut,
            None => 0,
        }
    }

    // How many splits are open.
    pub(crate) fn open_splits(&self) -> usize
        ensures { result ≡ length self.now.halves }
    {
        self.halves.len()
    }

    // Leaves no split open.
    pub(crate) fn clear(&mut self)
        ensures { self.new ≡ record self.old { halves = [] } }
    {
        self.halves.clear();
    }

    // Opens a split at its Low half.
    pub(crate) fn open_split(&mut self)
        requires { length self.old.halves < 20001 }
        ensures { self.new ≡ record self.old { halves = false ∷ self.old.halves } }
    {
        let _ = self.halves.push(false);
    }

    // Ends the halves of which a leaf is the last node.
    pub(crate) fn end_halves(&mut self)
        ensures value { self.new ≡ record self.old { halves = after_leaf self.old.halves } }
        ensures less { length self.new.halves ≤ length self.old.halves }
    {
        end_halves(&mut self.halves);
    }
}
