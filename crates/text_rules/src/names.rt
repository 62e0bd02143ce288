//! The names so far.

ghost use Rattle.std.specs.Prelude.{◌≡◌, ◌+◌, ◌<◌, [], ◌∷◌, ◌++◌, length, IfSome, IfOk, true, false, MatchOption, OnOk, OnErr};
ghost use Rattle.model_rosters.specs.Names.{is_window_word};
ghost use Rattle.text_rules.specs.Names.{texts, has_name, place_of, name_at};
ghost use Rattle.text_rules.specs.Steps.{Reads};

use crate::copy::copy;
use crate::fault::{Limit, RulesFault};
use crate::place::Place;
use indexmap::IndexSet;
use model_rosters::{List, Memory, is_name};
use std::alloc::Global;
use std::marker::Model;

/// Whether a word begins a window.
#[tactic(auto, unfolding(model_rosters::specs::Names::is_window_word))]
pub fn is_window_word(word: &[u8]) -> bool
    ensures { result ≡ is_window_word word.now }
{
    word == b"len".as_slice() || word == b"begin".as_slice() || word == b"end".as_slice()
}

/// The names so far, in order of first appearance, and where each appeared first.
#[derive(Drop)]
pub struct Names {
    set: IndexSet<Vec<u8>>,
    places: List<Place>,
}

impl Model for Names {
    ghost use Rattle.std.specs.Prelude.{◌≤◌, length};
    ghost use Rattle.text_rules.specs.Names.{Named, texts};

    ghost Value = { Named };

    ghost view = { λ n. record { texts = texts n.set.keys; places = n.places } };

    ghost invariant = { λ n. length n.set.keys ≤ 32 };
}

// Returns the number of a name, if it was read before.
fn place_of(names: &IndexSet<Vec<u8>>, name: &[u8]) -> Option<usize>
    ensures place { MatchOption result (has_name (texts names.now.keys) name.now ≡ false)
        (λ k. (has_name (texts names.now.keys) name.now ≡ true)
        × (k ≡ place_of (texts names.now.keys) name.now)) }
    ensures within { IfSome result (λ k. k < length names.now.keys) }
{
    names.get_index_of(name)
}

// Adds a name that is new.
fn add(alloc: Global, names: &mut IndexSet<Vec<u8>>, name: &[u8]) -> Result<(), Memory>
    requires { has_name (texts names.old.keys) name.now ≡ false }
    ensures names { OnOk result (texts names.new.keys ≡ texts names.old.keys ++ name.now ∷ []) }
    ensures len { OnOk result (length names.new.keys ≡ length names.old.keys + 1) }
    ensures err { OnErr result (names.new.keys ≡ names.old.keys) }
{
    let text = Vec::from_slice(alloc, name)?;
    names.insert_full(text)?;
    Ok(())
}

// The bytes of each name in order.
fn all_texts(alloc: Global, names: &IndexSet<Vec<u8>>) -> Result<List<List<u8>>, Memory>
    ensures { IfOk result (λ l. l ≡ texts names.now.keys) }
{
    let mut list = List::new(alloc);
    for i in 0..names.len() {
        if let Some(name) = names.get_index(i) {
            list.push(copy(alloc, name.as_slice())?)?;
        }
    }
    Ok(list)
}

impl Names {
    /// Returns no names.
    pub fn new(alloc: Global) -> Names
        ensures { result ≡ record { texts = []; places = [] } }
    {
        Names {
            set: IndexSet::new(alloc),
            places: List::new(alloc),
        }
    }

    /// Returns the places of first appearance.
    pub fn places(&self) -> &[Place]
        ensures { result.now ≡ self.now.places }
    {
        self.places.as_slice()
    }

    /// Returns the number of a name.
    pub fn place(&self, name: &[u8]) -> Option<u8>
        ensures { MatchOption result (has_name self.now.texts name.now ≡ false)
            (λ k. (has_name self.now.texts name.now ≡ true) × (k ≡ place_of self.now.texts name.now)) }
    {
        match place_of(&self.set, name) {
            Some(place) => Some(place as u8),
            None => None,
        }
    }

    /// Returns the names in order, and the places of their first appearance.
    ///
    /// # Errors
    ///
    /// `Memory` where memory runs out; nothing is kept then.
    pub fn into_lists(self, alloc: Global) -> Result<(List<List<u8>>, List<Place>), Memory>
        ensures { IfOk result (λ lists. (lists.0 ≡ self.texts) × (lists.1 ≡ self.places)) }
    {
        let Names { set, places } = self;
        let texts = all_texts(alloc, &set)?;
        Ok((texts, places))
    }

    /// Reads a name at a place, and gives its number.
    ///
    /// # Errors
    ///
    /// `BadName` where the word is no name, and `TooMany` past 32 names, each with the line; `Memory` where
    /// memory runs out. Nothing is said of the names then.
    #[tactic(auto, unfolding(crate::specs::Names::name_at))]
    pub fn read(&mut self, alloc: Global, at: Place, word: &[u8]) -> Result<u8, RulesFault>
        ensures value { Reads (λ number. (self.new, number)) result (name_at at self.old word.now) }
    {
        if !is_name(word) {
            return Err(RulesFault::BadName { line: at.line });
        }
        if let Some(number) = place_of(&self.set, word) {
            return Ok(number as u8);
        }
        let number = self.set.len();
        if 32 <= number {
            return Err(RulesFault::TooMany {
                line: at.line,
                what: Limit::Names,
                most: 32,
            });
        }
        self.places.push(at)?;
        add(alloc, &mut self.set, word)?;
        Ok(number as u8)
    }
}
