//! Texts by name.

ghost use Rattle.std.specs.Prelude.{◌≡◌, OnOk, OnErr};
ghost use Rattle.std.specs.Option.{option_copied};
ghost use Rattle.std.specs.FinMap as fin;
ghost use Rattle.command_shelf.specs.Stores.{may_store};

use crate::replaceable::is_replaceable;
use std::alloc::{AllocError, Global};
use std::collections::BTreeMap;
use std::marker::Model;

/// Texts by name, which contracts see as the finite map from names to bytes.
#[derive(Drop)]
pub(crate) struct TextMap {
    alloc: Global,
    map: BTreeMap<String, Vec<u8>>,
}

impl Model for TextMap {
    ghost use Rattle.command_shelf.specs.Shelf.{Texts, texts_code, texts_of};

    ghost Value = { Texts };

    ghost coded = { texts_code };

    ghost view = { λ t. texts_of t.map };
}

impl TextMap {
    /// Returns the map with no name, which has taken no memory.
    pub(crate) fn new(alloc: Global) -> TextMap
        ensures { result ≡ fin.empty }
    {
        TextMap {
            alloc,
            map: BTreeMap::new(alloc),
        }
    }

    /// Makes the name hold the bytes.
    ///
    /// # Errors
    ///
    /// `AllocError` where memory runs out; the map is as before then.
    pub(crate) fn put(&mut self, name: &str, bytes: &[u8]) -> Result<(), AllocError>
        ensures ok { OnOk result (self.new ≡ fin.insert self.old name.now bytes.now) }
        ensures err { OnErr result (self.new ≡ self.old) }
    {
        let key = String::from_str(self.alloc, name)?;
        let kept = Vec::from_slice(self.alloc, bytes)?;
        self.map.insert(key, kept)?;
        Ok(())
    }

    /// Returns the bytes under the name.
    pub(crate) fn text(&self, name: &str) -> Option<&[u8]>
        ensures { option_copied result ≡ fin.get self.now name.now }
    {
        match self.map.get(name) {
            Some(bytes) => Some(bytes.as_slice()),
            None => None,
        }
    }

    /// Returns whether the name is free, or holds a text that may be stored over.
    pub(crate) fn may_store(&self, name: &str) -> bool
        ensures { result ≡ may_store self.now name.now }
    {
        match self.text(name) {
            Some(bytes) => is_replaceable(bytes),
            None => true,
        }
    }
}
