//! Places by texts.
ghost use Rattle.std.specs.Prelude.{◌≡◌, [], map, IfOk, OnOk, OnErr};
ghost use Rattle.jm_closure.specs.Places.{place_in, AreRising, Puts};

use jm_bytes::{NoMemory, copy_of};
use std::alloc::Global;
use std::collections::BTreeMap;
use std::marker::Model;

/// Different texts, each with a place. It is seen as the list of these, rising by text.
#[derive(Debug, Drop)]
pub struct Places {
    places: BTreeMap<Vec<u8>, usize>,
}

impl Model for Places {
    ghost use Rattle.std.specs.Prelude.{List, ℕ};
    ghost use Rattle.jm_closure.specs.Places.{places_of};

    ghost Value = { List (List ℕ × ℕ) };

    ghost view = { λ a. places_of a.places };
}

impl Places {
    /// No text yet.
    pub fn new(alloc: Global) -> Places
        ensures { result ≡ [] }
    {
        Places {
            places: BTreeMap::new(alloc),
        }
    }

    /// The place of a text.
    pub fn get(&self, text: &[u8]) -> Option<usize>
        ensures { result ≡ place_in self.now text.now }
    {
        match self.places.get(text) {
            Some(place) => Some(*place),
            None => None,
        }
    }

    /// Gives a text a place, in place of the one that it had.
    pub fn put(&mut self, alloc: Global, text: &[u8], place: usize) -> Result<(), NoMemory>
        ensures ok { OnOk result (Puts self.old self.new text.now place) }
        ensures err { OnErr result (self.new ≡ self.old) }
    {
        self.places.insert(copy_of(alloc, text)?, place)?;
        Ok(())
    }

    /// The places, rising by their texts.
    pub fn rising(&self, alloc: Global) -> Result<Vec<usize>, NoMemory>
        ensures places { IfOk result (λ places. places.items ≡ map (λ p. p.1) self.now) }
        ensures rising { OnOk result (AreRising self.now) }
    {
        let mut places = Vec::new(alloc);
        for (_, place) in self.places.iter() {
            places.push(*place)?;
        }
        Ok(places)
    }
}
