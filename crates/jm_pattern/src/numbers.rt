//! Numbers by texts.
ghost use Rattle.std.specs.Prelude.{◌≡◌, [], OnOk, OnErr};
ghost use Rattle.jm_pattern.specs.Numbers.{number_of, with_number};

use indexmap::IndexMap;
use jm_bytes::{NoMemory, Text};
use std::alloc::Global;
use std::marker::Model;

/// Different texts, each with a number. It is seen as the list of these pairs.
#[derive(Drop)]
pub struct Numbers {
    numbers: IndexMap<Vec<u8>, usize>,
}

impl Model for Numbers {
    ghost use Rattle.std.specs.Prelude.{List, ℕ};
    ghost use Rattle.jm_pattern.specs.Numbers.{numbers_of};

    ghost Value = { List (List ℕ × ℕ) };

    ghost view = { λ a. numbers_of a.numbers.entries };
}

impl Numbers {
    /// No text yet.
    pub fn new(alloc: Global) -> Numbers
        ensures { result ≡ [] }
    {
        Numbers {
            numbers: IndexMap::new(alloc),
        }
    }

    /// The number of a text. The text is looked up by its hash, and its bytes are compared.
    pub fn get(&self, text: &[u8]) -> Option<usize>
        ensures { result ≡ number_of text.now self.now }
    {
        match self.numbers.get(text) {
            Some(number) => Some(*number),
            None => None,
        }
    }

    /// Gives a text a number, where it has none. A refusal leaves all as it was.
    pub fn add(&mut self, text: Text, number: usize) -> Result<(), NoMemory>
        ensures ok { OnOk result (self.new ≡ with_number text number self.old) }
        ensures err { OnErr result (self.new ≡ self.old) }
    {
        if self.get(text.as_slice()).is_none() {
            self.numbers.insert(text.into_vec(), number)?;
        }
        Ok(())
    }
}
