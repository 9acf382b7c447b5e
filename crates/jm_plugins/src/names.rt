//! Names by their places in a list.
ghost use Rattle.std.specs.Prelude.{◌≡◌, IfOk};
ghost use Rattle.std.specs.List.{position_or_len};
ghost use Rattle.std.specs.Str.{bytes_eq};

use jm_bytes::{NoMemory, Text};
use jm_pattern::Numbers;
use std::alloc::Global;
use std::marker::Model;

/// A list of names, in which a name is looked up. It is seen as the list.
#[derive(Drop)]
pub struct NameIndex<'n> {
    names: &'n [Text],
    numbers: Numbers,
}

impl<'n> Model for NameIndex<'n> {
    ghost use Rattle.std.specs.Prelude.{List, ℕ};
    ghost use Rattle.jm_plugins.specs.Numbered.{AreNumbered};

    ghost Value = { List (List ℕ) };

    ghost view = { λ a. a.names.now };

    ghost invariant = { λ a. AreNumbered a.names.now a.numbers };
}

impl<'n> NameIndex<'n> {
    /// The index of a list of names.
    pub fn new(alloc: Global, names: &'n [Text]) -> Result<NameIndex<'n>, NoMemory>
        ensures { IfOk result (λ index. index ≡ names.now) }
    {
        let mut numbers = Numbers::new(alloc);
        for number in 0..names.len() {
            let name = Text::copy_of(alloc, names[number].as_slice())?;
            numbers.add(name, number)?;
        }
        Ok(NameIndex { names, numbers })
    }

    /// The first place, from 0, at which a name stands, or how many names there are.
    pub fn first_place(&self, name: &[u8]) -> usize
        ensures { result ≡ position_or_len (bytes_eq name.now) self.now }
    {
        let number = self.numbers.get(name);
        number.unwrap_or(self.names.len())
    }
}
