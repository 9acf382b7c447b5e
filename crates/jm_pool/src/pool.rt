ghost use Rattle.std.specs.Prelude.{◌≡◌, ◌<◌, ◌↔◌, ◌∷◌, ◌++◌, [], Some, None, Err, length};
ghost use Rattle.std.specs.Prelude.{option_map, slice_get, IsSome, IfOk, OnOk, OnErr, ◌⊎◌};
ghost use Rattle.jm_bytes.specs.declared.faults.Or.TheVariants.{Fault, Memory};
ghost use Rattle.jm_pool.specs.Pairs.{NamesDiffer, bytes_of, flagged_items, items_at, IsOrderOf};
ghost use Rattle.jm_pool.specs.Pairs.{with_bytes_at};

use crate::pairs;
use indexmap::IndexMap;
use jm_bytes::{NoMemory, Or, Text};
use std::alloc::Global;
use std::marker::Model;

/// A name that a pool has already, handed back.
#[derive(Debug, Drop)]
pub struct Twice(pub Text);

/// Resources in an order, each a name with its bytes, seen as the list of these pairs. Names
/// differ.
#[derive(Drop)]
pub struct Pool {
    pairs: IndexMap<Vec<u8>, Vec<u8>>,
}

impl Model for Pool {
    ghost use Rattle.std.specs.Prelude.{List, ℕ};
    ghost use Rattle.jm_pool.specs.PairView.{pairs_of};

    ghost Value = { List (List ℕ × List ℕ) };

    ghost view = { λ a. pairs_of a.pairs.entries };
}

impl Pool {
    /// The pool of no pair, which takes no memory yet.
    pub fn new(alloc: Global) -> Pool
        ensures { result ≡ [] }
    {
        Pool {
            pairs: IndexMap::new(alloc),
        }
    }

    /// How many pairs it has.
    pub fn len(&self) -> usize
        ensures len { result ≡ length self.now }
        ensures differ { NamesDiffer self.now }
    {
        self.pairs.len()
    }

    /// The bytes of a name.
    pub fn get(&self, name: &[u8]) -> Option<&[u8]>
        ensures { option_map (λ bytes. bytes.now) result ≡ bytes_of name.now self.now }
    {
        match self.pairs.get(name) {
            Some(bytes) => Some(bytes.as_slice()),
            None => None,
        }
    }

    /// The name and the bytes at a place.
    pub fn at(&self, place: usize) -> (&[u8], &[u8])
        requires { place < length self.now }
        ensures { slice_get self.now place ≡ Some (result.0.now, result.1.now) }
    {
        let (name, bytes) = self.pairs.get_index(place).unwrap();
        (name.as_slice(), bytes.as_slice())
    }

    /// Puts a pair of a new name at the end. A refusal leaves the pool as it was.
    pub fn push(&mut self, name: Text, bytes: Text) -> Result<(), NoMemory>
        requires { bytes_of name self.old ≡ None }
        ensures ok { OnOk result (self.new ≡ self.old ++ (name, bytes) ∷ []) }
        ensures err { OnErr result (self.new ≡ self.old) }
    {
        pairs::add(&mut self.pairs, name.into_vec(), bytes.into_vec())
    }

    /// Puts a pair at the end, where its name is new. A refusal leaves the pool as it was.
    pub fn try_push(&mut self, name: Text, bytes: Text) -> Result<(), Or<Twice>>
        ensures ok { OnOk result (self.new ≡ self.old ++ (name, bytes) ∷ []) }
        ensures twice { (result ≡ Err (Fault (record { 0 = name })))
            ↔ IsSome (bytes_of name self.old) }
        ensures refused { OnErr result
            ((result ≡ Err (Fault (record { 0 = name }))) ⊎ (result ≡ Err Memory)) }
        ensures err { OnErr result (self.new ≡ self.old) }
    {
        if self.get(name.as_slice()).is_some() {
            return Err(Or::Fault(Twice(name)));
        }
        Ok(self.push(name, bytes)?)
    }

    /// Keeps the pairs whose flag is true, in their order.
    pub fn retain_flags(&mut self, keep: &[bool])
        requires { length keep.now ≡ length self.old }
        ensures { self.new ≡ flagged_items keep.now self.old }
    {
        let count = pairs::flagged_count(&mut self.pairs, keep);
        self.pairs.truncate(count);
    }

    /// The pairs in another order, given by their places. A refusal spends the pool.
    pub fn reorder(self, order: &[usize]) -> Result<Pool, NoMemory>
        requires { IsOrderOf (length self) order.now }
        ensures { IfOk result (λ pool. pool ≡ items_at order.now self) }
    {
        let Pool { pairs } = self;
        let alloc = *pairs.allocator();
        let mut list = pairs::pair_list(alloc, pairs)?;
        let pairs = pairs::map_in_order(alloc, &mut list, order)?;
        Ok(Pool { pairs })
    }

    /// Gives the name at a place other bytes; the old ones are dropped.
    pub fn replace(&mut self, place: usize, bytes: Text)
        requires { place < length self.old }
        ensures { self.new ≡ with_bytes_at self.old place bytes }
    {
        self.pairs[place] = bytes.into_vec();
    }
}
