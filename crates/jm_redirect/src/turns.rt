//! The names in the order in which the buckets of a table are taken.
ghost use Rattle.std.specs.Prelude.{◌≡◌, ◌<◌, ◌^◌, length, map, IfOk, IsPermutation, IsSorted};
ghost use Rattle.std.specs.List.{range_with_len};
ghost use Rattle.jm_redirect.specs.Turns.{size_of, turns_of, turn_cmp};

use jm_bytes::{List, NoMemory};
use std::alloc::Global;

/// A name's turn. Turns in order have the buckets by falling size, then by rising number, and the
/// names of a bucket by rising place.
#[derive(Clone, Copy, PartialEq, Eq, PartialOrd, Ord)]
pub struct Turn {
    /// How many names are in other buckets.
    pub others: u32,
    /// The name's bucket.
    pub bucket: u32,
    /// The name's place in the list.
    pub place: u32,
}

/// How many of the hashes fall into each of so many buckets.
fn bucket_sizes(alloc: Global, hashes: &[u32], slots: u32) -> Result<Vec<u32>, NoMemory>
    requires some { 0 < length hashes.now → 0 < slots }
    requires few { length hashes.now < 2 ^ 32 }
    ensures { IfOk result (λ sizes.
        sizes.items ≡ map (size_of hashes.now slots) (range_with_len 0 slots)) }
{
    let mut sizes = vec![in alloc; 0u32; slots as usize]?;
    for hash in hashes {
        sizes[(*hash % slots) as usize] += 1;
    }
    Ok(sizes)
}

/// The turns of the names with these hashes, by rising place.
fn turns_of(alloc: Global, hashes: &[u32], slots: u32, sizes: &[u32]) -> Result<Vec<Turn>, NoMemory>
    requires some { 0 < length hashes.now → 0 < slots }
    requires few { length hashes.now < 2 ^ 32 }
    requires sizes { sizes.now ≡ map (size_of hashes.now slots) (range_with_len 0 slots) }
    ensures { IfOk result (λ turns. turns.items ≡ turns_of hashes.now slots) }
{
    let mut turns = List::with_capacity(alloc, hashes.len())?;
    for place in 0..hashes.len() {
        let bucket = hashes[place] % slots;
        turns.push(Turn {
            others: hashes.len() as u32 - sizes[bucket as usize],
            bucket,
            place: place as u32,
        })?;
    }
    Ok(turns.into_vec())
}

/// The turns of the names with these hashes, in order, in a table of so many slots.
pub fn turns_in_order(alloc: Global, hashes: &[u32], slots: u32) -> Result<Vec<Turn>, NoMemory>
    requires some { 0 < length hashes.now → 0 < slots }
    requires few { length hashes.now < 2 ^ 32 }
    ensures moved { IfOk result (λ turns. IsPermutation (turns_of hashes.now slots) turns.items) }
    ensures order { IfOk result (λ turns. IsSorted turn_cmp turns.items) }
{
    let sizes = bucket_sizes(alloc, hashes, slots)?;
    let mut turns = turns_of(alloc, hashes, slots, sizes.as_slice())?;
    turns.sort_unstable();
    Ok(turns)
}
