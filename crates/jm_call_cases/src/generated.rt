//! Files that are made of numbers.

ghost use Rattle.std.specs.Prelude.{◌≤◌};

use crate::texts::numbers_of;
use jm_bytes::{NoMemory, copy_of, extend};
use jm_gen::generate;
use jm_outside::{MemShelf, Shelf, ShelfError};
use std::alloc::{AllocError, Global};

/// A sum over some bytes that differs where their order does.
fn add_bytes(sum: u64, bytes: &[u8]) -> u64 {
    let mut sum = sum;
    for byte in bytes {
        sum = sum.wrapping_mul(31).wrapping_add(u64::from(*byte));
    }
    sum
}

/// Adds the path and the bytes of a file below `x` to a sum.
fn add_file(alloc: Global, sum: u64, shelf: &MemShelf, name: &[u8]) -> Result<u64, NoMemory> {
    let mut path = copy_of(alloc, b"x/")?;
    extend(&mut path, name)?;
    let bytes = shelf.file(path.as_slice()).unwrap_or(&[]);
    Ok(add_bytes(add_bytes(sum, path.as_slice()), bytes))
}

/// How many files stand below `x`, and a sum over their paths and bytes, by rising path.
fn sum_of(alloc: Global, shelf: &mut MemShelf) -> Result<(usize, u64), ShelfError> {
    let names = shelf.names(alloc, "x".as_bytes())?;
    let mut sum = 0;
    for name in names.as_slice() {
        sum = add_file(alloc, sum, shelf, name.as_slice())?;
    }
    Ok((names.len(), sum))
}

/// The same of the files that are made of these numbers.
fn generated(
    alloc: Global,
    modules: u32,
    classes: u32,
    seed: u64,
) -> Result<(usize, u64), ShelfError>
    requires modules { (1 ≤ modules) × (modules ≤ 256) }
    requires classes { (1 ≤ classes) × (classes ≤ 1024) }
{
    let mut shelf = MemShelf::new(alloc);
    generate(alloc, &mut shelf, "x".as_bytes(), modules, classes, seed)?;
    sum_of(alloc, &mut shelf)
}

/// How many files are made of a number of modules, one of classes in each and a seed, and the sum
/// over them.
pub fn told_sum(alloc: Global, words: &[u8]) -> Result<Option<String>, AllocError> {
    let Some(numbers) = numbers_of(alloc, words)? else {
        return Ok(None);
    };
    let [modules @ 1..=256, classes @ 1..=1024, seed] = numbers.as_slice() else {
        return Ok(None);
    };
    let sum = generated(alloc, *modules as u32, *classes as u32, *seed);
    Ok(Some(format!(in alloc; "{sum:?}")?))
}
