//! Names: their hashes, pieces, faults and forms.

ghost use Rattle.std.specs.Prelude.{◌≡◌, ◌<◌};

use crate::texts::{given, put_quoted, quoted};
use jm_bytes::Steps;
use jm_names::{check_name, dotted, hash, hash_pieces, is_node, split, to_modified, to_utf8};
use std::alloc::{AllocError, Global};
use std::marker::Brand;
use std::sync::ledger::{Blank, Ledger};

fn counted_hash<H: Ledger>(seed: u32, name: &[u8], blank: Blank) -> u32
    requires name { blank.name ≡ H.name }
    requires parts { blank.parts ≡ H.parts }
    requires some { 0 < blank.parts }
{
    let mut hashes = Steps::<H>::new(blank);
    hash(seed, name, &mut hashes)
}

fn hash_of(seed: u32, name: &[u8]) -> u32 {
    counted_hash::<Brand>(seed, name, Blank::new(1))
}

/// The hash of a name from a seed, and that of its pieces.
pub fn told_hash(alloc: Global, seed: u32, name: &[u8]) -> Result<String, AllocError> {
    let (whole, pieces) = (hash_of(seed, name), hash_pieces(seed, &split(name)));
    format!(in alloc; "{whole:08X}, of its pieces {pieces:08X}")
}

/// The four pieces of a name.
pub fn told_pieces(alloc: Global, name: &[u8]) -> Result<String, AllocError> {
    let pieces = split(name);
    quoted(
        alloc,
        &[pieces.module, pieces.parent, pieces.base, pieces.ext],
    )
}

/// Whether a name is a node's.
pub fn told_node(alloc: Global, name: &[u8]) -> Result<String, AllocError> {
    let is_node = is_node(name);
    format!(in alloc; "{is_node}")
}

/// Whether a name may stand in an image, or its fault.
pub fn told_check(alloc: Global, name: &[u8]) -> Result<String, AllocError> {
    let checked = check_name(name);
    format!(in alloc; "{checked:?}")
}

/// A folder as a package.
pub fn told_package(alloc: Global, folder: &[u8]) -> Result<String, AllocError> {
    let package = given(dotted(alloc, folder))?;
    quoted(alloc, &[package.as_slice()])
}

/// A text in Modified UTF-8, and whether this is the text in UTF-8.
pub fn told_forms(alloc: Global, text: &[u8]) -> Result<String, AllocError> {
    let name = given(to_modified(alloc, text))?;
    let back = given(to_utf8(alloc, name.as_slice()))?;
    let mut told = quoted(alloc, &[name.as_slice()])?;
    told.push_str(", and back ")?;
    put_quoted(&mut told, back.as_slice())?;
    Ok(told)
}
