ghost use Rattle.std.specs.Prelude.{◌≡◌, ◌+◌, ◌%◌, ◌^◌};
ghost use Rattle.jm_names.specs.Hash.{hash, state_after};
ghost use Rattle.jm_names.specs.Names.{join, module_front, parent_front, ext_end};
ghost use Rattle.jm_names.specs.Pieces.{cut_of};

use crate::pieces::Pieces;
use jm_bytes::Steps;
use std::sync::ledger::Ledger;

/// The seed of a name's first hash in a look-up, whose bucket holds the redirect word (jimage 1.0).
pub const DEFAULT_SEED: u32 = 0x0100_0193;

/// The factor of each step of the hash. The format has one number for it and for the default seed;
/// a hash from another seed keeps the factor.
pub const HASH_FACTOR: u32 = 0x0100_0193;

/// The hash of a name from a seed, a number of 31 bits (jimage 1.0). It counts one hash.
pub fn hash<H: Ledger>(seed: u32, name: &[u8], hashes: &mut Steps<H>) -> u32
    ensures hash { result ≡ hash seed name.now }
    ensures cost { hashes.new ≡ hashes.old + 1 }
{
    hashes.add(1);
    hash_of_state(state_after(seed, name))
}

/// The hash of the name that the pieces make, from a seed, without putting it together.
#[tactic(auto, using(crate::proofs::HashLaws::appended))]
pub fn hash_pieces(seed: u32, pieces: &Pieces) -> u32
    ensures { result ≡ hash seed (join (cut_of pieces.now)) }
{
    let state = state_after_module(seed, pieces.module);
    let state = state_after_parent(state, pieces.parent);
    let state = state_after(state, pieces.base);
    hash_of_state(state_after_ext(state, pieces.ext))
}

/// The state of the hash after the bytes, from the state before them; a seed is the first state.
pub fn state_after(seed: u32, bytes: &[u8]) -> u32
    ensures { result ≡ state_after seed bytes.now }
{
    let mut state = seed;
    for byte in bytes {
        state = state.wrapping_mul(HASH_FACTOR) ^ u32::from(*byte);
    }
    state
}

/// The state after the module and its two slashes, or after nothing where it is empty.
#[tactic(auto, using(crate::proofs::HashLaws::appended))]
fn state_after_module(state: u32, module: &[u8]) -> u32
    ensures { result ≡ state_after state (module_front «module».now) }
{
    if module.is_empty() {
        return state;
    }
    state_after(state_after(state_after(state, b"/"), module), b"/")
}

/// The state after the parent and its slash, or after nothing where it is empty.
#[tactic(auto, using(crate::proofs::HashLaws::appended))]
fn state_after_parent(state: u32, parent: &[u8]) -> u32
    ensures { result ≡ state_after state (parent_front parent.now) }
{
    if parent.is_empty() {
        return state;
    }
    state_after(state_after(state, parent), b"/")
}

/// The state after the extension and its dot, or after nothing where it is empty.
fn state_after_ext(state: u32, ext: &[u8]) -> u32
    ensures { result ≡ state_after state (ext_end ext.now) }
{
    if ext.is_empty() {
        return state;
    }
    state_after(state_after(state, b"."), ext)
}

/// The hash that the last state gives: its low 31 bits.
pub fn hash_of_state(state: u32) -> u32
    ensures { result ≡ state % 2 ^ 31 }
{
    state & 0x7FFF_FFFF
}
