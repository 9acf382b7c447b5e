//! Hashes of names, and the slots to which redirects lead them.
ghost use Rattle.std.specs.Prelude.{◌≡◌, map, IfOk};
ghost use Rattle.jm_names.specs.Hash.{hash, default_seed};
ghost use Rattle.jm_form.specs.Table.{slot_of};

use jm_bytes::{List, NoMemory, Text};
use jm_form::Redirect;
use jm_names::{DEFAULT_SEED, Pieces, hash_pieces};
use std::alloc::Global;

/// The hash of a name from a seed.
pub fn hash_of(seed: u32, name: &[u8]) -> u32
    ensures { result ≡ hash seed name.now }
{
    hash_pieces(
        seed,
        &Pieces {
            module: &[],
            parent: &[],
            base: name,
            ext: &[],
        },
    )
}

/// The hash of each name from the default seed.
pub fn default_hashes(alloc: Global, names: &[Text]) -> Result<List<u32>, NoMemory>
    ensures { IfOk result (λ hashes. hashes ≡ map (hash default_seed) names.now) }
{
    let mut hashes = List::with_capacity(alloc, names.len())?;
    for name in names {
        hashes.push(hash_of(DEFAULT_SEED, name.as_slice()))?;
    }
    Ok(hashes)
}

/// The slot to which a redirect leads a name in a table of so many slots.
pub fn slot_of(slots: u32, name: &[u8], redirect: Redirect) -> Option<u32>
    ensures { result ≡ slot_of slots name.now redirect }
{
    match redirect {
        Redirect::Nowhere => None,
        Redirect::Slot(slot) => (slot < slots).then_some(slot),
        Redirect::Seed(seed) => Some(hash_of(seed, name).checked_rem(slots)?),
    }
}
