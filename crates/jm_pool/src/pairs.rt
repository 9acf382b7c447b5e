//! Changes of a map of names and bytes.
ghost use Rattle.std.specs.Prelude.{◌≡◌, ◌<◌, ◌∷◌, ◌++◌, [], Some, None, All, nat_eq, take, length};
ghost use Rattle.std.specs.Prelude.{slice_get, slice_set, IfOk, OnOk, OnErr};
ghost use Rattle.std.specs.List.{IsDistinct};
ghost use Rattle.std.specs.Str.{bytes_eq};
ghost use Rattle.jm_pool.specs.PairView.{pairs_of};
ghost use Rattle.jm_pool.specs.Pairs.{names_of, bytes_of, flagged_items, items_at};

use indexmap::IndexMap;
use jm_bytes::NoMemory;
use std::alloc::Global;

/// Puts a pair at the end, where its name is new.
pub fn add(
    pairs: &mut IndexMap<Vec<u8>, Vec<u8>>,
    name: Vec<u8>,
    bytes: Vec<u8>,
) -> Result<(), NoMemory>
    requires { bytes_of name.items (pairs_of pairs.old.entries) ≡ None }
    ensures ok { OnOk result (pairs.new.entries ≡ pairs.old.entries ++ (name, bytes) ∷ []) }
    ensures err { OnErr result (pairs.new.entries ≡ pairs.old.entries) }
{
    pairs.insert(name, bytes)?;
    Ok(())
}

/// Moves the pairs whose flag is true to the front, in their order, and answers how many they are.
pub fn flagged_count(pairs: &mut IndexMap<Vec<u8>, Vec<u8>>, keep: &[bool]) -> usize
    requires { length keep.now ≡ length pairs.old.entries }
    ensures { take result pairs.new.entries ≡ flagged_items keep.now pairs.old.entries }
{
    let mut front = 0;
    for place in 0..keep.len() {
        let stays = keep[place];
        if stays {
            pairs.swap_indices(front, place);
            front += 1;
        }
    }
    front
}

/// The pairs as a list.
pub fn pair_list(
    alloc: Global,
    pairs: IndexMap<Vec<u8>, Vec<u8>>,
) -> Result<Vec<(Vec<u8>, Vec<u8>)>, NoMemory>
    ensures pairs { IfOk result (λ list. list.items ≡ pairs.entries) }
    ensures differ { IfOk result (λ list. IsDistinct bytes_eq (names_of (pairs_of list.items))) }
{
    Ok(Vec::from_iter(alloc, pairs)?)
}

/// The pair at a place, which is left without a byte.
fn pair_out_of(alloc: Global, list: &mut [(Vec<u8>, Vec<u8>)], place: usize) -> (Vec<u8>, Vec<u8>)
    requires { place < length list.old }
    ensures pair { slice_get list.old place ≡ Some result }
    ensures left { (rest : _) × (list.new ≡ slice_set list.old place rest) }
{
    std::mem::replace(&mut list[place], (Vec::new(alloc), Vec::new(alloc)))
}

/// A map of the pairs at these places, in the order of the places.
pub fn map_in_order(
    alloc: Global,
    list: &mut [(Vec<u8>, Vec<u8>)],
    order: &[usize],
) -> Result<IndexMap<Vec<u8>, Vec<u8>>, NoMemory>
    requires within { All (λ place. place < length list.old) order.now }
    requires once { IsDistinct nat_eq order.now }
    requires differ { IsDistinct bytes_eq (names_of (items_at order.now (pairs_of list.old))) }
    ensures { IfOk result (λ pairs. pairs.entries ≡ items_at order.now list.old) }
{
    let mut pairs = IndexMap::new(alloc);
    for n in 0..order.len() {
        let (name, bytes) = pair_out_of(alloc, list, order[n]);
        add(&mut pairs, name, bytes)?;
    }
    Ok(pairs)
}
