//! The modules and folders that names stand in, as fronts of the names.
ghost use Rattle.std.specs.Prelude.{◌≡◌, ◌++◌, [], ◌+◌, ◌-◌, ◌<◌, ◌≤◌};
ghost use Rattle.std.specs.Prelude.{
  length,
  take,
  map,
  flat_map,
  slice_index_or,
  IfOk,
  OnOk,
};
ghost use Rattle.jm_form.specs.Rising.{rising};
ghost use Rattle.jm_form.specs.Trees.{fronts};
ghost use Rattle.jm_nodes.specs.Fronts.{front_alone, fronts_between, IsKnownBelow};
ghost use Rattle.jm_nodes.specs.Order.{SameElements};

use crate::rising::rising;
use jm_bytes::{List, NoMemory};
use jm_names::shared_len;
use std::alloc::Global;

/// A length below which all fronts of the name at a place are fronts of the one before.
fn known_len(names: &[&[u8]], place: usize) -> usize
    requires { place < length names.now }
    ensures within { result ≤ length (slice_index_or (map (λ name. name.now) names.now) place []) }
    ensures known { IsKnownBelow result (slice_index_or (map (λ name. name.now) names.now) place [])
        (flat_map fronts (take place (map (λ name. name.now) names.now))) }
{
    if place == 0 {
        return 0;
    }
    shared_len(names[place], names[place - 1])
}

/// Puts the front of this length at the end, if it is a front.
fn put_front<'a>(list: &mut List<&'a [u8]>, name: &'a [u8], at: usize) -> Result<(), NoMemory>
    requires { at < length name.now }
    ensures { OnOk result (map (λ front. front.now) list.new ≡ map (λ front. front.now) list.old
        ++ front_alone at name.now) }
{
    if at > 0 && name[at] == b'/' {
        list.push(&name[..at])?;
    }
    Ok(())
}

/// Puts the fronts of a name at the end, from a length on.
fn put_fronts<'a>(list: &mut List<&'a [u8]>, name: &'a [u8], start: usize) -> Result<(), NoMemory>
    requires { start ≤ length name.now }
    ensures { OnOk result (map (λ front. front.now) list.new ≡ map (λ front. front.now) list.old
        ++ fronts_between start (length name.now - start) name.now) }
{
    for at in start..name.len() {
        put_front(list, name, at)?;
    }
    Ok(())
}

/// The fronts of some names. In rising names each comes once.
fn all_fronts<'a>(alloc: Global, names: &[&'a [u8]]) -> Result<List<&'a [u8]>, NoMemory>
    ensures { IfOk result (λ list. SameElements
        (flat_map fronts (map (λ name. name.now) names.now))
        (map (λ front. front.now) list)) }
{
    let mut list = List::new(alloc);
    for place in 0..names.len() {
        put_fronts(&mut list, names[place], known_len(names, place))?;
    }
    Ok(list)
}

/// The fronts of some names behind which a slash stands, rising.
pub fn fronts_of<'a>(alloc: Global, names: &[&'a [u8]]) -> Result<List<&'a [u8]>, NoMemory>
    ensures { IfOk result (λ list. map (λ front. front.now) list
        ≡ rising (flat_map fronts (map (λ name. name.now) names.now))) }
{
    Ok(rising(all_fronts(alloc, names)?))
}
