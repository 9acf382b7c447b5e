//! The names of resources, and whether one is that of another's folder.
ghost use Rattle.std.specs.Prelude.{◌≡◌, IfOk, map, option_map};
ghost use Rattle.std.specs.List.{find};
ghost use Rattle.jm_form.specs.Rising.{rising};
ghost use Rattle.jm_pool.specs.Pairs.{names_of};
ghost use Rattle.jm_nodes.specs.Order.{is_among, IsRising};

use crate::rising::{is_among, rising};
use jm_bytes::{List, NoMemory};
use jm_pool::Pool;
use std::alloc::Global;

/// The names of a pool, rising.
pub fn rising_names<'a>(alloc: Global, pool: &'a Pool) -> Result<List<&'a [u8]>, NoMemory>
    ensures { IfOk result (λ names. map (λ name. name.now) names ≡ rising (names_of pool.now)) }
{
    let mut names = List::with_capacity(alloc, pool.len())?;
    for place in 0..pool.len() {
        names.push(pool.at(place).0)?;
    }
    Ok(rising(names))
}

/// The first of the names that is a front of another: the first of the fronts that is a name.
pub fn first_front<'a>(names: &[&[u8]], fronts: &[&'a [u8]]) -> Option<&'a [u8]>
    requires names { IsRising (map (λ name. name.now) names.now) }
    requires fronts { IsRising (map (λ front. front.now) fronts.now) }
    ensures { option_map (λ name. name.now) result
        ≡ find (λ name. is_among name (map (λ front. front.now) fronts.now))
        (map (λ name. name.now) names.now) }
{
    for front in fronts {
        if is_among(front, names) {
            return Some(front);
        }
    }
    None
}
