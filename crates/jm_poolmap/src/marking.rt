ghost use Rattle.std.specs.Prelude.{◌≡◌, false, All, length, map, IfOk};
ghost use Rattle.jm_class.specs.Views.{slot_of, pool_of};
ghost use Rattle.jm_classout.specs.Fits.{FitsSlot};
ghost use Rattle.jm_poolmap.specs.ComputedLive.{with_mark, spread, spread_from};
ghost use Rattle.jm_poolmap.specs.ComputedLive.{flag_of, with_holes, flags_of};

use crate::naming::{name_sites, number_at};
use crate::site::FoundSite;
use jm_bytes::{List, NoMemory};
use jm_class::Slot;
use std::alloc::Global;

/// Marks the constant of a number.
fn mark(flags: &mut [bool], index: u16)
    ensures { flags.new ≡ with_mark flags.old index }
{
    if index != 0 {
        let place = usize::from(index) - 1;
        if place < flags.len() {
            flags[place] = true;
        }
    }
}

/// Marks what a marked constant names.
fn spread(flags: &mut [bool], place: usize, slot: &Slot)
    requires { FitsSlot (slot_of slot.now) }
    ensures { flags.new ≡ spread place (slot_of slot.now) flags.old }
{
    if flags.get(place) != Some(&true) {
        return;
    }
    let Slot::Constant { tag, body } = slot else {
        return;
    };
    let sites = name_sites(*tag);
    for site in sites {
        mark(flags, number_at(body, site.place));
    }
}

/// Marks what the marked constants name, one after another.
fn spread_all(flags: &mut [bool], pool: &[Slot])
    requires { All FitsSlot (pool_of pool.now) }
    ensures { flags.new ≡ spread_from 0 (pool_of pool.now) flags.old }
{
    for place in 0..pool.len() {
        spread(flags, place, &pool[place]);
    }
}

/// The flag of a slot: a hole has that of the constant before it.
fn flag_of(slot: &Slot, flag: bool, before: bool) -> bool
    ensures { result ≡ flag_of (slot_of slot.now) flag before }
{
    match slot {
        Slot::Constant { .. } => flag,
        Slot::Hole => before,
    }
}

/// A flag for each slot: that of its constant.
fn with_holes(alloc: Global, pool: &[Slot], flags: &[bool]) -> Result<List<bool>, NoMemory>
    requires { length flags.now ≡ length pool.now }
    ensures { IfOk result (λ list. list ≡ with_holes false (pool_of pool.now) flags.now) }
{
    let mut list = List::with_capacity(alloc, pool.len())?;
    let mut live = false;
    for place in 0..pool.len() {
        live = flag_of(&pool[place], flags[place], live);
        list.push(live)?;
    }
    Ok(list)
}

/// The flags of the slots: those at sites, and what they name in three rounds.
pub fn flags_of(alloc: Global, pool: &[Slot], found: &[FoundSite]) -> Result<List<bool>, NoMemory>
    requires { All FitsSlot (pool_of pool.now) }
    ensures { IfOk result (λ flags.
        flags ≡ flags_of (pool_of pool.now) (map (λ f. f.number) found.now)) }
{
    let mut flags = vec![in alloc; false; pool.len()].map_err(|_| NoMemory)?;
    for site in found {
        mark(&mut flags, site.number);
    }
    spread_all(&mut flags, pool);
    spread_all(&mut flags, pool);
    spread_all(&mut flags, pool);
    with_holes(alloc, pool, &flags)
}
