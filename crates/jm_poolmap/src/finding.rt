ghost use Rattle.std.specs.Prelude.{◌≡◌, option_map, IfOk, IfSome};
ghost use Rattle.jm_class.specs.Classes.{ReadsAs};
ghost use Rattle.jm_class.specs.Views.{plain};
ghost use Rattle.jm_poolmap.specs.Live.{TellsLive};
ghost use Rattle.jm_poolmap.specs.Sites.{pool_end, back, found_in, sites_of};

use crate::forms::Unknown;
use crate::marking::flags_of;
use crate::members::class_parts;
use crate::naming::{all_constants, all_lower};
use crate::site::{FoundSite, Site};
use jm_bytes::{List, NoMemory, Or};
use jm_class::{Class, Cursor};
use jm_classout::slots_size;
use std::alloc::Global;

/// Where a class has numbers of constants, and which constants are live.
#[derive(Debug, Drop)]
pub struct PoolMap {
    /// The places in its text where numbers of constants stand, in order.
    pub sites: List<Site>,
    /// For each slot of its pool whether the constant there is live: whether its number stands at
    /// a site, or a live constant names it.
    pub live: List<bool>,
}

/// A cursor over the bytes of a class after its pool. Its places are in bytes from the start of the
/// class.
pub fn after_pool<'a>(bytes: &'a [u8], class: &Class) -> Cursor<'a>
    requires { ReadsAs bytes.now (plain class.now) }
    ensures { result ≡ record {
      place = pool_end (plain class.now);
      bytes = back (plain class.now);
    } }
{
    let pool_end = 10 + slots_size(class.pool.as_slice()) as usize;
    let (_, back) = bytes.split_at(pool_end);
    Cursor::at(pool_end, back)
}

/// The sites of a class, as they are met; none where a part of it isn't of a form that is known.
fn found_in(alloc: Global, bytes: &[u8], class: &Class) -> Result<Option<List<FoundSite>>, NoMemory>
    requires { ReadsAs bytes.now (plain class.now) }
    ensures { IfOk result (λ found. found ≡ found_in (plain class.now)) }
{
    let mut found = List::new(alloc);
    let mut cursor = after_pool(bytes, class);
    match class_parts(&mut found, &mut cursor, class) {
        Ok(()) if cursor.len() == 0 => Ok(Some(found)),
        Ok(()) | Err(Or::Fault(Unknown)) => Ok(None),
        Err(Or::Memory) => Err(NoMemory),
    }
}

/// The sites of a class and its live constants. None where a part of the class isn't of a form that
/// is known, where a number is that of no constant, and where a constant names one that isn't of a
/// lower rank.
pub fn pool_map(alloc: Global, bytes: &[u8], class: &Class) -> Result<Option<PoolMap>, NoMemory>
    requires { ReadsAs bytes.now (plain class.now) }
    ensures sites { IfOk result (λ map.
        option_map (λ m. m.sites) map ≡ sites_of (plain class.now)) }
    ensures live { IfOk result (λ map. IfSome map (λ m. TellsLive (plain class.now) m.live)) }
{
    let Some(found) = found_in(alloc, bytes, class)? else {
        return Ok(None);
    };
    let pool = class.pool.as_slice();
    let found = found.as_slice();
    if !all_constants(pool, found) {
        return Ok(None);
    }
    if !all_lower(pool) {
        return Ok(None);
    }
    let mut sites = List::with_capacity(alloc, found.len())?;
    for site in found {
        sites.push(Site {
            place: site.place,
            wide: site.wide,
        })?;
    }
    let live = flags_of(alloc, pool, found)?;
    Ok(Some(PoolMap { sites, live }))
}
