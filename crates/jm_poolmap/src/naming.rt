ghost use Rattle.std.specs.Prelude.{◌≡◌, ◌+◌, ◌≤◌, All, length, take, drop};
ghost use Rattle.std.specs.Int.{w16, from_be_bytes};
ghost use Rattle.std.specs.List.{list_all};
ghost use Rattle.jm_class.specs.Views.{slot_of, pool_of};
ghost use Rattle.jm_classout.specs.Fits.{FitsSlot};
ghost use Rattle.jm_poolmap.specs.Sites.{rank, name_sites, rank_of, rank_at, is_some_below};
ghost use Rattle.jm_poolmap.specs.Sites.{names_lower, names_constant};

use crate::site::{FoundSite, Site};
use jm_class::Slot;

const AT_START: Site = Site {
    place: 0,
    wide: true,
};

const AFTER_ONE: Site = Site {
    place: 1,
    wide: true,
};

const AFTER_TWO: Site = Site {
    place: 2,
    wide: true,
};

/// How a constant names others, by its tag: how far it is above those that name nothing, and where
/// in its body the numbers of others stand (JVMS 4.4).
fn naming(tag: u8) -> (u8, &'static [Site])
    ensures rank { result.0 ≡ rank tag }
    ensures sites { result.1.now ≡ name_sites tag }
{
    match tag {
        7 | 8 | 16 | 19 | 20 => (1, &[AT_START]),
        12 => (1, &[AT_START, AFTER_TWO]),
        9 | 10 | 11 => (2, &[AT_START, AFTER_TWO]),
        17 | 18 => (2, &[AFTER_TWO]),
        15 => (3, &[AFTER_ONE]),
        _ => (0, &[]),
    }
}

/// Where in a constant's body the numbers of others stand, by its tag.
pub fn name_sites(tag: u8) -> &'static [Site]
    ensures { result.now ≡ name_sites tag }
{
    naming(tag).1
}

/// The number of two bytes at a place.
pub fn number_at(body: &[u8], place: u64) -> u16
    requires { place + 2 ≤ length body.now }
    ensures { result ≡ from_be_bytes w16 (take 2 (drop place body.now)) }
{
    let place = place as usize;
    u16::from_be_bytes([body[place], body[place + 1]])
}

/// The rank of a constant; a hole is none.
fn rank_of(slot: &Slot) -> Option<u8>
    ensures { result ≡ rank_of (slot_of slot.now) }
{
    match slot {
        Slot::Constant { tag, .. } => Some(naming(*tag).0),
        Slot::Hole => None,
    }
}

/// The rank of the constant of a number; none where no constant has it.
fn rank_at(pool: &[Slot], index: u16) -> Option<u8>
    ensures { result ≡ rank_at (pool_of pool.now) index }
{
    let place = usize::from(index).checked_sub(1)?;
    rank_of(pool.get(place)?)
}

/// Whether a constant of a lower rank has the number.
fn is_below(pool: &[Slot], limit: u8, index: u16) -> bool
    ensures { result ≡ is_some_below limit (rank_at (pool_of pool.now) index) }
{
    match rank_at(pool, index) {
        Some(rank) => rank < limit,
        None => false,
    }
}

/// Whether all that a constant names is of a lower rank.
fn names_lower(pool: &[Slot], slot: &Slot) -> bool
    requires { FitsSlot (slot_of slot.now) }
    ensures { result ≡ names_lower (pool_of pool.now) (slot_of slot.now) }
{
    let Slot::Constant { tag, body } = slot else {
        return true;
    };
    let (rank, sites) = naming(*tag);
    for site in sites {
        if !is_below(pool, rank, number_at(body, site.place)) {
            return false;
        }
    }
    true
}

/// Whether all that constants name is of a lower rank.
pub fn all_lower(pool: &[Slot]) -> bool
    requires { All FitsSlot (pool_of pool.now) }
    ensures { result ≡ list_all (names_lower (pool_of pool.now)) (pool_of pool.now) }
{
    for slot in pool {
        if !names_lower(pool, slot) {
            return false;
        }
    }
    true
}

/// Whether a constant has the number at each site, or it is an optional 0.
pub fn all_constants(pool: &[Slot], found: &[FoundSite]) -> bool
    ensures { result ≡ list_all (names_constant (pool_of pool.now)) found.now }
{
    for site in found {
        if !(site.optional && site.number == 0 || rank_at(pool, site.number).is_some()) {
            return false;
        }
    }
    true
}
