ghost use Rattle.std.specs.Prelude.{◌≡◌, ◌<◌, Some, filter, not, length, slice_get, IfOk};
ghost use Rattle.jm_plugins.specs.Matching.{excluded};
ghost use Rattle.jm_plugins.specs.Steps.{is_dropped};

use crate::places::places_below;
use crate::system_modules::is_system_modules;
use jm_bytes::NoMemory;
use jm_halves::{Gate, Workers};
use jm_pattern::{Pattern, PatternIndex};
use jm_pool::Pool;
use std::thread::Threads;

/// Which names are dropped.
#[derive(Clone, Copy)]
pub enum Dropping<'a, 'p> {
    /// Those that one of the patterns of an index matches, which are so many.
    Matched(&'a PatternIndex<'p>, usize),
    /// Those of the classes that name all modules of an image.
    SystemModules,
}

/// Whether a name is dropped.
fn is_dropped(way: Dropping, name: &[u8]) -> bool
    ensures { result ≡ is_dropped way.entry name.now }
{
    match way {
        Dropping::Matched(index, count) => index.first_match(name) < count,
        Dropping::SystemModules => is_system_modules(name),
    }
}

/// Whether the pair at a place stays.
fn stays(pool: &Pool, way: Dropping, place: usize) -> bool
    requires { place < length pool.now }
    ensures { (pair : _) → slice_get pool.now place ≡ Some pair
        → result ≡ not (is_dropped way.entry pair.0) }
{
    let (name, _) = pool.at(place);
    !is_dropped(way, name)
}

/// Drops the pairs whose name is dropped.
pub fn drop_named<R: Threads + Sync, G: Gate + Sync>(
    workers: &Workers<R, G>,
    pool: Pool,
    way: Dropping,
) -> Result<Pool, NoMemory>
    ensures { IfOk result
        (λ left. left ≡ filter (λ pair. not (is_dropped way.entry pair.0)) pool) }
{
    let places = places_below(workers.alloc, pool.len())?;
    let look = |place: &usize| stays(&pool, way, *place);
    let keep = workers.map(places.as_slice(), &look)?;
    let mut pool = pool;
    pool.retain_flags(keep.as_slice());
    Ok(pool)
}

/// Drops the pairs whose name one of the patterns matches.
pub fn drop_matched<R: Threads + Sync, G: Gate + Sync>(
    workers: &Workers<R, G>,
    pool: Pool,
    patterns: &[Pattern],
) -> Result<Pool, NoMemory>
    ensures { IfOk result (λ left. left ≡ excluded patterns.now pool) }
{
    let index = PatternIndex::new(workers.alloc, patterns)?;
    drop_named(workers, pool, Dropping::Matched(&index, patterns.len()))
}
