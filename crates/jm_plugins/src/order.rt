ghost use Rattle.std.specs.Prelude.{◌≡◌, ◌<◌, Some, length, map, slice_get, IfOk};
ghost use Rattle.jm_plugins.specs.Matching.{kept, ordered, ranked};
ghost use Rattle.jm_plugins.specs.Steps.{rank, tests_of};
ghost use Rattle.jm_plugins.specs.Turns.{IsByRank};

use crate::names::NameIndex;
use crate::places::places_below;
use jm_bytes::{List, NoMemory, Text};
use jm_halves::{Gate, Workers};
use jm_pattern::{Pattern, PatternIndex};
use jm_pool::Pool;
use std::alloc::Global;
use std::thread::Threads;

/// What a name is ranked by.
#[derive(Clone, Copy)]
enum Ranking<'a, 'p> {
    /// The first pattern that matches it.
    Patterns(&'a PatternIndex<'p>),
    /// The first place at which it stands in a list of names.
    Names(&'a NameIndex<'p>),
}

/// A place of the pool, and the rank of the name there.
#[derive(Clone, Copy, PartialEq, Eq)]
struct Turn {
    rank: usize,
    place: usize,
}

/// The number, from 0, of the first pattern that matches a name, or of the first place at which it
/// stands among the names; how many of them there are, where there is none.
fn rank(ranking: Ranking, name: &[u8]) -> usize
    ensures { result ≡ rank (tests_of ranking.entry) name.now }
{
    match ranking {
        Ranking::Patterns(index) => index.first_match(name),
        Ranking::Names(index) => index.first_place(name),
    }
}

/// The turn of the pair at a place.
fn turn_at(pool: &Pool, ranking: Ranking, place: usize) -> Turn
    requires { place < length pool.now }
    ensures place { result.place ≡ place }
    ensures rank { (pair : _) → slice_get pool.now place ≡ Some pair
        → result.rank ≡ rank (tests_of ranking.entry) pair.0 }
{
    let (name, _) = pool.at(place);
    Turn {
        rank: rank(ranking, name),
        place,
    }
}

/// The turns by rank, those of one rank in their order.
fn by_rank(turns: List<Turn>) -> Result<Vec<Turn>, NoMemory>
    ensures { IfOk result (λ sorted. IsByRank turns sorted.items) }
{
    let mut sorted = turns.into_vec();
    sorted.sort_by_key(|turn| turn.rank)?;
    Ok(sorted)
}

/// The places of turns.
fn places_of(alloc: Global, turns: &[Turn]) -> Result<List<usize>, NoMemory>
    ensures { IfOk result (λ places. places ≡ map (λ turn. turn.place) turns.now) }
{
    let mut places = List::new(alloc);
    for turn in turns {
        places.push(turn.place)?;
    }
    Ok(places)
}

/// The pairs by the ranks of their names, those of one rank in their order.
fn order<R: Threads + Sync, G: Gate + Sync>(
    workers: &Workers<R, G>,
    pool: Pool,
    ranking: Ranking,
) -> Result<Pool, NoMemory>
    ensures { IfOk result (λ left. left ≡ ranked (tests_of ranking.entry) pool) }
{
    let places = places_below(workers.alloc, pool.len())?;
    let look = |place: &usize| turn_at(&pool, ranking, *place);
    let turns = workers.map(places.as_slice(), &look)?;
    let sorted = by_rank(turns)?;
    let order = places_of(workers.alloc, sorted.as_slice())?;
    pool.reorder(order.as_slice())
}

/// Puts, pattern by pattern, the pairs that match it and no earlier one before those that match
/// none.
pub fn order_matched<R: Threads + Sync, G: Gate + Sync>(
    workers: &Workers<R, G>,
    pool: Pool,
    patterns: &[Pattern],
) -> Result<Pool, NoMemory>
    ensures { IfOk result (λ left. left ≡ ordered patterns.now pool) }
{
    let index = PatternIndex::new(workers.alloc, patterns)?;
    order(workers, pool, Ranking::Patterns(&index))
}

/// Puts the pairs of these names, in the order of the names, before those of other names.
pub fn keep_order<R: Threads + Sync, G: Gate + Sync>(
    workers: &Workers<R, G>,
    pool: Pool,
    names: &[Text],
) -> Result<Pool, NoMemory>
    ensures { IfOk result (λ left. left ≡ kept names.now pool) }
{
    let index = NameIndex::new(workers.alloc, names)?;
    order(workers, pool, Ranking::Names(&index))
}
