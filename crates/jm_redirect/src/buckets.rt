//! The redirects that buckets get, in turn.
ghost use Rattle.std.specs.Prelude.{◌≡◌, ◌<◌, ◌≤◌, ◌^◌, ◌++◌, ℕ, List, Some, None, map, length};
ghost use Rattle.std.specs.Prelude.{option_map, option_to_list, IfOk, IfSome, IfNone};
ghost use Rattle.std.specs.Bool.{OnTrue, OnFalse};
ghost use Rattle.jm_names.specs.Hash.{hash, default_seed};
ghost use Rattle.jm_form.specs.Greedy.{greedy, least_seed, least_free, redirect_for, slots_led};
ghost use Rattle.jm_redirect.specs.Marks.{Marks, TakenBelow, AllWithin, names_at, slots_sent};
ghost use Rattle.jm_redirect.specs.Reached.{Reached};

use crate::marks::{mark, unmarked_from};
use crate::prefix::Bucket;
use crate::turns::{Turn, turns_in_order};
use jm_bytes::{List, NoMemory, Text};
use jm_form::Redirect;
use std::alloc::Global;

/// The greatest seed that is tried, as in the JDK (jimage 1.0).
const LAST_SEED: u32 = 1000;

/// The least seed that sends the names to slots which differ and aren't taken. They are marked.
fn least_seed(bucket: &Bucket, slots: u32, taken: &mut [bool], marked: &mut [u32]) -> Option<u32>
    requires some { 0 < slots }
    requires size { length taken.old ≡ slots }
    requires room { length bucket.now.names.now ≤ length marked.old }
    ensures room { length marked.new ≡ length marked.old }
    ensures seed { (before : List ℕ) → Marks taken.old before →
        result ≡ least_seed slots before (map (λ name. name.now) bucket.now.names.now) }
    ensures marks { (before : List ℕ) → Marks taken.old before → IfSome result (λ seed.
        Marks taken.new (slots_sent slots seed (map (λ name. name.now) bucket.now.names.now)
        ++ before)) }
{
    for seed in 1..LAST_SEED + 1 {
        if mark(bucket, seed, slots, taken, marked) {
            return Some(seed);
        }
    }
    None
}

/// The least slot that isn't taken, from a place on in front of which all are. It is marked, and
/// the place moves there.
fn least_free(free: &mut usize, taken: &mut [bool]) -> Option<u32>
    requires few { length taken.old < 2 ^ 32 }
    ensures slot { (before : List ℕ) → Marks taken.old before → TakenBelow free.old before →
        result ≡ least_free (length taken.old) before }
    ensures below { IfSome result (λ slot. slot < length taken.old) }
    ensures marks { (before : List ℕ) → Marks taken.old before →
        Marks taken.new (option_to_list result ++ before) }
    ensures free { (before : List ℕ) → Marks taken.old before → TakenBelow free.old before →
        TakenBelow free.new before }
{
    let slot = unmarked_from(*free, taken)?;
    taken[slot] = true;
    *free = slot;
    Some(slot as u32)
}

/// What the bucket of these names gets. Its slots are marked.
fn redirect_for(
    names: &[&[u8]],
    slots: u32,
    free: &mut usize,
    taken: &mut [bool],
    marked: &mut [u32],
) -> Option<Redirect>
    requires some { 0 < slots }
    requires size { length taken.old ≡ slots }
    requires room { length names.now ≤ length marked.old }
    ensures room { length marked.new ≡ length marked.old }
    ensures redirect { (before : List ℕ) → Marks taken.old before → TakenBelow free.old before →
        result ≡ redirect_for slots before (map (λ name. name.now) names.now) }
    ensures marks { (before : List ℕ) → Marks taken.old before → IfSome result (λ r.
        Marks taken.new (slots_led slots r (map (λ name. name.now) names.now) ++ before)) }
    ensures free { (before : List ℕ) → Marks taken.old before → TakenBelow free.old before →
        TakenBelow free.new before }
{
    if names.len() == 1 {
        Some(Redirect::Slot(least_free(free, taken)?))
    } else {
        Some(Redirect::Seed(least_seed(&Bucket::new(names), slots, taken, marked)?))
    }
}

/// Turns that are left, the names that have them, and a place before which all slots are taken.
#[derive(Clone, Copy)]
struct Left<'t, 'n> {
    turns: &'t [Turn],
    names: &'t [&'n [u8]],
    free: usize,
}

/// Gives the first of the buckets in turn its redirect, and answers what is left for the others.
fn give_first<'t, 'n>(
    names: &[Text],
    left: Left<'t, 'n>,
    taken: &mut [bool],
    marked: &mut [u32],
    redirects: &mut [Redirect],
) -> Option<Left<'t, 'n>>
    requires some { 0 < length left.turns.now }
    requires room { length names.now ≤ length marked.old }
    requires few { length redirects.old < 2 ^ 32 }
    requires named { map (λ name. name.now) left.names.now ≡ names_at names.now left.turns.now }
    requires reached { Reached names.now (length redirects.old)
        taken.old redirects.old left.free left.turns.now }
    ensures room { length marked.new ≡ length marked.old }
    ensures named { IfSome result (λ others.
        map (λ name. name.now) others.names.now ≡ names_at names.now others.turns.now) }
    ensures reached { IfSome result (λ others. Reached names.now (length redirects.old)
        taken.new redirects.new others.free others.turns.now) }
    ensures shorter { IfSome result (λ others.
        length others.turns.now < length left.entry.turns.now) }
    ensures none { IfNone result (greedy names.now (length redirects.old) ≡ None) }
{
    let size = names.len() - left.turns[0].others as usize;
    let (_, turns) = left.turns.split_at(size);
    let (bucket, others) = left.names.split_at(size);
    let mut free = left.free;
    let slots = redirects.len() as u32;
    let redirect = redirect_for(bucket, slots, &mut free, taken, marked)?;
    redirects[left.turns[0].bucket as usize] = redirect;
    Some(Left {
        turns,
        names: others,
        free,
    })
}

/// Gives the buckets of the turns their redirects, in turn, or answers that one of them gets none.
fn give_all(
    names: &[Text],
    all: Left,
    taken: &mut [bool],
    marked: &mut [u32],
    redirects: &mut [Redirect],
) -> bool
    requires room { length names.now ≤ length marked.old }
    requires few { length redirects.old < 2 ^ 32 }
    requires named { map (λ name. name.now) all.names.now ≡ names_at names.now all.turns.now }
    requires reached { Reached names.now (length redirects.old)
        taken.old redirects.old all.free all.turns.now }
    ensures all { OnTrue result (option_map (λ table. table.redirects)
        (greedy names.now (length redirects.old)) ≡ Some redirects.new) }
    ensures none { OnFalse result (greedy names.now (length redirects.old) ≡ None) }
{
    let mut left = all;
    while !left.turns.is_empty() {
        match give_first(names, left, taken, marked, redirects) {
            Some(others) => left = others,
            None => return false,
        }
    }
    true
}

/// The names that have these turns.
///
/// They lie far apart, and are read here one after another, with no choice in between, so that the
/// processor reads many at a time.
fn names_in_turn<'n>(
    alloc: Global,
    names: &'n [Text],
    turns: &[Turn],
) -> Result<List<&'n [u8]>, NoMemory>
    requires { AllWithin names.now turns.now }
    ensures { IfOk result
        (λ found. map (λ name. name.now) found ≡ names_at names.now turns.now) }
{
    let mut found = List::with_capacity(alloc, turns.len())?;
    for turn in turns {
        found.push(names[turn.place as usize].as_slice())?;
    }
    Ok(found)
}

/// The redirect of each bucket in the greedy table of so many slots, if there is one.
pub fn redirects_at(
    alloc: Global,
    names: &[Text],
    hashes: &[u32],
    slots: u32,
) -> Result<Option<List<Redirect>>, NoMemory>
    requires hashes { hashes.now ≡ map (hash default_seed) names.now }
    requires enough { length names.now ≤ slots }
    ensures { IfOk result (λ redirects. redirects ≡
        option_map (λ table. table.redirects) (greedy names.now slots)) }
{
    let turns = turns_in_order(alloc, hashes, slots)?;
    let named = names_in_turn(alloc, names, turns.as_slice())?;
    let left = Left {
        turns: turns.as_slice(),
        names: named.as_slice(),
        free: 0,
    };
    let mut taken = vec![in alloc; false; slots as usize]?;
    let mut marked = vec![in alloc; 0u32; names.len()]?;
    let mut redirects = vec![in alloc; Redirect::Nowhere; slots as usize]?;
    if give_all(names, left, &mut taken, &mut marked, &mut redirects) {
        Ok(Some(List::from_vec(redirects)))
    } else {
        Ok(None)
    }
}
