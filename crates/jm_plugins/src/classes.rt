ghost use Rattle.std.specs.Prelude.{◌≡◌, ◌<◌, All, length, IfOk};
ghost use Rattle.jm_bytes.specs.Results.{IfAnswered, UnlessMemory};
ghost use Rattle.jm_form.specs.Trees.{module_of};
ghost use Rattle.jm_packages.specs.Packages.{packages_text};
ghost use Rattle.jm_bytes.specs.declared.faults.Or.TheVariants.{Memory};
ghost use Rattle.jm_plugins.specs.ComputedPlugins.{remade_pairs};
ghost use Rattle.jm_plugins.specs.Packaging.{packages_by};
ghost use Rattle.jm_plugins.specs.Steps.{class_places, put_remade, taken_by, text_of, IsRemade};
ghost use Rattle.jm_plugins.specs.Steps.{ReadsByRule, Refuses, RemadeAs, TakenRead};

use crate::chain::BadClass;
use crate::packages::{Keys, folders_by, is_descriptor, module_of};
use jm_bytes::{List, NoMemory, Or, Text};
use jm_class::ClassFault;
use jm_compact::compact_for;
use jm_halves::{Gate, Workers};
use jm_packages::list_packages_for;
use jm_pool::Pool;
use jm_strip::strip_for;
use std::alloc::Global;
use std::thread::Threads;

/// How classes are made anew.
#[derive(Clone, Copy)]
pub enum Remaking<'a> {
    /// Without their debug attributes.
    Strip,
    /// Without the constants that nothing names.
    Compact,
    /// Those of modules with their packages, by the keys of all folders.
    Packages(&'a Keys),
}

/// What making the class at a place of the pool anew gave.
#[derive(Drop)]
pub struct Remade {
    place: usize,
    outcome: Result<Text, Or<ClassFault>>,
}

/// Whether a way takes the class of a name.
fn takes(way: Remaking, name: &[u8]) -> bool
    ensures { result ≡ taken_by way.entry name.now }
{
    match way {
        Remaking::Strip | Remaking::Compact => name.ends_with(b".class"),
        Remaking::Packages(_) => is_descriptor(name),
    }
}

/// The places of the classes in a pool that a way takes.
fn class_places(alloc: Global, pool: &Pool, way: Remaking) -> Result<List<usize>, NoMemory>
    ensures { IfOk result (λ places. places ≡ class_places (taken_by way.entry) 0 pool.now) }
{
    let mut places = List::new(alloc);
    for place in 0..pool.len() {
        let (name, _) = pool.at(place);
        if takes(way, name) {
            places.push(place)?;
        }
    }
    Ok(places)
}

/// The class of a module with its packages, by the keys of all folders.
fn with_packages(
    alloc: Global,
    release: u32,
    name: &[u8],
    bytes: &[u8],
    keys: &Keys,
) -> Result<Text, Or<ClassFault>>
    ensures { RemadeAs release
        (λ c. packages_text (packages_by keys.now (module_of name.now) c) c) bytes.now result }
{
    let folders = folders_by(alloc, keys, module_of(name))?;
    list_packages_for(alloc, release, bytes, folders.as_slice())
}

/// The other text of the class of a release that the bytes of a name are.
fn remake(
    alloc: Global,
    release: u32,
    name: &[u8],
    bytes: &[u8],
    way: Remaking,
) -> Result<Text, Or<ClassFault>>
    ensures made { RemadeAs release (text_of way.entry name.now) bytes.now result }
    ensures read { ReadsByRule release bytes.now }
{
    match way {
        Remaking::Strip => strip_for(alloc, release, bytes),
        Remaking::Compact => compact_for(alloc, release, bytes),
        Remaking::Packages(keys) => with_packages(alloc, release, name, bytes, keys),
    }
}

/// Makes the class at a place anew.
fn remake_at(alloc: Global, release: u32, pool: &Pool, place: usize, way: Remaking) -> Remade
    requires { place < length pool.now }
    ensures { IsRemade release (text_of way.entry) pool.now place result }
{
    let (name, bytes) = pool.at(place);
    Remade {
        place,
        outcome: remake(alloc, release, name, bytes, way),
    }
}

/// The refusal of the class at a place.
fn refusal(alloc: Global, pool: &Pool, place: usize, error: Or<ClassFault>) -> Or<BadClass>
    requires { place < length pool.now }
    ensures { Refuses pool.now place error result }
{
    let Or::Fault(fault) = error else {
        return Or::Memory;
    };
    let (name, _) = pool.at(place);
    match Text::copy_of(alloc, name) {
        Ok(name) => Or::Fault(BadClass { name, fault }),
        Err(NoMemory) => Or::Memory,
    }
}

/// Puts the classes made anew, in the order of the pool; the first that was refused decides.
fn put_remade(alloc: Global, pool: Pool, remade: List<Remade>) -> Result<Pool, Or<BadClass>>
    requires { All (λ one. one.place < length pool) remade }
    ensures { UnlessMemory Memory result (put_remade remade pool) }
{
    let mut pool = pool;
    for Remade { place, outcome } in remade.into_vec() {
        match outcome {
            Ok(text) => pool.replace(place, text),
            Err(error) => return Err(refusal(alloc, &pool, place, error)),
        }
    }
    Ok(pool)
}

/// Puts for each class of a release in a pool that a way takes its text made anew.
pub fn remake_classes<R: Threads + Sync, G: Gate + Sync>(
    workers: &Workers<R, G>,
    release: u32,
    pool: Pool,
    way: Remaking,
) -> Result<Pool, Or<BadClass>>
    ensures computed { IfAnswered
        (λ r. r ≡ remade_pairs release (taken_by way.entry) (text_of way.entry) pool) result }
    ensures read { IfAnswered (λ r. TakenRead release (taken_by way.entry) pool) result }
{
    let alloc = workers.alloc;
    let places = class_places(alloc, &pool, way)?;
    let work = |place: &usize| remake_at(alloc, release, &pool, *place, way);
    let remade = workers.map(places.as_slice(), &work)?;
    put_remade(alloc, pool, remade)
}
