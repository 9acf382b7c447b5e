ghost use Rattle.std.specs.Prelude.{◌≡◌, ◌+◌, ◌<◌, ◌≤◌, ◌^◌, ◌++◌, Some, map, length, option_map};
ghost use Rattle.std.specs.Prelude.{slice_index_or, option_to_list, IfOk, IfErr, OnOk};
ghost use Rattle.std.specs.List.{filter_map};
ghost use Rattle.jm_bytes.specs.Results.{IfAnswered};
ghost use Rattle.jm_names.specs.Hash.{hash, default_seed};
ghost use Rattle.jm_form.specs.declared.table.Redirect.TheVariants.{Nowhere};
ghost use Rattle.jm_form.specs.Greedy.{greedy, bucket_of, first_table};
ghost use Rattle.jm_form.specs.Table.{slot_of};
ghost use Rattle.jm_redirect.specs.Built.{redirect_at, as_table, IsRefusal, ServesNames};

use crate::buckets::redirects_at;
use crate::hashes::{default_hashes, slot_of};
use jm_bytes::{List, NoMemory, Or, Text};
use jm_form::Redirect;
use std::alloc::Global;

/// How many lengths are tried (this project's rule).
const LENGTHS: u32 = 64;

/// None of so many lengths has a greedy table.
#[derive(Clone, Copy, Debug, PartialEq, Eq)]
pub struct NoTable(pub u32);

/// The table of an image that is written.
#[derive(Debug, Drop)]
pub struct Table {
    /// How many slots and how many buckets there are.
    pub length: u32,
    /// The redirect of each bucket.
    pub redirects: List<Redirect>,
    /// The slot of each name.
    pub slot_of: List<u32>,
}

/// Puts a slot at the end, if there is one.
fn push_some(slots: &mut List<u32>, slot: Option<u32>) -> Result<(), NoMemory>
    ensures { OnOk result (slots.new ≡ slots.old ++ option_to_list slot) }
{
    match slot {
        Some(slot) => slots.push(slot),
        None => Ok(()),
    }
}

/// The redirect of a hash's bucket; that of a table of no bucket leads nowhere.
fn redirect_at(redirects: &[Redirect], hash: u32) -> Redirect
    ensures { result ≡ redirect_at redirects.now hash }
{
    match (hash as usize).checked_rem(redirects.len()) {
        Some(bucket) => redirects[bucket],
        None => Redirect::Nowhere,
    }
}

/// The redirect of each hash's bucket.
///
/// They lie far apart, and nothing else is done between two of them here, so that the processor
/// reads many at a time.
pub fn redirects_of(
    alloc: Global,
    hashes: &[u32],
    redirects: &[Redirect],
) -> Result<List<Redirect>, NoMemory>
    ensures { IfOk result (λ found. found ≡ map (redirect_at redirects.now) hashes.now) }
{
    let mut found = List::with_capacity(alloc, hashes.len())?;
    for hash in hashes {
        found.push(redirect_at(redirects, *hash))?;
    }
    Ok(found)
}

/// The slots to which the redirects of their buckets lead the names.
fn slots_of(
    alloc: Global,
    names: &[Text],
    hashes: &[u32],
    redirects: &[Redirect],
) -> Result<List<u32>, NoMemory>
    requires hashes { hashes.now ≡ map (hash default_seed) names.now }
    requires enough { length names.now ≤ length redirects.now }
    requires few { length redirects.now < 2 ^ 32 }
    ensures { IfOk result (λ slots. slots ≡ filter_map
        (λ name. slot_of (length redirects.now) name
        (slice_index_or redirects.now (bucket_of (length redirects.now) name) Nowhere))
        names.now) }
{
    let found = redirects_of(alloc, hashes, redirects)?;
    let given = found.as_slice();
    let mut slots = List::with_capacity(alloc, names.len())?;
    let length = redirects.len() as u32;
    for place in 0..names.len() {
        let slot = slot_of(length, names[place].as_slice(), given[place]);
        push_some(&mut slots, slot)?;
    }
    Ok(slots)
}

/// The greedy table of the names at a length, if there is one.
fn table_at(
    alloc: Global,
    names: &[Text],
    hashes: &[u32],
    slots: u32,
) -> Result<Option<Table>, NoMemory>
    requires hashes { hashes.now ≡ map (hash default_seed) names.now }
    requires enough { length names.now ≤ slots }
    ensures { IfOk result (λ table. table ≡ option_map as_table (greedy names.now slots)) }
{
    let Some(redirects) = redirects_at(alloc, names, hashes, slots)? else {
        return Ok(None);
    };
    let slot_of = slots_of(alloc, names, hashes, redirects.as_slice())?;
    Ok(Some(Table {
        length: slots,
        redirects,
        slot_of,
    }))
}

/// The greedy table of the names at the first length that has one, of 64 lengths: their count,
/// and each time the next greater odd number.
pub fn build(alloc: Global, names: &[Text]) -> Result<Table, Or<NoTable>>
    requires { length names.now ≤ 1048576 }
    ensures table { IfOk result
        (λ table. option_map as_table (first_table names.now) ≡ Some table) }
    ensures serves { IfOk result (ServesNames names.now) }
    ensures refused { IfAnswered (λ r. IfErr r (IsRefusal names.now)) result }
{
    let hashes = default_hashes(alloc, names)?;
    let mut length = names.len() as u32;
    for _tried in 0..LENGTHS {
        match table_at(alloc, names, hashes.as_slice(), length)? {
            Some(table) => return Ok(table),
            None => length += 1 + length % 2,
        }
    }
    Err(Or::Fault(NoTable(LENGTHS)))
}
