//! The order in which the contents of an image stand in its file.
ghost use Rattle.std.specs.Prelude.{◌≡◌, ◌≢◌, ◌++◌, ℕ, List, AllPairs, IfOk, OnOk, map};
ghost use Rattle.jm_form.specs.Head.{IsFileOf};
ghost use Rattle.jm_form.specs.Trees.{module_of, path_of};
ghost use Rattle.jm_reader.specs.Listing.{handed};
ghost use Rattle.jm_reader.specs.Walk.{IsLater, entries_of};
ghost use Rattle.jm_filed.specs.FileOrder.{file_cmp, file_order, in_file_order, name_cmp};
ghost use Rattle.jm_filed.specs.FileOrder.{placed_alone, placed_among};

use jm_bytes::{List, Meter, NoMemory, Text};
use jm_names::cut_at_first;
use jm_reader::{Listed, list};
use jm_valid::Index;
use std::alloc::Global;
use std::cmp::Ordering;
use std::sync::ledger::Ledger;

/// The name of a resource, and where its content stands among the contents of the image.
#[derive(Debug, Drop)]
pub struct PlacedName {
    /// Where the content begins, in bytes from the beginning of the contents.
    pub offset: u64,
    /// How many bytes the content has.
    pub size: u64,
    /// The name.
    pub name: Text,
}

/// The module of a resource, and its path within the module.
fn module_and_path(name: &[u8]) -> (&[u8], &[u8])
    ensures module { result.0.now ≡ module_of name.now }
    ensures path { result.1.now ≡ path_of name.now }
{
    let Some((_, rest)) = name.split_first() else {
        return (&[], &[]);
    };
    match cut_at_first(b'/', rest) {
        Some(cut) => cut,
        None => (rest, &[]),
    }
}

/// How two names stand to one another: by module, and then by path.
fn order_of_names(name: &[u8], other: &[u8]) -> Ordering
    ensures { result ≡ name_cmp name.now other.now }
{
    let (module, path) = module_and_path(name);
    let (other_module, other_path) = module_and_path(other);
    let paths = path.cmp(other_path).then(name.cmp(other));
    module.cmp(other_module).then(paths)
}

/// How two resources stand to one another in the order of the file.
fn order_of_places(one: &PlacedName, other: &PlacedName) -> Ordering
    ensures { result ≡ file_cmp one.now other.now }
{
    let sizes = (one.size > 0).cmp(&(other.size > 0));
    match one.offset.cmp(&other.offset).then(sizes) {
        Ordering::Equal => order_of_names(one.name.as_slice(), other.name.as_slice()),
        order => order,
    }
}

/// Puts an entry at the end, if it is a resource.
fn put_placed(alloc: Global, names: &mut List<PlacedName>, entry: &Listed) -> Result<(), NoMemory>
    ensures { OnOk result (names.new ≡ names.old ++ placed_alone (handed entry.now)) }
{
    if entry.name.is_node() {
        return Ok(());
    }
    names.push(PlacedName {
        offset: entry.row.offset,
        size: entry.row.size,
        name: entry.name.to_text(alloc)?,
    })
}

/// The resources of an image by rising slot.
fn placed_names<R: Ledger>(
    alloc: Global,
    index: &Index,
    reads: &mut Meter<R>,
) -> Result<List<PlacedName>, NoMemory>
    requires { reads.old.bytes ≡ index.now.bytes }
    ensures placed { (b : List ℕ) → IsFileOf index.now.bytes index.now.length b
        → IfOk result (λ names. names ≡ placed_among (entries_of b)) }
    ensures reads { IsLater reads.old reads.new }
{
    let mut entries = list(index);
    let mut names = List::new(alloc);
    while let Some(entry) = entries.step(reads) {
        put_placed(alloc, &mut names, &entry)?;
    }
    Ok(names)
}

/// The names alone.
fn names_alone(alloc: Global, placed: Vec<PlacedName>) -> Result<List<Text>, NoMemory>
    ensures { IfOk result (λ names. names ≡ map (λ p. p.name) placed.items) }
{
    let mut names = List::with_capacity(alloc, placed.len())?;
    for item in placed {
        names.push(item.name)?;
    }
    Ok(names)
}

/// The names of some resources in the order of their contents: by their place, at one place the
/// empty ones first, then by module, then by path. The names differ. Time n log n.
pub fn names_by_place(alloc: Global, placed: List<PlacedName>) -> Result<List<Text>, NoMemory>
    ensures { AllPairs (λ p q. p.name ≢ q.name) placed
        → IfOk result (λ names. names ≡ map (λ p. p.name) (in_file_order placed)) }
{
    let mut sorted = placed.into_vec();
    sorted.sort_unstable_by(|one, other| order_of_places(one, other));
    names_alone(alloc, sorted)
}

/// The names of the resources of an image in the order of their contents, as `names_by_place` has
/// it. The index says all of it, and no content is read.
pub fn names_in_file_order<R: Ledger>(
    alloc: Global,
    index: &Index,
    reads: &mut Meter<R>,
) -> Result<List<Text>, NoMemory>
    requires { reads.old.bytes ≡ index.now.bytes }
    ensures order { (b : List ℕ) → IsFileOf index.now.bytes index.now.length b
        → IfOk result (λ names. names ≡ file_order b) }
    ensures reads { IsLater reads.old reads.new }
{
    let placed = placed_names(alloc, index, reads)?;
    names_by_place(alloc, placed)
}
