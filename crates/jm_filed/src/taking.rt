//! The entries of an image that are taken, and its nodes, by rising name, as its index says them.
ghost use Rattle.std.specs.Prelude.{◌≡◌, ◌++◌, ℕ, List, IfOk, OnOk, map};
ghost use Rattle.jm_form.specs.Head.{IsFileOf};
ghost use Rattle.jm_reader.specs.Listing.{entry_listed, handed};
ghost use Rattle.jm_reader.specs.Look.{SoundIn};
ghost use Rattle.jm_reader.specs.Walk.{IsLater};
ghost use Rattle.jm_names.specs.ByName.{RisesByName};
ghost use Rattle.jm_names.specs.Names.{is_node};
ghost use Rattle.jm_filed.specs.Parts.{named};
ghost use Rattle.jm_filed.specs.Taken.{LieWithin, is_chosen, is_included, is_taken, named_alone};
ghost use Rattle.jm_filed.specs.Taken.{named_of, nodes, taken, taken_as};

use crate::extent::Extent;
use crate::taken_name::TakenName;
use jm_bytes::{List, Meter, NoMemory};
use jm_pattern::{Pattern, matches_any};
use jm_reader::{Listed, list};
use jm_valid::Index;
use std::alloc::Global;
use std::sync::ledger::Ledger;

/// An entry that is taken of an image. It borrows its name from the index.
#[derive(Debug, Drop)]
pub struct TakenEntry<'a> {
    /// Its name.
    pub name: TakenName<'a>,
    /// Where its content stands in the image's file, and how many bytes it has.
    pub content: Extent,
}

/// Which entries of an image are listed.
#[derive(Clone, Copy)]
enum Choice<'p> {
    /// The resources, or those of them whose name one of the patterns matches.
    Resources(&'p Option<List<Pattern>>),
    /// The nodes of the two trees.
    Nodes,
}

/// One of the patterns matches the name, or none are given.
fn is_included(include: &Option<List<Pattern>>, name: &[u8]) -> bool
    ensures { result ≡ is_included include.now name.now }
{
    match include {
        Some(patterns) => matches_any(patterns.as_slice(), name),
        None => true,
    }
}

/// Puts a resource at the end if it is taken. Its name is made a text for that, and let go.
fn take_resource<'a>(
    alloc: Global,
    list: &mut List<TakenEntry<'a>>,
    index: &Index<'a>,
    entry: Listed<'a>,
    include: &Option<List<Pattern>>,
) -> Result<(), NoMemory>
    requires { SoundIn index.now entry.row }
    ensures taken { (b : List ℕ) → IsFileOf index.now.bytes index.now.length b
        → OnOk result (map (taken_as b) list.new ≡ map (taken_as b) list.old
        ++ named_alone (is_taken include.now) (named (entry_listed b (handed entry.entry)))) }
    ensures within { LieWithin index.now.length list.old
        → OnOk result (LieWithin index.now.length list.new) }
{
    if entry.name.is_node() {
        return Ok(());
    }
    let name = entry.name.to_text(alloc)?;
    if is_included(include, name.as_slice()) {
        list.push(TakenEntry {
            name: TakenName::of(entry.name, name.as_slice()),
            content: Extent::of(index, &entry.row),
        })?;
    }
    Ok(())
}

/// Puts an entry at the end if it has the name of a node.
fn take_node<'a>(
    alloc: Global,
    list: &mut List<TakenEntry<'a>>,
    index: &Index<'a>,
    entry: Listed<'a>,
) -> Result<(), NoMemory>
    requires { SoundIn index.now entry.row }
    ensures taken { (b : List ℕ) → IsFileOf index.now.bytes index.now.length b
        → OnOk result (map (taken_as b) list.new ≡ map (taken_as b) list.old
        ++ named_alone is_node (named (entry_listed b (handed entry.entry)))) }
    ensures within { LieWithin index.now.length list.old
        → OnOk result (LieWithin index.now.length list.new) }
{
    if !entry.name.is_node() {
        return Ok(());
    }
    let name = entry.name.to_text(alloc)?;
    list.push(TakenEntry {
        name: TakenName::of(entry.name, name.as_slice()),
        content: Extent::of(index, &entry.row),
    })?;
    Ok(())
}

/// Puts an entry at the end if it is chosen.
fn take_entry<'a>(
    alloc: Global,
    list: &mut List<TakenEntry<'a>>,
    index: &Index<'a>,
    entry: Listed<'a>,
    choice: Choice,
) -> Result<(), NoMemory>
    requires { SoundIn index.now entry.row }
    ensures taken { (b : List ℕ) → IsFileOf index.now.bytes index.now.length b
        → OnOk result (map (taken_as b) list.new ≡ map (taken_as b) list.old
        ++ named_alone (is_chosen choice.entry) (named (entry_listed b (handed entry.entry)))) }
    ensures within { LieWithin index.now.length list.old
        → OnOk result (LieWithin index.now.length list.new) }
{
    match choice {
        Choice::Resources(include) => take_resource(alloc, list, index, entry, include),
        Choice::Nodes => take_node(alloc, list, index, entry),
    }
}

/// The entries of an image that are chosen, by rising name, in each file of this index. Names are
/// the index's: at one time one name at most takes memory of its own.
fn chosen<'a, R: Ledger>(
    alloc: Global,
    index: &Index<'a>,
    choice: Choice,
    reads: &mut Meter<R>,
) -> Result<List<TakenEntry<'a>>, NoMemory>
    requires { reads.old.bytes ≡ index.now.bytes }
    ensures taken { (b : List ℕ) → IsFileOf index.now.bytes index.now.length b
        → IfOk result (λ list. map (taken_as b) list ≡ named_of (is_chosen choice.entry) b) }
    ensures rises { (b : List ℕ) → IsFileOf index.now.bytes index.now.length b
        → IfOk result (λ list. RisesByName (map (taken_as b) list)) }
    ensures within { IfOk result (LieWithin index.now.length) }
    ensures reads { IsLater reads.old reads.new }
{
    let mut entries = list(index);
    let mut by_slot = List::new(alloc);
    while let Some(entry) = entries.step(reads) {
        take_entry(alloc, &mut by_slot, index, entry, choice)?;
    }
    let mut sorted = by_slot.into_vec();
    sorted.sort_unstable_by(|one, other| one.name.order(&other.name));
    Ok(List::from_vec(sorted))
}

/// The entries of an image whose names are no node's and, where patterns are given, are matched by
/// one of them, by rising name, in each file of this index. Names are the index's: at one time one
/// name at most takes memory of its own.
pub fn taken<'a, R: Ledger>(
    alloc: Global,
    index: &Index<'a>,
    include: &Option<List<Pattern>>,
    reads: &mut Meter<R>,
) -> Result<List<TakenEntry<'a>>, NoMemory>
    requires { reads.old.bytes ≡ index.now.bytes }
    ensures taken { (b : List ℕ) → IsFileOf index.now.bytes index.now.length b
        → IfOk result (λ list. map (taken_as b) list ≡ taken b include.now) }
    ensures rises { (b : List ℕ) → IsFileOf index.now.bytes index.now.length b
        → IfOk result (λ list. RisesByName (map (taken_as b) list)) }
    ensures within { IfOk result (LieWithin index.now.length) }
    ensures reads { IsLater reads.old reads.new }
{
    chosen(alloc, index, Choice::Resources(include), reads)
}

/// The entries of an image with the name of a node (`/modules`, `/packages` and what is below
/// them), by rising name, in each file of this index.
pub fn nodes<'a, R: Ledger>(
    alloc: Global,
    index: &Index<'a>,
    reads: &mut Meter<R>,
) -> Result<List<TakenEntry<'a>>, NoMemory>
    requires { reads.old.bytes ≡ index.now.bytes }
    ensures taken { (b : List ℕ) → IsFileOf index.now.bytes index.now.length b
        → IfOk result (λ list. map (taken_as b) list ≡ nodes b) }
    ensures within { IfOk result (LieWithin index.now.length) }
    ensures reads { IsLater reads.old reads.new }
{
    chosen(alloc, index, Choice::Nodes, reads)
}
