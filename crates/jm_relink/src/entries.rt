//! The modules of an image, as its index says them.
ghost use Rattle.std.specs.Prelude.{◌≡◌, ℕ, List, All, AllPairs, IfOk, IsFalse, IsPermutation};
ghost use Rattle.jm_bytes.specs.ByteOrder.{is_before};
ghost use Rattle.jm_form.specs.declared.container.Header.{Header};
ghost use Rattle.jm_form.specs.Head.{IsFileOf};
ghost use Rattle.jm_reader.specs.Listing.{IsIndex};
ghost use Rattle.jm_reader.specs.Walk.{IsLater};
ghost use Rattle.jm_relink.specs.Entries.{AreEntriesOf, EntriesWithin};

use crate::groups::described_modules;
use crate::modules::ImageFile;
use jm_bytes::{List, Meter, NoMemory, Text};
use jm_filed::{Extent, taken};
use jm_valid::Index;
use std::alloc::Global;
use std::sync::ledger::Ledger;

/// A module whose `module-info.class` stands in an image.
#[derive(Debug, Drop)]
pub struct ModuleEntries<'a> {
    /// The module's name.
    pub module: Text,
    /// Where the content of its `module-info.class` stands in the file.
    pub info: Extent,
    /// Its files, rising by path.
    pub files: List<ImageFile<'a>>,
}

/// The modules in byte order of their names, which isn't that of their entries: `/a-b/c` stands
/// before `/a/c`.
fn sorted<'a>(modules: List<ModuleEntries<'a>>) -> List<ModuleEntries<'a>>
    ensures moved { IsPermutation modules.entry result }
    ensures sorted { AllPairs (λ m k. IsFalse (is_before k.module m.module)) result }
{
    let mut sorted = modules.into_vec();
    sorted.sort_unstable_by(|one, other| one.module.as_slice().cmp(other.module.as_slice()));
    List::from_vec(sorted)
}

/// The modules of an image, by its index: those whose `module-info.class` stands in it, rising by
/// name, and where the content of each file stands. No content is read. An entry of no such module
/// is left out, and so are the nodes. Time n log n in the entries.
pub fn module_entries<'a, R: Ledger>(
    alloc: Global,
    index: &Index<'a>,
    reads: &mut Meter<R>,
) -> Result<List<ModuleEntries<'a>>, NoMemory>
    requires { reads.old.bytes ≡ index.now.bytes }
    ensures images { (h : Header) × IsIndex index.now.bytes index.now.length h }
    ensures entries { (b : List ℕ) → IsFileOf index.now.bytes index.now.length b
        → IfOk result (AreEntriesOf b) }
    ensures within { IfOk result (All (EntriesWithin index.now.length)) }
    ensures reads { IsLater reads.old reads.new }
{
    let _header = index.header();
    let entries = taken(alloc, index, &None, reads)?;
    Ok(sorted(described_modules(alloc, entries)?))
}
