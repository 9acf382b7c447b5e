ghost use Rattle.std.specs.Prelude.{◌≡◌, ◌+◌, ◌^◌, ◌<◌, ◌++◌, ◌∷◌, [], length, flat_map};
ghost use Rattle.std.specs.Prelude.{IfOk, OnOk, IsOkAnd};
ghost use Rattle.std.specs.List.{range_with_len};
ghost use Rattle.jm_valid.specs.Parts.{part_slots, slots_from, ContentsAt, Joins};
ghost use Rattle.jm_valid.specs.Ranges.{ranges_with_bytes};
ghost use Rattle.jm_valid.specs.Sections.{entries_in, ranges_in, IsSound};

use crate::row_names::Names;
use crate::sections::Sections;
use crate::slots::entry_row;
use jm_bytes::{List, NoMemory};
use jm_form::Range;
use jm_halves::{Gate, Workers};
use std::alloc::Global;
use std::marker::Brand;
use std::sync::ledger::Blank;
use std::thread::Threads;

/// How many slots are looked through at one time, in parts that the jobs share.
const PART: u32 = 4096;

/// The entries of some slots: how many there are, and where their contents lie.
#[derive(Drop)]
pub struct Contents {
    /// How many entries there are.
    pub count: u32,
    /// The ranges of the contents that have a byte, by rising slot.
    pub ranges: Vec<Range>,
}

/// Counts an entry more, and lists the range of its content if that has a byte.
fn add_entry(contents: &mut Contents, range: Range) -> Result<(), NoMemory>
    requires room { contents.old.count + 1 < 2 ^ 32 }
    ensures count { OnOk result (contents.new.count ≡ contents.old.count + 1) }
    ensures ranges { OnOk result (contents.new.ranges.items
        ≡ contents.old.ranges.items ++ ranges_with_bytes (range ∷ [])) }
{
    if range.start < range.end {
        contents.ranges.push(range)?;
    }
    contents.count += 1;
    Ok(())
}

/// The entries of the slots from `first` on, of at most so many.
fn contents_of_slots(
    alloc: Global,
    names: &Names,
    first: u32,
    most: u32,
) -> Result<Contents, NoMemory>
    requires { IsSound names.now.sections }
    ensures { IfOk result (ContentsAt names.now.sections
        (slots_from names.now.sections.header.length most first)) }
{
    let mut contents = Contents {
        count: 0,
        ranges: Vec::new(alloc),
    };
    let end = first.saturating_add(most).min(names.sections.header.length);
    for slot in first..end.max(first) {
        if let Some(row) = entry_row::<Brand>(names, slot, Blank::new(1)) {
            let stored = names.sections.compression.judged(&row);
            let range = Range {
                start: stored.offset,
                slot,
                end: stored.offset + stored.size,
            };
            add_entry(&mut contents, range)?;
        }
    }
    Ok(contents)
}

/// The first slots of the parts of a table of this length.
fn parts_of(alloc: Global, length: u32) -> Result<List<u32>, NoMemory>
    ensures { IfOk result
        (λ firsts. flat_map (part_slots length) firsts ≡ range_with_len 0 length) }
{
    let mut firsts = List::new(alloc);
    let mut first = 0u32;
    while first < length {
        firsts.push(first)?;
        first = first.saturating_add(PART);
    }
    Ok(firsts)
}

/// Puts the entries of a part behind those of the parts before it.
fn add_part(all: &mut Contents, part: &Result<Contents, NoMemory>) -> Result<(), NoMemory>
    requires { IfOk part.now (λ p. all.old.count + p.count < 2 ^ 32) }
    ensures { OnOk result (IsOkAnd part.now (Joins all.old all.new)) }
{
    let Ok(part) = part else {
        return Err(NoMemory);
    };
    all.ranges.extend_from_slice(part.ranges.as_slice())?;
    all.count += part.count;
    Ok(())
}

/// The entries of an image none of whose slots has a fault, looked for in parts that the jobs
/// share.
pub fn contents_of<R: Threads + Sync, G: Gate + Sync>(
    workers: &Workers<R, G>,
    sections: &Sections,
) -> Result<Contents, NoMemory>
    requires { IsSound sections.now }
    ensures count { IfOk result (λ c. c.count ≡ length (entries_in sections.now)) }
    ensures ranges { IfOk result
        (λ c. c.ranges.items ≡ ranges_with_bytes (ranges_in sections.now)) }
{
    let alloc = workers.alloc;
    let names = Names::of(alloc, sections)?;
    let firsts = parts_of(alloc, sections.header.length)?;
    let look = |first: &u32| contents_of_slots(alloc, &names, *first, PART);
    let parts = workers.map(firsts.as_slice(), &look)?;
    let mut all = Contents {
        count: 0,
        ranges: Vec::new(alloc),
    };
    for part in parts.as_slice() {
        add_part(&mut all, part)?;
    }
    Ok(all)
}

/// The same, looked for one slot after another.
pub fn contents_alone(alloc: Global, sections: &Sections) -> Result<Contents, NoMemory>
    requires { IsSound sections.now }
    ensures count { IfOk result (λ c. c.count ≡ length (entries_in sections.now)) }
    ensures ranges { IfOk result
        (λ c. c.ranges.items ≡ ranges_with_bytes (ranges_in sections.now)) }
{
    let names = Names::of(alloc, sections)?;
    contents_of_slots(alloc, &names, 0, sections.header.length)
}
