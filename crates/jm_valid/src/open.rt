ghost use Rattle.std.specs.Prelude.{◌≡◌, ◌<◌, ℕ, List, length, None, IfOk, IfErr, OnOk};
ghost use Rattle.jm_form.specs.Damages.{damage_by};
ghost use Rattle.jm_form.specs.Head.{HoldsIndex, IsFileOf};
ghost use Rattle.jm_form.specs.Validity.{Stored, Valid};
ghost use Rattle.jm_halves.specs.First.{IsFirstIn};
ghost use Rattle.jm_valid.specs.Opened.{IsDamageOf, IsIndexOf, IsStoredDamageOf, Reports};
ghost use Rattle.jm_valid.specs.Ranges.{ranges_with_bytes};
ghost use Rattle.jm_valid.specs.Sections.{AreSectionsOf, body_damage_in, entries_in};
ghost use Rattle.jm_valid.specs.Sections.{ranges_in, slot_fault_in, IsSound};

use crate::entries::{Contents, contents_alone, contents_of};
use crate::image::Image;
use crate::index::Index;
use crate::open_error::OpenError;
use crate::overlap::first_overlap;
use crate::sections::{Sections, ended_texts};
use crate::slots::slot_fault;
use crate::stored::StoredIndex;
use jm_form::{Compression, Damage, Header, read_header_of};
use jm_halves::{Gate, Workers, first_between};
use std::alloc::Global;
use std::thread::Threads;

/// The sections of the files of this length that begin with these bytes, or the fault of their
/// header.
fn sections_of<'a>(
    front: &'a [u8],
    length: u64,
    compression: Compression,
) -> Result<Sections<'a>, OpenError>
    requires { HoldsIndex front.now length }
    ensures sections { IfOk result (AreSectionsOf front.now length) }
    ensures compression { IfOk result (λ s. s.compression ≡ compression) }
    ensures damaged { (b : List ℕ) → IsFileOf front.now length b
        → IfErr result (Reports (damage_by compression b)) }
{
    match read_header_of(front, length) {
        Ok(header) => {
            let (_, behind) = front.split_at(header.strings_place());
            let (strings, _) = behind.split_at(header.strings as usize);
            Ok(Sections {
                bytes: front,
                header,
                compression,
                texts: ended_texts(strings),
                size: length - header.contents_place() as u64,
            })
        }
        Err(fault) => Err(OpenError::Damaged(Damage::Header(fault))),
    }
}

/// Refuses an image by the fault of the least slot that has one, if there is one.
fn check_slots(sections: &Sections, fault: Option<(usize, Damage)>) -> Result<(), OpenError>
    requires { IsFirstIn (λ slot r. r ≡ slot_fault_in sections.now slot)
        0 sections.now.header.length fault }
    ensures sound { OnOk result (IsSound sections.now) }
    ensures damaged { IfErr result (Reports (body_damage_in sections.now)) }
{
    match fault {
        Some((_, damage)) => Err(OpenError::Damaged(damage)),
        None => Ok(()),
    }
}

/// Refuses these entries of an image none of whose slots has a fault, if their number is wrong or
/// two contents have a byte in common.
fn check_entries(sections: &Sections, mut contents: Contents) -> Result<(), OpenError>
    requires slots { IsSound sections.now }
    requires count { contents.count ≡ length (entries_in sections.now) }
    requires ranges { contents.ranges.items ≡ ranges_with_bytes (ranges_in sections.now) }
    ensures sound { OnOk result (body_damage_in sections.now ≡ None) }
    ensures damaged { IfErr result (Reports (body_damage_in sections.now)) }
{
    let stated = sections.header.count;
    let found = contents.count;
    if stated != found {
        return Err(OpenError::Damaged(Damage::Count { stated, found }));
    }
    match first_overlap(contents.ranges.as_mut_slice()) {
        Some(damage) => Err(OpenError::Damaged(damage)),
        None => Ok(()),
    }
}

/// Refuses an image with a damage behind the header: the fault of the least slot that has one, else
/// that of the entries.
fn check_body<R: Threads + Sync, G: Gate + Sync>(
    workers: &Workers<R, G>,
    sections: &Sections,
) -> Result<(), OpenError>
    ensures sound { OnOk result (body_damage_in sections.now ≡ None) }
    ensures damaged { IfErr result (Reports (body_damage_in sections.now)) }
{
    let slots = sections.header.length as usize;
    let fault = workers.first_some(slots, &|slot| slot_fault(sections, slot));
    check_slots(sections, fault)?;
    check_entries(sections, contents_of(workers, sections)?)
}

/// The same, looked for one slot after another, on the caller's thread.
fn check_body_alone(alloc: Global, sections: &Sections) -> Result<(), OpenError>
    ensures sound { OnOk result (body_damage_in sections.now ≡ None) }
    ensures damaged { IfErr result (Reports (body_damage_in sections.now)) }
{
    let slots = sections.header.length as usize;
    let fault = first_between(0, slots, &|slot| slot_fault(sections, slot));
    check_slots(sections, fault)?;
    check_entries(sections, contents_alone(alloc, sections)?)
}

/// The header of the files of this length that begin with these bytes, which have these sections,
/// or what was found after it.
fn checked_header(
    front: &[u8],
    length: u64,
    sections: &Sections,
    checked: Result<(), OpenError>,
) -> Result<Header, OpenError>
    requires holds { HoldsIndex front.now length }
    requires sections { AreSectionsOf front.now length sections.now }
    requires sound { OnOk checked (body_damage_in sections.now ≡ None) }
    requires damaged { IfErr checked (Reports (body_damage_in sections.now)) }
    ensures index { IfOk result (IsIndexOf sections.now.compression front.now length) }
    ensures damaged { (b : List ℕ) → IsFileOf front.now length b
        → IfErr result (Reports (damage_by sections.now.compression b)) }
{
    match checked {
        Ok(()) => Ok(sections.header),
        Err(error) => Err(error),
    }
}

/// The header of the files of this length that begin with these bytes, if nothing is wrong with
/// them, or their first damage.
fn check_index<R: Threads + Sync, G: Gate + Sync>(
    workers: &Workers<R, G>,
    front: &[u8],
    length: u64,
    compression: Compression,
) -> Result<Header, OpenError>
    requires { HoldsIndex front.now length }
    ensures index { IfOk result (IsIndexOf compression front.now length) }
    ensures damaged { (b : List ℕ) → IsFileOf front.now length b
        → IfErr result (Reports (damage_by compression b)) }
{
    let sections = sections_of(front, length, compression)?;
    checked_header(front, length, &sections, check_body(workers, &sections))
}

impl<'a> Index<'a> {
    /// The index of the image that a file of this length is, of which these are the first bytes, or
    /// the file's first damage: what `Image::open` answers for the whole file.
    ///
    /// The bytes hold the file's index, if it has a header; what stands behind that changes
    /// nothing.
    pub fn open<R: Threads + Sync, G: Gate + Sync>(
        workers: &Workers<R, G>,
        front: &'a [u8],
        length: u64,
    ) -> Result<Index<'a>, OpenError>
        requires { HoldsIndex front.now length }
        ensures same { IfOk result
            (λ index. index ≡ record { bytes = front.now; length = length }) }
        ensures valid { (b : List ℕ) → IsFileOf front.now length b → OnOk result (Valid b) }
        ensures damaged { (b : List ℕ) → IsFileOf front.now length b
            → IfErr result (IsDamageOf b) }
    {
        let header = check_index(workers, front, length, Compression::Refused)?;
        Ok(Index::checked(front, header, length))
    }
}

impl<'a> StoredIndex<'a> {
    /// The same of an image whose contents may be compressed: its index, or its first damage, where
    /// each row is read as stored.
    pub fn open<R: Threads + Sync, G: Gate + Sync>(
        workers: &Workers<R, G>,
        front: &'a [u8],
        length: u64,
    ) -> Result<StoredIndex<'a>, OpenError>
        requires { HoldsIndex front.now length }
        ensures same { IfOk result
            (λ index. index ≡ record { bytes = front.now; length = length }) }
        ensures sound { (b : List ℕ) → IsFileOf front.now length b → OnOk result (Stored b) }
        ensures damaged { (b : List ℕ) → IsFileOf front.now length b
            → IfErr result (IsStoredDamageOf b) }
    {
        let header = check_index(workers, front, length, Compression::Allowed)?;
        Ok(StoredIndex::checked(front, header, length))
    }
}

impl<'a> Image<'a> {
    /// The image that these bytes are, or their first damage (jimage 1.0, uncompressed).
    ///
    /// The slots are checked, and their entries' names looked up, in pieces that the jobs share; no
    /// number of jobs changes the answer.
    /// Memory is taken for the entries' places, and `Memory` is answered where none is found.
    pub fn open<R: Threads + Sync, G: Gate + Sync>(
        workers: &Workers<R, G>,
        bytes: &'a [u8],
    ) -> Result<Image<'a>, OpenError>
        ensures same { IfOk result (λ image. image ≡ bytes.now) }
        ensures valid { OnOk result (Valid bytes.now) }
        ensures damaged { IfErr result (IsDamageOf bytes.now) }
    {
        let index = Index::open(workers, bytes, bytes.len() as u64)?;
        Ok(Image::whole(index))
    }
}

/// The image that these bytes are, or their first damage (jimage 1.0, uncompressed), found on the
/// caller's thread: the answer of `Image::open`, with no workers.
///
/// Memory is taken for the entries' places, and `Memory` is answered where none is found.
pub fn open_alone<'a>(alloc: Global, bytes: &'a [u8]) -> Result<Image<'a>, OpenError>
    ensures same { IfOk result (λ image. image ≡ bytes.now) }
    ensures valid { OnOk result (Valid bytes.now) }
    ensures damaged { IfErr result (IsDamageOf bytes.now) }
{
    let length = bytes.len() as u64;
    let sections = sections_of(bytes, length, Compression::Refused)?;
    let checked = check_body_alone(alloc, &sections);
    let header = checked_header(bytes, length, &sections, checked)?;
    Ok(Image::whole(Index::checked(bytes, header, length)))
}

/// What `Image::open` answers by that many jobs of a runtime.
pub fn open_image<'a, R: Threads + Sync, G: Gate + Sync>(
    rt: &R,
    alloc: Global,
    jobs: u32,
    bytes: &'a [u8],
    gate: &G,
) -> Result<Image<'a>, OpenError>
    requires { 0 < jobs }
    ensures same { IfOk result (λ image. image ≡ bytes.now) }
    ensures valid { OnOk result (Valid bytes.now) }
    ensures damaged { IfErr result (IsDamageOf bytes.now) }
{
    let workers = Workers {
        rt,
        alloc,
        jobs,
        gate,
    };
    Image::open(&workers, bytes)
}

/// What `Index::open` answers by that many jobs of a runtime.
pub fn open_index<'a, R: Threads + Sync, G: Gate + Sync>(
    rt: &R,
    alloc: Global,
    jobs: u32,
    front: &'a [u8],
    length: u64,
    gate: &G,
) -> Result<Index<'a>, OpenError>
    requires jobs { 0 < jobs }
    requires holds { HoldsIndex front.now length }
    ensures same { IfOk result (λ index. index ≡ record { bytes = front.now; length = length }) }
    ensures valid { (b : List ℕ) → IsFileOf front.now length b → OnOk result (Valid b) }
    ensures damaged { (b : List ℕ) → IsFileOf front.now length b → IfErr result (IsDamageOf b) }
{
    let workers = Workers {
        rt,
        alloc,
        jobs,
        gate,
    };
    Index::open(&workers, front, length)
}
