//! The reader of images as a static library, for programs in C: the check of some bytes, and what
//! can be asked of bytes that were found to be valid. `embedding/jm_image.h` declares it.
//!
//! Only the check takes memory. All other calls read the bytes and write nothing but their answer,
//! so calls on any number of threads share nothing that changes.
#![tactic(auto)]

ghost use Rattle.std.specs.Prelude.{◌≡◌, ◌≢◌, ◌+◌, ◌≤◌, length, slice_range, Some, IfSome};
ghost use Rattle.std.specs.Prelude.{option_map};
ghost use Rattle.jm_form.specs.Damages.{first_damage};
ghost use Rattle.jm_form.specs.Validity.{look, Valid};
ghost use Rattle.jm_reader.specs.Walk.{entries_of};
ghost use Rattle.jm_jrt.specs.Stat as trees;
ghost use Rattle.jm_image_c.specs.Told.{HasOnlyItsNumbers, content_told, damage_verdict};
ghost use Rattle.jm_image_c.specs.Told.{entry_told, owner_name, owner_told, put_front, slots_of};
ghost use Rattle.jm_image_c.specs.Told.{standing_told};

mod content;
mod entry;
mod numbers;
mod trees;
mod verdict;

use crate::content::find_content;
use crate::entry::entry_in_slot;
use crate::numbers::{Content, Entry, Owner, Standing, Totals, Verdict};
use crate::trees::{first_owner, standing};
use crate::verdict::{damage_verdict, verdict};
use jm_valid::{Image, OpenError, open_alone};
use std::alloc::Global;
use std::marker::Brand;
use std::sync::ledger::Blank;

/// Whether some bytes are an image: valid, the first damage by its kind and its numbers, or want of
/// memory, which says nothing of the bytes.
#[unsafe(no_mangle)]
pub extern "C" fn jm_image_check(alloc: Global, bytes: &[u8]) -> Verdict
    ensures valid { result.kind ≡ 0 → Valid bytes.now }
    ensures damaged { result.kind ≢ 0 → result.kind ≢ 12
        → option_map damage_verdict (first_damage bytes.now) ≡ Some result }
    ensures numbers { HasOnlyItsNumbers result }
{
    match open_alone(alloc, bytes) {
        Ok(_) => verdict(0, 0, 0),
        Err(OpenError::Damaged(damage)) => damage_verdict(damage),
        Err(OpenError::Memory) => verdict(12, 0, 0),
    }
}

/// Where the content of the entry of a name stands; nowhere exactly where no entry has the name.
/// It makes its counters itself, so what it costs is said by the clauses of `content_named`.
#[unsafe(no_mangle)]
pub extern "C" fn jm_image_find(bytes: &[u8], name: &[u8]) -> Content
    requires { Valid bytes.now }
    ensures found { result ≡ content_told bytes.now (look bytes.now name.now) }
    ensures content { IfSome (look bytes.now name.now) (λ found.
        slice_range bytes.now result.place (result.place + result.size) ≡ found.1) }
    ensures within { result.place + result.size ≤ length bytes.now }
{
    find_content::<Brand, Brand>(bytes, name, Blank::new(1), Blank::new(1))
}

/// What stands at a path of the two trees.
#[unsafe(no_mangle)]
pub extern "C" fn jm_image_stat(bytes: &[u8], path: &[u8]) -> Standing
    requires { Valid bytes.now }
    ensures { result ≡ standing_told (trees.stat bytes.now path.now) }
{
    standing::<Brand, Brand>(bytes, path, Blank::new(1), Blank::new(1))
}

/// The first owner, of the package at a path such as `/packages/java.lang`, for which it isn't
/// empty. As many bytes of its name as there is room for are put into `name`; all behind them, and
/// all of it where there is no such owner, stays.
#[unsafe(no_mangle)]
pub extern "C" fn jm_image_owner(bytes: &[u8], path: &[u8], name: &mut [u8]) -> Owner
    requires { Valid bytes.now }
    ensures owner { result ≡ owner_told (trees.owner bytes.now path.now) }
    ensures room { length name.new ≡ length name.old }
    ensures name { name.new ≡ put_front (owner_name (trees.owner bytes.now path.now)) name.old }
{
    first_owner::<Brand, Brand>(bytes, path, name, Blank::new(1), Blank::new(1))
}

/// How many entries and slots an image has.
#[unsafe(no_mangle)]
pub extern "C" fn jm_image_totals(bytes: &[u8]) -> Totals
    requires { Valid bytes.now }
    ensures entries { result.entries ≡ length (entries_of bytes.now) }
    ensures slots { result.slots ≡ slots_of bytes.now }
{
    let header = Image::of_valid(bytes).header();
    Totals {
        entries: header.count,
        slots: header.length,
    }
}

/// The entry that a slot holds; none where the slot is spare, or is none of the table's.
#[unsafe(no_mangle)]
pub extern "C" fn jm_image_entry(bytes: &[u8], slot: u32) -> Entry
    requires { Valid bytes.now }
    ensures entry { result ≡ entry_told bytes.now slot }
    ensures within { result.place + result.size ≤ length bytes.now }
{
    entry_in_slot::<Brand>(bytes, slot, Blank::new(1))
}
