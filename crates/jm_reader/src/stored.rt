//! The entries of an image that was checked as stored: their rows, and where their stored bytes
//! stand.
ghost use Rattle.std.specs.Prelude.{◌≡◌, ◌+◌, ◌≤◌, ℕ, List, [], ◌∷◌, map, take, drop};
ghost use Rattle.std.specs.Prelude.{IfSome, IfNone};
ghost use Rattle.jm_form.specs.Entries.{content_of};
ghost use Rattle.jm_form.specs.Head.{IsFileOf};
ghost use Rattle.jm_form.specs.Places.{contents};
ghost use Rattle.jm_form.specs.Rows.{as_stored};
ghost use Rattle.jm_reader.specs.Listing.{handed, listed};
ghost use Rattle.jm_reader.specs.Look.{head, SoundIn};
ghost use Rattle.jm_reader.specs.Walk.{entries_of, IsLater};

use crate::listing::{Listed, next_listed};
use jm_bytes::{Buf, Meter};
use jm_form::{Header, Row};
use jm_valid::StoredIndex;
use std::marker::Model;
use std::sync::ledger::Ledger;

/// The entries of an index that was checked as stored, which are still to come, by rising slot.
#[derive(Drop)]
pub struct StoredListing<'a> {
    buf: Buf<'a>,
    header: Header,
    length: u64,
    slot: u32,
}

impl<'a> Model for StoredListing<'a> {
    ghost use Rattle.jm_form.specs.declared.rows.Compression.TheVariants.{Allowed};
    ghost use Rattle.jm_reader.specs.Listing.{IsIndexBy, ToList, listed_from};

    ghost Value = { ToList };

    ghost view = { λ a. record {
      bytes = a.buf;
      length = a.length;
      rest = listed_from a.buf a.header a.slot;
    } };

    ghost invariant = { λ a. IsIndexBy Allowed a.buf a.length a.header };
}

/// What an index that was checked as stored says of the entries of its files, by rising slot: their
/// rows as they are spelled. Spare slots hold none.
pub fn list_stored<'a>(index: &StoredIndex<'a>) -> StoredListing<'a>
    ensures bytes { result.bytes ≡ index.now.bytes }
    ensures length { result.length ≡ index.now.length }
    ensures rest { (b : List ℕ) → IsFileOf index.now.bytes index.now.length b
        → result.rest ≡ map listed (entries_of b) }
{
    StoredListing {
        buf: index.buf(),
        header: index.header(),
        length: index.length(),
        slot: 0,
    }
}

impl<'a> StoredListing<'a> {
    /// The next entry; None exactly at the end, where it stays so. Its row as stored is sound in
    /// the files of the index.
    pub fn step<R: Ledger>(&mut self, reads: &mut Meter<R>) -> Option<Listed<'a>>
        requires { reads.old.bytes ≡ self.old.bytes }
        ensures bytes { self.new.bytes ≡ self.old.bytes }
        ensures length { self.new.length ≡ self.old.length }
        ensures entry { IfSome result (λ entry. self.old.rest ≡ handed entry ∷ self.new.rest) }
        ensures sound { IfSome result (λ entry. SoundIn
            (record { bytes = self.old.bytes; length = self.old.length }) (as_stored entry.row)) }
        ensures end { IfNone result (self.old.rest ≡ []) }
        ensures stays { IfNone result (self.new.rest ≡ []) }
        ensures reads { IsLater reads.old reads.new }
    {
        let entry = next_listed(&self.buf, &self.header, self.slot, reads)?;
        self.slot = entry.slot + 1;
        Some(entry)
    }
}

/// Where in the file the stored bytes of an entry with this row begin, in bytes. No byte is read:
/// the index says it.
pub fn place_of_stored(index: &StoredIndex, row: &Row) -> u64
    requires { SoundIn index.now (as_stored row.now) }
    ensures content { (b : List ℕ) → IsFileOf index.now.bytes index.now.length b
        → take (as_stored row.now).size (drop result b)
        ≡ content_of (contents b (head b)) (as_stored row.now) }
    ensures within { (b : List ℕ) → IsFileOf index.now.bytes index.now.length b
        → result + (as_stored row.now).size ≤ index.now.length }
{
    let _length = index.length();
    index.header().contents_place() as u64 + row.offset
}
