ghost use Rattle.std.specs.Prelude.{◌≡◌, ◌<◌, ◌+◌, ◌-◌, ◌^◌, ℕ, List, [], ◌∷◌, map, Ok, Some};
ghost use Rattle.std.specs.Prelude.{IfSome, IfNone};
ghost use Rattle.jm_form.specs.Entries.{row_at};
ghost use Rattle.jm_form.specs.Head.{header_of, IsFileOf};
ghost use Rattle.jm_reader.specs.Listing.{handed, listed, listed_from};
ghost use Rattle.jm_reader.specs.Look.{SoundIn, TextsEnd};
ghost use Rattle.jm_reader.specs.Walk.{entries_of, IsLater};

use crate::entries::held_by;
use crate::name_view::NameView;
use jm_bytes::{Buf, Meter};
use jm_form::{Header, Row};
use jm_valid::Index;
use std::marker::Model;
use std::sync::ledger::Ledger;

/// What an index says of an entry, which borrows its name from the index.
#[derive(Debug, Drop)]
pub struct Listed<'a> {
    /// The number of its slot.
    pub slot: u32,
    /// Its name.
    pub name: NameView<'a>,
    /// Its location row, which says where its content lies and how many bytes it has.
    pub row: Row,
}

/// The entries of an index that are still to come, by rising slot.
#[derive(Drop)]
pub struct Listing<'a> {
    buf: Buf<'a>,
    header: Header,
    length: u64,
    slot: u32,
}

impl<'a> Model for Listing<'a> {
    ghost use Rattle.jm_reader.specs.Listing.{IsIndex, ToList, listed_from};

    ghost Value = { ToList };

    ghost view = { λ a. record {
      bytes = a.buf;
      length = a.length;
      rest = listed_from a.buf a.header a.slot;
    } };

    ghost invariant = { λ a. IsIndex a.buf a.length a.header };
}

/// What bytes that hold an image's index say of the entry of the least slot that holds one, of the
/// slots from `start` on.
pub fn next_listed<'a, R: Ledger>(
    buf: &Buf<'a>,
    header: &Header,
    start: u32,
    reads: &mut Meter<R>,
) -> Option<Listed<'a>>
    requires read { header_of buf.now ≡ Ok header.now }
    requires ends { TextsEnd buf.now header.now }
    requires metered { reads.old.bytes ≡ buf.now }
    ensures entry { IfSome result (λ entry. listed_from buf.now header.now start
        ≡ handed entry ∷ listed_from buf.now header.now (entry.slot + 1)) }
    ensures row { IfSome result (λ entry.
        row_at buf.now header.now entry.slot ≡ Some entry.row) }
    ensures below { IfSome result (λ entry. entry.slot < header.now.length) }
    ensures slot { IfSome result (λ entry. entry.slot < 2 ^ 32 - 1) }
    ensures end { IfNone result (listed_from buf.now header.now start ≡ []) }
    ensures reads { IsLater reads.old reads.new }
{
    for slot in start..header.length {
        if let Some((row, name)) = held_by(buf, header, slot, reads) {
            return Some(Listed { slot, name, row });
        }
    }
    None
}

/// What an index says of the entries of its files, by rising slot. Spare slots hold none.
pub fn list<'a>(index: &Index<'a>) -> Listing<'a>
    ensures bytes { result.bytes ≡ index.now.bytes }
    ensures length { result.length ≡ index.now.length }
    ensures rest { (b : List ℕ) → IsFileOf index.now.bytes index.now.length b
        → result.rest ≡ map listed (entries_of b) }
{
    Listing {
        buf: index.buf(),
        header: index.header(),
        length: index.length(),
        slot: 0,
    }
}

impl<'a> Listing<'a> {
    /// The next entry; None exactly at the end, where it stays so. Its row is sound in the files of
    /// the index.
    pub fn step<R: Ledger>(&mut self, reads: &mut Meter<R>) -> Option<Listed<'a>>
        requires { reads.old.bytes ≡ self.old.bytes }
        ensures bytes { self.new.bytes ≡ self.old.bytes }
        ensures length { self.new.length ≡ self.old.length }
        ensures entry { IfSome result (λ entry. self.old.rest ≡ handed entry ∷ self.new.rest) }
        ensures sound { IfSome result (λ entry. SoundIn
            (record { bytes = self.old.bytes; length = self.old.length }) entry.row) }
        ensures end { IfNone result (self.old.rest ≡ []) }
        ensures stays { IfNone result (self.new.rest ≡ []) }
        ensures reads { IsLater reads.old reads.new }
    {
        let entry = next_listed(&self.buf, &self.header, self.slot, reads)?;
        self.slot = entry.slot + 1;
        Some(entry)
    }
}
