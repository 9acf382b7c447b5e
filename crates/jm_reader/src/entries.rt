ghost use Rattle.std.specs.Prelude.{◌≡◌, ◌<◌, [], ◌∷◌, IfSome, IfNone, Some, Ok};
ghost use Rattle.jm_form.specs.Entries.{entry_of, name_of, row_at};
ghost use Rattle.jm_form.specs.Head.{header_of};
ghost use Rattle.jm_form.specs.Places.{strings};
ghost use Rattle.jm_form.specs.Validity.{SoundRow};
ghost use Rattle.jm_reader.specs.Look.{head, TextsEnd};
ghost use Rattle.jm_reader.specs.Walk.{entries_in, entries_of, entry_alone, IsFirst, IsLater};

use crate::contents::content;
use crate::listing::{Listed, Listing, list};
use crate::name_view::NameView;
use jm_bytes::{Buf, Meter};
use jm_form::{Header, Row, is_led_to, pieces_of, row_of_slot};
use jm_valid::Image;
use std::marker::Model;
use std::sync::ledger::Ledger;

/// An entry of an image, which borrows its name and its content from the image.
#[derive(Debug, Drop)]
pub struct Entry<'a> {
    /// The number of its slot.
    pub slot: u32,
    /// Its name.
    pub name: NameView<'a>,
    /// Its content.
    pub bytes: &'a [u8],
}

/// The entries of an image that are still to come, by rising slot.
#[derive(Drop)]
pub struct Entries<'a> {
    image: Image<'a>,
    listing: Listing<'a>,
}

impl<'a> Model for Entries<'a> {
    ghost use Rattle.std.specs.Prelude.{◌≡◌, length, map};
    ghost use Rattle.jm_reader.specs.Listing.{entry_listed};
    ghost use Rattle.jm_reader.specs.Walk.{Walked};

    ghost Value = { Walked };

    ghost view = { λ a. record {
      bytes = a.image;
      rest = map (entry_listed a.image) a.listing.rest;
    } };

    ghost invariant = { λ a. (a.listing.bytes ≡ a.image) × (a.listing.length ≡ length a.image) };
}

/// The row and the name of the entry that a slot holds, by bytes that hold an image's index, or
/// None where the slot is spare.
pub(crate) fn held_by<'a, R: Ledger>(
    buf: &Buf<'a>,
    header: &Header,
    slot: u32,
    reads: &mut Meter<R>,
) -> Option<(Row, NameView<'a>)>
    requires read { header_of buf.now ≡ Ok header.now }
    requires ends { TextsEnd buf.now header.now }
    requires below { slot < header.now.length }
    requires metered { reads.old.bytes ≡ buf.now }
    ensures entry { IfSome result (λ held. entries_in buf.now header.now (slot ∷ [])
        ≡ entry_of buf.now header.now slot held.0 ∷ []) }
    ensures name { IfSome result (λ held.
        held.1 ≡ name_of (strings buf.now header.now) held.0) }
    ensures row { IfSome result (λ held. row_at buf.now header.now slot ≡ Some held.0) }
    ensures spare { IfNone result (entries_in buf.now header.now (slot ∷ []) ≡ []) }
    ensures reads { IsLater reads.old reads.new }
{
    let row = row_of_slot(buf, header, slot, reads).row()?;
    let pieces = pieces_of(buf, header, &row, reads)?;
    if is_led_to(buf, header, slot, &pieces, reads) {
        Some((row, NameView::of(&pieces)))
    } else {
        None
    }
}

/// The row and the name of the entry that a slot holds, or None where the slot is spare.
pub fn held<'a, R: Ledger>(
    image: &Image<'a>,
    slot: u32,
    reads: &mut Meter<R>,
) -> Option<(Row, NameView<'a>)>
    requires below { slot < (head image.now).length }
    requires metered { reads.old.bytes ≡ image.now }
    ensures entry { IfSome result (λ held. entry_alone image.now slot
        ≡ entry_of image.now (head image.now) slot held.0 ∷ []) }
    ensures name { IfSome result (λ held.
        held.1 ≡ name_of (strings image.now (head image.now)) held.0) }
    ensures sound { IfSome result (λ held. SoundRow image.now (head image.now) held.0) }
    ensures spare { IfNone result (entry_alone image.now slot ≡ []) }
    ensures reads { IsLater reads.old reads.new }
{
    held_by(&image.buf(), &image.header(), slot, reads)
}

/// The entries of an image, by rising slot. Spare slots hold none.
pub fn walk<'a>(image: &Image<'a>) -> Entries<'a>
    ensures bytes { result.bytes ≡ image.now }
    ensures rest { result.rest ≡ entries_of image.now }
{
    Entries {
        image: image.again(),
        listing: list(&image.index()),
    }
}

impl<'a> Entries<'a> {
    /// The next entry; None exactly at the end, where it stays so.
    pub fn step<R: Ledger>(&mut self, reads: &mut Meter<R>) -> Option<Entry<'a>>
        requires { reads.old.bytes ≡ self.old.bytes }
        ensures bytes { self.new.bytes ≡ self.old.bytes }
        ensures entry { IfSome result (λ entry. IsFirst self.old.rest entry self.new.rest) }
        ensures end { IfNone result (self.old.rest ≡ []) }
        ensures stays { IfNone result (self.new.rest ≡ []) }
        ensures reads { IsLater reads.old reads.new }
    {
        let Listed { slot, name, row } = self.listing.step(reads)?;
        let bytes = content(&self.image, &row, reads);
        Some(Entry { slot, name, bytes })
    }
}
