ghost use Rattle.std.specs.Prelude.{◌≡◌, ◌<◌, ◌≤◌, ◌+◌, length};
ghost use Rattle.jm_form.specs.Validity.{SoundRow, Valid};
ghost use Rattle.jm_reader.specs.Look.{head};
ghost use Rattle.jm_image_c.specs.Told.{entry_told, row_entry};

use crate::numbers::Entry;
use jm_bytes::Meter;
use jm_form::Row;
use jm_reader::{held, place_of};
use jm_valid::Image;
use std::sync::ledger::{Blank, Ledger};

const NO_ENTRY: Entry = Entry {
    module: 0,
    parent: 0,
    base: 0,
    ext: 0,
    place: 0,
    size: 0,
    found: false,
};

/// Where the texts and the content of an entry with this row stand.
fn entry_places(image: &Image, row: &Row) -> Entry
    requires { SoundRow image.now (head image.now) row.now }
    ensures entry { result ≡ row_entry (head image.now) row.now }
    ensures within { result.place + result.size ≤ length image.now }
{
    let _size = image.buf().len();
    Entry {
        module: place_of(image, row.module) as u64,
        parent: place_of(image, row.parent) as u64,
        base: place_of(image, row.base) as u64,
        ext: place_of(image, row.ext) as u64,
        place: image.header().contents_place() as u64 + row.offset,
        size: row.size,
        found: true,
    }
}

/// The entry that a slot of an image holds, with a counter of its own.
pub fn entry_in_slot<R: Ledger>(bytes: &[u8], slot: u32, reads: Blank) -> Entry
    requires valid { Valid bytes.now }
    requires reads_name { reads.name ≡ R.name }
    requires reads_parts { reads.parts ≡ R.parts }
    requires reads_some { 0 < reads.parts }
    ensures entry { result ≡ entry_told bytes.now slot }
    ensures within { result.place + result.size ≤ length bytes.now }
{
    let image = Image::of_valid(bytes);
    let mut reads = Meter::<R>::new(bytes, reads);
    if slot >= image.header().length {
        return NO_ENTRY;
    }
    match held(&image, slot, &mut reads) {
        Some((row, _)) => entry_places(&image, &row),
        None => NO_ENTRY,
    }
}
