ghost use Rattle.std.specs.Prelude.{◌≡◌, ◌+◌, ◌<◌, ◌≤◌, ℕ, List, length, take, drop};
ghost use Rattle.jm_bytes.specs.Metered.{Costs};
ghost use Rattle.jm_form.specs.Entries.{content_of};
ghost use Rattle.jm_form.specs.Head.{IsFileOf};
ghost use Rattle.jm_form.specs.Places.{contents};
ghost use Rattle.jm_form.specs.Validity.{SoundRow};
ghost use Rattle.jm_reader.specs.Look.{head, SoundIn};

use jm_bytes::Meter;
use jm_form::{Header, Row};
use jm_valid::{Image, Index};
use std::sync::ledger::Ledger;

/// The content of an entry with this row. It costs its bytes.
pub fn content<'a, R: Ledger>(image: &Image<'a>, row: &Row, reads: &mut Meter<R>) -> &'a [u8]
    requires sound { SoundRow image.now (head image.now) row.now }
    requires metered { reads.old.bytes ≡ image.now }
    ensures content { result.now ≡ content_of (contents image.now (head image.now)) row.now }
    ensures reads { Costs reads.old reads.new (length result.now) }
{
    let place = place_of_content(&image.index(), row) as usize;
    image.buf().part(place, row.size as usize, reads)
}

/// Where in the file the content of an entry with this row begins, in bytes. No byte is read: the
/// index says it.
pub fn place_of_content(index: &Index, row: &Row) -> u64
    requires { SoundIn index.now row.now }
    ensures content { (b : List ℕ) → IsFileOf index.now.bytes index.now.length b
        → take row.now.size (drop result b) ≡ content_of (contents b (head b)) row.now }
    ensures within { (b : List ℕ) → IsFileOf index.now.bytes index.now.length b
        → result + row.now.size ≤ index.now.length }
{
    let _length = index.length();
    index.header().contents_place() as u64 + row.offset
}
