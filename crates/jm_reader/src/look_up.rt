ghost use Rattle.std.specs.Prelude.{◌≡◌, ◌+◌, true, ℕ, All, List, length, option_map, Ok};
ghost use Rattle.std.specs.Prelude.{IfSome, Some};
ghost use Rattle.jm_bytes.specs.Metered.{CostsAtMost, RisesAtMost};
ghost use Rattle.jm_form.specs.Entries.{content_of, name_of, texts_end};
ghost use Rattle.jm_form.specs.Head.{header_of, IsFileOf};
ghost use Rattle.jm_form.specs.Places.{contents, strings};
ghost use Rattle.jm_form.specs.Texts.{EndsWithin};
ghost use Rattle.jm_form.specs.Validity.{look, SoundRow};
ghost use Rattle.jm_reader.specs.Look.{answer_length, found_as, head, row_of_name, SoundIn};
ghost use Rattle.jm_reader.specs.Look.{TextsEnd};
ghost use Rattle.jm_reader.specs.Marks.{spelling};

use crate::contents::content;
use crate::marks::{MarkedText, spells};
use crate::table::probe;
use crate::texts::text_place;
use jm_bytes::{Buf, Meter, Steps};
use jm_form::{Header, Row, row_of_slot};
use jm_valid::{Image, Index};
use std::sync::ledger::Ledger;

/// The entry that a look-up found.
#[derive(Clone, Copy, Debug)]
pub struct Found<'a> {
    /// Its location row.
    pub row: Row,
    /// Its content.
    pub bytes: &'a [u8],
}

/// The four texts of a row's name, with their marks: `/module/parent/base.extension`.
fn texts_of(buf: &Buf, header: &Header, row: &Row) -> [MarkedText; 4]
    requires read { header_of buf.now ≡ Ok header.now }
    requires ends { texts_end (strings buf.now header.now) row.now ≡ true }
    ensures ends { All (λ text. EndsWithin buf.now text.place) result }
    ensures name { spelling buf.now result ≡ name_of (strings buf.now header.now) row.now }
{
    [
        MarkedText {
            place: text_place(buf, header, row.module),
            before: Some(b'/'),
            after: Some(b'/'),
        },
        MarkedText {
            place: text_place(buf, header, row.parent),
            before: None,
            after: Some(b'/'),
        },
        MarkedText {
            place: text_place(buf, header, row.base),
            before: None,
            after: None,
        },
        MarkedText {
            place: text_place(buf, header, row.ext),
            before: Some(b'.'),
            after: None,
        },
    ]
}

/// The row of the slot to which the table leads a name, if the row has that name, by bytes that
/// hold an image's index. It costs what `find_row` does.
fn row_of_name<H: Ledger, R: Ledger>(
    buf: &Buf,
    header: &Header,
    name: &[u8],
    hashes: &mut Steps<H>,
    reads: &mut Meter<R>,
) -> Option<Row>
    requires read { header_of buf.now ≡ Ok header.now }
    requires ends { TextsEnd buf.now header.now }
    requires metered { reads.old.bytes ≡ buf.now }
    ensures row { result ≡ row_of_name buf.now header.now name.now }
    ensures hashes { RisesAtMost hashes.old hashes.new 2 }
    ensures reads { CostsAtMost reads.old reads.new (length name.now + 76) }
{
    let slot = probe(buf, header, name, hashes, reads)?;
    let row = row_of_slot(buf, header, slot, reads).row()?;
    if spells(buf, &texts_of(buf, header, &row), name, reads) {
        Some(row)
    } else {
        None
    }
}

/// The row of the entry of that name, or None where no entry has it (jimage 1.0). The name is
/// compared with the entry's own, byte by byte.
///
/// It costs at most two hashes, and at most the name's bytes and 76 more: four of a redirect word,
/// four of an offset word, 64 of a row and one at the end of each of four texts.
pub fn find_row<H: Ledger, R: Ledger>(
    image: &Image,
    name: &[u8],
    hashes: &mut Steps<H>,
    reads: &mut Meter<R>,
) -> Option<Row>
    requires { reads.old.bytes ≡ image.now }
    ensures found { result ≡ option_map (λ found. found.0) (look image.now name.now) }
    ensures sound { IfSome result (λ row. SoundRow image.now (head image.now) row) }
    ensures content { IfSome result (λ row. look image.now name.now
        ≡ Some (row, content_of (contents image.now (head image.now)) row)) }
    ensures hashes { RisesAtMost hashes.old hashes.new 2 }
    ensures reads { CostsAtMost reads.old reads.new (length name.now + 76) }
{
    find_row_in(&image.index(), name, hashes, reads)
}

/// The row of the entry of that name in each file of this index, or None where none has it: what
/// `find_row` answers for the whole file. No byte of a content is looked at.
///
/// It costs what `find_row` does.
pub fn find_row_in<H: Ledger, R: Ledger>(
    index: &Index,
    name: &[u8],
    hashes: &mut Steps<H>,
    reads: &mut Meter<R>,
) -> Option<Row>
    requires { reads.old.bytes ≡ index.now.bytes }
    ensures found { (b : List ℕ) → IsFileOf index.now.bytes index.now.length b
        → result ≡ option_map (λ found. found.0) (look b name.now) }
    ensures sound { (b : List ℕ) → IsFileOf index.now.bytes index.now.length b
        → IfSome result (λ row. SoundRow b (head b) row) }
    ensures content { (b : List ℕ) → IsFileOf index.now.bytes index.now.length b
        → IfSome result (λ row. look b name.now
        ≡ Some (row, content_of (contents b (head b)) row)) }
    ensures row { IfSome result (SoundIn index.now) }
    ensures hashes { RisesAtMost hashes.old hashes.new 2 }
    ensures reads { CostsAtMost reads.old reads.new (length name.now + 76) }
{
    row_of_name(&index.buf(), &index.header(), name, hashes, reads)
}

/// The entry of that name, or None where no entry has it: what `find_row` answers, and the content
/// behind it.
///
/// It costs what `find_row` does, and the bytes of the content.
pub fn find<'a, H: Ledger, R: Ledger>(
    image: &Image<'a>,
    name: &[u8],
    hashes: &mut Steps<H>,
    reads: &mut Meter<R>,
) -> Option<Found<'a>>
    requires { reads.old.bytes ≡ image.now }
    ensures found { option_map found_as result ≡ look image.now name.now }
    ensures hashes { RisesAtMost hashes.old hashes.new 2 }
    ensures reads { CostsAtMost reads.old reads.new
        (length name.now + 76 + answer_length result) }
{
    let row = find_row(image, name, hashes, reads)?;
    let bytes = content(image, &row, reads);
    Some(Found { row, bytes })
}
