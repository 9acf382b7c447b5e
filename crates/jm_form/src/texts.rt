ghost use Rattle.std.specs.Prelude.{◌≡◌, ◌*◌, ◌<◌, ◌≤◌, ◌^◌, length, is_some, IfSome, Ok};
ghost use Rattle.jm_bytes.specs.Metered.{CostsAtMost};
ghost use Rattle.jm_names.specs.Names.{join};
ghost use Rattle.jm_names.specs.Pieces.{cut_of};
ghost use Rattle.jm_form.specs.Entries.{name_of, ShortPieces, texts_end};
ghost use Rattle.jm_form.specs.Head.{header_of};
ghost use Rattle.jm_form.specs.Places.{strings};
ghost use Rattle.jm_form.specs.Texts.{text_at, text_ends};

use crate::container::Header;
use crate::rows::Row;
use jm_bytes::{Buf, Meter};
use jm_names::Pieces;
use memchr::memchr;
use std::sync::ledger::Ledger;

/// How many bytes the strings have.
fn strings_length(header: &Header) -> u32
    ensures { result ≡ header.now.strings }
{
    header.strings
}

/// The bytes in front of the first zero byte, or None where no byte is zero.
pub fn front(bytes: &[u8]) -> Option<&[u8]>
    ensures text { IfSome result (λ text. text.now ≡ text_at bytes.now 0) }
    ensures ends { is_some result ≡ text_ends bytes.now 0 }
    ensures within { IfSome result (λ text. length text.now ≤ length bytes.now) }
{
    let len = memchr(0, bytes)?;
    let (text, _) = bytes.split_at(len);
    Some(text)
}

/// The text at a place of the strings, or None where it doesn't end in them. The bytes from there
/// to their end count as read.
pub fn text<'a, R: Ledger>(
    buf: &Buf<'a>,
    header: &Header,
    place: u64,
    reads: &mut Meter<R>,
) -> Option<&'a [u8]>
    requires read { header_of buf.now ≡ Ok header.now }
    requires metered { reads.old.bytes ≡ buf.now }
    ensures text { IfSome result (λ text. text.now ≡ text_at (strings buf.now header.now) place) }
    ensures ends { is_some result ≡ text_ends (strings buf.now header.now) place }
    ensures short { IfSome result (λ text. length text.now < 2 ^ 32) }
    ensures cost { CostsAtMost reads.old reads.new header.now.strings }
{
    let _size = buf.len();
    let strings = strings_length(header);
    if place >= u64::from(strings) {
        return None;
    }
    let start = header.strings_place() + place as usize;
    front(buf.part(start, strings as usize - place as usize, reads))
}

/// The pieces of a row's name, or None where one of its four texts doesn't end in the strings.
pub fn pieces_of<'a, R: Ledger>(
    buf: &Buf<'a>,
    header: &Header,
    row: &Row,
    reads: &mut Meter<R>,
) -> Option<Pieces<'a>>
    requires read { header_of buf.now ≡ Ok header.now }
    requires metered { reads.old.bytes ≡ buf.now }
    ensures name { IfSome result (λ pieces. join (cut_of pieces)
        ≡ name_of (strings buf.now header.now) row.now) }
    ensures ends { is_some result ≡ texts_end (strings buf.now header.now) row.now }
    ensures short { IfSome result (λ pieces. ShortPieces (cut_of pieces)) }
    ensures cost { CostsAtMost reads.old reads.new (4 * header.now.strings) }
{
    let module = text(buf, header, row.module, reads)?;
    let parent = text(buf, header, row.parent, reads)?;
    let base = text(buf, header, row.base, reads)?;
    let ext = text(buf, header, row.ext, reads)?;
    Some(Pieces {
        module,
        parent,
        base,
        ext,
    })
}
