//! How the bytes of names stand to one another, piece by piece.
ghost use Rattle.std.specs.Prelude.{◌≡◌, ◌++◌, []};
ghost use Rattle.std.specs.Cmp.Lexicographic.{slice_cmp};
ghost use Rattle.std.specs.Ordering.{nat_cmp};
ghost use Rattle.jm_names.specs.Names.{join};
ghost use Rattle.jm_names.specs.Pieces.{cut_of};
ghost use Rattle.jm_reader.specs.Views.{without_folder};

use crate::name_bytes::NameBytes;
use jm_names::Pieces;
use std::cmp::Ordering;

/// The part, or the next one of some bytes where it is used up; nothing exactly at the end.
fn part_or_next<'a>(part: &'a [u8], bytes: &mut NameBytes<'a>) -> &'a [u8]
    ensures same { part.now ++ bytes.old ≡ result.now ++ bytes.new }
    ensures end { result.now ≡ [] → bytes.new ≡ [] }
{
    if part.is_empty() {
        bytes.take_part()
    } else {
        part
    }
}

/// How a part and the bytes behind it stand to another part and the bytes behind that one.
fn order_from<'a, 'b>(
    part: &'a [u8],
    bytes: &mut NameBytes<'a>,
    other_part: &'b [u8],
    other_bytes: &mut NameBytes<'b>,
) -> Ordering
    ensures { result ≡ slice_cmp nat_cmp
        (part.now ++ bytes.old) (other_part.now ++ other_bytes.old) }
{
    let part = part_or_next(part, bytes);
    let other_part = part_or_next(other_part, other_bytes);
    let len = part.len().min(other_part.len());
    if len == 0 {
        return part.cmp(other_part);
    }
    let (front, rest) = part.split_at(len);
    let (other_front, other_rest) = other_part.split_at(len);
    match front.cmp(other_front) {
        Ordering::Equal => order_from(rest, bytes, other_rest, other_bytes),
        order => order,
    }
}

/// The base and the extension of a name.
fn without_folder<'a>(pieces: &Pieces<'a>) -> Pieces<'a>
    ensures { cut_of result ≡ without_folder (cut_of pieces.now) }
{
    Pieces {
        module: &[],
        parent: &[],
        base: pieces.base,
        ext: pieces.ext,
    }
}

/// How the names that pieces make stand to one another in byte order. A piece or mark of the one is
/// compared with as many bytes of the other at a time; where both have the same module and the same
/// parent, only what stands behind these is compared.
pub fn order(pieces: &Pieces, other: &Pieces) -> Ordering
    ensures { result ≡ slice_cmp nat_cmp (join (cut_of pieces.now)) (join (cut_of other.now)) }
{
    if pieces.module == other.module && pieces.parent == other.parent {
        let (tail, other_tail) = (without_folder(pieces), without_folder(other));
        let (mut bytes, mut other_bytes) = (NameBytes::of(&tail), NameBytes::of(&other_tail));
        return order_from(&[], &mut bytes, &[], &mut other_bytes);
    }
    let (mut whole, mut other_whole) = (NameBytes::of(pieces), NameBytes::of(other));
    order_from(&[], &mut whole, &[], &mut other_whole)
}
