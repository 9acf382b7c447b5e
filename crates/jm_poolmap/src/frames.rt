ghost use Rattle.std.specs.Prelude.{◌≡◌, option_map};
ghost use Rattle.jm_poolmap.specs.Finds.{Finds};
ghost use Rattle.jm_poolmap.specs.Forms.{Texts, row_of, times};
ghost use Rattle.jm_poolmap.specs.Frames.{type_rows, type, frame_rows, frame_part};
ghost use Rattle.jm_poolmap.specs.Frames.{frame_parts, frame};

use crate::forms::{FramePart, Item, Unknown};
use crate::items::items;
use crate::readings::{number8, number16, part};
use crate::site::FoundSite;
use jm_bytes::{List, Or};
use jm_class::Cursor;

/// What follows the first byte of a type.
fn type_row(byte: u8) -> Option<&'static [Item]>
    ensures { option_map (λ row. row.now) result ≡ row_of type_rows byte }
{
    match byte {
        0..=6 => Some(&[]),
        7 => Some(&[Item::Site]),
        8 => Some(&[Item::Bytes(2)]),
        _ => None,
    }
}

/// What follows the first byte of a frame.
fn frame_row(byte: u8) -> Option<&'static [FramePart]>
    ensures { option_map (λ row. row.now) result ≡ row_of frame_rows byte }
{
    match byte {
        0..=63 => Some(&[]),
        64..=127 => Some(&[FramePart::OneType]),
        247 | 252 => Some(&[FramePart::Distance, FramePart::OneType]),
        248..=251 => Some(&[FramePart::Distance]),
        253 => Some(&[FramePart::Distance, FramePart::OneType, FramePart::OneType]),
        254 => Some(&[
            FramePart::Distance,
            FramePart::OneType,
            FramePart::OneType,
            FramePart::OneType,
        ]),
        255 => Some(&[FramePart::Distance, FramePart::Types, FramePart::Types]),
        _ => None,
    }
}

/// A type of a frame.
fn one_type(found: &mut List<FoundSite>, cursor: &mut Cursor) -> Result<(), Or<Unknown>>
    ensures { (texts : Texts)
        → Finds texts type found.old cursor.old result found.new cursor.new }
{
    let byte = number8(cursor)?;
    let row = type_row(byte).ok_or(Unknown)?;
    items(found, cursor, row)
}

/// A part of a frame.
fn frame_part(
    found: &mut List<FoundSite>,
    cursor: &mut Cursor,
    kind: FramePart,
) -> Result<(), Or<Unknown>>
    ensures { (texts : Texts)
        → Finds texts (frame_part kind) found.old cursor.old result found.new cursor.new }
{
    match kind {
        FramePart::Distance => {
            part(cursor, 2)?;
            Ok(())
        }
        FramePart::OneType => one_type(found, cursor),
        FramePart::Types => {
            let count = number16(cursor)?;
            for _k in 0..count {
                one_type(found, cursor)?;
            }
            Ok(())
        }
    }
}

/// Parts of a frame one after the other.
fn frame_parts(
    found: &mut List<FoundSite>,
    cursor: &mut Cursor,
    parts: &[FramePart],
) -> Result<(), Or<Unknown>>
    ensures { (texts : Texts)
        → Finds texts (frame_parts parts.now) found.old cursor.old result found.new cursor.new }
{
    for kind in parts {
        frame_part(found, cursor, *kind)?;
    }
    Ok(())
}

/// A frame.
fn frame(found: &mut List<FoundSite>, cursor: &mut Cursor) -> Result<(), Or<Unknown>>
    ensures { (texts : Texts)
        → Finds texts frame found.old cursor.old result found.new cursor.new }
{
    let byte = number8(cursor)?;
    let parts = frame_row(byte).ok_or(Unknown)?;
    frame_parts(found, cursor, parts)
}

/// That many frames.
pub fn frames(
    found: &mut List<FoundSite>,
    cursor: &mut Cursor,
    count: u16,
) -> Result<(), Or<Unknown>>
    ensures { (texts : Texts)
        → Finds texts (times count frame) found.old cursor.old result found.new cursor.new }
{
    for _k in 0..count {
        frame(found, cursor)?;
    }
    Ok(())
}
