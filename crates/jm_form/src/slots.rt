ghost use Rattle.std.specs.Prelude.{◌≡◌, ◌<◌, Ok};
ghost use Rattle.jm_bytes.specs.Metered.{CostsAtMost};
ghost use Rattle.jm_form.specs.Entries.{row_at_place, row_of_slot, row_read, spelled_row};
ghost use Rattle.jm_form.specs.Head.{header_of};

use crate::container::Header;
use crate::rows::{Row, read_row};
use jm_bytes::{Buf, Meter};
use std::sync::ledger::Ledger;

/// A row has at most so many bytes: nine for each of its seven kinds and one that ends it.
const LONGEST_ROW: u32 = 64;

/// What the offset word of a slot leads to.
#[derive(Clone, Copy, Debug, PartialEq, Eq)]
pub enum SlotRow {
    /// It isn't below the length of the locations.
    Outside,
    /// No row is spelled at its place in the locations.
    Unspelled,
    /// The row there has one byte: the slot holds no entry.
    Blank,
    /// The row there, which has attributes.
    Spelled(Row),
}

impl SlotRow {
    /// The row of an entry, or None where the slot has no row with attributes.
    pub fn row(self) -> Option<Row>
        ensures { result ≡ spelled_row self }
    {
        match self {
            SlotRow::Spelled(row) => Some(row),
            _ => None,
        }
    }
}

/// What was read with its length in bytes: a row of one byte is blank.
fn row_read(read: Option<(Row, usize)>) -> SlotRow
    ensures { result ≡ row_read read }
{
    match read {
        None => SlotRow::Unspelled,
        Some((_, 1)) => SlotRow::Blank,
        Some((row, _)) => SlotRow::Spelled(row),
    }
}

/// What stands at a place of the locations. It costs at most 64 bytes of them.
pub fn row_at_place<R: Ledger>(
    buf: &Buf,
    header: &Header,
    place: u32,
    reads: &mut Meter<R>,
) -> SlotRow
    requires read { header_of buf.now ≡ Ok header.now }
    requires metered { reads.old.bytes ≡ buf.now }
    ensures row { result ≡ row_at_place buf.now header.now place }
    ensures cost { CostsAtMost reads.old reads.new 64 }
{
    if place >= header.locations {
        return SlotRow::Outside;
    }
    let _size = buf.len();
    let size = (header.locations - place).min(LONGEST_ROW);
    let start = header.locations_place() + place as usize;
    row_read(read_row(buf.part(start, size as usize, reads)))
}

/// What a slot's offset word leads to. It costs at most the four bytes of that word and 64 of the
/// locations.
pub fn row_of_slot<R: Ledger>(
    buf: &Buf,
    header: &Header,
    slot: u32,
    reads: &mut Meter<R>,
) -> SlotRow
    requires read { header_of buf.now ≡ Ok header.now }
    requires below { slot < header.now.length }
    requires metered { reads.old.bytes ≡ buf.now }
    ensures row { result ≡ row_of_slot buf.now header.now slot }
    ensures cost { CostsAtMost reads.old reads.new 68 }
{
    let offset = buf.word(header.order, header.offset_place(slot), reads);
    row_at_place(buf, header, offset, reads)
}
