//! Rows in their usual spelling.
ghost use Rattle.std.specs.Prelude.{◌≡◌, ◌<◌, ◌^◌, ◌++◌, ℕ, List, Some, length, IfOk, OnOk};
ghost use Rattle.jm_form.specs.ComputedRows.{row_front};
ghost use Rattle.jm_form.specs.Rows.{Spells, byte_count, usual_attribute, usual};

use crate::rows::Row;
use byteorder::{BigEndian, ByteOrder};
use jm_bytes::{NoMemory, Text, extend};
use std::alloc::Global;

/// A row in its usual spelling: values of 0 are left out, each other one has as few bytes as it
/// needs, and a byte 0 ends the row.
pub fn write_row(alloc: Global, row: &Row) -> Result<Text, NoMemory>
    ensures usual { IfOk result (λ text. text ≡ usual row.now) }
    // These follow: it is a spelling of the row, and it is read back, whatever stands behind it.
    ensures spells { IfOk result (λ text. Spells text row.now) }
    ensures reads_back { IfOk result (λ text. (rest : List ℕ)
        → row_front (text ++ rest) ≡ Some (row.now, length text)) }
{
    let row = *row;
    let mut text = Vec::new(alloc);
    put_attribute(&mut text, 1, row.module)?;
    put_attribute(&mut text, 2, row.parent)?;
    put_attribute(&mut text, 3, row.base)?;
    put_attribute(&mut text, 4, row.ext)?;
    put_attribute(&mut text, 5, row.offset)?;
    put_attribute(&mut text, 6, row.packed)?;
    put_attribute(&mut text, 7, row.size)?;
    extend(&mut text, &[0])?;
    Ok(Text::from_vec(text))
}

/// Puts a value at the end as an attribute; nothing where it is 0.
fn put_attribute(text: &mut Vec<u8>, kind: u8, value: u64) -> Result<(), NoMemory>
    requires { kind < 8 }
    ensures text { OnOk result (text.new.items ≡ text.old.items ++ usual_attribute kind value) }
    ensures fits { value < 2 ^ 64 }
{
    if value == 0 {
        return Ok(());
    }
    let count = byte_count(value);
    extend(text, &[kind * 8 + (count - 1) as u8])?;
    let mut bytes = [0; 8];
    BigEndian::write_uint(&mut bytes, value, count);
    extend(text, &bytes[..count])
}

/// The least number of bytes that a value fits in.
fn byte_count(value: u64) -> usize
    ensures { result ≡ byte_count value }
{
    match value {
        0..=0xFF => 1,
        0x100..=0xFFFF => 2,
        0x1_0000..=0xFF_FFFF => 3,
        0x100_0000..=0xFFFF_FFFF => 4,
        0x1_0000_0000..=0xFF_FFFF_FFFF => 5,
        0x100_0000_0000..=0xFFFF_FFFF_FFFF => 6,
        0x1_0000_0000_0000..=0xFF_FFFF_FFFF_FFFF => 7,
        _ => 8,
    }
}
