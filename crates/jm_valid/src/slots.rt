ghost use Rattle.std.specs.Prelude.{◌≡◌, ◌<◌, None};
ghost use Rattle.jm_valid.specs.Sections.{entry_row_in, row_fault_in, slot_fault_in};

use crate::row_names::{Names, RowName};
use crate::sections::Sections;
use jm_bytes::{Buf, Meter};
use jm_form::{Damage, Row, SlotRow, is_led_to, row_of_slot};
use std::marker::Brand;
use std::sync::ledger::{Blank, Ledger};

/// The first fault of a slot with this row, which isn't blank; it is judged as it is stored where
/// contents may be compressed.
fn row_fault(sections: &Sections, slot: u32, row: &Row) -> Option<Damage>
    ensures { result ≡ row_fault_in sections.now slot row.now }
{
    let row = sections.compression.judged(row);
    if row.packed != 0 {
        return Some(Damage::Compressed(slot));
    }
    if !sections.ends(row.module) {
        return Some(Damage::Text { slot, kind: 1 });
    }
    if !sections.ends(row.parent) {
        return Some(Damage::Text { slot, kind: 2 });
    }
    if !sections.ends(row.base) {
        return Some(Damage::Text { slot, kind: 3 });
    }
    if !sections.ends(row.ext) {
        return Some(Damage::Text { slot, kind: 4 });
    }
    if row.size > sections.size || row.offset > sections.size - row.size {
        return Some(Damage::Range(slot));
    }
    None
}

/// The first fault of a slot; the blank's meter, which jm_form asks for, is let go.
fn metered_fault<R: Ledger>(sections: &Sections, slot: u32, blank: Blank) -> Option<Damage>
    requires name { blank.name ≡ R.name }
    requires parts { blank.parts ≡ R.parts }
    requires some { 0 < blank.parts }
    requires below { slot < sections.now.header.length }
    ensures { result ≡ slot_fault_in sections.now slot }
{
    let mut reads = Meter::<R>::new(sections.bytes, blank);
    match row_of_slot(
        &Buf::new(sections.bytes),
        &sections.header,
        slot,
        &mut reads,
    ) {
        SlotRow::Outside => Some(Damage::Offset(slot)),
        SlotRow::Unspelled => Some(Damage::Row(slot)),
        SlotRow::Blank => None,
        SlotRow::Spelled(row) => row_fault(sections, slot, &row),
    }
}

/// The first fault of the slot with this number, whether it holds an entry or not.
pub fn slot_fault(sections: &Sections, slot: usize) -> Option<Damage>
    requires { slot < sections.now.header.length }
    ensures { result ≡ slot_fault_in sections.now slot }
{
    prove!(slot < sections.header.length as usize);
    metered_fault::<Brand>(sections, slot as u32, Blank::new(1))
}

/// The row of the entry of a slot without a fault, or None where the slot is spare; the blank's
/// meter is let go.
pub fn entry_row<R: Ledger>(names: &Names, slot: u32, blank: Blank) -> Option<Row>
    requires name { blank.name ≡ R.name }
    requires parts { blank.parts ≡ R.parts }
    requires some { 0 < blank.parts }
    requires below { slot < names.now.sections.header.length }
    requires sound { slot_fault_in names.now.sections slot ≡ None }
    ensures { result ≡ entry_row_in names.now.sections slot }
{
    let sections = &names.sections;
    let mut reads = Meter::<R>::new(sections.bytes, blank);
    let buf = Buf::new(sections.bytes);
    let row = row_of_slot(&buf, &sections.header, slot, &mut reads).row()?;
    let name = RowName { names, row };
    if is_led_to(&buf, &sections.header, slot, &name, &mut reads) {
        Some(row)
    } else {
        None
    }
}
