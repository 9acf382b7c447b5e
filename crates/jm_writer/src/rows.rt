//! The rows of all entries by slot.
ghost use Rattle.std.specs.Prelude.{◌≡◌, ◌≢◌, ◌<◌, ◌^◌, None, length, sum, All, AllPairs, IfOk};
ghost use Rattle.jm_writer.specs.Parts.{rows_at, rows_in_slots};

use crate::interning::TextPlaces;
use jm_bytes::NoMemory;
use jm_form::Row;
use std::alloc::Global;
use std::marker::Model;

/// The row of an entry by the places of its name's pieces, seen as a [`Row`], which has 56 bytes
/// where this has 32.
#[derive(Clone, Copy)]
pub struct EntryRow {
    places: TextPlaces,
    offset: u64,
    size: u64,
}

impl Model for EntryRow {
    ghost use Rattle.jm_form.specs.declared.rows.Row.{Row};
    ghost use Rattle.jm_writer.specs.Parts.{row_at};

    ghost Value = { Row };

    ghost view = { λ entry. row_at entry.places entry.offset entry.size };

    ghost inverse = { λ row. record {
      places = record {
        «module» = row.module;
        parent = row.parent;
        base = row.base;
        ext = row.ext;
      };
      offset = row.offset;
      size = row.size;
    } };
}

impl EntryRow {
    /// The whole row.
    pub fn row(&self) -> Row
        ensures { result ≡ self.now }
    {
        Row {
            module: u64::from(self.places.module),
            parent: u64::from(self.places.parent),
            base: u64::from(self.places.base),
            ext: u64::from(self.places.ext),
            offset: self.offset,
            packed: 0,
            size: self.size,
        }
    }
}

/// The rows by slot, for that many slots, of entries with these slots, with these places of their
/// names' pieces and with contents of these sizes in bytes, which stand one after another. A spare
/// slot has no row.
pub fn rows_in_slots(
    alloc: Global,
    slots: &[u32],
    places: &[TextPlaces],
    sizes: &[u64],
    count: u32,
) -> Result<Vec<Option<EntryRow>>, NoMemory>
    requires slots { length slots.now ≡ length sizes.now }
    requires places { length places.now ≡ length sizes.now }
    requires below { All (λ slot. slot < count) slots.now }
    requires differ { AllPairs (λ one other. one ≢ other) slots.now }
    requires contents { sum sizes.now < 2 ^ 64 }
    ensures { IfOk result
        (λ r. r.items ≡ rows_in_slots slots.now (rows_at 0 places.now sizes.now) count) }
{
    let mut rows: Vec<Option<EntryRow>> = vec![in alloc; None; count as usize]?;
    let mut offset: u64 = 0;
    for (entry, size) in sizes.iter().enumerate() {
        rows[slots[entry] as usize] = Some(EntryRow {
            places: places[entry],
            offset,
            size: *size,
        });
        offset += *size;
    }
    Ok(rows)
}
