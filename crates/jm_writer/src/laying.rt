//! What is known of an image before its bytes: its table, strings, locations and length.
ghost use Rattle.std.specs.Prelude.{◌≡◌, ◌+◌, ◌*◌, ◌<◌, ◌≤◌, ◌^◌, length, sum, All, IfOk};
ghost use Rattle.jm_bytes.specs.Results.{IfAnswered};
ghost use Rattle.jm_form.specs.Strings.{IsZeroFree};
ghost use Rattle.jm_writer.specs.Laying.{AreFit, Interns, IsTable, Lays, Tables};
ghost use Rattle.jm_writer.specs.Laying.{slot_rows};
ghost use Rattle.jm_writer.specs.Parts.{places_of};

use crate::draft::PlanFault;
use crate::entries::{Entries, contents_length};
use crate::interning::{Interned, TextPlaces, strings_of};
use crate::locations::{Locations, locate};
use crate::rows::{EntryRow, rows_in_slots};
use jm_bytes::{NoMemory, Or, Text};
use jm_redirect::{NoTable, Table, build};
use jm_strings::{Full, Strings};
use std::alloc::Global;

/// The most bytes that an image has.
const IMAGE_LIMIT: u64 = 1_073_741_824;

/// The strings and locations of an image, and its length.
#[derive(Drop)]
pub struct Laid {
    /// The pieces of all names.
    pub strings: Strings,
    /// The rows of all entries, by slot.
    pub locations: Locations,
    /// The length of the whole file in bytes.
    pub length: u64,
}

/// The table of the names.
pub fn table_of(alloc: Global, names: &[Text]) -> Result<Table, Or<PlanFault>>
    requires { length names.now ≤ 1048576 }
    ensures { IfAnswered (Tables names.now) result }
{
    match build(alloc, names) {
        Ok(table) => Ok(table),
        Err(Or::Fault(NoTable(lengths))) => Err(Or::Fault(PlanFault::NoTable(lengths))),
        Err(Or::Memory) => Err(Or::Memory),
    }
}

/// The strings of the names, where they aren't too long.
fn strings_within(alloc: Global, names: &[Text]) -> Result<Interned, Or<PlanFault>>
    requires { All IsZeroFree names.now }
    ensures { IfAnswered (Interns names.now) result }
{
    match strings_of(alloc, names) {
        Ok(interned) => {
            let _within = interned.strings.bytes();
            Ok(interned)
        }
        Err(Or::Fault(Full)) => Err(Or::Fault(PlanFault::TooLarge(0))),
        Err(Or::Memory) => Err(Or::Memory),
    }
}

/// The rows of the entries by slot.
fn rows_by_slot(
    alloc: Global,
    places: &[TextPlaces],
    entries: &Entries,
    table: &Table,
) -> Result<Vec<Option<EntryRow>>, NoMemory>
    requires entries { AreFit entries.now }
    requires table { IsTable entries.now.names table.now }
    requires places { places.now ≡ places_of entries.now.names }
    requires contents { sum entries.now.sizes < 2 ^ 64 }
    ensures rows { IfOk result (λ r. r.items ≡ slot_rows entries.now table.now) }
    ensures few { IfOk result (λ r. length r.items ≤ 33554432) }
{
    rows_in_slots(
        alloc,
        table.slot_of.as_slice(),
        places,
        entries.sizes.as_slice(),
        table.length,
    )
}

/// Lays the image of the entries out by their table: all but the bytes of its index and contents.
pub fn lay_out(alloc: Global, entries: &Entries, table: &Table) -> Result<Laid, Or<PlanFault>>
    requires entries { AreFit entries.now }
    requires table { IsTable entries.now.names table.now }
    ensures { IfAnswered (Lays entries.now table.now) result }
{
    let Interned { strings, places } = strings_within(alloc, entries.names.as_slice())?;
    let contents = contents_length(entries.sizes.as_slice())?;
    let rows = rows_by_slot(alloc, places.as_slice(), entries, table)?;
    let locations = locate(alloc, &rows)?;
    let slots = u64::from(table.length);
    let index = 28 + 8 * slots + locations.text.len() as u64 + strings.bytes().len() as u64;
    let length = index + contents;
    if length > IMAGE_LIMIT {
        return Err(Or::Fault(PlanFault::TooLarge(length)));
    }
    Ok(Laid {
        strings,
        locations,
        length,
    })
}
