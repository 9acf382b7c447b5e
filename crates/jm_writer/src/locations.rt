//! The locations section, and where the row of each slot stands in it.
ghost use Rattle.std.specs.Prelude.{◌≡◌, ◌+◌, ◌*◌, ◌^◌, ◌<◌, ◌≤◌, ◌++◌, length, IfOk, OnOk};
ghost use Rattle.jm_form.specs.Layout.{location_of};
ghost use Rattle.jm_writer.specs.Parts.{locations_of, place_at, places_from};

use crate::rows::EntryRow;
use jm_bytes::{List, NoMemory, extend};
use jm_form::write_row;
use std::alloc::Global;

/// The locations section of an image.
#[derive(Drop)]
pub struct Locations {
    /// Its bytes.
    pub text: Vec<u8>,
    /// The place of each slot's row; 0, that of the blank row, for a spare slot.
    pub places: Vec<u32>,
}

/// Puts the row of a slot at the end, where it has one, and answers its place.
fn put_row(alloc: Global, text: &mut Vec<u8>, row: &Option<EntryRow>) -> Result<u32, NoMemory>
    requires { length text.old.items < 2 ^ 32 }
    ensures text { OnOk result (text.new.items ≡ text.old.items ++ location_of row.now) }
    ensures place { IfOk result (λ place. place ≡ place_at (length text.old.items) row.now) }
    ensures short { OnOk result (length text.new.items ≤ length text.old.items + 64) }
{
    match row {
        Some(row) => {
            let place = text.len() as u32;
            extend(text, write_row(alloc, &row.row())?.as_slice())?;
            Ok(place)
        }
        None => Ok(0),
    }
}

/// The rows of the slots in their usual spelling, behind one byte 0.
pub fn locate(alloc: Global, rows: &[Option<EntryRow>]) -> Result<Locations, NoMemory>
    requires { length rows.now ≤ 33554432 }
    ensures text { IfOk result (λ l. l.text.items ≡ locations_of rows.now) }
    ensures places { IfOk result (λ l. l.places.items ≡ places_from 1 rows.now) }
    ensures short { IfOk result (λ l. length l.text.items ≤ 1 + 64 * length rows.now) }
{
    let mut text = List::with_capacity(alloc, rows.len())?.into_vec();
    let mut places = List::with_capacity(alloc, rows.len())?;
    extend(&mut text, &[0])?;
    for row in rows {
        let place = put_row(alloc, &mut text, row)?;
        places.push(place)?;
    }
    Ok(Locations {
        text,
        places: places.into_vec(),
    })
}
