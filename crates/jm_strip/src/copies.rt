ghost use Rattle.std.specs.Int.{w16};
ghost use Rattle.jm_class.specs.Classes.{u2, sized_text, rows_text};
ghost use Rattle.jm_class.specs.ClassLayout.{name_field, rows_field};
ghost use Rattle.jm_class.specs.Layouts.{reading};
ghost use Rattle.jm_class.specs.Readings.{number, sized};
ghost use Rattle.jm_class.specs.Views.{Reads, fault_at};
ghost use Rattle.jm_strip.specs.Walks.{Puts};

use crate::pool::Pool;
use jm_bytes::{Or, extend};
use jm_class::fields::{Missing, number16, number32, part};
use jm_class::{ClassFault, Cursor};
use jm_classout::{put16, put32};

/// The name of an attribute: the number of a Utf8.
pub fn name(cursor: &mut Cursor, pool: &Pool, missing: Missing) -> Result<u16, ClassFault>
    ensures { Reads (λ n. n) (reading (fault_at missing) (name_field pool.now) cursor.old)
        result cursor.new }
{
    let at = cursor.place();
    let name = number16(cursor, missing)?;
    if !pool.is_text(name) {
        return Err(ClassFault::Index(at));
    }
    Ok(name)
}

/// A number of two bytes, as it is.
pub fn copy16(
    cursor: &mut Cursor,
    text: &mut Vec<u8>,
    missing: Missing,
) -> Result<(), Or<ClassFault>>
    ensures { Puts u2 (number (fault_at missing) w16 cursor.old)
        result cursor.new text.old.items text.new.items }
{
    let number = number16(cursor, missing)?;
    put16(text, number)?;
    Ok(())
}

/// A length of four bytes and that many bytes, as they are.
pub fn copy_sized(
    cursor: &mut Cursor,
    text: &mut Vec<u8>,
    missing: Missing,
) -> Result<(), Or<ClassFault>>
    ensures { Puts sized_text (sized (fault_at missing) cursor.old)
        result cursor.new text.old.items text.new.items }
{
    let size = number32(cursor, missing)?;
    let bytes = part(cursor, size as usize, missing)?;
    put32(text, size)?;
    extend(text, bytes)?;
    Ok(())
}

/// The handlers of a Code, as they are: their number, and 8 bytes for each.
pub fn copy_rows(
    cursor: &mut Cursor,
    text: &mut Vec<u8>,
    missing: Missing,
) -> Result<(), Or<ClassFault>>
    ensures { Puts rows_text (reading (fault_at missing) rows_field cursor.old)
        result cursor.new text.old.items text.new.items }
{
    let count = number16(cursor, missing)?;
    let rows = part(cursor, 8 * usize::from(count), missing)?;
    put16(text, count)?;
    extend(text, rows)?;
    Ok(())
}
