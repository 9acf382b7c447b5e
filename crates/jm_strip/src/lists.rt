ghost use Rattle.std.specs.Prelude.{◌≤◌, ◌∷◌, [], filter, IfOk};
ghost use Rattle.jm_class.specs.Classes.{opaque_text, counted_text};
ghost use Rattle.jm_class.specs.ClassLayout.{opaque_field};
ghost use Rattle.jm_class.specs.Layouts.{listed, reading};
ghost use Rattle.jm_class.specs.Views.{Gives, fault_at};
ghost use Rattle.jm_strip.specs.Strip.{stays};
ghost use Rattle.jm_strip.specs.Walks.{shown, filtered, Puts};

use crate::copies::name;
use crate::patches::patch16;
use crate::pool::Pool;
use jm_bytes::{Or, extend};
use jm_class::fields::{Missing, number16, number32, part};
use jm_class::{ClassFault, Cursor};
use jm_classout::{put16, put32};

/// Puts an attribute, unless it is debug information, and answers how many it put.
fn keep(
    cursor: &mut Cursor,
    text: &mut Vec<u8>,
    pool: &Pool,
    missing: Missing,
    in_code: bool,
) -> Result<u16, Or<ClassFault>>
    ensures one { IfOk result (λ n. n ≤ 1) }
    ensures kept { Gives (λ n. (text.new.items, n))
        (shown (λ a. filtered opaque_text
        (λ a. stays in_code pool.now a.name) text.old.items (a ∷ []))
        (reading (fault_at missing) (opaque_field pool.now) cursor.old))
        result cursor.new }
{
    let name = name(cursor, pool, missing)?;
    let size = number32(cursor, missing)?;
    let bytes = part(cursor, size as usize, missing)?;
    if !pool.stays(name, in_code) {
        return Ok(0);
    }
    put16(text, name)?;
    put32(text, size)?;
    extend(text, bytes)?;
    Ok(1)
}

/// The attributes of a Code or of the class without its debug information, with their number.
pub fn keep_attributes(
    cursor: &mut Cursor,
    text: &mut Vec<u8>,
    pool: &Pool,
    missing: Missing,
    in_code: bool,
) -> Result<(), Or<ClassFault>>
    ensures { Puts
        (λ xs. counted_text opaque_text (filter (λ a. stays in_code pool.now a.name) xs))
        (reading (fault_at missing) (listed (opaque_field pool.now)) cursor.old)
        result cursor.new text.old.items text.new.items }
{
    let count = number16(cursor, missing)?;
    let at = text.len();
    put16(text, 0)?;
    let mut kept = 0;
    for _k in 0..count {
        kept += keep(cursor, text, pool, missing, in_code)?;
    }
    patch16(text, at, kept);
    Ok(())
}
