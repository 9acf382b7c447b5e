ghost use Rattle.std.specs.Prelude.{◌<◌, ◌^◌, All};
ghost use Rattle.jm_class.specs.Classes.{code_text, sized_text};
ghost use Rattle.jm_class.specs.ClassLayout.{code_fields, code_field};
ghost use Rattle.jm_class.specs.Layouts.{reading};
ghost use Rattle.jm_class.specs.Views.{fault_at};
ghost use Rattle.jm_strip.specs.Strip.{strip_code};
ghost use Rattle.jm_class.specs.declared.class.ClassFault.TheVariants.{Short};
ghost use Rattle.jm_strip.specs.Walks.{Puts};

use crate::copies::{copy_rows, copy_sized, copy16};
use crate::lists::keep_attributes;
use crate::patches::patch32;
use crate::pool::Pool;
use jm_bytes::Or;
use jm_class::fields::{Missing, inner, number32};
use jm_class::{ClassFault, Cursor};
use jm_classout::put32;

/// The parts of a Code without its debug information.
fn strip_parts(
    cursor: &mut Cursor,
    text: &mut Vec<u8>,
    pool: &Pool,
    missing: Missing,
) -> Result<(), Or<ClassFault>>
    ensures { Puts (λ c. code_text (strip_code pool.now c))
        (reading (fault_at missing) (code_fields pool.now) cursor.old)
        result cursor.new text.old.items text.new.items }
{
    copy16(cursor, text, missing)?;
    copy16(cursor, text, missing)?;
    copy_sized(cursor, text, missing)?;
    copy_rows(cursor, text, missing)?;
    keep_attributes(cursor, text, pool, missing, true)?;
    Ok(())
}

/// What is known of a slice: its items are bytes.
fn are_bytes(_bytes: &[u8])
    ensures { All (λ b. b < 2 ^ 8) _bytes.now }
{}

/// A Code within its length, without its debug information. It is judged as a whole before its
/// parts.
pub fn strip_code(
    cursor: &mut Cursor,
    text: &mut Vec<u8>,
    pool: &Pool,
) -> Result<(), Or<ClassFault>>
    ensures { Puts (λ c. sized_text (code_text (strip_code pool.now c)))
        (reading Short (code_field pool.now) cursor.old)
        result cursor.new text.old.items text.new.items }
{
    let wrong = ClassFault::CodeLength(cursor.place());
    let size = number32(cursor, Missing::Here)?;
    let mut inner = inner(cursor, size as usize, Missing::Here)?;
    are_bytes(inner.rest());
    let at = text.len();
    put32(text, 0)?;
    strip_parts(&mut inner, text, pool, Missing::Within(wrong))?;
    if inner.len() != 0 {
        return Err(Or::Fault(wrong));
    }
    patch32(text, at, (text.len() - at - 4) as u32);
    Ok(())
}
