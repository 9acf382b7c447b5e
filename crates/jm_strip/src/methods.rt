ghost use Rattle.std.specs.Prelude.{true, map};
ghost use Rattle.jm_class.specs.declared.class.ClassFault.TheVariants.{Short};
ghost use Rattle.jm_class.specs.Classes.{attribute_text, member_text, counted_text};
ghost use Rattle.jm_class.specs.ClassLayout.{attribute_field, member_field};
ghost use Rattle.jm_class.specs.Layouts.{listed, reading};
ghost use Rattle.jm_strip.specs.Strip.{strip_attribute, strip_method};
ghost use Rattle.jm_strip.specs.Walks.{Puts};

use crate::codes::strip_code;
use crate::copies::{copy_sized, copy16, name};
use crate::pool::Pool;
use jm_bytes::Or;
use jm_class::fields::{Missing, number16};
use jm_class::{ClassFault, Cursor};
use jm_classout::put16;

/// An attribute of a method.
fn strip_attribute(
    cursor: &mut Cursor,
    text: &mut Vec<u8>,
    pool: &Pool,
) -> Result<(), Or<ClassFault>>
    ensures { Puts (λ a. attribute_text (strip_attribute pool.now a))
        (reading Short (attribute_field pool.now true) cursor.old)
        result cursor.new text.old.items text.new.items }
{
    let name = name(cursor, pool, Missing::Here)?;
    put16(text, name)?;
    if pool.is_code(name) {
        strip_code(cursor, text, pool)?;
    } else {
        copy_sized(cursor, text, Missing::Here)?;
    }
    Ok(())
}

/// The attributes of a method: each one stays.
fn strip_attributes(
    cursor: &mut Cursor,
    text: &mut Vec<u8>,
    pool: &Pool,
) -> Result<(), Or<ClassFault>>
    ensures { Puts (λ xs. counted_text attribute_text (map (strip_attribute pool.now) xs))
        (reading Short (listed (attribute_field pool.now true)) cursor.old)
        result cursor.new text.old.items text.new.items }
{
    let count = number16(cursor, Missing::Here)?;
    put16(text, count)?;
    for _k in 0..count {
        strip_attribute(cursor, text, pool)?;
    }
    Ok(())
}

fn strip_method(cursor: &mut Cursor, text: &mut Vec<u8>, pool: &Pool) -> Result<(), Or<ClassFault>>
    ensures { Puts (λ m. member_text (strip_method pool.now m))
        (reading Short (member_field pool.now true) cursor.old)
        result cursor.new text.old.items text.new.items }
{
    copy16(cursor, text, Missing::Here)?;
    copy16(cursor, text, Missing::Here)?;
    copy16(cursor, text, Missing::Here)?;
    strip_attributes(cursor, text, pool)?;
    Ok(())
}

/// The methods.
pub fn strip_methods(
    cursor: &mut Cursor,
    text: &mut Vec<u8>,
    pool: &Pool,
) -> Result<(), Or<ClassFault>>
    ensures { Puts (λ xs. counted_text member_text (map (strip_method pool.now) xs))
        (reading Short (listed (member_field pool.now true)) cursor.old)
        result cursor.new text.old.items text.new.items }
{
    let count = number16(cursor, Missing::Here)?;
    put16(text, count)?;
    for _k in 0..count {
        strip_method(cursor, text, pool)?;
    }
    Ok(())
}
