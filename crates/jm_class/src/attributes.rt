ghost use Rattle.std.specs.Prelude.{◌≡◌, ◌*◌, map};
ghost use Rattle.jm_class.specs.Classes.{utf8_at, is_code_name};
ghost use Rattle.jm_class.specs.ClassLayout.{name_field, opaque_field, code_fields};
ghost use Rattle.jm_class.specs.ClassLayout.{code_field, attribute_field};
ghost use Rattle.jm_class.specs.Layouts.{reading, listed};
ghost use Rattle.jm_class.specs.declared.class.ClassFault.TheVariants.{Short};
ghost use Rattle.jm_class.specs.Views.{Reads, Gives, fault_at, pool_of, opaque_of, code_of};
ghost use Rattle.jm_class.specs.Views.{attribute_of};

use crate::class::{Attribute, Body, ClassFault, Code, Plain, Slot};
use crate::constants::utf8_in;
use crate::cursor::Cursor;
use crate::fields::{Missing, inner, number16, number32, part, sized};
use jm_bytes::{List, Or};
use std::alloc::Global;

/// Whether the constant of a number is the Utf8 `Code`.
fn is_code(pool: &[Slot], name: u16) -> bool
    ensures { result ≡ is_code_name (utf8_at (pool_of pool.now) name) }
{
    match utf8_in(pool, name) {
        Some(text) => text == b"Code".as_slice(),
        None => false,
    }
}

/// The name of an attribute: the number of a Utf8.
fn name(cursor: &mut Cursor, pool: &[Slot], missing: Missing) -> Result<u16, ClassFault>
    ensures { Reads (λ n. n) (reading (fault_at missing) (name_field (pool_of pool.now)) cursor.old)
        result cursor.new }
{
    let at = cursor.place();
    let name = number16(cursor, missing)?;
    if utf8_in(pool, name).is_none() {
        return Err(ClassFault::Index(at));
    }
    Ok(name)
}

/// The attributes of a Code.
fn plains<'a>(
    alloc: Global,
    cursor: &mut Cursor<'a>,
    pool: &[Slot],
    missing: Missing,
) -> Result<List<Plain<'a>>, Or<ClassFault>>
    ensures { Gives (map opaque_of)
        (reading (fault_at missing) (listed (opaque_field (pool_of pool.now))) cursor.old)
        result cursor.new }
{
    let count = number16(cursor, missing)?;
    let mut attributes = List::new(alloc);
    for _k in 0..count {
        let name = name(cursor, pool, missing)?;
        let bytes = sized(cursor, missing)?;
        attributes.push(Plain { name, bytes })?;
    }
    Ok(attributes)
}

/// The parts of a Code.
fn code_parts<'a>(
    alloc: Global,
    cursor: &mut Cursor<'a>,
    pool: &[Slot],
    missing: Missing,
) -> Result<Code<'a>, Or<ClassFault>>
    ensures { Gives code_of (reading (fault_at missing) (code_fields (pool_of pool.now)) cursor.old)
        result cursor.new }
{
    let max_stack = number16(cursor, missing)?;
    let max_locals = number16(cursor, missing)?;
    let code = sized(cursor, missing)?;
    let count = number16(cursor, missing)?;
    let handlers = part(cursor, 8 * usize::from(count), missing)?;
    let attributes = plains(alloc, cursor, pool, missing)?;
    Ok(Code {
        max_stack,
        max_locals,
        code,
        handlers,
        attributes,
    })
}

/// A Code within its length. It is judged as a whole before its parts.
fn code<'a>(
    alloc: Global,
    cursor: &mut Cursor<'a>,
    pool: &[Slot],
) -> Result<Code<'a>, Or<ClassFault>>
    ensures { Gives code_of (reading Short (code_field (pool_of pool.now)) cursor.old)
        result cursor.new }
{
    let wrong = ClassFault::CodeLength(cursor.place());
    let size = number32(cursor, Missing::Here)?;
    let mut inner = inner(cursor, size as usize, Missing::Here)?;
    let code = code_parts(alloc, &mut inner, pool, Missing::Within(wrong))?;
    if inner.len() != 0 {
        return Err(Or::Fault(wrong));
    }
    Ok(code)
}

/// An attribute, in a method or not.
fn attribute<'a>(
    alloc: Global,
    cursor: &mut Cursor<'a>,
    pool: &[Slot],
    in_method: bool,
) -> Result<Attribute<'a>, Or<ClassFault>>
    ensures { Gives attribute_of
        (reading Short (attribute_field (pool_of pool.now) in_method) cursor.old)
        result cursor.new }
{
    let name = name(cursor, pool, Missing::Here)?;
    if in_method && is_code(pool, name) {
        let code = code(alloc, cursor, pool)?;
        Ok(Attribute {
            name,
            body: Body::Code(code),
        })
    } else {
        let bytes = sized(cursor, Missing::Here)?;
        Ok(Attribute {
            name,
            body: Body::Plain(bytes),
        })
    }
}

/// Attributes, in a method or not.
pub fn attributes<'a>(
    alloc: Global,
    cursor: &mut Cursor<'a>,
    pool: &[Slot],
    in_method: bool,
) -> Result<List<Attribute<'a>>, Or<ClassFault>>
    ensures { Gives (map attribute_of)
        (reading Short (listed (attribute_field (pool_of pool.now) in_method)) cursor.old)
        result cursor.new }
{
    let count = number16(cursor, Missing::Here)?;
    let mut attributes = List::new(alloc);
    for _k in 0..count {
        let attribute = attribute(alloc, cursor, pool, in_method)?;
        attributes.push(attribute)?;
    }
    Ok(attributes)
}
