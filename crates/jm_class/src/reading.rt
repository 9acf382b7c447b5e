ghost use Rattle.std.specs.Prelude.{◌≡◌, option_map};
ghost use Rattle.jm_class.specs.Classes.{utf8_at};
ghost use Rattle.jm_class.specs.ClassLayout.{magic_field, major_field, parts_field, class_fields};
ghost use Rattle.jm_class.specs.Layouts.{reading};
ghost use Rattle.jm_class.specs.Releases.{IsReadFor};
ghost use Rattle.jm_class.specs.Views.{Reads, Gives, ReadsClass, pool_of, plain};
ghost use Rattle.jm_class.specs.declared.class.ClassFault.TheVariants.{Short};

use crate::attributes::attributes;
use crate::class::{Class, ClassFault, Slot};
use crate::constants::{pool, utf8_in};
use crate::cursor::Cursor;
use crate::fields::{Missing, number16, number32};
use crate::members::{interfaces, members};
use crate::release::{DEFAULT_RELEASE, release_fault};
use jm_bytes::{List, Or};
use std::alloc::Global;

pub const MAGIC: u32 = 0xCAFE_BABE;

/// The magic.
pub fn magic(cursor: &mut Cursor) -> Result<u32, ClassFault>
    ensures { Reads (λ n. n) (reading Short magic_field cursor.old) result cursor.new }
{
    let found = number32(cursor, Missing::Here)?;
    if found != MAGIC {
        return Err(ClassFault::Magic);
    }
    Ok(found)
}

/// The major version.
pub fn major(cursor: &mut Cursor) -> Result<u16, ClassFault>
    ensures { Reads (λ n. n) (reading Short major_field cursor.old) result cursor.new }
{
    let major = number16(cursor, Missing::Here)?;
    if major < 45 || 69 < major {
        return Err(ClassFault::Version(major));
    }
    Ok(major)
}

/// What stands after the pool of a class.
fn parts<'a>(
    alloc: Global,
    cursor: &mut Cursor<'a>,
    minor: u16,
    major: u16,
    pool: List<Slot<'a>>,
) -> Result<Class<'a>, Or<ClassFault>>
    ensures { Gives plain (reading Short (parts_field minor major (pool_of pool.entry)) cursor.old)
        result cursor.new }
{
    let access = number16(cursor, Missing::Here)?;
    let this_class = number16(cursor, Missing::Here)?;
    let super_class = number16(cursor, Missing::Here)?;
    let interfaces = interfaces(alloc, cursor)?;
    let slots = pool.as_slice();
    let fields = members(alloc, cursor, slots, false)?;
    let methods = members(alloc, cursor, slots, true)?;
    let attributes = attributes(alloc, cursor, slots, false)?;
    Ok(Class {
        minor,
        major,
        pool,
        access,
        this_class,
        super_class,
        interfaces,
        fields,
        methods,
        attributes,
    })
}

/// The fields of a class.
fn class<'a>(alloc: Global, cursor: &mut Cursor<'a>) -> Result<Class<'a>, Or<ClassFault>>
    ensures { Gives plain (reading Short class_fields cursor.old) result cursor.new }
{
    let _magic = magic(cursor)?;
    let minor = number16(cursor, Missing::Here)?;
    let major = major(cursor)?;
    let pool = pool(alloc, cursor)?;
    parts(alloc, cursor, minor, major, pool)
}

/// The class that all of some bytes are, of whatever release.
fn whole<'a>(alloc: Global, bytes: &'a [u8]) -> Result<Class<'a>, Or<ClassFault>>
    ensures { ReadsClass bytes.now result }
{
    let mut cursor = Cursor::new(bytes);
    let class = class(alloc, &mut cursor)?;
    if cursor.len() != 0 {
        return Err(Or::Fault(ClassFault::Rest(cursor.place())));
    }
    Ok(class)
}

/// Reads a class file of a release of Java SE. A fault is that of the first field from left to
/// right that doesn't fit or isn't allowed, by JVMS 4 and the rules of this project.
pub fn read_for<'a>(
    alloc: Global,
    release: u32,
    bytes: &'a [u8],
) -> Result<Class<'a>, Or<ClassFault>>
    ensures { IsReadFor release bytes.now result }
{
    match release_fault(release, bytes) {
        Some(fault) => Err(Or::Fault(fault)),
        None => whole(alloc, bytes),
    }
}

/// Reads a class file of release 21, as `read_for` does.
pub fn read<'a>(alloc: Global, bytes: &'a [u8]) -> Result<Class<'a>, Or<ClassFault>>
    ensures { IsReadFor 21 bytes.now result }
{
    read_for(alloc, DEFAULT_RELEASE, bytes)
}

/// The bytes of the Utf8 of a number, from 1 on; none where the constant isn't one.
pub fn utf8<'a>(class: &Class<'a>, index: u16) -> Option<&'a [u8]>
    ensures { option_map (λ text. text.now) result ≡ utf8_at (plain class.now).pool index }
{
    utf8_in(class.pool.as_slice(), index)
}
