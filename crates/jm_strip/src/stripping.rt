ghost use Rattle.std.specs.Prelude.{◌≡◌, false, filter};
ghost use Rattle.jm_class.specs.declared.class.ClassFault.TheVariants.{Short};
ghost use Rattle.jm_class.specs.Classes.{attribute_text, counted_text, class_text};
ghost use Rattle.jm_class.specs.ClassLayout.{attribute_field, class_fields};
ghost use Rattle.jm_class.specs.Layouts.{listed, reading};
ghost use Rattle.jm_class.specs.Views.{Gives};
ghost use Rattle.jm_strip.specs.Strip.{stays, strip, StripsFor};
ghost use Rattle.jm_strip.specs.Walks.{shown, Puts, Strips};

use crate::lists::keep_attributes;
use crate::methods::strip_methods;
use crate::pool::{Pool, read_pool};
use crate::skips::{skip_fields, skip_interfaces};
use jm_bytes::{Or, Text, extend};
use jm_class::fields::{Missing, number16};
use jm_class::{ClassFault, Cursor, DEFAULT_RELEASE, magic, major, release_fault};
use std::alloc::Global;

/// The attributes of the class.
fn strip_attributes(
    cursor: &mut Cursor,
    text: &mut Vec<u8>,
    pool: &Pool,
) -> Result<(), Or<ClassFault>>
    ensures { Puts
        (λ xs. counted_text attribute_text (filter (λ a. stays false pool.now a.name) xs))
        (reading Short (listed (attribute_field pool.now false)) cursor.old)
        result cursor.new text.old.items text.new.items }
{
    keep_attributes(cursor, text, pool, Missing::Here, false)
}

/// The fields of a class: what stands before the methods goes as it is.
fn strip_class(alloc: Global, bytes: &[u8], cursor: &mut Cursor) -> Result<Vec<u8>, Or<ClassFault>>
    requires { cursor.old ≡ record { place = 0; bytes = bytes.now } }
    ensures { Gives (λ text. text.items)
        (shown (λ c. class_text (strip c)) (reading Short class_fields cursor.old))
        result cursor.new }
{
    let _magic = magic(cursor)?;
    let _minor = number16(cursor, Missing::Here)?;
    let _major = major(cursor)?;
    let pool = read_pool(alloc, cursor)?;
    let _access = number16(cursor, Missing::Here)?;
    let _this_class = number16(cursor, Missing::Here)?;
    let _super_class = number16(cursor, Missing::Here)?;
    skip_interfaces(cursor)?;
    skip_fields(cursor, &pool)?;
    let (front, _) = bytes.split_at(bytes.len() - cursor.len());
    let mut text = Vec::with_capacity(alloc, bytes.len())?;
    extend(&mut text, front)?;
    strip_methods(cursor, &mut text, &pool)?;
    strip_attributes(cursor, &mut text, &pool)?;
    Ok(text)
}

/// The text of a class of whatever release without its debug information, and nothing after the
/// class.
fn whole(alloc: Global, bytes: &[u8]) -> Result<Text, Or<ClassFault>>
    ensures { Strips bytes.now result }
{
    let mut cursor = Cursor::new(bytes);
    let text = strip_class(alloc, bytes, &mut cursor)?;
    if cursor.len() != 0 {
        return Err(Or::Fault(ClassFault::Rest(cursor.place())));
    }
    Ok(Text::from_vec(text))
}

/// A class file of a release without its debug information: the line numbers and local variables of
/// each Code, and the source file and its extension of the class. A fault is the one that
/// `read_for` finds. It asks for memory twice at most.
pub fn strip_for(alloc: Global, release: u32, bytes: &[u8]) -> Result<Text, Or<ClassFault>>
    ensures { StripsFor release bytes.now result }
{
    match release_fault(release, bytes) {
        Some(fault) => Err(Or::Fault(fault)),
        None => whole(alloc, bytes),
    }
}

/// A class file of release 21 without its debug information, as `strip_for` leaves it.
pub fn strip(alloc: Global, bytes: &[u8]) -> Result<Text, Or<ClassFault>>
    ensures { StripsFor 21 bytes.now result }
{
    strip_for(alloc, DEFAULT_RELEASE, bytes)
}
