ghost use Rattle.std.specs.Prelude.{◌≡◌, false, option_map};
ghost use Rattle.jm_class.specs.Classes.{body_size, is_wide, utf8_at};
ghost use Rattle.jm_class.specs.ClassLayout.{tag_field, body_field, slot_field, pool_field};
ghost use Rattle.jm_class.specs.ClassLayout.{is_wide_slot};
ghost use Rattle.jm_class.specs.Layouts.{reading};
ghost use Rattle.jm_class.specs.declared.class.ClassFault.TheVariants.{Short};
ghost use Rattle.jm_class.specs.Views.{Reads, Gives, slot_of, pool_of};

use crate::class::{ClassFault, Slot};
use crate::cursor::Cursor;
use crate::fields::{Missing, number16, part};
use jm_bytes::{List, Or};
use std::alloc::Global;

const UTF8: u8 = 1;

/// How many bytes stand after a tag; none for a Utf8 and where there is no such tag.
fn body_size(tag: u8) -> Option<usize>
    ensures { result ≡ body_size tag }
{
    match tag {
        3 | 4 => Some(4),
        5 | 6 => Some(8),
        7 | 8 | 16 | 19 | 20 => Some(2),
        9 | 10 | 11 | 12 | 17 | 18 => Some(4),
        15 => Some(3),
        _ => None,
    }
}

/// Whether a constant takes two numbers: a Long or a Double.
fn is_wide(tag: u8) -> bool
    ensures { result ≡ is_wide tag }
{
    tag == 5 || tag == 6
}

/// The tag of a constant. A Long or a Double needs one number more.
fn tag(cursor: &mut Cursor, more: bool) -> Result<u8, ClassFault>
    ensures { Reads (λ tag. tag) (reading Short (tag_field more) cursor.old) result cursor.new }
{
    let at = cursor.place();
    let tag = cursor.u8().ok_or(Missing::Here.fault(at))?;
    if tag != UTF8 && body_size(tag).is_none() {
        return Err(ClassFault::Tag(at));
    }
    if is_wide(tag) && !more {
        return Err(ClassFault::Index(at));
    }
    Ok(tag)
}

/// What stands after a tag. A Utf8 that doesn't fit is short at its length.
fn body<'a>(cursor: &mut Cursor<'a>, tag: u8) -> Result<&'a [u8], ClassFault>
    ensures { Reads (λ body. body.now) (reading Short (body_field tag) cursor.old)
        result cursor.new }
{
    match body_size(tag) {
        Some(size) => part(cursor, size, Missing::Here),
        None => {
            let missing = Missing::Within(ClassFault::Short(cursor.place()));
            let size = number16(cursor, missing)?;
            part(cursor, size as usize, missing)
        }
    }
}

/// A number of the pool: a hole where one is due, else a constant.
pub fn slot<'a>(cursor: &mut Cursor<'a>, due: bool, more: bool) -> Result<Slot<'a>, ClassFault>
    ensures { Reads slot_of (reading Short (slot_field due more) cursor.old) result cursor.new }
{
    if due {
        return Ok(Slot::Hole);
    }
    let tag = tag(cursor, more)?;
    let body = body(cursor, tag)?;
    Ok(Slot::Constant { tag, body })
}

/// Whether a hole is due after a slot.
pub fn is_wide_slot(slot: &Slot) -> bool
    ensures { result ≡ is_wide_slot (slot_of slot.now) }
{
    match slot {
        Slot::Constant { tag, .. } => is_wide(*tag),
        Slot::Hole => false,
    }
}

/// The constant pool.
pub fn pool<'a>(alloc: Global, cursor: &mut Cursor<'a>) -> Result<List<Slot<'a>>, Or<ClassFault>>
    ensures { Gives pool_of (reading Short pool_field cursor.old) result cursor.new }
{
    let at = cursor.place();
    let count = number16(cursor, Missing::Here)?;
    if count == 0 {
        return Err(Or::Fault(ClassFault::Index(at)));
    }
    let numbers = count - 1;
    let mut slots = List::new(alloc);
    let mut due = false;
    for k in 0..numbers {
        let slot = slot(cursor, due, k + 1 < numbers)?;
        due = is_wide_slot(&slot);
        slots.push(slot)?;
    }
    Ok(slots)
}

/// The bytes of the Utf8 of a number; none where the constant isn't one.
pub fn utf8_in<'a>(pool: &[Slot<'a>], index: u16) -> Option<&'a [u8]>
    ensures { option_map (λ text. text.now) result ≡ utf8_at (pool_of pool.now) index }
{
    let place = usize::from(index).checked_sub(1)?;
    match pool.get(place)? {
        Slot::Constant { tag: UTF8, body } => Some(*body),
        _ => None,
    }
}
