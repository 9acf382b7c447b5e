ghost use Rattle.std.specs.Prelude.{◌≡◌, false, is_some, map};
ghost use Rattle.jm_class.specs.Classes.{utf8_at, is_code_name};
ghost use Rattle.jm_class.specs.ClassLayout.{slots, pool_field};
ghost use Rattle.jm_class.specs.Layouts.{reading};
ghost use Rattle.jm_class.specs.Views.{Gives};
ghost use Rattle.jm_strip.specs.Kinds.{kind_of, kind_of_name};
ghost use Rattle.jm_strip.specs.Strip.{stays};
ghost use Rattle.jm_class.specs.declared.class.ClassFault.TheVariants.{Short};
ghost use Rattle.jm_strip.specs.Walks.{shown};

use crate::kind::{AttributeKind, kind_of};
use jm_bytes::Or;
use jm_class::fields::{Missing, number16};
use jm_class::{ClassFault, Cursor, is_wide_slot, slot};
use std::alloc::Global;
use std::marker::Model;

/// The least bytes that a number of a pool takes: a Utf8 of no byte, or a name of a class.
const LEAST: usize = 3;

/// The constants of a class by the bytes that they were read from: one kind for each number.
#[derive(Drop)]
pub struct Pool<'a> {
    kinds: Vec<AttributeKind>,
    place: usize,
    bytes: &'a [u8],
}

impl<'a> Model for Pool<'a> {
    ghost use Rattle.std.specs.Prelude.{◌≡◌, List, map};
    ghost use Rattle.jm_class.specs.Classes.{SlotData};
    ghost use Rattle.jm_strip.specs.Kinds.{kind_of, pool_at};

    ghost Value = { List SlotData };

    ghost view = { λ a. pool_at a.place a.bytes.now };

    ghost invariant = { λ a. a.kinds.items ≡ map kind_of (pool_at a.place a.bytes.now) };
}

impl<'a> Pool<'a> {
    /// What the constant of a number is.
    fn kind(&self, index: u16) -> AttributeKind
        ensures { result ≡ kind_of_name (utf8_at self.now index) }
    {
        let Some(place) = usize::from(index).checked_sub(1) else {
            return AttributeKind::Other;
        };
        match self.kinds.get(place) {
            Some(kind) => *kind,
            None => AttributeKind::Other,
        }
    }

    /// Whether the constant of a number is a Utf8.
    pub fn is_text(&self, index: u16) -> bool
        ensures { result ≡ is_some (utf8_at self.now index) }
    {
        self.kind(index).is_text()
    }

    /// Whether the constant of a number is the Utf8 `Code`.
    pub fn is_code(&self, index: u16) -> bool
        ensures { result ≡ is_code_name (utf8_at self.now index) }
    {
        self.kind(index).is_code()
    }

    /// Whether an attribute with this name stays, in a Code or in the class.
    pub fn stays(&self, index: u16, in_code: bool) -> bool
        ensures { result ≡ stays in_code self.now index }
    {
        !self.kind(index).is_debug(in_code)
    }
}

/// The kinds of that many numbers of the pool. Room is asked for no more than the bytes can hold.
fn kinds(
    alloc: Global,
    cursor: &mut Cursor,
    count: u16,
) -> Result<Vec<AttributeKind>, Or<ClassFault>>
    ensures { Gives (λ kinds. kinds.items)
        (shown (map kind_of) (reading Short (slots count false) cursor.old))
        result cursor.new }
{
    let mut kinds = Vec::with_capacity(alloc, usize::from(count).min(cursor.len() / LEAST))?;
    let mut due = false;
    for k in 0..count {
        let slot = slot(cursor, due, k + 1 < count)?;
        due = is_wide_slot(&slot);
        match kinds.push(kind_of(&slot)) {
            Ok(()) => {}
            Err(_) => return Err(Or::Memory),
        }
    }
    Ok(kinds)
}

/// The constant pool.
pub fn read_pool<'a>(alloc: Global, cursor: &mut Cursor<'a>) -> Result<Pool<'a>, Or<ClassFault>>
    ensures { Gives (λ pool. pool) (reading Short pool_field cursor.old) result cursor.new }
{
    let place = cursor.place();
    let bytes = cursor.rest();
    let count = number16(cursor, Missing::Here)?;
    if count == 0 {
        return Err(Or::Fault(ClassFault::Index(place)));
    }
    let kinds = kinds(alloc, cursor, count - 1)?;
    Ok(Pool {
        kinds,
        place,
        bytes,
    })
}
