ghost use Rattle.std.specs.Prelude.{map};
ghost use Rattle.jm_class.specs.declared.class.ClassFault.TheVariants.{Short};
ghost use Rattle.jm_class.specs.ClassLayout.{member_field};
ghost use Rattle.jm_class.specs.Layouts.{Number, U2, reading, listed};
ghost use Rattle.jm_class.specs.Views.{Gives, pool_of, member_of};

use crate::attributes::attributes;
use crate::class::{ClassFault, Member, Slot};
use crate::cursor::Cursor;
use crate::fields::{Missing, number16};
use jm_bytes::{List, Or};
use std::alloc::Global;

/// The fields, or the methods.
pub fn members<'a>(
    alloc: Global,
    cursor: &mut Cursor<'a>,
    pool: &[Slot],
    in_method: bool,
) -> Result<List<Member<'a>>, Or<ClassFault>>
    ensures { Gives (map member_of)
        (reading Short (listed (member_field (pool_of pool.now) in_method)) cursor.old)
        result cursor.new }
{
    let count = number16(cursor, Missing::Here)?;
    let mut members = List::new(alloc);
    for _k in 0..count {
        let access = number16(cursor, Missing::Here)?;
        let name = number16(cursor, Missing::Here)?;
        let descriptor = number16(cursor, Missing::Here)?;
        let attributes = attributes(alloc, cursor, pool, in_method)?;
        members.push(Member {
            access,
            name,
            descriptor,
            attributes,
        })?;
    }
    Ok(members)
}

/// The interfaces.
pub fn interfaces(alloc: Global, cursor: &mut Cursor) -> Result<List<u16>, Or<ClassFault>>
    ensures { Gives (λ list. list) (reading Short (listed (Number U2)) cursor.old)
        result cursor.new }
{
    let count = number16(cursor, Missing::Here)?;
    let mut interfaces = List::new(alloc);
    for _k in 0..count {
        let interface = number16(cursor, Missing::Here)?;
        interfaces.push(interface)?;
    }
    Ok(interfaces)
}
