ghost use Rattle.jm_class.specs.declared.class.ClassFault.TheVariants.{Short};
ghost use Rattle.std.specs.Prelude.{false};
ghost use Rattle.jm_class.specs.ClassLayout.{attribute_field, member_field};
ghost use Rattle.jm_class.specs.Layouts.{Number, U2, listed, reading};
ghost use Rattle.jm_strip.specs.Walks.{Skips};

use crate::copies::name;
use crate::pool::Pool;
use jm_class::fields::{Missing, number16, sized};
use jm_class::{ClassFault, Cursor};

/// The interfaces.
pub fn skip_interfaces(cursor: &mut Cursor) -> Result<(), ClassFault>
    ensures { Skips (reading Short (listed (Number U2)) cursor.old) result cursor.new }
{
    let count = number16(cursor, Missing::Here)?;
    for _k in 0..count {
        number16(cursor, Missing::Here)?;
    }
    Ok(())
}

/// The attributes of a field.
fn skip_attributes(cursor: &mut Cursor, pool: &Pool) -> Result<(), ClassFault>
    ensures { Skips (reading Short (listed (attribute_field pool.now false)) cursor.old)
        result cursor.new }
{
    let count = number16(cursor, Missing::Here)?;
    for _k in 0..count {
        name(cursor, pool, Missing::Here)?;
        sized(cursor, Missing::Here)?;
    }
    Ok(())
}

/// The fields.
pub fn skip_fields(cursor: &mut Cursor, pool: &Pool) -> Result<(), ClassFault>
    ensures { Skips (reading Short (listed (member_field pool.now false)) cursor.old)
        result cursor.new }
{
    let count = number16(cursor, Missing::Here)?;
    for _k in 0..count {
        let _access = number16(cursor, Missing::Here)?;
        let _name = number16(cursor, Missing::Here)?;
        let _descriptor = number16(cursor, Missing::Here)?;
        skip_attributes(cursor, pool)?;
    }
    Ok(())
}
