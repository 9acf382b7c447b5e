ghost use Rattle.jm_poolmap.specs.Forms.{Texts, Site, times};
ghost use Rattle.jm_poolmap.specs.Items.{item_form, items};
ghost use Rattle.jm_poolmap.specs.Finds.{Finds};
ghost use Rattle.std.specs.Prelude.{true};

use crate::forms::{Item, Unknown};
use crate::readings::{number8, number16, part};
use crate::site::FoundSite;
use jm_bytes::{List, Or};
use jm_class::Cursor;

/// A site of two bytes; where it is optional 0 may stand there.
pub fn site(
    found: &mut List<FoundSite>,
    cursor: &mut Cursor,
    optional: bool,
) -> Result<(), Or<Unknown>>
    ensures { (texts : Texts)
        → Finds texts (Site true optional) found.old cursor.old result found.new cursor.new }
{
    let place = cursor.place() as u64;
    let number = number16(cursor)?;
    found.push(FoundSite {
        place,
        wide: true,
        optional,
        number,
    })?;
    Ok(())
}

fn step(found: &mut List<FoundSite>, cursor: &mut Cursor, item: Item) -> Result<(), Or<Unknown>>
    ensures { (texts : Texts)
        → Finds texts (item_form item) found.old cursor.old result found.new cursor.new }
{
    match item {
        Item::Bytes(n) => {
            part(cursor, usize::from(n))?;
            Ok(())
        }
        Item::Site => site(found, cursor, false),
        Item::OptionalSite => site(found, cursor, true),
        Item::ByteSite => {
            let place = cursor.place() as u64;
            let number = number8(cursor)?;
            found.push(FoundSite {
                place,
                wide: false,
                optional: false,
                number: u16::from(number),
            })?;
            Ok(())
        }
    }
}

/// Items one after the other.
pub fn items(
    found: &mut List<FoundSite>,
    cursor: &mut Cursor,
    list: &[Item],
) -> Result<(), Or<Unknown>>
    ensures { (texts : Texts)
        → Finds texts (items list.now) found.old cursor.old result found.new cursor.new }
{
    for item in list {
        step(found, cursor, *item)?;
    }
    Ok(())
}

/// That many rows of the same items.
pub fn rows(
    found: &mut List<FoundSite>,
    cursor: &mut Cursor,
    count: usize,
    row: &[Item],
) -> Result<(), Or<Unknown>>
    ensures { (texts : Texts)
        → Finds texts (times count (items row.now)) found.old cursor.old
        result found.new cursor.new }
{
    for _k in 0..count {
        items(found, cursor, row)?;
    }
    Ok(())
}
