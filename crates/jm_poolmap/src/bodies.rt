ghost use Rattle.jm_poolmap.specs.Attributes.{bootstrap_method, body};
ghost use Rattle.jm_poolmap.specs.Finds.{Finds};
ghost use Rattle.jm_poolmap.specs.Forms.{Texts, Never, times};
ghost use Rattle.jm_poolmap.specs.Views.{content_of};

use crate::forms::{Content, Item, Unknown};
use crate::frames::frames;
use crate::items::{items, rows, site};
use crate::readings::{number8, number16, part};
use crate::site::FoundSite;
use jm_bytes::{List, Or};
use jm_class::Cursor;

/// That many bootstrap methods, each with its arguments.
fn methods(found: &mut List<FoundSite>, cursor: &mut Cursor, count: u16) -> Result<(), Or<Unknown>>
    ensures { (texts : Texts)
        → Finds texts (times count bootstrap_method) found.old cursor.old
        result found.new cursor.new }
{
    for _k in 0..count {
        site(found, cursor, false)?;
        let arguments = number16(cursor)?;
        rows(found, cursor, usize::from(arguments), &[Item::Site])?;
    }
    Ok(())
}

/// The body of an attribute, unless it is a Code.
pub fn body(
    found: &mut List<FoundSite>,
    cursor: &mut Cursor,
    content: Content,
) -> Result<(), Or<Unknown>>
    ensures { (texts : Texts)
        → Finds texts (body Never (content_of content)) found.old cursor.old
        result found.new cursor.new }
{
    match content {
        Content::Any => {
            let size = cursor.len();
            part(cursor, size)?;
            Ok(())
        }
        Content::Items(list) => items(found, cursor, list),
        Content::ShortRows(row) => {
            let count = number8(cursor)?;
            rows(found, cursor, usize::from(count), row)
        }
        Content::Rows(row) => {
            let count = number16(cursor)?;
            rows(found, cursor, usize::from(count), row)
        }
        Content::Methods => {
            let count = number16(cursor)?;
            methods(found, cursor, count)
        }
        Content::Frames => {
            let count = number16(cursor)?;
            frames(found, cursor, count)
        }
        Content::Code => Err(Or::Fault(Unknown)),
    }
}
