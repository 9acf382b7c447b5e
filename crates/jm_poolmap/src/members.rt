ghost use Rattle.jm_class.specs.Classes.{utf8_at};
ghost use Rattle.jm_class.specs.Layouts.{U2};
ghost use Rattle.jm_class.specs.Views.{plain};
ghost use Rattle.jm_poolmap.specs.Attributes.{attribute_of_code, code, body, attribute};
ghost use Rattle.jm_poolmap.specs.Finds.{Finds, Opens};
ghost use Rattle.jm_poolmap.specs.Forms.{Form, Texts, Sized, counted, site};
ghost use Rattle.jm_poolmap.specs.Instructions.{instructions};
ghost use Rattle.jm_poolmap.specs.Sites as sites;
ghost use Rattle.jm_poolmap.specs.Views.{content_of};

use crate::attributes::content_at;
use crate::bodies::body;
use crate::forms::{Content, Item, Place, Unknown};
use crate::instructions::instructions;
use crate::items::{rows, site};
use crate::readings::{end, number16, part, sized};
use crate::site::FoundSite;
use jm_bytes::{List, Or};
use jm_class::{Class, Cursor};

/// What an attribute consists of, by its name, and a cursor over its body.
fn opened<'a>(
    found: &mut List<FoundSite>,
    cursor: &mut Cursor<'a>,
    class: &Class,
    place: Place,
) -> Result<(Content, Cursor<'a>), Or<Unknown>>
    ensures { (code : Form) → Opens (utf8_at (plain class.now).pool) code place
        found.old cursor.old result found.new cursor.new }
{
    let at = cursor.place() as u64;
    let name = number16(cursor)?;
    let content = content_at(class, place, name).ok_or(Unknown)?;
    found.push(FoundSite {
        place: at,
        wide: true,
        optional: false,
        number: name,
    })?;
    let inner = sized(cursor)?;
    Ok((content, inner))
}

/// An attribute of a Code.
fn attribute_of_code(
    found: &mut List<FoundSite>,
    cursor: &mut Cursor,
    class: &Class,
) -> Result<(), Or<Unknown>>
    ensures { Finds (utf8_at (plain class.now).pool) attribute_of_code
        found.old cursor.old result found.new cursor.new }
{
    let (content, mut inner) = opened(found, cursor, class, Place::Code)?;
    body(found, &mut inner, content)?;
    end(&inner)?;
    Ok(())
}

/// The attributes of a Code.
#[tactic(auto, using(crate::proofs::Loops::times_more))]
fn attributes_of_code(
    found: &mut List<FoundSite>,
    cursor: &mut Cursor,
    class: &Class,
) -> Result<(), Or<Unknown>>
    ensures { Finds (utf8_at (plain class.now).pool) (counted U2 attribute_of_code)
        found.old cursor.old result found.new cursor.new }
{
    let count = number16(cursor)?;
    for _k in 0..count {
        attribute_of_code(found, cursor, class)?;
    }
    Ok(())
}

/// The instructions of a Code after their length.
fn sized_instructions(found: &mut List<FoundSite>, cursor: &mut Cursor) -> Result<(), Or<Unknown>>
    ensures { (texts : Texts)
        → Finds texts (Sized instructions) found.old cursor.old result found.new cursor.new }
{
    let mut inner = sized(cursor)?;
    instructions(found, &mut inner)?;
    end(&inner)?;
    Ok(())
}

/// The parts of a Code.
fn code(found: &mut List<FoundSite>, cursor: &mut Cursor, class: &Class) -> Result<(), Or<Unknown>>
    ensures { Finds (utf8_at (plain class.now).pool) code
        found.old cursor.old result found.new cursor.new }
{
    let _max_stack = part(cursor, 2)?;
    let _max_locals = part(cursor, 2)?;
    sized_instructions(found, cursor)?;
    let handlers = number16(cursor)?;
    rows(
        found,
        cursor,
        usize::from(handlers),
        &[Item::Bytes(6), Item::OptionalSite],
    )?;
    attributes_of_code(found, cursor, class)
}

/// The body of an attribute, which may be a Code.
fn body_or_code(
    found: &mut List<FoundSite>,
    cursor: &mut Cursor,
    class: &Class,
    content: Content,
) -> Result<(), Or<Unknown>>
    ensures { Finds (utf8_at (plain class.now).pool) (body code (content_of content))
        found.old cursor.old result found.new cursor.new }
{
    match content {
        Content::Code => code(found, cursor, class),
        Content::Any
        | Content::Items(_)
        | Content::ShortRows(_)
        | Content::Rows(_)
        | Content::Methods
        | Content::Frames => body(found, cursor, content),
    }
}

/// An attribute of a class, a field or a method.
fn attribute(
    found: &mut List<FoundSite>,
    cursor: &mut Cursor,
    class: &Class,
    place: Place,
) -> Result<(), Or<Unknown>>
    ensures { Finds (utf8_at (plain class.now).pool) (attribute place)
        found.old cursor.old result found.new cursor.new }
{
    let (content, mut inner) = opened(found, cursor, class, place)?;
    body_or_code(found, &mut inner, class, content)?;
    end(&inner)?;
    Ok(())
}

/// The attributes of a class, a field or a method.
#[tactic(auto, using(crate::proofs::Loops::times_more))]
fn attributes(
    found: &mut List<FoundSite>,
    cursor: &mut Cursor,
    class: &Class,
    place: Place,
) -> Result<(), Or<Unknown>>
    ensures { Finds (utf8_at (plain class.now).pool) (counted U2 (attribute place))
        found.old cursor.old result found.new cursor.new }
{
    let count = number16(cursor)?;
    for _k in 0..count {
        attribute(found, cursor, class, place)?;
    }
    Ok(())
}

/// A field or a method.
fn member(
    found: &mut List<FoundSite>,
    cursor: &mut Cursor,
    class: &Class,
    place: Place,
) -> Result<(), Or<Unknown>>
    ensures { Finds (utf8_at (plain class.now).pool) (sites.member place)
        found.old cursor.old result found.new cursor.new }
{
    let _access = part(cursor, 2)?;
    site(found, cursor, false)?;
    site(found, cursor, false)?;
    attributes(found, cursor, class, place)
}

/// The fields or the methods.
#[tactic(auto, using(crate::proofs::Loops::times_more))]
fn members(
    found: &mut List<FoundSite>,
    cursor: &mut Cursor,
    class: &Class,
    place: Place,
) -> Result<(), Or<Unknown>>
    ensures { Finds (utf8_at (plain class.now).pool) (counted U2 (sites.member place))
        found.old cursor.old result found.new cursor.new }
{
    let count = number16(cursor)?;
    for _k in 0..count {
        member(found, cursor, class, place)?;
    }
    Ok(())
}

/// The interfaces.
fn interfaces(found: &mut List<FoundSite>, cursor: &mut Cursor) -> Result<(), Or<Unknown>>
    ensures { (texts : Texts)
        → Finds texts (counted U2 site) found.old cursor.old result found.new cursor.new }
{
    let count = number16(cursor)?;
    for _k in 0..count {
        site(found, cursor, false)?;
    }
    Ok(())
}

/// A class from the end of its pool on.
pub fn class_parts(
    found: &mut List<FoundSite>,
    cursor: &mut Cursor,
    class: &Class,
) -> Result<(), Or<Unknown>>
    ensures { Finds (utf8_at (plain class.now).pool) sites.class
        found.old cursor.old result found.new cursor.new }
{
    let _access = part(cursor, 2)?;
    site(found, cursor, false)?;
    site(found, cursor, true)?;
    interfaces(found, cursor)?;
    members(found, cursor, class, Place::Field)?;
    members(found, cursor, class, Place::Method)?;
    attributes(found, cursor, class, Place::Class)
}
