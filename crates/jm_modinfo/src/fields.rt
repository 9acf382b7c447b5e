ghost use Rattle.std.specs.Prelude.{◌≡◌};
ghost use Rattle.std.specs.Int.{w16};
ghost use Rattle.jm_class.specs.Layouts.{reading, listed};
ghost use Rattle.jm_class.specs.Readings.{number};
ghost use Rattle.jm_class.specs.Views.{Gives};
ghost use Rattle.jm_modinfo.specs.ModuleLayout as layout;
ghost use Rattle.jm_modinfo.specs.declared.faults.InfoFault.TheVariants.{Short};

use crate::class_texts::ClassTexts;
use crate::constants::Kind;
use crate::descriptor::{Descriptor, Need, Opened, Provides};
use crate::faults::InfoFault;
use crate::shared_text::SharedText;
use jm_bytes::{List, Or};
use jm_class::Cursor;

/// A number of two bytes.
fn number(cursor: &mut Cursor) -> Result<u16, Or<InfoFault>>
    ensures { Gives (λ n. n) (number Short w16 cursor.old) result cursor.new }
{
    let at = cursor.place();
    cursor.u16().ok_or(Or::Fault(InfoFault::Short(at)))
}

/// The index of a constant of a kind, as the text for which it stands.
fn name(
    cursor: &mut Cursor,
    texts: &mut ClassTexts,
    kind: Kind,
) -> Result<SharedText, Or<InfoFault>>
    ensures class { texts.new ≡ texts.old }
    ensures text { Gives (λ text. text)
        (reading Short (layout.named texts.old.pool kind) cursor.old)
        result cursor.new }
{
    let at = cursor.place();
    let index = number(cursor)?;
    match texts.named(kind, index)? {
        Some(text) => {
            if !text.is_allowed(kind) {
                return Err(Or::Fault(InfoFault::Name(at)));
            }
            Ok(text.into_text())
        }
        None => Err(Or::Fault(InfoFault::Index(at))),
    }
}

/// The index of a version, or 0 for none.
fn version(cursor: &mut Cursor, texts: &mut ClassTexts) -> Result<Option<SharedText>, Or<InfoFault>>
    ensures class { texts.new ≡ texts.old }
    ensures version { Gives (λ version. version)
        (reading Short (layout.version texts.old.pool) cursor.old)
        result cursor.new }
{
    let at = cursor.place();
    let index = number(cursor)?;
    if index == 0 {
        return Ok(None);
    }
    match texts.utf8(index)? {
        Some(text) => Ok(Some(text.into_text())),
        None => Err(Or::Fault(InfoFault::Index(at))),
    }
}

/// A count, and that many constants of a kind.
fn names(
    cursor: &mut Cursor,
    texts: &mut ClassTexts,
    kind: Kind,
) -> Result<List<SharedText>, Or<InfoFault>>
    ensures class { texts.new ≡ texts.old }
    ensures names { Gives (λ names. names)
        (reading Short (layout.names texts.old.pool kind) cursor.old)
        result cursor.new }
{
    let count = number(cursor)?;
    let mut names = List::new(texts.allocator());
    for _k in 0..count {
        let name = name(cursor, texts, kind)?;
        names.push(name)?;
    }
    Ok(names)
}

/// The modules that are required.
fn needs(cursor: &mut Cursor, texts: &mut ClassTexts) -> Result<List<Need>, Or<InfoFault>>
    ensures class { texts.new ≡ texts.old }
    ensures needs { Gives (λ needs. needs)
        (reading Short (listed (layout.need texts.old.pool)) cursor.old)
        result cursor.new }
{
    let count = number(cursor)?;
    let mut needs = List::new(texts.allocator());
    for _k in 0..count {
        let name = name(cursor, texts, Kind::Module)?;
        let flags = number(cursor)?;
        let version = version(cursor, texts)?;
        needs.push(Need {
            name,
            flags,
            version,
        })?;
    }
    Ok(needs)
}

/// The packages that are exported or opened.
fn all_opened(cursor: &mut Cursor, texts: &mut ClassTexts) -> Result<List<Opened>, Or<InfoFault>>
    ensures class { texts.new ≡ texts.old }
    ensures all { Gives (λ all. all)
        (reading Short (listed (layout.opened texts.old.pool)) cursor.old)
        result cursor.new }
{
    let count = number(cursor)?;
    let mut all = List::new(texts.allocator());
    for _k in 0..count {
        let package = name(cursor, texts, Kind::Package)?;
        let flags = number(cursor)?;
        let to = names(cursor, texts, Kind::Module)?;
        all.push(Opened { package, flags, to })?;
    }
    Ok(all)
}

/// The services that are provided.
fn all_provides(
    cursor: &mut Cursor,
    texts: &mut ClassTexts,
) -> Result<List<Provides>, Or<InfoFault>>
    ensures class { texts.new ≡ texts.old }
    ensures all { Gives (λ all. all)
        (reading Short (listed (layout.provides texts.old.pool)) cursor.old)
        result cursor.new }
{
    let count = number(cursor)?;
    let mut all = List::new(texts.allocator());
    for _k in 0..count {
        let service = name(cursor, texts, Kind::Class)?;
        let classes = names(cursor, texts, Kind::Class)?;
        all.push(Provides { service, classes })?;
    }
    Ok(all)
}

/// The fields of the Module attribute. The main class stands elsewhere.
pub fn module(cursor: &mut Cursor, texts: &mut ClassTexts) -> Result<Descriptor, Or<InfoFault>>
    ensures class { texts.new ≡ texts.old }
    ensures module { Gives (λ d. d) (reading Short (layout.module_layout texts.old.pool) cursor.old)
        result cursor.new }
{
    let name = name(cursor, texts, Kind::Module)?;
    let flags = number(cursor)?;
    let version = version(cursor, texts)?;
    let needs = needs(cursor, texts)?;
    let exports = all_opened(cursor, texts)?;
    let opens = all_opened(cursor, texts)?;
    let uses = names(cursor, texts, Kind::Class)?;
    let provides = all_provides(cursor, texts)?;
    Ok(Descriptor {
        name,
        version,
        flags,
        needs,
        exports,
        opens,
        uses,
        provides,
        main: None,
    })
}
