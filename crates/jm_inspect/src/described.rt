//! What `describe` prints, put piece by piece: a class can say a line far longer than itself. A
//! text that is passed on is added to what is held back, and that is put once it has the bytes of
//! a piece.
ghost use Rattle.std.specs.Prelude.{◌≡◌, ◌∷◌, ◌++◌, [], OnOk, codes, flat_map};
ghost use Rattle.jm_names.specs.Shown.{shown};
ghost use Rattle.jm_texts.specs.DescribeText.{behind, behind_comma, describe_text, is_marked};
ghost use Rattle.jm_texts.specs.DescribeText.{listed_behind, main_line, module_line, need_line};
ghost use Rattle.jm_texts.specs.DescribeText.{opened_line, provides_line, uses_line, word_if};
ghost use Rattle.jm_inspect.specs.Pieces.{PassesOn, PutsText};
ghost use Rattle.jm_inspect.specs.World.{sink_at};

use crate::pieces::Pieces;
use jm_bytes::{NoMemory, extend};
use jm_modinfo::{Descriptor, Need, Opened, Provides, SharedText};
use jm_names::extend_shown;
use jm_outside::{Sink, SinkError};
use std::alloc::Global;

/// Adds a word at the end, if it is due.
fn extend_if(text: &mut Vec<u8>, due: bool, word: &[u8]) -> Result<(), NoMemory>
    ensures { OnOk result (text.new.items ≡ text.old.items ++ word_if due word.now) }
{
    if due { extend(text, word) } else { Ok(()) }
}

/// The flag 0x0020 is set.
fn is_marked(flags: u16) -> bool
    ensures { result ≡ is_marked flags }
{
    flags & 0x0020 != 0
}

/// Adds a word and a name, as it is shown, at the end.
fn extend_named(alloc: Global, text: &mut Vec<u8>, word: &[u8], name: &[u8]) -> Result<(), NoMemory>
    ensures { OnOk result (text.new.items ≡ text.old.items ++ (word.now ++ shown name.now)) }
{
    extend(text, word)?;
    extend_shown(alloc, text, name)
}

/// Adds the line on a module that is required at the end.
fn extend_need(alloc: Global, text: &mut Vec<u8>, need: &Need) -> Result<(), NoMemory>
    ensures { OnOk result (text.new.items ≡ text.old.items ++ need_line need.now) }
{
    extend(text, b"requires ")?;
    extend_if(text, is_marked(need.flags), b"transitive ")?;
    extend_if(text, need.is_static(), b"static ")?;
    extend_shown(alloc, text, need.name.as_slice())?;
    extend(text, b"\n")
}

/// Passes on a word and a name as it is shown.
fn put_named<O: Sink>(pieces: &mut Pieces<O>, word: &[u8], name: &[u8]) -> Result<(), SinkError>
    ensures { PassesOn O.Sink (word.now ++ shown name.now) result pieces.old pieces.new }
{
    extend_named(pieces.alloc, pieces.held, word, name)?;
    pieces.put_full()
}

/// Passes on a line of a word and a name.
fn put_line<O: Sink>(pieces: &mut Pieces<O>, word: &[u8], name: &[u8]) -> Result<(), SinkError>
    ensures { PassesOn O.Sink (word.now ++ shown name.now ++ 10 ∷ []) result pieces.old pieces.new }
{
    put_named(pieces, word, name)?;
    pieces.hold(b"\n")
}

/// Passes on names, each after a comma.
fn put_behind_commas<O: Sink>(pieces: &mut Pieces<O>, names: &[SharedText]) -> Result<(), SinkError>
    ensures { PassesOn O.Sink (flat_map behind_comma names.now) result pieces.old pieces.new }
{
    for name in names {
        put_named(pieces, b",", name.as_slice())?;
    }
    Ok(())
}

/// Passes on a word and names with commas between them, if there is a name.
fn put_listed_behind<O: Sink>(
    pieces: &mut Pieces<O>,
    word: &[u8],
    names: &[SharedText],
) -> Result<(), SinkError>
    ensures { PassesOn O.Sink (listed_behind word.now names.now) result pieces.old pieces.new }
{
    let Some((first, others)) = names.split_first() else {
        return Ok(());
    };
    put_named(pieces, word, first.as_slice())?;
    put_behind_commas(pieces, others)
}

/// What stands before the name of a module: that it is open, and that it is a module.
fn module_word(flags: u16) -> &'static [u8]
    ensures { result.now ≡ word_if (is_marked flags) (codes "open ") ++ codes "module " }
{
    if is_marked(flags) {
        b"open module "
    } else {
        b"module "
    }
}

/// Passes on the version of a module after its sign, if it has one.
fn put_version<O: Sink>(
    pieces: &mut Pieces<O>,
    version: &Option<SharedText>,
) -> Result<(), SinkError>
    ensures { PassesOn O.Sink (behind (codes "@") version.now) result pieces.old pieces.new }
{
    match version {
        Some(version) => put_named(pieces, b"@", version.as_slice()),
        None => Ok(()),
    }
}

/// Passes on the line on a module: its name, and its version if it has one.
fn put_module<O: Sink>(pieces: &mut Pieces<O>, d: &Descriptor) -> Result<(), SinkError>
    ensures { PassesOn O.Sink (module_line d.now) result pieces.old pieces.new }
{
    put_named(pieces, module_word(d.flags), d.name.as_slice())?;
    put_version(pieces, &d.version)?;
    pieces.hold(b"\n")
}

/// Passes on the line on a module that is required.
fn put_need<O: Sink>(pieces: &mut Pieces<O>, need: &Need) -> Result<(), SinkError>
    ensures { PassesOn O.Sink (need_line need.now) result pieces.old pieces.new }
{
    extend_need(pieces.alloc, pieces.held, need)?;
    pieces.put_full()
}

/// Passes on the lines on the modules that are required.
fn put_needs<O: Sink>(pieces: &mut Pieces<O>, needs: &[Need]) -> Result<(), SinkError>
    ensures { PassesOn O.Sink (flat_map need_line needs.now) result pieces.old pieces.new }
{
    for need in needs {
        put_need(pieces, need)?;
    }
    Ok(())
}

/// Passes on the line on a package that is exported or opened, as the word says.
fn put_package<O: Sink>(
    pieces: &mut Pieces<O>,
    word: &[u8],
    opened: &Opened,
) -> Result<(), SinkError>
    ensures { PassesOn O.Sink (opened_line word.now opened.now) result pieces.old pieces.new }
{
    put_named(pieces, word, opened.package.as_slice())?;
    put_listed_behind(pieces, b" to ", opened.to.as_slice())?;
    pieces.hold(b"\n")
}

/// Passes on the lines on packages that are exported or opened, as the word says.
fn put_packages<O: Sink>(
    pieces: &mut Pieces<O>,
    word: &[u8],
    packages: &[Opened],
) -> Result<(), SinkError>
    ensures { PassesOn O.Sink (flat_map (opened_line word.now) packages.now) result
        pieces.old pieces.new }
{
    for opened in packages {
        put_package(pieces, word, opened)?;
    }
    Ok(())
}

/// Passes on the lines on the services that are used.
fn put_uses<O: Sink>(pieces: &mut Pieces<O>, services: &[SharedText]) -> Result<(), SinkError>
    ensures { PassesOn O.Sink (flat_map uses_line services.now) result pieces.old pieces.new }
{
    for service in services {
        put_line(pieces, b"uses ", service.as_slice())?;
    }
    Ok(())
}

/// Passes on the line on a service that is provided.
fn put_provided<O: Sink>(pieces: &mut Pieces<O>, provided: &Provides) -> Result<(), SinkError>
    ensures { PassesOn O.Sink (provides_line provided.now) result pieces.old pieces.new }
{
    put_named(pieces, b"provides ", provided.service.as_slice())?;
    pieces.hold(b" with")?;
    put_listed_behind(pieces, b" ", provided.classes.as_slice())?;
    pieces.hold(b"\n")
}

/// Passes on the lines on the services that are provided.
fn put_provides<O: Sink>(pieces: &mut Pieces<O>, provides: &[Provides]) -> Result<(), SinkError>
    ensures { PassesOn O.Sink (flat_map provides_line provides.now) result pieces.old pieces.new }
{
    for provided in provides {
        put_provided(pieces, provided)?;
    }
    Ok(())
}

/// Passes on the line on the main class, if there is one.
fn put_main<O: Sink>(pieces: &mut Pieces<O>, main: &Option<SharedText>) -> Result<(), SinkError>
    ensures { PassesOn O.Sink (main_line main.now) result pieces.old pieces.new }
{
    match main {
        Some(class) => put_line(pieces, b"main ", class.as_slice()),
        None => Ok(()),
    }
}

/// Passes on a line for each thing that a descriptor says.
fn put_lines<O: Sink>(pieces: &mut Pieces<O>, d: &Descriptor) -> Result<(), SinkError>
    ensures { PassesOn O.Sink (describe_text d.now) result pieces.old pieces.new }
{
    put_module(pieces, d)?;
    put_needs(pieces, d.needs.as_slice())?;
    put_packages(pieces, b"exports ", d.exports.as_slice())?;
    put_packages(pieces, b"opens ", d.opens.as_slice())?;
    put_uses(pieces, d.uses.as_slice())?;
    put_provides(pieces, d.provides.as_slice())?;
    put_main(pieces, &d.main)
}

/// Puts the text of `describe`, piece by piece; the last piece may be empty. Beside a piece, one
/// name is held.
pub fn put_description<O: Sink>(alloc: Global, d: &Descriptor, out: &mut O) -> Result<(), SinkError>
    ensures { PutsText (describe_text d.now) result
        (sink_at O.Sink out.old) (sink_at O.Sink out.new) }
{
    let mut held = Vec::new(alloc);
    let mut pieces = Pieces {
        alloc,
        held: &mut held,
        out,
    };
    put_lines(&mut pieces, d)?;
    pieces.put_held()
}
