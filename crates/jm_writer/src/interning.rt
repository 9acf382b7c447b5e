//! The strings of all names, and where each name has its pieces among them.
ghost use Rattle.std.specs.Prelude.{◌≡◌, ◌<◌, length, All, Err, IfOk, OnOk};
ghost use Rattle.jm_names.specs.Names.{split};
ghost use Rattle.jm_form.specs.Strings.{section_of, IsZeroFree};
ghost use Rattle.jm_strings.specs.Limit.{limit};
ghost use Rattle.jm_bytes.specs.declared.faults.Or.TheVariants.{Fault};
ghost use Rattle.jm_form.specs.Layout.{pieces, texts_of, with_texts};
ghost use Rattle.jm_writer.specs.Parts.{StandAt, places_of};

use jm_bytes::{List, Or, Text};
use jm_names::split;
use jm_strings::{Full, Strings};
use std::alloc::Global;

/// The places of the four pieces of a name among the strings, in bytes from the section's front.
#[derive(Clone, Copy)]
pub struct TextPlaces {
    pub module: u32,
    pub parent: u32,
    pub base: u32,
    pub ext: u32,
}

/// The strings of some names.
#[derive(Drop)]
pub struct Interned {
    /// The pieces of all names.
    pub strings: Strings,
    /// The places of the pieces of each name.
    pub places: List<TextPlaces>,
}

/// Adds the four pieces of a name, each last where it isn't held, and answers their places.
fn intern_pieces(strings: &mut Strings, name: &[u8]) -> Result<TextPlaces, Or<Full>>
    requires { IsZeroFree name.now }
    ensures texts { OnOk result (strings.new ≡ with_texts strings.old (pieces (split name.now))) }
    ensures places { IfOk result (StandAt strings.new (split name.now)) }
    ensures full { result ≡ Err (Fault (record {})) →
        limit < length (section_of (with_texts strings.old (pieces (split name.now)))) }
{
    let pieces = split(name);
    let module = strings.intern(pieces.module)?;
    let parent = strings.intern(pieces.parent)?;
    let base = strings.intern(pieces.base)?;
    let ext = strings.intern(pieces.ext)?;
    Ok(TextPlaces {
        module,
        parent,
        base,
        ext,
    })
}

/// The strings of an image whose entries have these names. A fault exactly where their section
/// would have too many bytes.
pub fn strings_of(alloc: Global, names: &[Text]) -> Result<Interned, Or<Full>>
    requires { All IsZeroFree names.now }
    ensures texts { IfOk result (λ interned. interned.strings ≡ texts_of names.now) }
    ensures places { IfOk result (λ interned. interned.places ≡ places_of names.now) }
    ensures full { result ≡ Err (Fault (record {}))
        → limit < length (section_of (texts_of names.now)) }
{
    let mut interned = Interned {
        strings: Strings::with_capacity(alloc, names.len())?,
        places: List::with_capacity(alloc, names.len())?,
    };
    for name in names {
        let places = intern_pieces(&mut interned.strings, name.as_slice())?;
        interned.places.push(places)?;
    }
    Ok(interned)
}
