//! The command `list --sha256`: a line for each taken entry, with the digest of its content.
ghost use Rattle.std.specs.Prelude.{◌≡◌, ◌∷◌, ◌++◌, ◌≤◌, ◌+◌, [], ℕ, List, IfOk, IsUtf8, OnOk};
ghost use Rattle.std.specs.Prelude.{map, true};
ghost use Rattle.hex.specs.Hex.{encode_lower};
ghost use Rattle.sha2.specs.Sha256.{sha256};
ghost use Rattle.jm_extract.specs.Filed.{sizes};
ghost use Rattle.jm_filed.specs.Taken.{LieWithin, taken, taken_as};
ghost use Rattle.jm_form.specs.Head.{IsFileOf};
ghost use Rattle.jm_outside.specs.Shelves.{shelf_at};
ghost use Rattle.jm_inspect.specs.DigestSteps.{PutsRead};
ghost use Rattle.jm_inspect.specs.FileParts.{IsOpenFront};
ghost use Rattle.jm_inspect.specs.Ledgers.{IsLedger};
ghost use Rattle.jm_inspect.specs.ListText.{sized_as, sized_line};
ghost use Rattle.jm_inspect.specs.Pieces.{PassesOn};
ghost use Rattle.jm_inspect.specs.Steps.{WorkDoes};
ghost use Rattle.jm_inspect.specs.Taken.{TakesOfFront, work_length};
ghost use Rattle.jm_inspect.specs.World.{sink_at};

use crate::front::OpenFront;
use crate::listing::extend_line;
use crate::pieces::Pieces;
use crate::stop::Stop;
use jm_bytes::{List, Meter, NoMemory, Text, extend};
use jm_filed::{TakenEntry, read_extent, taken};
use jm_outside::{Shelf, Sink, SinkError};
use jm_pattern::Pattern;
use jm_words::ImageWork;
use sha2::{Digest, Sha256};
use std::alloc::Global;
use std::marker::Brand;
use std::sync::ledger::{Blank, Ledger};

/// Adds the line of an entry with this content at the end: the SHA-256 digest of the content
/// (FIPS 180-4) as 64 digits, a space, and the line of `list`.
fn extend_digest_line(
    alloc: Global,
    text: &mut Vec<u8>,
    entry: &TakenEntry,
    content: &[u8],
) -> Result<(), NoMemory>
    ensures { OnOk result (text.new.items ≡ text.old.items
        ++ (encode_lower (sha256 content.now) ++ 32 ∷ sized_line (sized_as entry.now))) }
{
    let digest = Sha256::digest(content);
    let digits = hex::encode(alloc, digest)?;
    extend(text, digits.as_bytes())?;
    extend(text, b" ")?;
    extend_line(alloc, text, entry)
}

/// Passes on the line of an entry with this content.
fn put_digest_line<O: Sink>(
    pieces: &mut Pieces<O>,
    entry: &TakenEntry,
    content: &[u8],
) -> Result<(), SinkError>
    ensures { PassesOn O.Sink
        (encode_lower (sha256 content.now) ++ 32 ∷ sized_line (sized_as entry.now)) result
        pieces.old pieces.new }
{
    extend_digest_line(pieces.alloc, pieces.held, entry, content)?;
    pieces.put_full()
}

/// Reads the content of an entry into a text, which is used again, and passes on its line.
fn put_digest<S: Shelf, O: Sink>(
    pieces: &mut Pieces<O>,
    path: &[u8],
    entry: &TakenEntry,
    text: &mut Text,
    shelf: &mut S,
) -> Result<(), Stop>
    requires { IsUtf8 path.now }
    ensures files { S.files shelf.new ≡ S.files shelf.old }
    ensures puts { PutsRead (S.files shelf.old) path.now (entry.now ∷ [])
        (λ lines puts. PassesOn O.Sink lines puts pieces.old pieces.new) result
        (S.faults shelf.old) (S.faults shelf.new) }
    ensures handed { S.handed shelf.new ≤ S.handed shelf.old + entry.now.content.size }
{
    read_extent(pieces.alloc, path, entry.content, text, shelf)?;
    put_digest_line(pieces, entry, text.as_slice())?;
    Ok(())
}

/// Passes on the lines of some entries. At one time one content is held.
fn put_digests<S: Shelf, O: Sink>(
    pieces: &mut Pieces<O>,
    path: &[u8],
    entries: &[TakenEntry],
    shelf: &mut S,
) -> Result<(), Stop>
    requires { IsUtf8 path.now }
    ensures files { S.files shelf.new ≡ S.files shelf.old }
    ensures puts { PutsRead (S.files shelf.old) path.now entries.now
        (λ lines puts. PassesOn O.Sink lines puts pieces.old pieces.new) result
        (S.faults shelf.old) (S.faults shelf.new) }
    ensures handed { S.handed shelf.new ≤ S.handed shelf.old + sizes entries.now }
{
    let mut text = Text::new(pieces.alloc);
    for entry in entries {
        put_digest(pieces, path, entry, &mut text, shelf)?;
    }
    Ok(())
}

/// Does what `taken` of jm_filed does, with a meter of its own.
fn taken_counted<'i, 'a, R: Ledger>(
    alloc: Global,
    image: &'i OpenFront<'a>,
    include: &Option<List<Pattern>>,
    reads: Blank,
) -> Result<List<TakenEntry<'a>>, NoMemory>
    requires reads { IsLedger reads.name reads.parts R.name R.parts }
    ensures taken { (b : List ℕ) → IsFileOf image.now.front.bytes image.now.front.length b
        → IfOk result (λ list. map (taken_as b) list ≡ taken b include.now) }
    ensures within { IfOk result (LieWithin image.now.front.length) }
{
    let mut reads = Meter::<R>::new(image.bytes(), reads);
    taken(alloc, image.as_index(), include, &mut reads)
}

/// `list --sha256`: puts the lines of the taken entries of an image, piece by piece, each after the
/// digest of its content, which is read from the image's file. The source of the run isn't lent to
/// it.
pub fn put_digest_list<S: Shelf, O: Sink>(
    alloc: Global,
    image: &OpenFront,
    include: &Option<List<Pattern>>,
    shelf: &mut S,
    out: &mut O,
) -> Result<(), Stop>
    requires { IsOpenFront (S.files shelf.old) image.now.path image.now.front }
    ensures comes { WorkDoes (ImageWork.List include.now true) image.now.path result
        (shelf_at S.Shelf shelf.old) (shelf_at S.Shelf shelf.new)
        (sink_at O.Sink out.old) (sink_at O.Sink out.new) }
    ensures takes { TakesOfFront image.now.front (work_length (ImageWork.List include.now true))
        (S.handed shelf.old) (S.handed shelf.new) }
{
    let entries = taken_counted::<Brand>(alloc, image, include, Blank::new(1))?;
    let mut held = Vec::new(alloc);
    let mut pieces = Pieces {
        alloc,
        held: &mut held,
        out,
    };
    put_digests(
        &mut pieces,
        image.path().as_slice(),
        entries.as_slice(),
        shelf,
    )?;
    pieces.put_held()?;
    Ok(())
}
