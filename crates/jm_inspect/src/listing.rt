ghost use Rattle.std.specs.Prelude.{◌≡◌, ◌++◌, ℕ, List, OnOk, map, flat_map};
ghost use Rattle.jm_form.specs.Head.{IsFileOf};
ghost use Rattle.jm_inspect.specs.Ledgers.{IsLedger};
ghost use Rattle.jm_inspect.specs.ListText.{list_text, sized_as, sized_line};
ghost use Rattle.jm_inspect.specs.Pieces.{PassesOn, PutsText};
ghost use Rattle.jm_inspect.specs.Steps.{PutsOfFront};
ghost use Rattle.jm_inspect.specs.World.{sink_at};

use crate::front::OpenFront;
use crate::pieces::Pieces;
use crate::stop::Stop;
use itoa::Buffer;
use jm_bytes::{List, Meter, NoMemory, extend};
use jm_filed::{TakenEntry, taken};
use jm_names::extend_shown;
use jm_outside::{Sink, SinkError};
use jm_pattern::Pattern;
use std::alloc::Global;
use std::marker::Brand;
use std::sync::ledger::{Blank, Ledger};

/// Adds the line of an entry at the end: its size in bytes, a space, its name as it is shown.
pub fn extend_line(alloc: Global, text: &mut Vec<u8>, entry: &TakenEntry) -> Result<(), NoMemory>
    ensures { OnOk result (text.new.items ≡ text.old.items ++ sized_line (sized_as entry.now)) }
{
    let name = entry.name.view().to_text(alloc)?;
    let mut size = Buffer::new();
    extend(text, size.format(entry.content.size).as_bytes())?;
    extend(text, b" ")?;
    extend_shown(alloc, text, name.as_slice())?;
    extend(text, b"\n")
}

/// Passes on the line of an entry.
fn put_line<O: Sink>(pieces: &mut Pieces<O>, entry: &TakenEntry) -> Result<(), SinkError>
    ensures { PassesOn O.Sink (sized_line (sized_as entry.now)) result pieces.old pieces.new }
{
    extend_line(pieces.alloc, pieces.held, entry)?;
    pieces.put_full()
}

/// Passes on the lines of some entries.
fn put_lines<O: Sink>(pieces: &mut Pieces<O>, entries: &[TakenEntry]) -> Result<(), SinkError>
    ensures { PassesOn O.Sink (flat_map (λ t. sized_line (sized_as t)) entries.now) result
        pieces.old pieces.new }
{
    for entry in entries {
        put_line(pieces, entry)?;
    }
    Ok(())
}

/// Puts the text of `list`, with a meter of its own; the last piece may be empty.
fn put_taken<O: Sink, R: Ledger>(
    alloc: Global,
    image: &OpenFront,
    include: &Option<List<Pattern>>,
    out: &mut O,
    reads: Blank,
) -> Result<(), SinkError>
    requires reads { IsLedger reads.name reads.parts R.name R.parts }
    ensures { (b : List ℕ) → IsFileOf image.now.front.bytes image.now.front.length b →
        PutsText (list_text b include.now) result
        (sink_at O.Sink out.old) (sink_at O.Sink out.new) }
{
    let mut reads = Meter::<R>::new(image.bytes(), reads);
    let entries = taken(alloc, image.as_index(), include, &mut reads)?;
    let mut held = Vec::new(alloc);
    let mut pieces = Pieces {
        alloc,
        held: &mut held,
        out,
    };
    put_lines(&mut pieces, entries.as_slice())?;
    pieces.put_held()
}

/// Puts the lines of the taken entries of an image, piece by piece.
pub fn put_list<O: Sink>(
    alloc: Global,
    image: &OpenFront,
    include: &Option<List<Pattern>>,
    out: &mut O,
) -> Result<(), Stop>
    ensures { PutsOfFront image.now.front (λ b. list_text b include.now) result
        (sink_at O.Sink out.old) (sink_at O.Sink out.new) }
{
    put_taken::<O, Brand>(alloc, image, include, out, Blank::new(1))?;
    Ok(())
}
