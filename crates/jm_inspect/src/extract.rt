//! The command `extract`.
ghost use Rattle.std.specs.Prelude.{ℕ, IsOk, IsErrOf, IsTrue, IsUtf8, List};
ghost use Rattle.std.specs.Prelude.{OnOk};
ghost use Rattle.jm_outside.specs.Outcome.{CountsFaults};
ghost use Rattle.jm_outside.specs.Shelves.{shelf_at};
ghost use Rattle.jm_extract.specs.Extracted.{Extracts, extracted, taken_size};
ghost use Rattle.jm_filed.specs.Filed.{IsFiled};
ghost use Rattle.jm_inspect.specs.ExtractText.{extract_text};
ghost use Rattle.jm_inspect.specs.FileParts.{IsOpenFront};
ghost use Rattle.jm_inspect.specs.Ledgers.{IsLedger};
ghost use Rattle.jm_inspect.specs.Outcome.{done};
ghost use Rattle.jm_inspect.specs.Steps.{PutDoes, WorkDoes};
ghost use Rattle.jm_inspect.specs.Taken.{TakesOfFront};
ghost use Rattle.jm_inspect.specs.World.{sink_at};

use crate::front::OpenFront;
use crate::output::put_text;
use crate::stop::Stop;
use jm_bytes::Meter;
use jm_extract::{ExtractStop, Extraction, extract};
use jm_outside::{Shelf, Sink};
use jm_words::ImageWork;
use std::alloc::Global;
use std::marker::Brand;
use std::sync::ledger::{Blank, Ledger};

/// Puts how many files were made.
fn put_count<O: Sink>(alloc: Global, count: usize, out: &mut O) -> Result<(), Stop>
    ensures { PutDoes (done (extract_text count)) result
        (sink_at O.Sink out.old) (sink_at O.Sink out.new) }
{
    put_text(alloc, format!(in alloc; "extracted {count}\n"), out)
}

/// Does what `extract` of jm_extract does, with a meter of its own.
fn extract_counted<S: Shelf, R: Ledger>(
    alloc: Global,
    image: &OpenFront,
    work: Extraction,
    shelf: &mut S,
    reads: Blank,
) -> Result<usize, ExtractStop>
    requires text { IsUtf8 work.dir.now }
    requires reads { IsLedger reads.name reads.parts R.name R.parts }
    ensures extracts { (b : List ℕ) → IsFiled image.now.front (S.files shelf.old) image.now.path b
        → Extracts (extracted b work.entry.include.now) work.entry.dir.now result
        (S.files shelf.old) (S.files shelf.new) }
    ensures takes { TakesOfFront image.now.front (λ b. taken_size b work.entry.include.now)
        (S.handed shelf.old) (S.handed shelf.new) }
    ensures whole { OnOk result (IsTrue (S.whole shelf.new)) }
    ensures durable { OnOk result (IsTrue (S.durable shelf.new)) }
    ensures faults { CountsFaults (S.faults shelf.old) (S.faults shelf.new) (IsOk result)
        (IsErrOf result ExtractStop.Outside) }
{
    let mut reads = Meter::<R>::new(image.bytes(), reads);
    extract(alloc, image.as_filed(), work, shelf, &mut reads)
}

/// `extract`: makes, below the directory, a file of each taken entry, and then puts how many they
/// are. A refusal changes no file; if the put fails, all files stand. The source of the run isn't
/// lent to it.
pub fn extract_file<S: Shelf, O: Sink>(
    alloc: Global,
    image: &OpenFront,
    work: Extraction,
    shelf: &mut S,
    out: &mut O,
) -> Result<(), Stop>
    requires there { IsOpenFront (S.files shelf.old) image.now.path image.now.front }
    requires text { IsUtf8 work.dir.now }
    ensures comes { WorkDoes (ImageWork.Extract work.entry.dir.now work.entry.include.now)
        image.now.path result (shelf_at S.Shelf shelf.old) (shelf_at S.Shelf shelf.new)
        (sink_at O.Sink out.old) (sink_at O.Sink out.new) }
    ensures takes { TakesOfFront image.now.front (λ b. taken_size b work.entry.include.now)
        (S.handed shelf.old) (S.handed shelf.new) }
{
    let reads = Blank::new(1);
    let count = extract_counted::<S, Brand>(alloc, image, work, shelf, reads)?;
    put_count(alloc, count, out)
}
