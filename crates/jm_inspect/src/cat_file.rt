//! `cat` on an image whose index is open: by the index, and then the one content.
ghost use Rattle.std.specs.Prelude.{ℕ, List, None, Err};
ghost use Rattle.jm_form.specs.Validity.{look};
ghost use Rattle.jm_outside.specs.Shelves.{shelf_at};
ghost use Rattle.jm_inspect.specs.Ledgers.{IsLedger};
ghost use Rattle.jm_inspect.specs.FileParts.{IsOpenFront};
ghost use Rattle.jm_inspect.specs.Outcome.{cat_outcome};
ghost use Rattle.jm_inspect.specs.Steps.{PutDoes, WorkDoes};
ghost use Rattle.jm_inspect.specs.Sinks.{Seen};
ghost use Rattle.jm_inspect.specs.Sought.{Seeks};
ghost use Rattle.jm_inspect.specs.Taken.{TakesOfFront, work_length};
ghost use Rattle.jm_inspect.specs.World.{sink_at};

use crate::blanks::Blanks;
use crate::complaint::Complaint;
use crate::front::OpenFront;
use crate::output::put_output;
use crate::sought::sought_content;
use crate::stop::Stop;
use jm_bytes::{Meter, Steps};
use jm_form::Row;
use jm_names::to_utf8;
use jm_outside::{Shelf, Sink};
use jm_reader::find_row_in;
use jm_words::ImageWork;
use std::alloc::Global;
use std::marker::Brand;
use std::sync::ledger::Ledger;

/// Does what `find_row_in` does, with counters of its own.
pub fn find_counted<H: Ledger, R: Ledger>(
    image: &OpenFront,
    name: &[u8],
    blanks: Blanks,
) -> Option<Row>
    requires hashes { IsLedger blanks.hashes.name blanks.hashes.parts H.name H.parts }
    requires reads { IsLedger blanks.reads.name blanks.reads.parts R.name R.parts }
    ensures { Seeks (λ b. look b name.now) image.now.front result }
{
    let mut hashes = Steps::<H>::new(blanks.hashes);
    let mut reads = Meter::<R>::new(image.bytes(), blanks.reads);
    find_row_in(image.as_index(), name, &mut hashes, &mut reads)
}

/// What ends the run where no entry has the name.
fn no_entry(alloc: Global, name: &[u8]) -> Stop
    ensures { (out : Seen (List ℕ)) → PutDoes (cat_outcome name.now None) (Err result) out out }
{
    match to_utf8(alloc, name) {
        Ok(text) => Stop::Complaint(Complaint::NotThere(text)),
        Err(_) => Stop::Memory,
    }
}

/// `cat`: the content of the entry of a name. The source of the run isn't lent to it.
pub fn cat_file<S: Shelf, O: Sink>(
    alloc: Global,
    image: &OpenFront,
    name: &[u8],
    shelf: &mut S,
    out: &mut O,
) -> Result<(), Stop>
    requires { IsOpenFront (S.files shelf.old) image.now.path image.now.front }
    ensures comes { WorkDoes (ImageWork.Cat name.now) image.now.path result
        (shelf_at S.Shelf shelf.old) (shelf_at S.Shelf shelf.new)
        (sink_at O.Sink out.old) (sink_at O.Sink out.new) }
    ensures takes { TakesOfFront image.now.front (work_length (ImageWork.Cat name.now))
        (S.handed shelf.old) (S.handed shelf.new) }
{
    let row = find_counted::<Brand, Brand>(image, name, Blanks::new());
    match sought_content(alloc, image, &row, shelf)? {
        Some(content) => put_output(alloc, content.as_slice(), out),
        None => Err(no_entry(alloc, name)),
    }
}
