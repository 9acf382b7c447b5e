//! `ls` on an image whose index is open: by the index, and then the content of the folder's node.
ghost use Rattle.std.specs.Prelude.{◌≡◌, ℕ, List, Err, IfOk, option_map};
ghost use Rattle.jm_form.specs.Head.{IsFileOf};
ghost use Rattle.jm_outside.specs.Shelves.{shelf_at};
ghost use Rattle.jm_jrt.specs.Reply.{held_lines};
ghost use Rattle.jm_jrt.specs.Stat.{held, node_content, node_sought, stat};
ghost use Rattle.jm_inspect.specs.Ledgers.{IsLedger};
ghost use Rattle.jm_inspect.specs.FileParts.{IsOpenFront};
ghost use Rattle.jm_inspect.specs.Outcome.{ls_outcome};
ghost use Rattle.jm_inspect.specs.Pieces.{PutsText};
ghost use Rattle.jm_inspect.specs.Steps.{PutDoes, WorkDoes, outcome_of};
ghost use Rattle.jm_inspect.specs.Sought.{Seeks};
ghost use Rattle.jm_inspect.specs.Taken.{TakesOfFront, work_length};
ghost use Rattle.jm_inspect.specs.World.{sink_at};

use crate::blanks::Blanks;
use crate::complaint::Complaint;
use crate::front::OpenFront;
use crate::pieces::{PIECE, put_piece};
use crate::sought::sought_content;
use crate::stop::Stop;
use jm_bytes::{Meter, NoMemory, Steps, Text};
use jm_form::Row;
use jm_jrt::{ChildList, JrtError, children_in, extend_next_children, node_row};
use jm_names::to_utf8;
use jm_outside::{Shelf, Sink, SinkError};
use jm_words::ImageWork;
use std::alloc::Global;
use std::marker::Brand;
use std::sync::ledger::Ledger;

/// The folder of an image that is asked for, and the content of its node, if it has one.
#[derive(Clone, Copy)]
struct AskedFolder<'i, 'p, 'c, 'a> {
    image: &'i OpenFront<'a>,
    path: &'p [u8],
    content: Option<&'c [u8]>,
}

/// Why no folder of a path is listed.
fn ls_complaint(alloc: Global, path: &[u8], error: JrtError) -> Result<Complaint, NoMemory>
    ensures { IfOk result (λ given. ls_outcome path.now (Err error) ≡ outcome_of given) }
{
    match error {
        JrtError::NotThere => Ok(Complaint::NotThere(to_utf8(alloc, path)?)),
        JrtError::BadNode(at) => Ok(Complaint::BadNode(at)),
        JrtError::NotFolder => Ok(Complaint::NotFolder),
    }
}

/// Puts the lines of the children of the folder at a path, piece by piece; the last piece may be
/// empty.
fn put_children<O: Sink, R: Ledger>(
    alloc: Global,
    path: &[u8],
    list: &mut ChildList,
    out: &mut O,
    reads: &mut Meter<R>,
) -> Result<(), SinkError>
    requires { reads.old.bytes ≡ list.old.bytes }
    ensures { PutsText (held_lines path.now list.old.rest) result
        (sink_at O.Sink out.old) (sink_at O.Sink out.new) }
{
    let mut text = Vec::new(alloc);
    while extend_next_children(alloc, &mut text, path, list, PIECE, reads)? {
        put_piece(alloc, &mut text, out)?;
    }
    out.put(alloc, text.as_slice())
}

/// The row of the node that says what stands at a path, with counters of its own.
fn node_counted<H: Ledger, R: Ledger>(image: &OpenFront, path: &[u8], blanks: Blanks) -> Option<Row>
    requires hashes { IsLedger blanks.hashes.name blanks.hashes.parts H.name H.parts }
    requires reads { IsLedger blanks.reads.name blanks.reads.parts R.name R.parts }
    ensures { Seeks (λ b. node_sought b path.now) image.now.front result }
{
    let mut hashes = Steps::<H>::new(blanks.hashes);
    let mut reads = Meter::<R>::new(image.bytes(), blanks.reads);
    node_row(image.as_index(), path, &mut hashes, &mut reads)
}

/// The bytes of a text, if there is one.
fn bytes_of(text: &Option<Text>) -> Option<&[u8]>
    ensures { option_map (λ c. c.now) result ≡ text.now }
{
    match text {
        Some(text) => Some(text.as_slice()),
        None => None,
    }
}

/// Lists a folder, with counters of its own.
fn list_folder<O: Sink, H: Ledger, R: Ledger>(
    alloc: Global,
    asked: AskedFolder,
    out: &mut O,
    blanks: Blanks,
) -> Result<(), Stop>
    requires hashes { IsLedger blanks.hashes.name blanks.hashes.parts H.name H.parts }
    requires reads { IsLedger blanks.reads.name blanks.reads.parts R.name R.parts }
    ensures { (b : List ℕ)
        → IsFileOf asked.entry.image.now.front.bytes asked.entry.image.now.front.length b
        → node_content b asked.entry.path.now ≡ option_map (λ c. c.now) asked.entry.content
        → PutDoes (ls_outcome asked.entry.path.now (held (stat b asked.entry.path.now))) result
        (sink_at O.Sink out.old) (sink_at O.Sink out.new) }
{
    let AskedFolder {
        image,
        path,
        content,
    } = asked;
    let mut hashes = Steps::<H>::new(blanks.hashes);
    let mut reads = Meter::<R>::new(image.bytes(), blanks.reads);
    match children_in(image.as_index(), path, content, &mut hashes, &mut reads) {
        Ok(mut list) => Ok(put_children(alloc, path, &mut list, out, &mut reads)?),
        Err(error) => Err(Stop::Complaint(ls_complaint(alloc, path, error)?)),
    }
}

/// `ls`: the children of the folder at a path, in the image's order. The source of the run isn't
/// lent to it.
pub fn ls_file<S: Shelf, O: Sink>(
    alloc: Global,
    image: &OpenFront,
    path: &[u8],
    shelf: &mut S,
    out: &mut O,
) -> Result<(), Stop>
    requires { IsOpenFront (S.files shelf.old) image.now.path image.now.front }
    ensures comes { WorkDoes (ImageWork.Ls path.now) image.now.path result
        (shelf_at S.Shelf shelf.old) (shelf_at S.Shelf shelf.new)
        (sink_at O.Sink out.old) (sink_at O.Sink out.new) }
    ensures takes { TakesOfFront image.now.front (work_length (ImageWork.Ls path.now))
        (S.handed shelf.old) (S.handed shelf.new) }
{
    let row = node_counted::<Brand, Brand>(image, path, Blanks::new());
    let content = sought_content(alloc, image, &row, shelf)?;
    let asked = AskedFolder {
        image,
        path,
        content: bytes_of(&content),
    };
    list_folder::<O, Brand, Brand>(alloc, asked, out, Blanks::new())
}
