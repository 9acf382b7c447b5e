//! The works on the image in a file.
ghost use Rattle.std.specs.Prelude.{◌≢◌, IsUtf8};
ghost use Rattle.jm_outside.specs.Shelves.{shelf_at};
ghost use Rattle.jm_words.specs.Paths.{FolderIsText};
ghost use Rattle.jm_inspect.specs.FileParts.{IsOpenFront};
ghost use Rattle.jm_inspect.specs.Outcome.{reading};
ghost use Rattle.jm_inspect.specs.Steps.{StepComesTo, WorkDoes};
ghost use Rattle.jm_inspect.specs.Taken.{TakesOfFront, WorkTakes, work_length};
ghost use Rattle.jm_inspect.specs.Works.{WorkComesTo};
ghost use Rattle.jm_inspect.specs.World.{sink_at, world_of};

use crate::cat_file::cat_file;
use crate::digests::put_digest_list;
use crate::extract::extract_file;
use crate::front::{FileFront, OpenFront};
use crate::info::{put_info, put_verified};
use crate::listing::put_list;
use crate::ls::ls_file;
use crate::nodes::put_judged;
use crate::serve::serve_file;
use crate::stop::Stop;
use jm_bytes::Text;
use jm_extract::Extraction;
use jm_halves::{Gate, Workers};
use jm_outside::{Shelf, Sink, Source};
use jm_words::ImageWork;
use std::alloc::Global;
use std::thread::Threads;

/// Does a work on an image whose index is open: any but `serve`, which has the whole file.
fn do_opened<S: Shelf, O: Sink>(
    alloc: Global,
    image: &OpenFront,
    work: &ImageWork,
    shelf: &mut S,
    out: &mut O,
) -> Result<(), Stop>
    requires there { IsOpenFront (S.files shelf.old) image.now.path image.now.front }
    requires folder { FolderIsText work.now }
    requires index { work.now ≢ ImageWork.Serve }
    ensures comes { WorkDoes work.now image.now.path result
        (shelf_at S.Shelf shelf.old) (shelf_at S.Shelf shelf.new)
        (sink_at O.Sink out.old) (sink_at O.Sink out.new) }
    ensures takes { TakesOfFront image.now.front (work_length work.now)
        (S.handed shelf.old) (S.handed shelf.new) }
{
    match work {
        ImageWork::Info => put_info(alloc, image, out),
        ImageWork::Verify { nodes: false } => put_verified(alloc, image, out),
        ImageWork::Verify { nodes: true } => put_judged(alloc, image, shelf, out),
        ImageWork::List {
            include,
            digests: false,
        } => put_list(alloc, image, include, out),
        ImageWork::List {
            include,
            digests: true,
        } => put_digest_list(alloc, image, include, shelf, out),
        ImageWork::Cat { name } => cat_file(alloc, image, name.as_slice(), shelf, out),
        ImageWork::Ls { path } => ls_file(alloc, image, path.as_slice(), shelf, out),
        ImageWork::Extract { dir, include } => {
            let work = Extraction {
                dir: dir.as_slice(),
                include,
            };
            extract_file(alloc, image, work, shelf, out)
        }
        ImageWork::Serve => unreachable!(),
    }
}

/// Does a work on the image in the file at a path: `serve` takes the whole file, the others its
/// index. Only `serve` reads from `input`.
///
/// After a refusal, a damage, or a name or a file that isn't there, its complaint is the error.
pub fn do_work<T: Threads + Sync, S: Shelf, I: Source, O: Sink, G: Gate + Sync>(
    workers: &Workers<T, G>,
    image: &Text,
    work: &ImageWork,
    shelf: &mut S,
    input: &mut I,
    out: &mut O,
) -> Result<(), Stop>
    requires image { IsUtf8 image.now }
    requires folder { FolderIsText work.now }
    ensures comes { StepComesTo
        (WorkComesTo (S.files shelf.old) (I.rest input.old) image.now work.now) reading result
        (world_of S.Shelf I.Source O.Sink shelf.old input.old out.old)
        (world_of S.Shelf I.Source O.Sink shelf.new input.new out.new) }
    ensures takes { WorkTakes (S.files shelf.old) image.now work.now
        (S.handed shelf.old) (S.handed shelf.new) }
{
    match work {
        ImageWork::Serve => serve_file(workers, image, shelf, input, out),
        _ => {
            let mut bytes = FileFront::new(workers.alloc);
            let front = OpenFront::at(workers, image, &mut bytes, shelf)?;
            do_opened(workers.alloc, &front, work, shelf, out)
        }
    }
}
