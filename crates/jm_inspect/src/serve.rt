//! The command `serve`.
ghost use Rattle.std.specs.Prelude.{◌≡◌, IsOk, IsErrOf, IsUtf8, length};
ghost use Rattle.jm_bytes.specs.Metered.{Metered};
ghost use Rattle.jm_outside.specs.Outcome.{CountsFaults};
ghost use Rattle.jm_jrt.specs.Sessions.{Serves};
ghost use Rattle.jm_inspect.specs.FileParts.{IsSoundFile, Opens, ReadsFile};
ghost use Rattle.jm_inspect.specs.Ledgers.{IsLedger};
ghost use Rattle.jm_inspect.specs.Outcome.{reading};
ghost use Rattle.jm_inspect.specs.Steps.{StepComesTo};
ghost use Rattle.jm_inspect.specs.Works.{WorkComesTo};
ghost use Rattle.jm_inspect.specs.Stops.{stop_of_session};
ghost use Rattle.jm_inspect.specs.Taken.{TakesFrom};
ghost use Rattle.jm_inspect.specs.World.{world_of};

use crate::blanks::Blanks;
use crate::complaint::Complaint;
use crate::front::{file_length, file_part};
use crate::stop::Stop;
use jm_bytes::{Meter, Steps, Text};
use jm_halves::{Gate, Workers};
use jm_jrt::{ServeError, serve};
use jm_outside::{Shelf, Sink, Source};
use jm_valid::Image;
use jm_words::ImageWork;
use std::alloc::Global;
use std::marker::{Brand, Model};
use std::sync::ledger::Ledger;
use std::thread::Threads;

/// All bytes of the file at a path, as one part after its length: a shelf of the system refuses so
/// what is no file, as a pipe, before it waits for it.
fn whole_file<S: Shelf>(alloc: Global, path: &Text, shelf: &mut S) -> Result<Text, Stop>
    requires { IsUtf8 path.now }
    ensures files { S.files shelf.new ≡ S.files shelf.old }
    ensures reads { ReadsFile (S.files shelf.old) path.now result }
    ensures takes { TakesFrom (S.files shelf.old) path.now (λ b. length b)
        (S.handed shelf.old) (S.handed shelf.new) }
    ensures faults { CountsFaults (S.faults shelf.old) (S.faults shelf.new) (IsOk result)
        (IsErrOf result Stop.Outside) }
{
    let length = file_length(alloc, path, shelf)?;
    file_part(alloc, path, 0, length as usize, shelf)
}

/// An image beside the bytes that it is: a meter of what is read of it is made of the bytes.
#[derive(Drop)]
struct Opened<'a> {
    image: Image<'a>,
    bytes: &'a [u8],
}

impl<'a> Model for Opened<'a> {
    ghost use Rattle.std.specs.Prelude.{◌≡◌, List, ℕ};

    ghost Value = { List ℕ };

    ghost view = { λ a. a.bytes.now };

    ghost invariant = { λ a. a.image ≡ a.bytes.now };
}

impl<'a> Opened<'a> {
    /// Opens the image in the file at a path, on all jobs, of which all bytes are read to `bytes`.
    fn at<T: Threads + Sync, S: Shelf, G: Gate + Sync>(
        workers: &Workers<T, G>,
        path: &Text,
        bytes: &'a mut Text,
        shelf: &mut S,
    ) -> Result<Opened<'a>, Stop>
        requires { IsUtf8 path.now }
        ensures files { S.files shelf.new ≡ S.files shelf.old }
        ensures opens { Opens (S.files shelf.old) path.now
            (IsSoundFile (S.files shelf.old) path.now) result }
        ensures takes { TakesFrom (S.files shelf.old) path.now (λ b. length b)
            (S.handed shelf.old) (S.handed shelf.new) }
        ensures faults { CountsFaults (S.faults shelf.old) (S.faults shelf.new) (IsOk result)
            (IsErrOf result Stop.Outside) }
    {
        *bytes = whole_file(workers.alloc, path, shelf)?;
        let bytes = bytes.as_slice();
        let image = Image::open(workers, bytes)?;
        Ok(Opened { image, bytes })
    }

    /// The image.
    fn as_image(&self) -> &Image<'a>
        ensures { result.now ≡ self.now }
    {
        &self.image
    }

    /// The bytes that it is.
    fn bytes(&self) -> &'a [u8]
        ensures { result.now ≡ self.now }
    {
        self.bytes
    }
}

/// Does what `serve` of jm_jrt does, with counters of its own.
fn serve_counted<I: Source, O: Sink, H: Ledger, R: Ledger>(
    alloc: Global,
    image: &Opened,
    input: &mut I,
    out: &mut O,
    blanks: Blanks,
) -> Result<u64, ServeError>
    requires hashes { IsLedger blanks.hashes.name blanks.hashes.parts H.name H.parts }
    requires reads { IsLedger blanks.reads.name blanks.reads.parts R.name R.parts }
    ensures serves { (before : Metered) × (after : Metered) × Serves image.now result
        (I.rest input.old) (I.rest input.new) (O.content out.old) (O.content out.new)
        before after }
    ensures input_faults { CountsFaults (I.faults input.old) (I.faults input.new) (IsOk result)
        (IsErrOf result ServeError.ReadFault) }
    ensures out_faults { CountsFaults (O.faults out.old) (O.faults out.new) (IsOk result)
        (IsErrOf result ServeError.WriteFault) }
{
    let mut hashes = Steps::<H>::new(blanks.hashes);
    let mut reads = Meter::<R>::new(image.bytes(), blanks.reads);
    serve(alloc, image.as_image(), input, out, &mut hashes, &mut reads)
}

/// How the step of a session ends.
fn stop_of_session(answered: Result<u64, ServeError>) -> Result<(), Stop>
    ensures { result ≡ stop_of_session answered }
{
    match answered {
        Ok(_) => Ok(()),
        Err(ServeError::ReadFault) => Err(Stop::Outside),
        Err(ServeError::WriteFault) => Err(Stop::Outside),
        Err(ServeError::LongLine(number)) => Err(Stop::Complaint(Complaint::LongLine(number))),
        Err(ServeError::TooManyLines) => Err(Stop::Complaint(Complaint::TooManyLines)),
        Err(ServeError::Memory) => Err(Stop::Memory),
    }
}

/// `serve`: opens the image in the file at a path, and puts the replies to the lines of the source,
/// one `put` for each, until the source ends or the session breaks its limits.
pub fn serve_file<T: Threads + Sync, S: Shelf, I: Source, O: Sink, G: Gate + Sync>(
    workers: &Workers<T, G>,
    path: &Text,
    shelf: &mut S,
    input: &mut I,
    out: &mut O,
) -> Result<(), Stop>
    requires { IsUtf8 path.now }
    ensures comes { StepComesTo
        (WorkComesTo (S.files shelf.old) (I.rest input.old) path.now ImageWork.Serve) reading result
        (world_of S.Shelf I.Source O.Sink shelf.old input.old out.old)
        (world_of S.Shelf I.Source O.Sink shelf.new input.new out.new) }
    ensures takes { TakesFrom (S.files shelf.old) path.now (λ b. length b)
        (S.handed shelf.old) (S.handed shelf.new) }
{
    let mut bytes = Text::new(workers.alloc);
    let image = Opened::at(workers, path, &mut bytes, shelf)?;
    let blanks = Blanks::new();
    let answered = serve_counted::<I, O, Brand, Brand>(workers.alloc, &image, input, out, blanks);
    stop_of_session(answered)
}
