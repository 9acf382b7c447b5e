ghost use Rattle.std.specs.Prelude.{◌≡◌, IsOk, IsErrOf, IsUtf8, List, ℕ, length};
ghost use Rattle.jm_outside.specs.Outcome.{CountsFaults};
ghost use Rattle.jm_outside.specs.Shelves.{shelf_at};
ghost use Rattle.jm_inspect.specs.FileParts.{ReadsFile};
ghost use Rattle.jm_inspect.specs.Outcome.{describe_outcome, reading};
ghost use Rattle.jm_inspect.specs.Works.{FileComesTo};
ghost use Rattle.jm_inspect.specs.Steps.{PutDoes, StepComesTo};
ghost use Rattle.jm_inspect.specs.Sinks.{Seen};
ghost use Rattle.jm_inspect.specs.Taken.{TakesFrom};
ghost use Rattle.jm_inspect.specs.World.{sink_at, world};

use crate::complaint::Complaint;
use crate::described::put_description;
use crate::stop::Stop;
use jm_bytes::{Or, Text};
use jm_modinfo::describe_bytes;
use jm_outside::{Shelf, Sink};
use jm_texts::Refusal;
use std::alloc::Global;

/// The bytes of the file at a path, which may be a pipe.
fn file_bytes<S: Shelf>(alloc: Global, path: &Text, shelf: &mut S) -> Result<Text, Stop>
    requires { IsUtf8 path.now }
    ensures files { S.files shelf.new ≡ S.files shelf.old }
    ensures reads { ReadsFile (S.files shelf.old) path.now result }
    ensures takes { TakesFrom (S.files shelf.old) path.now (λ b. length b)
        (S.handed shelf.old) (S.handed shelf.new) }
    ensures faults { CountsFaults (S.faults shelf.old) (S.faults shelf.new) (IsOk result)
        (IsErrOf result Stop.Outside) }
{
    match shelf.read(alloc, path.as_slice()) {
        Ok(Some(bytes)) => Ok(bytes),
        Ok(None) => {
            let path = Text::copy_of(alloc, path.as_slice())?;
            Err(Stop::Complaint(Complaint::NotThere(path)))
        }
        Err(error) => Err(Stop::from(error)),
    }
}

/// Puts what these bytes, which are those of the file at a path, say as the class of a module.
fn put_described<O: Sink>(
    alloc: Global,
    path: &[u8],
    release: u32,
    bytes: &[u8],
    out: &mut O,
) -> Result<(), Stop>
    ensures { PutDoes (describe_outcome release path.now bytes.now) result
        (sink_at O.Sink out.old) (sink_at O.Sink out.new) }
{
    match describe_bytes(alloc, release, bytes) {
        Ok(descriptor) => Ok(put_description(alloc, &descriptor, out)?),
        Err(Or::Fault(fault)) => {
            let path = Text::copy_of(alloc, path)?;
            let refusal = Refusal::BadInfo { path, fault };
            Err(Stop::Complaint(Complaint::Refused(refusal)))
        }
        Err(Or::Memory) => Err(Stop::Memory),
    }
}

/// `describe`: puts what the class of a module says, which the file at a path is, one of a release
/// of Java SE. The file is read once. The source of the run isn't lent to it.
pub fn describe_command<S: Shelf, O: Sink>(
    alloc: Global,
    path: &Text,
    release: u32,
    shelf: &mut S,
    out: &mut O,
) -> Result<(), Stop>
    requires { IsUtf8 path.now }
    ensures comes { (source : Seen (List ℕ)) →
        StepComesTo (FileComesTo (S.files shelf.old) path.now
        (λ b due. due ≡ describe_outcome release path.now b)) reading result
        (world (shelf_at S.Shelf shelf.old) source (sink_at O.Sink out.old))
        (world (shelf_at S.Shelf shelf.new) source (sink_at O.Sink out.new)) }
    ensures takes { TakesFrom (S.files shelf.old) path.now (λ b. length b)
        (S.handed shelf.old) (S.handed shelf.new) }
{
    match file_bytes(alloc, path, shelf) {
        Ok(bytes) => put_described(alloc, path.as_slice(), release, bytes.as_slice(), out),
        Err(stop) => Err(stop),
    }
}
