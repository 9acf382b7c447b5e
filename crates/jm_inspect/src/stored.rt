//! An image in a file that is opened as it is stored.
ghost use Rattle.std.specs.Prelude.{◌≡◌, IfOk, IsOk, IsErrOf, IsUtf8};
ghost use Rattle.jm_form.specs.Damages.{stored_damage};
ghost use Rattle.jm_outside.specs.Outcome.{CountsFaults};
ghost use Rattle.jm_inspect.specs.FileParts.{IsOpenFrontBy, OpensBy};
ghost use Rattle.jm_inspect.specs.Taken.{TakesFrom, TakesOfFront, front_size};

use crate::front::{FileFront, file_front};
use crate::stop::Stop;
use jm_bytes::Text;
use jm_halves::{Gate, Workers};
use jm_outside::Shelf;
use jm_valid::StoredIndex;
use std::marker::Model;
use std::thread::Threads;

/// The index of an image that was checked as stored, its contents compressed or not, beside the
/// first bytes of its file, of which a meter of what is read of the index is made, and the path of
/// that file.
#[derive(Drop)]
pub struct OpenStored<'a> {
    index: StoredIndex<'a>,
    bytes: &'a [u8],
    path: &'a Text,
}

impl<'a> Model for OpenStored<'a> {
    ghost use Rattle.std.specs.Prelude.{◌≡◌, IsUtf8};
    ghost use Rattle.jm_inspect.specs.FileParts.{OpenIndex};

    ghost Value = { OpenIndex };

    ghost view = { λ a. record { front = a.index; path = a.path.now } };

    ghost invariant = { λ a. (a.index.bytes ≡ a.bytes.now) × IsUtf8 a.path.now };
}

impl<'a> OpenStored<'a> {
    /// Opens the index of the image in the file at a path as it is stored, on all jobs. Its bytes
    /// are read to `front`, in the place of what that holds, and no more of the file is read.
    pub fn at<T: Threads + Sync, S: Shelf, G: Gate + Sync>(
        workers: &Workers<T, G>,
        path: &'a Text,
        front: &'a mut FileFront,
        shelf: &mut S,
    ) -> Result<OpenStored<'a>, Stop>
        requires { IsUtf8 path.now }
        ensures files { S.files shelf.new ≡ S.files shelf.old }
        ensures path { IfOk result (λ image. image.path ≡ path.now) }
        ensures opens { OpensBy stored_damage (S.files shelf.old) path.now
            (λ image. IsOpenFrontBy stored_damage (S.files shelf.old) path.now image.front)
            result }
        ensures takes { TakesFrom (S.files shelf.old) path.now front_size
            (S.handed shelf.old) (S.handed shelf.new) }
        ensures taken { IfOk result (λ image. TakesOfFront image.front front_size
            (S.handed shelf.old) (S.handed shelf.new)) }
        ensures faults { CountsFaults (S.faults shelf.old) (S.faults shelf.new) (IsOk result)
            (IsErrOf result Stop.Outside) }
    {
        *front = file_front(workers.alloc, path, shelf)?;
        let bytes = front.bytes.as_slice();
        let index = StoredIndex::open(workers, bytes, front.length)?;
        Ok(OpenStored { index, bytes, path })
    }

    /// The index.
    pub fn as_index(&self) -> &StoredIndex<'a>
        ensures { result.now ≡ self.now.front }
    {
        &self.index
    }

    /// The first bytes of the file.
    pub fn bytes(&self) -> &'a [u8]
        ensures { result.now ≡ self.now.front.bytes }
    {
        self.bytes
    }

    /// The path of the file.
    pub fn path(&self) -> &'a Text
        ensures path { result.now ≡ self.now.path }
        ensures text { IsUtf8 result.now }
    {
        self.path
    }
}
