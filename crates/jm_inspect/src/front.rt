//! The first bytes of a file, up to the end of an image's index.
ghost use Rattle.std.specs.Prelude.{◌≡◌, ◌≤◌, ◌+◌, ℕ, List};
ghost use Rattle.std.specs.Prelude.{IfOk, IsOk, IsErrOf, IsUtf8};
ghost use Rattle.jm_form.specs.Head.{IsFileOf};
ghost use Rattle.jm_outside.specs.Outcome.{CountsFaults};
ghost use Rattle.jm_inspect.specs.FileParts.{IsOpenFront, Opens, ReadsFront, ReadsHead};
ghost use Rattle.jm_inspect.specs.FileParts.{ReadsLength, ReadsMore, ReadsPart};
ghost use Rattle.jm_inspect.specs.Taken.{TakesFrom, TakesOfFront, front_size};

use crate::complaint::Complaint;
use crate::stop::Stop;
use jm_bytes::{NoMemory, Text};
use jm_filed::FiledImage;
use jm_form::read_header_of;
use jm_halves::{Gate, Workers};
use jm_outside::Shelf;
use jm_valid::Index;
use std::alloc::Global;
use std::marker::Model;
use std::thread::Threads;

/// How many bytes a header has.
const HEADER_LENGTH: usize = 28;

/// The first bytes of a file, and how many bytes it has.
#[derive(Drop)]
pub struct FileFront {
    pub bytes: Text,
    pub length: u64,
}

impl FileFront {
    /// The front of an empty file: a place to read one to.
    pub fn new(alloc: Global) -> FileFront {
        FileFront {
            bytes: Text::new(alloc),
            length: 0,
        }
    }
}

/// The complaint that no file is at a path.
fn not_there(alloc: Global, path: &Text) -> Result<Complaint, NoMemory>
    ensures { IfOk result (λ given. given ≡ Complaint.NotThere path.now) }
{
    Ok(Complaint::NotThere(Text::copy_of(alloc, path.as_slice())?))
}

/// How many bytes the file at a path has.
pub fn file_length<S: Shelf>(alloc: Global, path: &Text, shelf: &mut S) -> Result<u64, Stop>
    requires { IsUtf8 path.now }
    ensures files { S.files shelf.new ≡ S.files shelf.old }
    ensures reads { ReadsLength (S.files shelf.old) path.now result }
    ensures handed { S.handed shelf.new ≡ S.handed shelf.old }
    ensures faults { CountsFaults (S.faults shelf.old) (S.faults shelf.new) (IsOk result)
        (IsErrOf result Stop.Outside) }
{
    match shelf.length(alloc, path.as_slice()) {
        Ok(Some(length)) => Ok(length),
        Ok(None) => {
            let given = not_there(alloc, path)?;
            Err(Stop::Complaint(given))
        }
        Err(error) => Err(Stop::from(error)),
    }
}

/// That many bytes of the file at a path, from a place on. Where the file has fewer there, it isn't
/// the one whose length was asked for, and counts as one that isn't there.
pub fn file_part<S: Shelf>(
    alloc: Global,
    path: &Text,
    at: u64,
    count: usize,
    shelf: &mut S,
) -> Result<Text, Stop>
    requires { IsUtf8 path.now }
    ensures files { S.files shelf.new ≡ S.files shelf.old }
    ensures reads { ReadsPart (S.files shelf.old) path.now at count result }
    ensures handed { S.handed shelf.new ≤ S.handed shelf.old + count }
    ensures faults { CountsFaults (S.faults shelf.old) (S.faults shelf.new) (IsOk result)
        (IsErrOf result Stop.Outside) }
{
    match shelf.read_part(alloc, path.as_slice(), at, count) {
        Ok(Some(bytes)) if bytes.len() == count => Ok(bytes),
        Ok(_) => {
            let given = not_there(alloc, path)?;
            Err(Stop::Complaint(given))
        }
        Err(error) => Err(Stop::from(error)),
    }
}

/// Adds to the first bytes of a file those that follow, that many.
fn extend_front<S: Shelf>(
    alloc: Global,
    path: &Text,
    front: &mut Text,
    count: usize,
    shelf: &mut S,
) -> Result<(), Stop>
    requires { IsUtf8 path.now }
    ensures files { S.files shelf.new ≡ S.files shelf.old }
    ensures reads { ReadsMore (S.files shelf.old) path.now front.old count front.new result }
    ensures handed { S.handed shelf.new ≤ S.handed shelf.old + count }
    ensures faults { CountsFaults (S.faults shelf.old) (S.faults shelf.new) (IsOk result)
        (IsErrOf result Stop.Outside) }
{
    let more = file_part(alloc, path, front.len() as u64, count, shelf)?;
    front.extend(more.as_slice())?;
    Ok(())
}

/// The first bytes of the file at a path, 28 or all.
fn file_head<S: Shelf>(alloc: Global, path: &Text, shelf: &mut S) -> Result<FileFront, Stop>
    requires { IsUtf8 path.now }
    ensures files { S.files shelf.new ≡ S.files shelf.old }
    ensures reads { ReadsHead (S.files shelf.old) path.now result }
    ensures takes { TakesFrom (S.files shelf.old) path.now (λ b. 28)
        (S.handed shelf.old) (S.handed shelf.new) }
    ensures faults { CountsFaults (S.faults shelf.old) (S.faults shelf.new) (IsOk result)
        (IsErrOf result Stop.Outside) }
{
    let length = file_length(alloc, path, shelf)?;
    let mut bytes = Text::new(alloc);
    let count = length.min(HEADER_LENGTH as u64) as usize;
    extend_front(alloc, path, &mut bytes, count, shelf)?;
    Ok(FileFront { bytes, length })
}

/// The first bytes of the file at a path: its index and no more, if it has a header.
pub fn file_front<S: Shelf>(alloc: Global, path: &Text, shelf: &mut S) -> Result<FileFront, Stop>
    requires { IsUtf8 path.now }
    ensures files { S.files shelf.new ≡ S.files shelf.old }
    ensures reads { ReadsFront (S.files shelf.old) path.now result }
    ensures takes { TakesFrom (S.files shelf.old) path.now front_size
        (S.handed shelf.old) (S.handed shelf.new) }
    ensures taken { IfOk result (λ front. (b : List ℕ) → IsFileOf front.bytes front.length b
        → S.handed shelf.new ≤ S.handed shelf.old + front_size b) }
    ensures faults { CountsFaults (S.faults shelf.old) (S.faults shelf.new) (IsOk result)
        (IsErrOf result Stop.Outside) }
{
    let FileFront { mut bytes, length } = file_head(alloc, path, shelf)?;
    match read_header_of(bytes.as_slice(), length) {
        Ok(header) => {
            let count = header.contents_place() - HEADER_LENGTH;
            extend_front(alloc, path, &mut bytes, count, shelf)?;
            Ok(FileFront { bytes, length })
        }
        Err(_) => Ok(FileFront { bytes, length }),
    }
}

/// The index of an image beside the first bytes of its file, of which a meter of what is read of
/// the index is made, and the path of that file.
#[derive(Drop)]
pub struct OpenFront<'a> {
    index: Index<'a>,
    bytes: &'a [u8],
    path: &'a Text,
}

impl<'a> Model for OpenFront<'a> {
    ghost use Rattle.std.specs.Prelude.{◌≡◌, IsUtf8};
    ghost use Rattle.jm_inspect.specs.FileParts.{OpenIndex};

    ghost Value = { OpenIndex };

    ghost view = { λ a. record { front = a.index; path = a.path.now } };

    ghost invariant = { λ a. (a.index.bytes ≡ a.bytes.now) × IsUtf8 a.path.now };
}

impl<'a> OpenFront<'a> {
    /// Opens the index of the image in the file at a path, on all jobs. Its bytes are read to
    /// `front`, in the place of what that holds, and no more of the file is read.
    pub fn at<T: Threads + Sync, S: Shelf, G: Gate + Sync>(
        workers: &Workers<T, G>,
        path: &'a Text,
        front: &'a mut FileFront,
        shelf: &mut S,
    ) -> Result<OpenFront<'a>, Stop>
        requires { IsUtf8 path.now }
        ensures files { S.files shelf.new ≡ S.files shelf.old }
        ensures path { IfOk result (λ image. image.path ≡ path.now) }
        ensures opens { Opens (S.files shelf.old) path.now
            (λ image. IsOpenFront (S.files shelf.old) path.now image.front) result }
        ensures takes { TakesFrom (S.files shelf.old) path.now front_size
            (S.handed shelf.old) (S.handed shelf.new) }
        ensures taken { IfOk result (λ image. TakesOfFront image.front front_size
            (S.handed shelf.old) (S.handed shelf.new)) }
        ensures faults { CountsFaults (S.faults shelf.old) (S.faults shelf.new) (IsOk result)
            (IsErrOf result Stop.Outside) }
    {
        *front = file_front(workers.alloc, path, shelf)?;
        let bytes = front.bytes.as_slice();
        let index = Index::open(workers, bytes, front.length)?;
        Ok(OpenFront { index, bytes, path })
    }

    /// The index.
    pub fn as_index(&self) -> &Index<'a>
        ensures { result.now ≡ self.now.front }
    {
        &self.index
    }

    /// The first bytes of the file.
    pub fn bytes(&self) -> &'a [u8]
        ensures { result.now ≡ self.now.front.bytes }
    {
        self.bytes
    }

    /// The path of the file.
    pub fn path(&self) -> &'a Text
        ensures path { result.now ≡ self.now.path }
        ensures text { IsUtf8 result.now }
    {
        self.path
    }

    /// The image as its contents are read from the file.
    pub fn as_filed(&self) -> FiledImage<'_, 'a>
        ensures index { result.index.now ≡ self.now.front }
        ensures path { result.path.now ≡ self.now.path }
        ensures text { IsUtf8 result.path.now }
    {
        FiledImage {
            index: &self.index,
            path: self.path.as_slice(),
        }
    }
}
