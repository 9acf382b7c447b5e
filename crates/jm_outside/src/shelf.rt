ghost use Rattle.std.specs.Prelude.{◌≡◌, ◌≤◌, ◌+◌, ℕ, [], Bool, Option, Some, All, IsUtf8, IsOk};
ghost use Rattle.std.specs.Prelude.{IsTrue, IfOk, OnOk, OnErr, IsErrOf, length, option_map};
ghost use Rattle.jm_outside.specs.Files.{Files, IsSound, Rising, file, file_length, file_part};
ghost use Rattle.jm_outside.specs.Files.{put, add, names_below};
ghost use Rattle.jm_outside.specs.Answers.{handed_out, handed_exactly};
ghost use Rattle.jm_outside.specs.Outcome.{Shows, Told, AsBeforeOrEmpty, AddsFront, CountsFaults};

use crate::streams::Failed;
use jm_bytes::{List, NoMemory, Text};
use std::alloc::{AllocError, AllocFailed, Global};
use thiserror::Error;

/// Why a call of a shelf gave up.
#[derive(Debug, Drop, Error)]
pub enum ShelfError {
    /// The outside failed. The shelf's count of faults rose in the call.
    #[error("the outside failed")]
    Failed,

    /// No memory was found.
    #[error("out of memory")]
    Memory,
}

impl From<Failed> for ShelfError {
    ghost use Rattle.jm_outside.specs.declared.shelf.ShelfError.TheVariants as shelf_error;

    ghost from_gives = { λ _ e. e ≡ shelf_error.Failed };

    fn from(_: Failed) -> ShelfError {
        ShelfError::Failed
    }
}

impl From<NoMemory> for ShelfError {
    ghost use Rattle.jm_outside.specs.declared.shelf.ShelfError.TheVariants.{Memory};

    ghost from_gives = { λ _ e. e ≡ Memory };

    fn from(_: NoMemory) -> ShelfError {
        ShelfError::Memory
    }
}

impl From<AllocError> for ShelfError {
    ghost use Rattle.jm_outside.specs.declared.shelf.ShelfError.TheVariants.{Memory};

    ghost from_gives = { λ _ e. e ≡ Memory };

    fn from(_: AllocError) -> ShelfError {
        ShelfError::Memory
    }
}

impl<T: Drop> From<AllocFailed<T>> for ShelfError {
    ghost use Rattle.jm_outside.specs.declared.shelf.ShelfError.TheVariants.{Memory};

    ghost from_gives = { λ _ e. e ≡ Memory };

    fn from(_: AllocFailed<T>) -> ShelfError {
        ShelfError::Memory
    }
}

/// A shelf of files, each a path and its bytes. It may tell its files, and counts its faults and
/// the bytes that it hands out.
///
/// Every path and folder that a call takes is UTF-8. A folder has no slash at its end: the file `r`
/// of the folder `dir` has the path `dir/r`.
///
/// A file that was made takes its name before a call looks at files, and when making them ends.
pub trait Shelf {
    // Each path with its bytes, or None where the shelf tells nothing.
    ghost files: { Self → Option Files };

    // How many calls the outside failed, as far as the counter goes.
    ghost faults: { Self → ℕ };

    // Whether each file that was made stands whole under its own name.
    ghost whole: { Self → Bool };

    // Whether the making of files was ended after the last file: what that leaves on a disk is the
    // shelf's own to say.
    ghost durable: { Self → Bool };

    // How many bytes of files the shelf handed out, told or not.
    ghost handed: { Self → ℕ };

    /// The names of the files below a folder, to any depth, rising in byte order: what follows
    /// `dir` and a slash in their paths. A folder that isn't there has none.
    fn names(&mut self, alloc: Global, dir: &[u8]) -> Result<List<Text>, ShelfError>
        requires text { IsUtf8 dir.now }
        ensures files { files self.new ≡ files self.old }

        // Told or not.
        ensures rising { IfOk result Rising }
        ensures texts { IfOk result (All IsUtf8) }

        ensures told { IfOk result (λ names. Shows (files self.old)
            (λ files. names ≡ names_below dir.now files)) }
        ensures whole { OnOk result (IsTrue (whole self.new)) }
        ensures handed { handed self.new ≡ handed self.old }
        ensures faults { CountsFaults (faults self.old) (faults self.new) (IsOk result)
            (IsErrOf result ShelfError.Failed) };

    /// The bytes of the file at a path. None exactly where no file has it.
    fn read(&mut self, alloc: Global, path: &[u8]) -> Result<Option<Text>, ShelfError>
        requires text { IsUtf8 path.now }
        ensures files { files self.new ≡ files self.old }
        ensures told { IfOk result (λ found. Shows (files self.old)
            (λ files. found ≡ file files path.now)) }
        ensures whole { OnOk result (IsTrue (whole self.new)) }
        ensures handed { handed self.new ≡ handed self.old + handed_out result }
        ensures faults { CountsFaults (faults self.old) (faults self.new) (IsOk result)
            (IsErrOf result ShelfError.Failed) };

    /// The length of the file at a path, in bytes. None exactly where no file has the path.
    fn length(&mut self, alloc: Global, path: &[u8]) -> Result<Option<u64>, ShelfError>
        requires text { IsUtf8 path.now }
        ensures files { files self.new ≡ files self.old }
        ensures told { IfOk result (λ found. Shows (files self.old)
            (λ files. found ≡ file_length files path.now)) }
        ensures whole { OnOk result (IsTrue (whole self.new)) }
        ensures handed { handed self.new ≡ handed self.old }
        ensures faults { CountsFaults (faults self.old) (faults self.new) (IsOk result)
            (IsErrOf result ShelfError.Failed) };

    /// The bytes of the file at a path from the byte `at` on, at most `length` of them: none where
    /// the file ends there or before. None exactly where no file has the path.
    fn read_part(
        &mut self,
        alloc: Global,
        path: &[u8],
        at: u64,
        length: usize,
    ) -> Result<Option<Text>, ShelfError>
        requires text { IsUtf8 path.now }
        ensures files { files self.new ≡ files self.old }
        ensures told { IfOk result (λ found. Shows (files self.old)
            (λ files. found ≡ file_part files path.now at length)) }

        // Told or not.
        ensures within { handed_out result ≤ length }

        ensures whole { OnOk result (IsTrue (whole self.new)) }
        ensures handed { handed self.new ≡ handed self.old + handed_out result }
        ensures faults { CountsFaults (faults self.old) (faults self.new) (IsOk result)
            (IsErrOf result ShelfError.Failed) };

    /// Puts exactly `count` bytes of the file at a path, from the byte `at` on, into a text, in the
    /// place of what it holds. A file that isn't there is a fault, and so is one that has fewer
    /// bytes: who asks knows the file's length.
    ///
    /// What the text holds after a refusal is not said.
    fn read_exact(
        &mut self,
        alloc: Global,
        path: &[u8],
        at: u64,
        count: usize,
        into: &mut Text,
    ) -> Result<(), ShelfError>
        requires text { IsUtf8 path.now }
        ensures files { files self.new ≡ files self.old }
        ensures told { OnOk result (Shows (files self.old)
            (λ files. file_part files path.now at count ≡ Some into.new)) }

        // Told or not.
        ensures exact { OnOk result (length into.new ≡ count) }

        ensures whole { OnOk result (IsTrue (whole self.new)) }
        ensures handed { handed self.new ≡ handed self.old + handed_exactly result count }
        ensures faults { CountsFaults (faults self.old) (faults self.new) (IsOk result)
            (IsErrOf result ShelfError.Failed) };

    /// Makes an empty file at a path, or empties the one that is there. Other files stay.
    fn create(&mut self, alloc: Global, path: &[u8]) -> Result<(), ShelfError>
        requires text { IsUtf8 path.now }
        ensures ok { OnOk result
            (files self.new ≡ option_map (λ files. put files path.now []) (files self.old)) }
        ensures err { OnErr result (Told (files self.old) (files self.new)
            (λ old new. AsBeforeOrEmpty old new path.now)) }
        ensures memory { IsErrOf result ShelfError.Memory → files self.new ≡ files self.old }
        ensures handed { handed self.new ≡ handed self.old }
        ensures faults { CountsFaults (faults self.old) (faults self.new) (IsOk result)
            (IsErrOf result ShelfError.Failed) };

    /// Adds bytes to the end of the file at a path, to an empty file where none is there. After
    /// `Failed` a prefix of them was added. Other files stay.
    fn append(&mut self, alloc: Global, path: &[u8], bytes: &[u8]) -> Result<(), ShelfError>
        requires text { IsUtf8 path.now }
        ensures ok { OnOk result
            (files self.new ≡ option_map (λ files. add files path.now bytes.now) (files self.old)) }
        ensures err { OnErr result (Told (files self.old) (files self.new)
            (λ old new. AddsFront old new path.now bytes.now)) }
        ensures memory { IsErrOf result ShelfError.Memory → files self.new ≡ files self.old }
        ensures handed { handed self.new ≡ handed self.old }
        ensures faults { CountsFaults (faults self.old) (faults self.new) (IsOk result)
            (IsErrOf result ShelfError.Failed) };

    /// Ends the making of files: what was made stands under its own name, and the file that was
    /// made last is on the disk, where the shelf has one. All files stay.
    fn finish(&mut self, alloc: Global) -> Result<(), ShelfError>
        ensures files { files self.new ≡ files self.old }
        ensures whole { OnOk result (IsTrue (whole self.new)) }
        ensures durable { OnOk result (IsTrue (durable self.new)) }
        ensures handed { handed self.new ≡ handed self.old }
        ensures faults { CountsFaults (faults self.old) (faults self.new) (IsOk result)
            (IsErrOf result ShelfError.Failed) };

    // Told files rise by path, each path is UTF-8, and each file has bytes alone.
    ghost sound: { (shelf : Self) → Shows (files shelf) IsSound };
}
