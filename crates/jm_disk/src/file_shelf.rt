ghost use Rattle.std.specs.Prelude.{◌≡◌, ◌&&◌, None, Ok, is_none, IsOk, IsTrue, IfOk, OnOk};
ghost use Rattle.std.specs.Prelude.{IsErrOf};
ghost use Rattle.jm_outside.specs.Outcome.{CountsFaults};
ghost use Rattle.jm_disk.specs.Kept.{is_kept};

use crate::file_error::{FileError, Reason};
use crate::flushing::{LastNamed, keep_named};
use crate::folders::names_in;
use crate::new_file::{NewFile, append_at, make};
use crate::new_folder::NewFolder;
use crate::parts::{ClosedFiles, PartedFile, open_after};
use crate::reading::read_at;
use jm_bytes::{List, Text};
use jm_outside::{Handed, Shelf, ShelfError};
use std::alloc::Global;
use std::fs::File;
use std::io::ErrorKind;
use std::mem::replace;
use std::rt::Files;
use std::{io, str};

/// The shelf of the file system, which tells no files. A path is the system's: one that begins with
/// no slash goes from the folder in which the program runs.
///
/// A file is made beside its place, in the same folder, as its name with `.jm_tool-` and a number
/// after it, and takes its name when it is complete. So what was at its path is replaced whole or
/// stays, and no other run sees a part of it. Where folders of its path are missing, the highest of
/// them is made so, with all below it, and takes its name when making files ends, so that all is
/// there at once. Before that it takes its name only where a file elsewhere is made, or a call
/// looks at other files than the one that is open to be read in parts.
///
/// The file that was made last is open and unfinished until the next one is made, or until a call
/// looks at files or ends their making. Bytes go to the system at once, and to the end of the file;
/// what replaces a file waits until they are on the disk, and so does `finish`.
///
/// The file of which the length or a part was asked last is open until another file's is, or until
/// one is made or added to at its path, spelled the same: what comes of it is of one file, whatever
/// stands at its path by then. It stays open while other files are made. A file of which a part was
/// given, and not the whole, is known again when it is opened once more: another one in its place,
/// or one that changed, is a fault, unless the shelf made it.
///
/// Each error of the system counts as one fault.
#[derive(Drop)]
pub struct FileShelf<'a, R: Files<File = File> + AllocGlobal> {
    rt: &'a R,
    made_last: Option<NewFile>,
    folder: Option<NewFolder>,
    last_named: LastNamed,
    parted: Option<PartedFile>,
    closed: ClosedFiles,
    handed: Handed,
    faults: u64,
    last_failure: String,
}

/// The bytes for which the text of a failure has room from the start: a path as long as the system
/// takes, and what went wrong there.
const FAILURE_ROOM: usize = 4_608;

impl<'a, R: Files<File = File> + AllocGlobal> FileShelf<'a, R> {
    /// The shelf of a runtime's file system, which has no fault yet.
    pub fn new(rt: &'a R) -> FileShelf<'a, R>
        ensures faults { ⟦<FileShelf<'a, R> as Shelf>⟧.faults result ≡ 0 }
        ensures handed { ⟦<FileShelf<'a, R> as Shelf>⟧.handed result ≡ 0 }
    {
        let last_failure = match String::with_capacity(rt.alloc(), FAILURE_ROOM) {
            Ok(room) => room,
            Err(_) => String::new(rt.alloc()),
        };
        FileShelf {
            rt,
            made_last: None,
            folder: None,
            last_named: LastNamed::Nothing,
            parted: None,
            closed: ClosedFiles::new(rt.alloc()),
            handed: Handed::new(),
            faults: 0,
            last_failure,
        }
    }

    /// For a user: the path at which the last call that answered `Failed` did, a colon, and what
    /// the system said. None where none did.
    pub fn last_failure(&self) -> Option<&str> {
        if self.last_failure.is_empty() {
            None
        } else {
            Some(self.last_failure.as_str())
        }
    }

    /// Removes the file and the folder that aren't finished, if there are any.
    pub fn give_up(&mut self)
        ensures whole { IsTrue (is_none self.new.made_last) }
        ensures folder { IsTrue (is_none self.new.folder) }
        ensures handed { self.new.handed ≡ self.old.handed }
        ensures faults { self.new.faults ≡ self.old.faults }
    {
        if let Some(file) = self.made_last.take() {
            file.remove(self.rt);
        }
        if let Some(folder) = self.folder.take() {
            folder.remove(self.rt);
        }
    }

    /// Ends the making of the file that isn't finished, if there is one: it takes its name, or
    /// stays below the folder that isn't finished.
    fn complete(&mut self) -> Result<(), ShelfError>
        ensures whole { IsTrue (is_none self.new.made_last) }
        ensures handed { self.new.handed ≡ self.old.handed }
        ensures faults { CountsFaults self.old.faults self.new.faults (IsOk result)
            (IsErrOf result ShelfError.Failed) }
    {
        let Some(file) = self.made_last.take() else {
            return Ok(());
        };
        if let Some(folder) = &mut self.folder {
            folder.keep(file);
            return Ok(());
        }
        let answer = file.take_place(self.rt, None);
        self.last_named = LastNamed::Unflushed(self.judge(b"", answer)?);
        Ok(())
    }

    /// Has all that isn't finished take its name, the file and the folder.
    fn settle(&mut self) -> Result<(), ShelfError>
        ensures whole { IsTrue (is_none self.new.made_last) }
        ensures folder { OnOk result (IsTrue (is_none self.new.folder)) }
        ensures handed { self.new.handed ≡ self.old.handed }
        ensures faults { CountsFaults self.old.faults self.new.faults (IsOk result)
            (IsErrOf result ShelfError.Failed) }
    {
        self.complete()?;
        match self.folder.take() {
            Some(folder) => {
                let answer = folder.take_place(self.rt);
                let (due, last) = self.judge(b"", answer)?;
                self.last_named = LastNamed::Unflushed(match last {
                    Some(file) => file.path,
                    None => due,
                });
                Ok(())
            }
            None => Ok(()),
        }
    }

    /// Opens the file of a path to be read in parts, unless it is open already: it was there before
    /// any folder that isn't finished. None is open then where no file is there.
    fn open(&mut self, path: &[u8]) -> Result<(), ShelfError>
        ensures whole { IsTrue (is_none self.new.made_last) }
        ensures handed { self.new.handed ≡ self.old.handed }
        ensures faults { CountsFaults self.old.faults self.new.faults (IsOk result)
            (IsErrOf result ShelfError.Failed) }
    {
        if self
            .parted
            .as_ref()
            .is_some_and(|file| file.path.as_bytes() == path)
        {
            return self.complete();
        }
        self.settle()?;
        let kept = self.parted.take();
        let answer = open_after(self.rt, kept, &mut self.closed, path);
        self.parted = self.judge(path, answer)?;
        Ok(())
    }

    /// Closes the file that is open to be read in parts, if it is for this path, at which another
    /// one may stand from then on.
    fn forget(&mut self, path: &[u8])
        ensures made { self.new.made_last ≡ self.old.made_last }
        ensures handed { self.new.handed ≡ self.old.handed }
        ensures faults { self.new.faults ≡ self.old.faults }
    {
        if self
            .parted
            .as_ref()
            .is_some_and(|file| file.path.as_bytes() == path)
        {
            self.parted = None;
        }
        let _known = self.closed.remove(path);
    }

    /// Hands on what a call answered. Where it failed, it counts a fault and keeps what failed, at
    /// this path if at none of its own.
    fn judge<T: Drop>(&mut self, path: &[u8], answer: Result<T, FileError>) -> Result<T, ShelfError>
        ensures answer { IfOk result (λ value. answer ≡ Ok value) }
        ensures made { self.new.made_last ≡ self.old.made_last }
        ensures folder { self.new.folder ≡ self.old.folder }
        ensures handed { self.new.handed ≡ self.old.handed }
        ensures faults { CountsFaults self.old.faults self.new.faults (IsOk result)
            (IsErrOf result ShelfError.Failed) }
    {
        match answer {
            Ok(value) => Ok(value),
            Err(
                FileError {
                    reason: Reason::Memory,
                    ..
                },
            ) => Err(ShelfError::Memory),
            Err(FileError { reason, place }) => {
                self.faults = self.faults.saturating_add(1);
                let text = &mut self.last_failure;
                text.clear();
                // It is told as far as the text has room or memory is found.
                let _told = match &place {
                    Some(place) => write!(text, "{place}: {reason}").is_ok(),
                    None => {
                        let path = str::from_utf8(path).unwrap_or("");
                        write!(text, "{path}: {reason}").is_ok()
                    }
                };
                Err(ShelfError::Failed)
            }
        }
    }
}

impl<'a, R: Files<File = File> + AllocGlobal> Shelf for FileShelf<'a, R> {
    ghost files = { λ _. None };

    ghost faults = { λ shelf. shelf.faults };

    // Files below a folder that isn't finished are complete, but for the one that was made last.
    ghost whole = { λ shelf. is_none shelf.made_last };

    // Nothing is unfinished, and who waited for the disk said so of the file that was made last.
    ghost durable = { λ shelf. is_none shelf.made_last && is_none shelf.folder
        && is_kept shelf.last_named };

    ghost handed = { λ shelf. shelf.handed };

    /// Goes through the folder to any depth, and through links to files and folders as if these
    /// stood there. A link that leads nowhere is a fault, and so are a ring of links, what is
    /// neither a file nor a folder, an unfinished file that a run left, a folder that can't be
    /// listed, a name that isn't UTF-8, and more than 16,777,216 files and folders. A folder that
    /// isn't there has no names.
    fn names(&mut self, alloc: Global, dir: &[u8]) -> Result<List<Text>, ShelfError> {
        self.settle()?;
        let answer = names_in(self.rt, alloc, dir);
        self.judge(dir, answer)
    }

    /// None where the path, or a folder of it, isn't there, or a folder of it is a file. A folder
    /// in the place of the file is a fault, and so are more than 4,294,967,296 bytes, and another
    /// number of bytes than the file had when it was opened. What isn't a file on a disk, as a
    /// pipe, has no such number, and is read to its end.
    fn read(&mut self, alloc: Global, path: &[u8]) -> Result<Option<Text>, ShelfError> {
        self.settle()?;
        let answer = read_at(self.rt, alloc, path);
        let Some(text) = self.judge(path, answer)? else {
            return Ok(None);
        };
        self.handed.add(text.len())?;
        Ok(Some(text))
    }

    /// None as `read`. What is there and is neither a file nor a link to one is a fault, and isn't
    /// opened. A file that is open has the length that it has by now.
    fn length(&mut self, _alloc: Global, path: &[u8]) -> Result<Option<u64>, ShelfError> {
        self.open(path)?;
        let Some(file) = &mut self.parted else {
            return Ok(None);
        };
        let answer = file.length();
        Ok(Some(self.judge(path, answer)?))
    }

    /// None and a fault as `length`. More than 4,294,967,296 bytes are a fault, and so are fewer
    /// than the length that was told last promises: the file got shorter.
    fn read_part(
        &mut self,
        alloc: Global,
        path: &[u8],
        at: u64,
        length: usize,
    ) -> Result<Option<Text>, ShelfError> {
        self.open(path)?;
        let Some(file) = &mut self.parted else {
            return Ok(None);
        };
        let answer = file.part(alloc, at, length);
        let text = self.judge(path, answer)?;
        self.handed.add(text.len())?;
        Ok(Some(text))
    }

    /// A fault as `length`, and where that answers None. More than 4,294,967,296 bytes are a fault,
    /// and so are more than the file has there now. Where the text has room for them they take no
    /// memory; after a refusal it may have lost that room.
    fn read_exact(
        &mut self,
        _alloc: Global,
        path: &[u8],
        at: u64,
        count: usize,
        into: &mut Text,
    ) -> Result<(), ShelfError> {
        self.open(path)?;
        let answer = match &mut self.parted {
            Some(file) => file.exact_part(at, count, into),
            None => Err(FileError::from(io::Error::from(ErrorKind::NotFound))),
        };
        self.judge(path, answer)?;
        self.handed.add(count)?;
        Ok(())
    }

    /// Makes the file beside its place, or, where folders of the path are missing, below the
    /// highest of them, which is made beside its own place. Where a file is at the path, or a link
    /// to one, it stays until the new one takes its name, which has its permissions; where anything
    /// else is there, that is a fault, and so is a path that ends in no name. What was made before
    /// takes its name first, unless both are below a folder that isn't finished. After a refusal
    /// nothing is unfinished, and what was is removed.
    fn create(&mut self, _alloc: Global, path: &[u8]) -> Result<(), ShelfError> {
        self.forget(path);
        self.complete()?;
        if !self
            .folder
            .as_ref()
            .is_some_and(|folder| folder.holds(path))
        {
            self.settle()?;
        }
        let answer = make(self.rt, &mut self.folder, path);
        if answer.is_err() {
            self.give_up();
        }
        self.made_last = Some(self.judge(path, answer)?);
        Ok(())
    }

    /// Adds to the file that was made last, and else to one that is there, in its place: where none
    /// is, that is a fault. After a refusal nothing is unfinished, and what was is removed.
    fn append(&mut self, _alloc: Global, path: &[u8], bytes: &[u8]) -> Result<(), ShelfError> {
        self.forget(path);
        let answer = match &mut self.made_last {
            Some(file) if file.path.as_bytes() == path => file.append(bytes),
            _ => {
                self.settle()?;
                append_at(self.rt, path, bytes)
            }
        };
        if answer.is_err() {
            self.give_up();
        }
        self.judge(path, answer)
    }

    /// Has the bytes of the file that was made last on the disk, has it take its name, or the
    /// folder below which it is, and has that on the disk. Where the bytes can't be had there, it
    /// is removed, with that folder: the system tells of lost bytes only once. A file that has its
    /// name already, since a call looked at files, is opened and had on the disk under it.
    fn finish(&mut self, _alloc: Global) -> Result<(), ShelfError> {
        let answer = match (self.made_last.take(), self.folder.take()) {
            (file, Some(folder)) => folder.finish(self.rt, file),
            (Some(file), None) => file.finish(self.rt),
            (None, None) => match replace(&mut self.last_named, LastNamed::Nothing) {
                LastNamed::Unflushed(path) => keep_named(self.rt, path),
                LastNamed::Nothing | LastNamed::Kept(_) => return Ok(()),
            },
        };
        self.last_named = LastNamed::Kept(self.judge(b"", answer)?);
        Ok(())
    }

    ghost sound = { λ _. tt };
}
