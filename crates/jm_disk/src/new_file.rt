//! A new file, which isn't finished until it is complete.
ghost use Rattle.std.specs.Prelude.{◌≡◌, IfSome};
ghost use Rattle.std.specs.Fd.{file_raw_fd};

use crate::beside::{MOST_NAMES, confirm, path_beside, remove_own};
use crate::file_error::{FileError, Reason};
use crate::flushing::{Flushed, OnDisk, flush, flush_folder, keep_name};
use crate::new_folder::{NewFolder, folder_for, make_folders};
use crate::paths::{Node, Place, is_file_at, node_of, place_at, text_of};
use crate::rights::{ask_leave, first_rights, give_rights};
use std::fs::{File, OpenOptions};
use std::io::{ErrorKind, Write};
use std::os::unix::fs::OpenOptionsExt;
use std::rt::Files;
use std::{fs, io};

/// The permissions of a file where none was, of which the system takes those that the user keeps
/// back.
const NEW_MODE: u32 = 0o666;

/// A file that was made and isn't finished yet. It is open.
#[derive(Drop)]
pub struct NewFile {
    /// The path that it was made for.
    pub path: String,
    /// The path at which it stands.
    own: String,
    file: File,
    /// The place beside which it stands and that it is to take. None below a folder that isn't
    /// finished, in which it has its own name.
    due: Option<Due>,
}

/// A place that a file is to take which stands beside it. The file is locked, where the disk has
/// locks.
#[derive(Drop)]
struct Due {
    /// The path that the file was made for, or that of the file to which a link there leads.
    path: String,
    node: Node,
    is_replacing: bool,
}

/// Makes an empty file for a path: below the folder that isn't finished, if one is given, which has
/// to hold the path, and else beside the place. Where folders are missing, the highest of them is
/// given from then on. What stands at the path stays as it is until the new file takes its name. A
/// path that ends in no name is a fault: no folder has it by itself.
pub fn make<R: Files<File = File> + AllocGlobal>(
    rt: &R,
    folder: &mut Option<NewFolder>,
    path: &[u8],
) -> Result<NewFile, FileError> {
    let path = text_of(path)?;
    let last = match path.rsplit_once('/') {
        Some((_, last)) => last,
        None => path,
    };
    if matches!(last, "" | "." | "..") {
        return Err(FileError::from(Reason::NotFile));
    }
    if folder.is_none() {
        match make_beside(rt, path) {
            Err(
                FileError {
                    reason: Reason::System(e),
                    ..
                },
            ) if e.kind() == ErrorKind::NotFound => *folder = folder_for(rt, path)?,
            answer => return answer,
        }
    }
    match folder {
        Some(folder) => make_below(rt, folder, path),
        None => make_beside(rt, path),
    }
}

/// Makes a file below a folder that isn't finished, with the folders between both. Where something
/// has its name already, as on a disk that takes two names for one, it is removed.
fn make_below<R: Files<File = File> + AllocGlobal>(
    rt: &R,
    folder: &NewFolder,
    path: &str,
) -> Result<NewFile, FileError> {
    let own = folder.inner_path(rt.alloc(), path)?;
    let path = String::from_str(rt.alloc(), path)?;
    let opened = match open_new(rt, own.as_str(), NEW_MODE) {
        Err(e) if e.kind() == ErrorKind::NotFound => {
            make_folders(rt, own.as_str())?;
            open_new(rt, own.as_str(), NEW_MODE)
        }
        Err(e) if e.kind() == ErrorKind::AlreadyExists => {
            fs::remove_file(rt, own.as_str())?;
            open_new(rt, own.as_str(), NEW_MODE)
        }
        answer => answer,
    };
    Ok(NewFile {
        path,
        own,
        file: opened?,
        due: None,
    })
}

/// Makes a file beside the place at a path.
fn make_beside<R: Files<File = File> + AllocGlobal>(
    rt: &R,
    path: &str,
) -> Result<NewFile, FileError> {
    let place = place_at(rt, path)?;
    let path = String::from_str(rt.alloc(), path)?;
    let mode = match &place.old {
        Some(old) => first_rights(old),
        None => NEW_MODE,
    };
    let (own, file) = open_beside(rt, place.path.as_str(), mode)?;
    match ready(rt, &file, &place) {
        Ok(node) => {
            let due = Due {
                is_replacing: place.old.is_some(),
                path: place.path,
                node,
            };
            Ok(NewFile {
                path,
                own,
                file,
                due: Some(due),
            })
        }
        Err(e) => {
            if let Ok(found) = file.metadata() {
                remove_own(rt, own.as_str(), node_of(&found));
            }
            Err(e)
        }
    }
}

/// Locks a file that was made beside a place, and gives it what the old one there has.
fn ready<R: Files>(rt: &R, file: &File, place: &Place) -> Result<Node, FileError> {
    // Where the disk has no locks it has none.
    let _locked = file.try_lock().is_ok();
    let found = file.metadata()?;
    if let Some(old) = &place.old {
        ask_leave(rt, place.path.as_str(), old, &found)?;
        give_rights(file, old, &found)?;
    }
    Ok(node_of(&found))
}

/// Opens a new file beside the place at a path, by the first name that is free.
fn open_beside<R: Files<File = File> + AllocGlobal>(
    rt: &R,
    due: &str,
    mode: u32,
) -> Result<(String, File), FileError> {
    for number in 0..MOST_NAMES {
        let own = path_beside(rt.alloc(), due, number)?;
        if fs::symlink_metadata(rt, own.as_str()).is_ok() {
            continue;
        }
        match open_new(rt, own.as_str(), mode) {
            Ok(file) => return Ok((own, file)),
            Err(e) if e.kind() == ErrorKind::AlreadyExists => {}
            Err(e) => return Err(FileError::from(e)),
        }
    }
    Err(FileError::from(Reason::NoName))
}

/// Makes a file at a path where nothing was seen, and opens it. Some disks make it and then fail to
/// open it: it is removed.
fn open_new<R: Files<File = File>>(rt: &R, path: &str, mode: u32) -> io::Result<File> {
    let opened = OpenOptions::new()
        .append(true)
        .create_new(true)
        .mode(mode)
        .open(rt, path);
    match opened {
        Err(e) if e.kind() != ErrorKind::AlreadyExists => {
            if fs::symlink_metadata(rt, path).is_ok_and(|left| left.is_file() && left.len() == 0) {
                let _removed = fs::remove_file(rt, path).is_ok();
            }
            Err(e)
        }
        answer => answer,
    }
}

/// Adds bytes to the end of the file at a path, which has to be there.
pub fn append_at<R: Files>(rt: &R, path: &[u8], bytes: &[u8]) -> Result<(), FileError> {
    let path = text_of(path)?;
    if !is_file_at(rt, path)? {
        return Err(FileError::from(io::Error::from(ErrorKind::NotFound)));
    }
    let mut file = OpenOptions::new().append(true).open(rt, path)?;
    file.write_all(bytes)?;
    Ok(())
}

impl NewFile {
    /// Adds bytes to the end of the file.
    pub fn append(&mut self, bytes: &[u8]) -> Result<(), FileError> {
        self.file.write_all(bytes)?;
        Ok(())
    }

    /// Has the file take its place once its bytes are on the disk, and then has its name there.
    /// Where it can't take its place, it is removed.
    pub fn finish<R: Files<File = File>>(self, rt: &R) -> Result<OnDisk, FileError> {
        match flush(&self.file) {
            Ok(flushed) => {
                let due = self.take_place(rt, Some(flushed))?;
                keep_name(rt, due, flushed)
            }
            Err(e) => {
                let path = self.remove(rt);
                Err(FileError::from(e).at(Some(path)))
            }
        }
    }

    /// Closes the file, and has it take its place, of which it gives the path. What replaces
    /// another file waits for the disk, unless its bytes are known to be there. Where it can't take
    /// its place, it is removed.
    pub fn take_place<R: Files>(self, rt: &R, bytes: Option<Flushed>) -> Result<String, FileError>
        requires own { IfSome bytes (λ bytes. bytes.descriptor ≡ file_raw_fd self.file) }
    {
        let NewFile {
            path,
            own,
            file,
            due,
        } = self;
        let Some(due) = due else {
            return Ok(own);
        };
        let unflushed = match bytes {
            None if due.is_replacing => flush(&file).err(),
            Some(_) | None => None,
        };
        let answer = match unflushed {
            Some(e) => Err(FileError::from(e)),
            None => confirm(rt, own.as_str(), due.node),
        };
        if let Err(e) = answer {
            remove_own(rt, own.as_str(), due.node);
            drop(file);
            return Err(e.at(Some(path)));
        }
        drop(file);
        match fs::rename(rt, own.as_str(), due.path.as_str()) {
            Ok(()) => Ok(due.path),
            Err(e) => {
                remove_own(rt, own.as_str(), due.node);
                Err(FileError::from(e).at(Some(path)))
            }
        }
    }

    /// Waits until the bytes of a file below a folder that isn't finished are on the disk, and the
    /// names on the way to it, from that folder on.
    pub fn flush_below<R: Files<File = File> + AllocGlobal>(
        &self,
        rt: &R,
        top: &str,
    ) -> Result<Flushed, FileError> {
        let flushed = match flush(&self.file) {
            Ok(flushed) => flushed,
            Err(e) => {
                let path = String::from_str(rt.alloc(), self.path.as_str()).ok();
                return Err(FileError::from(e).at(path));
            }
        };
        for (end, _) in self.own.match_indices('/') {
            match self.own.get(..end) {
                Some(folder) if end >= top.len() => flush_folder(rt, folder)?,
                Some(_) | None => {}
            }
        }
        Ok(flushed)
    }

    /// Has a file that was made below a folder take its place by itself, at which nothing may be,
    /// and gives that.
    pub fn move_alone<R: Files + AllocGlobal>(&self, rt: &R) -> Result<String, FileError> {
        let Place { path: due, old } = place_at(rt, self.path.as_str())?;
        if old.is_some() {
            return Err(FileError::from(io::Error::from(ErrorKind::AlreadyExists)));
        }
        make_folders(rt, due.as_str())?;
        fs::rename(rt, self.own.as_str(), due.as_str())?;
        Ok(due)
    }

    /// Removes the file, if it stands beside its place, and closes it. Gives the path that it was
    /// made for.
    pub fn remove<R: Files>(self, rt: &R) -> String {
        let NewFile {
            path,
            own,
            file,
            due,
        } = self;
        if let Some(due) = due {
            remove_own(rt, own.as_str(), due.node);
        }
        drop(file);
        path
    }
}
