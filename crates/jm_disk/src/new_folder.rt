//! A new folder, which stands beside its place until all below it is made.
use crate::beside::{MOST_NAMES, confirm, path_beside};
use crate::file_error::{FileError, Reason};
use crate::flushing::{OnDisk, keep_name};
use crate::new_file::NewFile;
use crate::paths::{Node, behind_link, folder_of, is_absence, node_of, stands_at, text_of};
use std::alloc::Global;
use std::fs;
use std::fs::File;
use std::io::ErrorKind;
use std::rt::Files;

/// A folder that was made and isn't finished yet. It stands under a name of its own, and is open,
/// and locked, where it may be read and the disk has locks.
#[derive(Drop)]
pub struct NewFolder {
    /// The path that it takes.
    due: String,
    /// The path at which it stands.
    own: String,
    node: Node,
    held: Option<File>,
    /// The file below it that was completed last.
    last: Option<NewFile>,
    /// Whether that is the only one.
    is_alone: bool,
}

/// A folder beside the place of the highest one that is missing on the way to a path, if that leads
/// below it; None where none is missing. What is met by way of a folder that is made only now, as
/// `no/../x`, is looked at once it is there.
pub fn folder_for<R: Files<File = File> + AllocGlobal>(
    rt: &R,
    path: &str,
) -> Result<Option<NewFolder>, FileError> {
    for _ in 0..path.len() {
        let Some(missing) = missing_folder(rt, path)? else {
            break;
        };
        let folder = NewFolder::make(rt, missing)?;
        if folder.holds(path.as_bytes()) {
            return Ok(Some(folder));
        }
        let _named = folder.take_place(rt)?;
    }
    Ok(None)
}

/// The highest folder of a path that isn't there, or None where all are. A link to nothing is a
/// fault.
fn missing_folder<'p, R: Files>(rt: &R, path: &'p str) -> Result<Option<&'p str>, FileError> {
    for (end, _) in path.match_indices('/') {
        let folder = path.get(..end).unwrap_or("");
        if folder.is_empty() {
            continue;
        }
        match fs::metadata(rt, folder) {
            Ok(_) => continue,
            Err(e) if e.kind() == ErrorKind::NotFound => {}
            Err(e) => return Err(FileError::from(e)),
        }
        return match fs::symlink_metadata(rt, folder) {
            Ok(_) => Err(FileError::from(Reason::LeadsNowhere)),
            Err(e) if is_absence(e.kind()) => Ok(Some(folder)),
            Err(e) => Err(FileError::from(e)),
        };
    }
    Ok(None)
}

/// Makes the folders of a path that are missing. A link to nothing is in the way of one.
pub fn make_folders<R: Files>(rt: &R, path: &str) -> Result<(), FileError> {
    if make_folder(rt, folder_of(path)).is_ok() {
        return Ok(());
    }
    for (end, _) in path.match_indices('/') {
        if let Some(folder) = path.get(..end) {
            make_folder(rt, folder)?;
        }
    }
    Ok(())
}

/// Makes a folder, unless it is there.
fn make_folder<R: Files>(rt: &R, folder: &str) -> Result<(), FileError> {
    if folder.is_empty() {
        return Ok(());
    }
    let error = match fs::create_dir(rt, folder) {
        Ok(()) => return Ok(()),
        Err(e) => e,
    };
    match fs::metadata(rt, folder) {
        Ok(found) if found.is_dir() => Ok(()),
        Err(e) if error.kind() == ErrorKind::AlreadyExists => Err(behind_link(e)),
        Err(e) if !is_absence(e.kind()) => Err(FileError::from(e)),
        Ok(_) | Err(_) => Err(FileError::from(error)),
    }
}

impl NewFolder {
    /// Makes a folder beside the place at a path, by the first name that is free.
    fn make<R: Files<File = File> + AllocGlobal>(
        rt: &R,
        due: &str,
    ) -> Result<NewFolder, FileError> {
        let due = String::from_str(rt.alloc(), due)?;
        for number in 0..MOST_NAMES {
            let own = path_beside(rt.alloc(), due.as_str(), number)?;
            match fs::create_dir(rt, own.as_str()) {
                Ok(()) => return NewFolder::hold(rt, due, own),
                Err(e) if e.kind() == ErrorKind::AlreadyExists => {}
                Err(e) => return Err(FileError::from(e)),
            }
        }
        Err(FileError::from(Reason::NoName))
    }

    /// The folder that was made at a path. Where it can't be known again, it is removed.
    fn hold<R: Files<File = File>>(
        rt: &R,
        due: String,
        own: String,
    ) -> Result<NewFolder, FileError> {
        let held = fs::open(rt, own.as_str()).ok();
        let found = match &held {
            Some(folder) => {
                // Where the disk has no locks it has none.
                let _locked = folder.try_lock().is_ok();
                folder.metadata()
            }
            None => fs::symlink_metadata(rt, own.as_str()),
        };
        match found {
            Ok(found) => Ok(NewFolder {
                due,
                own,
                node: node_of(&found),
                held,
                last: None,
                is_alone: false,
            }),
            Err(e) => {
                let _removed = fs::remove_dir(rt, own.as_str()).is_ok();
                Err(FileError::from(e))
            }
        }
    }

    /// Whether a path leads below the folder.
    pub fn holds(&self, path: &[u8]) -> bool {
        let rest = match text_of(path) {
            Ok(path) => path.strip_prefix(self.due.as_str()),
            Err(_) => None,
        };
        rest.is_some_and(|rest| rest.starts_with('/') && !rest.contains("/../"))
    }

    /// Where a path below the folder stands as long as the folder isn't finished.
    pub fn inner_path(&self, alloc: Global, path: &str) -> Result<String, FileError> {
        let rest = path.strip_prefix(self.due.as_str()).unwrap_or("");
        Ok(format!(in alloc; "{}{rest}", self.own)?)
    }

    /// Keeps a file below it that is complete.
    pub fn keep(&mut self, file: NewFile) {
        self.is_alone = self.last.is_none();
        self.last = Some(file);
    }

    /// Takes its place. Gives the path of that, and the last file below it. Where another folder
    /// was made there meanwhile, a file that is alone below it takes its own place there. Where it
    /// can't, it is removed.
    pub fn take_place<R: Files + AllocGlobal>(
        self,
        rt: &R,
    ) -> Result<(String, Option<NewFile>), FileError> {
        let renamed = match confirm(rt, self.own.as_str(), self.node) {
            Ok(()) => match fs::rename(rt, self.own.as_str(), self.due.as_str()) {
                Ok(()) => return Ok((self.due, self.last)),
                Err(e) => FileError::from(e),
            },
            Err(e) => e,
        };
        let is_taken = match &renamed.reason {
            Reason::System(e) => matches!(
                e.kind(),
                ErrorKind::DirectoryNotEmpty | ErrorKind::AlreadyExists
            ),
            _ => false,
        };
        let answer = match &self.last {
            Some(file) if self.is_alone && is_taken => file.move_alone(rt),
            Some(_) | None => Err(renamed),
        };
        self.remove(rt);
        match answer {
            Ok(due) => Ok((due, self.last)),
            Err(e) => Err(e.at(Some(self.due))),
        }
    }

    /// Takes its place, with the last file below it, if one is given, once that is on the disk, and
    /// then has its name there. Where it can't, it is removed, and so is one without a file, which
    /// none was made for.
    pub fn finish<R: Files<File = File> + AllocGlobal>(
        self,
        rt: &R,
        last: Option<NewFile>,
    ) -> Result<OnDisk, FileError> {
        let mut folder = self;
        if let Some(file) = last {
            folder.keep(file);
        }
        let flushed = match &folder.last {
            Some(file) => file.flush_below(rt, folder.own.as_str()),
            None => Err(FileError::from(Reason::Lost)),
        };
        match flushed {
            Ok(bytes) => {
                let (due, _last) = folder.take_place(rt)?;
                keep_name(rt, due, bytes)
            }
            Err(e) => {
                folder.remove(rt);
                Err(e.at(Some(folder.due)))
            }
        }
    }

    /// Removes the folder with all that it holds, if it is the one that was made.
    pub fn remove<R: Files + AllocGlobal>(&self, rt: &R) {
        if matches!(stands_at(rt, self.own.as_str(), self.node), Ok(true)) {
            let _removed = fs::remove_dir_all(rt, self.own.as_str()).is_ok();
        }
    }
}
