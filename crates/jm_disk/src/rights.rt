//! Who may read and write a new file that replaces another one, and whose it is.
use crate::file_error::FileError;
use std::fs::{File, Metadata, OpenOptions, Permissions};
use std::io;
use std::os::unix::fs::{MetadataExt, PermissionsExt, fchown};
use std::rt::Files;

/// The bits of a mode that say who may read, write and run a file.
const ALL_RIGHTS: u32 = 0o777;

/// The rights with which the new file is made: those of the old one, but the owner's alone where
/// its group has others than all. The new file may belong to another group at first.
pub fn first_rights(old: &Metadata) -> u32 {
    let rights = old.mode() & ALL_RIGHTS;
    if (rights >> 3) & 0o7 == rights & 0o7 {
        rights
    } else {
        rights & 0o700
    }
}

/// Refuses to replace a file at a path that may not be written to. It is opened only where its
/// rights don't show that it may: to open it costs some disks a copy of all that it holds.
pub fn ask_leave<R: Files>(
    rt: &R,
    path: &str,
    old: &Metadata,
    new: &Metadata,
) -> Result<(), FileError> {
    let rights = old.mode() & ALL_RIGHTS;
    let writing = if old.uid() == new.uid() { 0o200 } else { 0o022 };
    // A program that runs may not be written to, whatever its rights are.
    if rights & writing == writing && rights & 0o111 == 0 {
        return Ok(());
    }
    let _writable = OpenOptions::new().append(true).open(rt, path)?;
    Ok(())
}

/// Gives a new file the owner, the group and the rights of the old one, as far as the system lets
/// it. Where it keeps the group to itself, all but the owner get what the group and all had.
pub fn give_rights(file: &File, old: &Metadata, new: &Metadata) -> io::Result<()> {
    let mut rights = old.mode() & ALL_RIGHTS;
    if !has_group(file, old, new) {
        let common = (rights >> 3) & rights & 0o7;
        rights = rights & 0o700 | common << 3 | common;
    }
    if new.mode() & ALL_RIGHTS == rights {
        return Ok(());
    }
    file.set_permissions(Permissions::from_mode(rights))
}

/// Whether a new file has the group of the old one, or gets it now, with the owner if that may be.
fn has_group(file: &File, old: &Metadata, new: &Metadata) -> bool {
    let (owner, group) = (old.uid(), old.gid());
    if (new.uid(), new.gid()) == (owner, group) {
        return true;
    }
    fchown(file, Some(owner), Some(group)).is_ok()
        || new.gid() == group
        || fchown(file, None, Some(group)).is_ok()
}
