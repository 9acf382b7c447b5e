use jm_bytes::{NoMemory, Or, Text};
use jm_zip::ZipFault::{Check, Data, Directory, Encrypted, End, Local, Method, Name, Twice, Zip64};
use jm_zip::{
    Record, ZipFault, content, find_end, local_extent, local_range, read_zip, stored_range,
};
use std::alloc::Global;
use std::test::Fail;

/// An archive of the folder `d/`, the stored file `a` and the deflated file `b`: their local
/// records at 0, 32 and 65, the central ones at 109, 157 and 204, and the end record at 251.
const ZIP: [u8; 273] = [
    0x50, 0x4B, 0x03, 0x04, 0x14, 0x00, 0x00, 0x00, 0x00, 0x00, 0x00, 0x00, 0x00, 0x00, 0x00, 0x00,
    0x00, 0x00, 0x00, 0x00, 0x00, 0x00, 0x00, 0x00, 0x00, 0x00, 0x02, 0x00, 0x00, 0x00, 0x64, 0x2F,
    0x50, 0x4B, 0x03, 0x04, 0x14, 0x00, 0x00, 0x00, 0x00, 0x00, 0x00, 0x00, 0x00, 0x00, 0xAC, 0x2A,
    0x93, 0xD8, 0x02, 0x00, 0x00, 0x00, 0x02, 0x00, 0x00, 0x00, 0x01, 0x00, 0x00, 0x00, 0x61, 0x68,
    0x69, 0x50, 0x4B, 0x03, 0x04, 0x14, 0x00, 0x00, 0x00, 0x08, 0x00, 0x00, 0x00, 0x00, 0x00, 0x93,
    0xE2, 0xC4, 0x9C, 0x0D, 0x00, 0x00, 0x00, 0x1B, 0x00, 0x00, 0x00, 0x01, 0x00, 0x00, 0x00, 0x62,
    0x4B, 0x4C, 0x4A, 0x4E, 0xC4, 0x40, 0x0A, 0x19, 0xA9, 0x39, 0x39, 0xF9, 0x00, 0x50, 0x4B, 0x01,
    0x02, 0x14, 0x00, 0x14, 0x00, 0x00, 0x00, 0x00, 0x00, 0x00, 0x00, 0x00, 0x00, 0x00, 0x00, 0x00,
    0x00, 0x00, 0x00, 0x00, 0x00, 0x00, 0x00, 0x00, 0x00, 0x02, 0x00, 0x00, 0x00, 0x00, 0x00, 0x00,
    0x00, 0x00, 0x00, 0x00, 0x00, 0x00, 0x00, 0x00, 0x00, 0x00, 0x00, 0x64, 0x2F, 0x50, 0x4B, 0x01,
    0x02, 0x14, 0x00, 0x14, 0x00, 0x00, 0x00, 0x00, 0x00, 0x00, 0x00, 0x00, 0x00, 0xAC, 0x2A, 0x93,
    0xD8, 0x02, 0x00, 0x00, 0x00, 0x02, 0x00, 0x00, 0x00, 0x01, 0x00, 0x00, 0x00, 0x00, 0x00, 0x00,
    0x00, 0x00, 0x00, 0x00, 0x00, 0x00, 0x00, 0x20, 0x00, 0x00, 0x00, 0x61, 0x50, 0x4B, 0x01, 0x02,
    0x14, 0x00, 0x14, 0x00, 0x00, 0x00, 0x08, 0x00, 0x00, 0x00, 0x00, 0x00, 0x93, 0xE2, 0xC4, 0x9C,
    0x0D, 0x00, 0x00, 0x00, 0x1B, 0x00, 0x00, 0x00, 0x01, 0x00, 0x00, 0x00, 0x00, 0x00, 0x00, 0x00,
    0x00, 0x00, 0x00, 0x00, 0x00, 0x00, 0x41, 0x00, 0x00, 0x00, 0x62, 0x50, 0x4B, 0x05, 0x06, 0x00,
    0x00, 0x00, 0x00, 0x03, 0x00, 0x03, 0x00, 0x8E, 0x00, 0x00, 0x00, 0x6D, 0x00, 0x00, 0x00, 0x00,
    0x00,
];

/// The contents of its entries one after another.
const WHOLE: &[u8] = b"hiabcabcabcabcabcabcabc hello";

/// Bytes that stand in place of others, at these places.
type Changes = &'static [(usize, u8)];

/// What is shown, the changes of the archive, and its fault.
const CHANGED: &[(&str, Changes, Option<ZipFault>)] = &[
    ("no change", &[], None),
    ("no end record", &[(251, 0)], Some(End)),
    ("a comment that isn't there", &[(271, 1)], Some(End)),
    (
        "a disk in zip64",
        &[(255, 0xFF), (256, 0xFF)],
        Some(Zip64(251)),
    ),
    ("a directory that is too long", &[(264, 1)], Some(End)),
    (
        "a directory that is shorter",
        &[(263, 0x8D)],
        Some(Directory(110)),
    ),
    ("a zip that begins later", &[(267, 0x6C)], Some(Local(109))),
    ("fewer records in all", &[(261, 2)], Some(Directory(251))),
    ("fewer records on this disk", &[(259, 2)], None),
    ("no central record", &[(157, 0)], Some(Directory(157))),
    (
        "a name past the directory",
        &[(185, 0xFF)],
        Some(Directory(157)),
    ),
    (
        "a file on another disk in zip64",
        &[(191, 0xFF), (192, 0xFF)],
        Some(Zip64(157)),
    ),
    ("an encrypted file", &[(165, 1)], Some(Encrypted(157))),
    ("a name that is said to be UTF-8", &[(166, 8)], None),
    ("another method", &[(167, 12)], Some(Method(157))),
    ("stored with two sizes", &[(214, 0)], Some(Method(204))),
    ("a zero byte in a name", &[(203, 0)], Some(Name(157))),
    ("a name that is no UTF-8", &[(203, 0xFF)], Some(Name(157))),
    ("two files of a name", &[(250, 0x61)], Some(Twice(204))),
    ("no local record", &[(32, 0)], Some(Local(157))),
    (
        "another name of the local record",
        &[(62, 0x63)],
        Some(Local(157)),
    ),
    (
        "a byte that two entries share",
        &[(60, 1)],
        Some(Local(204)),
    ),
    ("a content in the directory", &[(93, 1)], Some(Local(204))),
    (
        "a local record and a later name",
        &[(62, 0x63), (250, 0x61)],
        Some(Local(157)),
    ),
];

/// What is shown, the changes of the archive, and the fault of its contents.
const CONTENTS: &[(&str, Changes, Option<ZipFault>)] = &[
    ("no change", &[], None),
    ("another stored byte", &[(63, 0x48)], Some(Check(157))),
    ("another sum", &[(220, 0)], Some(Check(204))),
    ("no stream", &[(96, 0xFF)], Some(Data(204))),
    ("a shorter stream", &[(224, 12)], Some(Data(204))),
    ("a stream that gives more", &[(228, 26)], Some(Data(204))),
    ("a stream that gives less", &[(228, 28)], Some(Data(204))),
];

/// The archive with these changes.
fn changed(changes: Changes) -> [u8; 273] {
    let mut file = ZIP;
    for (place, byte) in changes {
        if *place < file.len() {
            file[*place] = *byte;
        }
    }
    file
}

/// The content of an entry of the archive.
fn content_in(alloc: Global, file: &[u8; 273], said: &Record) -> Result<Text, Or<ZipFault>> {
    let end = match find_end(file, 273, 0) {
        Ok(end) => end,
        Err(fault) => return Err(Or::Fault(fault)),
    };
    let Some((start, count)) = local_range(&end, said) else {
        return Err(Or::Fault(Local(said.at)));
    };
    let Some(bytes) = file.get(start as usize..start as usize + count) else {
        return Err(Or::Fault(Local(said.at)));
    };
    let Some(extent) = local_extent(&end, said, bytes) else {
        return Err(Or::Fault(Local(said.at)));
    };
    let (first, length) = stored_range(said, &extent);
    let Some(stored) = file.get(first as usize..extent.end as usize) else {
        return Err(Or::Fault(Local(said.at)));
    };
    if stored.len() != length {
        return Err(Or::Fault(Local(said.at)));
    }
    content(alloc, said, Text::copy_of(alloc, stored)?)
}

/// The contents of the archive's entries one after another.
fn contents_in(alloc: Global, file: &[u8; 273]) -> Result<Text, Or<ZipFault>> {
    let records = read_zip(alloc, 0, file)?;
    let mut contents = Text::new(alloc);
    for said in records.as_slice() {
        let one = content_in(alloc, file, said)?;
        contents.extend(one.as_slice())?;
    }
    Ok(contents)
}

/// The fault of the archive with these changes, or None.
fn fault_of(alloc: Global, changes: Changes) -> Result<Option<ZipFault>, NoMemory> {
    match read_zip(alloc, 0, &changed(changes)) {
        Ok(_) => Ok(None),
        Err(Or::Fault(fault)) => Ok(Some(fault)),
        Err(Or::Memory) => Err(NoMemory),
    }
}

/// The fault of the contents of the archive with these changes, or None where they are those that
/// were put there.
fn content_fault_of(alloc: Global, changes: Changes) -> Result<Option<ZipFault>, NoMemory> {
    match contents_in(alloc, &changed(changes)) {
        Ok(contents) if contents.as_slice() == WHOLE => Ok(None),
        Ok(_) => Ok(Some(End)),
        Err(Or::Fault(fault)) => Ok(Some(fault)),
        Err(Or::Memory) => Err(NoMemory),
    }
}

#[test]
fn archives_are_judged(rt: HostRuntime) -> Result<(), Fail> {
    for (shows, changes, wanted) in CHANGED {
        let fault = fault_of(rt.alloc(), *changes)?;
        assert_eq!(rt; fault, *wanted, "{shows}");
    }
    Ok(())
}

#[test]
fn contents_are_judged(rt: HostRuntime) -> Result<(), Fail> {
    for (shows, changes, wanted) in CONTENTS {
        let fault = content_fault_of(rt.alloc(), *changes)?;
        assert_eq!(rt; fault, *wanted, "{shows}");
    }
    Ok(())
}
