//! Hints: a line on what a user may do, after the line on what is wrong. No clause speaks of them.
use crate::items::{Item, items_of};
use crate::told::{Told, told_by};
use crate::words_hint::words_hint;
use jm_bytes::{copy_of, extend};
use jm_names::extend_shown_text;
use jm_outside::Shelf;
use jm_words::{Field, Form, limits, verb_named};
use std::alloc::{AllocError, Global};

/// The major version of a class less the release of Java SE that it is of.
const BEFORE_RELEASES: u64 = 44;

/// An archive that may stand where an image is to be.
#[derive(Clone, Copy)]
enum Archive {
    Zip,
    Jmod,
}

/// The hint on the line that a run with these words put, where there is something to say and memory
/// for it. What words and paths hold is shown as in any line.
pub fn hint_line<S: Shelf>(
    alloc: Global,
    words: &[String],
    line: Option<&[u8]>,
    shelf: &mut S,
) -> Option<Vec<u8>> {
    let line = String::from_utf8_lossy(alloc, line?).ok()?;
    let hint = hint_on(alloc, words, told_by(line.as_str())?, shelf).ok()??;
    shown_line(alloc, hint.as_str())
}

/// A hint as it is shown.
fn shown_line(alloc: Global, hint: &str) -> Option<Vec<u8>> {
    let mut line = copy_of(alloc, b"hint: ").ok()?;
    extend_shown_text(&mut line, hint.as_bytes()).ok()?;
    extend(&mut line, b"\n").ok()?;
    Some(line)
}

/// The hint on what a line tells.
fn hint_on<S: Shelf>(
    alloc: Global,
    words: &[String],
    told: Told,
    shelf: &mut S,
) -> Result<Option<String>, AllocError> {
    match told {
        Told::Words(fault) => words_hint(alloc, words, fault),
        Told::Version(major) => version_hint(alloc, major),
        Told::NoModule => no_module_hint(alloc, given(alloc, words)?.as_slice()),
        Told::Compressed => Ok(Some(String::from_str(
            alloc,
            "the image is compressed: jm_tool decompress IMAGE --output FILE \
             writes it uncompressed",
        )?)),
        Told::NoImage => no_image_hint(alloc, given(alloc, words)?.as_slice(), shelf),
    }
}

/// What stands among the words of a command.
fn given<'a>(alloc: Global, words: &'a [String]) -> Result<Vec<Item<'a>>, AllocError> {
    match words.first().and_then(|name| verb_named(name.as_bytes())) {
        Some(verb) => items_of(alloc, verb, words),
        None => Ok(Vec::new(alloc)),
    }
}

/// Whether an item is the path of an image, or of another file that is read.
fn is_file(item: &Item<'_>) -> bool {
    matches!(item.row.1, Form::Path) && matches!(item.row.2, Field::File | Field::FromImage)
}

/// The release that reads classes of a major version, if one does.
fn version_hint(alloc: Global, major: u64) -> Result<Option<String>, AllocError> {
    let (least, greatest) = limits(Field::Release);
    let Some(release) = major.checked_sub(BEFORE_RELEASES) else {
        return Ok(None);
    };
    let hint = if release < least {
        return Ok(None);
    } else if release <= greatest {
        format!(in alloc; "a class of Java SE {release} is read with --release {release}")?
    } else {
        format!(in alloc;
            "a class of Java SE {release} isn't read; compile it by javac --release {greatest}"
        )?
    };
    Ok(Some(hint))
}

/// What must hold a module that isn't found.
fn no_module_hint(alloc: Global, items: &[Item<'_>]) -> Result<Option<String>, AllocError> {
    let image = "an image has the module NAME where it has the entry /NAME/module-info.class";
    let path = "a module of --module-path is a folder in one of its directories, \
                with a module-info.class directly in it; a JAR or a .jmod is none";
    let has_image = items.iter().any(|item| is_file(item));
    let has_path = items.iter().any(|item| matches!(item.row.1, Form::Folders));
    let hint = match (has_image, has_path) {
        (true, true) => format!(in alloc; "{image}; {path}")?,
        (true, false) => String::from_str(alloc, image)?,
        (false, true) => String::from_str(alloc, path)?,
        (false, false) => return Ok(None),
    };
    Ok(Some(hint))
}

/// The archive that begins with some bytes.
fn archive_of(first: &[u8]) -> Option<Archive> {
    if first.starts_with(b"PK\x03\x04") {
        Some(Archive::Zip)
    } else if first.starts_with(b"JM\x01\x00") {
        Some(Archive::Jmod)
    } else {
        None
    }
}

/// What stands in the place of an image, where it is an archive.
fn no_image_hint<S: Shelf>(
    alloc: Global,
    items: &[Item<'_>],
    shelf: &mut S,
) -> Result<Option<String>, AllocError> {
    let Some(path) = items
        .iter()
        .find(|item| is_file(item))
        .and_then(|item| item.text)
    else {
        return Ok(None);
    };
    let Ok(Some(first)) = shelf.read_part(alloc, path.as_bytes(), 0, 4) else {
        return Ok(None);
    };
    match archive_of(first.as_slice()) {
        Some(Archive::Zip) => Ok(Some(format!(in alloc;
            "'{path}' is a zip file, as a JAR is: take its files out by unzip"
        )?)),
        Some(Archive::Jmod) => Ok(Some(format!(in alloc;
            "'{path}' is a jmod file: take its files out by jmod extract"
        )?)),
        None => Ok(None),
    }
}
