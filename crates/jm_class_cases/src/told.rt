//! What a line comes to.

use crate::described::put_described;
use crate::parts::put_read;
use crate::texts::put_error;
use jm_bytes::{List, NoMemory, Or, Text};
use jm_class::{ClassFault, DEFAULT_RELEASE};
use jm_compact::compact_for;
use jm_lines::{Spelling, bytes_of, first_word, put_digits};
use jm_packages::add_packages_for;
use jm_strip::strip_for;
use std::alloc::{AllocError, Global};

/// Puts the bytes of a class that was made of another one, or that they are those of this one.
fn put_made(
    told: &mut String,
    old: &[u8],
    made: Result<Text, Or<ClassFault>>,
) -> Result<(), AllocError> {
    match made {
        Ok(new) if new.as_slice() == old => told.push_str("same"),
        Ok(new) => put_digits(told, new.as_slice()),
        Err(error) => put_error(told, error),
    }
}

/// Whether compacting gives the class back.
fn stays(alloc: Global, release: u32, class: &[u8]) -> bool {
    match compact_for(alloc, release, class) {
        Ok(again) => again.as_slice() == class,
        Err(_) => false,
    }
}

/// Puts the compacted class, and where compacting it twice changes it twice, this too.
fn put_compacted(
    told: &mut String,
    alloc: Global,
    release: u32,
    bytes: &[u8],
) -> Result<(), AllocError> {
    let differs = match compact_for(alloc, release, bytes) {
        Ok(text) => !stays(alloc, release, text.as_slice()),
        Err(_) => false,
    };
    put_made(told, bytes, compact_for(alloc, release, bytes))?;
    if differs {
        told.push_str("; again differs")?;
    }
    Ok(())
}

/// The names in a text, with commas between them.
fn names_in(alloc: Global, text: &str) -> Result<List<Text>, NoMemory> {
    let mut names = List::new(alloc);
    for name in text.split(',') {
        if !name.is_empty() {
            names.push(Text::copy_of(alloc, name.as_bytes())?)?;
        }
    }
    Ok(names)
}

/// The class with a list of packages.
fn packaged(
    alloc: Global,
    release: u32,
    bytes: &[u8],
    names: &str,
) -> Result<Text, Or<ClassFault>> {
    let packages = names_in(alloc, names)?;
    add_packages_for(alloc, release, bytes, packages.as_slice())
}

/// Puts what a verb makes of the bytes for a release.
fn put_answer(
    told: &mut String,
    alloc: Global,
    release: u32,
    verb: &str,
    bytes: &[u8],
) -> Result<(), AllocError> {
    if let Some(names) = verb.strip_prefix("packages=") {
        return put_made(told, bytes, packaged(alloc, release, bytes, names));
    }
    match verb {
        "compact" => put_compacted(told, alloc, release, bytes),
        "strip" => put_made(told, bytes, strip_for(alloc, release, bytes)),
        "read" => put_read(told, alloc, release, bytes),
        "describe" => put_described(told, alloc, release, bytes),
        _ => told.push_str("no verb"),
    }
}

/// The release in front of a head, and what stands behind it.
fn release_of(head: &str) -> (u32, &str) {
    let (word, behind) = first_word(head);
    match word.parse::<u32>() {
        Ok(release) => (release, behind),
        Err(_) => (DEFAULT_RELEASE, head),
    }
}

/// What a line `VERB NAME: HEX` comes to, with or without a release in front; any other line is
/// told as it stands.
pub fn told_of(alloc: Global, line: &str) -> Result<String, AllocError> {
    let (head, digits) = line.split_once(": ").unwrap_or((line, ""));
    let (release, named) = release_of(head);
    let (verb, _) = first_word(named);
    let Some(bytes) = bytes_of(alloc, Spelling::Digits, digits)? else {
        return format!(in alloc; "no bytes: {line}\n");
    };
    let mut told = format!(in alloc; "{head}: ")?;
    put_answer(&mut told, alloc, release, verb, bytes.as_slice())?;
    told.push('\n')?;
    Ok(told)
}
