//! Modules from words.

use jm_bytes::{List, NoMemory, Text};
use jm_closure::Candidate;
use jm_modinfo::{Descriptor, Need, Provides, SharedText};
use std::alloc::Global;

/// A module that is required, with these flags.
fn need(alloc: Global, name: &str, flags: u16) -> Result<Need, NoMemory> {
    Ok(Need {
        name: SharedText::copy_of(alloc, name.as_bytes())?,
        flags,
        version: None,
    })
}

fn provides(alloc: Global, service: &str) -> Result<Provides, NoMemory> {
    Ok(Provides {
        service: SharedText::copy_of(alloc, service.as_bytes())?,
        classes: List::new(alloc),
    })
}

/// A module of this name, and of nothing else.
fn named(alloc: Global, name: &str) -> Result<Candidate, NoMemory> {
    let descriptor = Descriptor {
        name: SharedText::copy_of(alloc, name.as_bytes())?,
        version: None,
        flags: 0,
        needs: List::new(alloc),
        exports: List::new(alloc),
        opens: List::new(alloc),
        uses: List::new(alloc),
        provides: List::new(alloc),
        main: None,
    };
    Ok(Candidate {
        descriptor,
        packages: List::new(alloc),
    })
}

/// Adds what a word says: a service that is used behind a `?`, one that is provided behind a `!`, a
/// package behind a `/`, a name that is required with `static` behind a `~`, else one without.
fn put(alloc: Global, one: &mut Candidate, word: &str) -> Result<(), NoMemory> {
    if let Some(service) = word.strip_prefix("?") {
        return one
            .descriptor
            .uses
            .push(SharedText::copy_of(alloc, service.as_bytes())?);
    }
    if let Some(service) = word.strip_prefix("!") {
        return one.descriptor.provides.push(provides(alloc, service)?);
    }
    if let Some(package) = word.strip_prefix("/") {
        return one.packages.push(Text::copy_of(alloc, package.as_bytes())?);
    }
    let (name, flags) = match word.strip_prefix("~") {
        Some(name) => (name, 0x0040),
        None => (word, 0x8000),
    };
    one.descriptor.needs.push(need(alloc, name, flags)?)
}

/// A module, as words: its name, and what it has.
fn candidate(alloc: Global, line: &str) -> Result<Candidate, NoMemory> {
    let (name, words) = match line.split_once(' ') {
        Some((name, words)) => (name, Some(words)),
        None => (line, None),
    };
    let mut one = named(alloc, name)?;
    if let Some(words) = words {
        for word in words.split(' ') {
            put(alloc, &mut one, word)?;
        }
    }
    Ok(one)
}

/// The modules of the lines; between lines stands a comma.
pub fn candidates(alloc: Global, lines: &str) -> Result<List<Candidate>, NoMemory> {
    let mut found = List::new(alloc);
    for line in lines.split(',') {
        found.push(candidate(alloc, line)?)?;
    }
    Ok(found)
}
