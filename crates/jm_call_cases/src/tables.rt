//! The strings of an image, and its tables.

use crate::texts::{given, put_quoted};
use jm_bytes::{List, NoMemory, Text};
use jm_redirect::build;
use jm_strings::Strings;
use std::alloc::{AllocError, Global};

/// The place of a text that is taken; none where it has a zero byte. Behind a `?` a text is looked
/// up alone.
fn place_of(strings: &mut Strings, text: &[u8]) -> Option<u32> {
    match text {
        [b'?', sought @ ..] => strings.place(sought),
        taken if taken.contains(&0) => None,
        taken => strings.intern(taken).ok(),
    }
}

/// The places of some texts that are taken or looked up, one after the other, and the section then.
pub fn told_strings(alloc: Global, texts: &[&[u8]]) -> Result<String, AllocError> {
    let mut strings = given(Strings::new(alloc))?;
    let mut told = String::new(alloc);
    for text in texts {
        match place_of(&mut strings, text) {
            Some(place) => write!(told, "{place} ")?,
            None => told.push_str("none ")?,
        }
    }
    put_quoted(&mut told, strings.bytes())?;
    Ok(told)
}

fn names_of(alloc: Global, names: &[&[u8]]) -> Result<List<Text>, NoMemory> {
    let mut texts = List::new(alloc);
    for name in names {
        if !name.is_empty() {
            texts.push(Text::copy_of(alloc, name)?)?;
        }
    }
    Ok(texts)
}

/// The table of some names: its length, its redirects and its slots.
pub fn told_table(alloc: Global, names: &[&[u8]]) -> Result<Option<String>, AllocError> {
    let names = given(names_of(alloc, names))?;
    if names.len() > 1_048_576 {
        return Ok(None);
    }
    Ok(Some(match build(alloc, names.as_slice()) {
        Ok(table) => {
            let (length, slots) = (table.length, table.slot_of.as_slice());
            let redirects = table.redirects.as_slice();
            format!(in alloc; "{length}, {redirects:?}, {slots:?}")?
        }
        Err(error) => format!(in alloc; "{error:?}")?,
    }))
}
