//! Pools as words, `NAME=VALUE` for each pair.

use crate::texts::given;
use jm_bytes::{Or, Text};
use jm_lines::{Known, put_bytes};
use jm_pool::{Pool, Twice};
use std::alloc::{AllocError, Global};

/// A pair that is put into a pool, and whether it is.
fn push(pool: &mut Pool, name: Text, bytes: Text) -> Result<bool, AllocError> {
    match pool.try_push(name, bytes) {
        Ok(()) => Ok(true),
        Err(Or::Fault(Twice(_))) => Ok(false),
        Err(Or::Memory) => Err(AllocError),
    }
}

/// The pool of some words, or None where a word is no pair or a name stands twice.
pub fn pool_of(alloc: Global, known: &Known, words: &str) -> Result<Option<Pool>, AllocError> {
    let mut pool = Pool::new(alloc);
    for word in words.split(' ') {
        if word.is_empty() {
            continue;
        }
        let (name, value) = word.split_once('=').unwrap_or((word, ""));
        let Some(bytes) = known.value(alloc, value)? else {
            return Ok(None);
        };
        let name = given(Text::copy_of(alloc, name.as_bytes()))?;
        if !push(&mut pool, name, Text::from_vec(bytes))? {
            return Ok(None);
        }
    }
    Ok(Some(pool))
}

/// Puts the words of a pool, in which known bytes stand by their names.
pub fn put_pool(told: &mut String, known: &Known, pool: &Pool) -> Result<(), AllocError> {
    for place in 0..pool.len() {
        let (name, bytes) = pool.at(place);
        if place > 0 {
            told.push(' ')?;
        }
        put_bytes(told, name)?;
        told.push('=')?;
        match known.name_of(bytes) {
            Some(word) => write!(told, "@{word}")?,
            None => put_bytes(told, bytes)?,
        }
    }
    Ok(())
}

/// A pool of so many resources of no bytes, all in one folder.
pub fn crowd(alloc: Global, count: u64) -> Result<Pool, AllocError> {
    let mut pool = Pool::new(alloc);
    for number in 0..count {
        let name = format!(in alloc; "/m/p/{number}")?;
        push(
            &mut pool,
            Text::from_vec(name.into_bytes()),
            Text::new(alloc),
        )?;
    }
    Ok(pool)
}

/// A pool of one resource of so many zero bytes.
pub fn giant(alloc: Global, length: u64) -> Result<Pool, AllocError> {
    let mut pool = Pool::new(alloc);
    let bytes = Vec::from_elem(alloc, 0, length as usize)?;
    let name = given(Text::copy_of(alloc, b"/m/a"))?;
    push(&mut pool, name, Text::from_vec(bytes))?;
    Ok(pool)
}
