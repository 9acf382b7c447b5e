//! Texts and numbers from words, and bytes put between quotes.

use jm_bytes::{List, NoMemory, Text};
use jm_lines::put_bytes;
use std::alloc::{AllocError, Global};

/// What a call gave; that it found no memory ends the program as its own calls do.
pub fn given<A>(answer: Result<A, NoMemory>) -> Result<A, AllocError> {
    match answer {
        Ok(value) => Ok(value),
        Err(NoMemory) => Err(AllocError),
    }
}

/// Puts bytes between quotes.
pub fn put_quoted(told: &mut String, bytes: &[u8]) -> Result<(), AllocError> {
    told.push('"')?;
    put_bytes(told, bytes)?;
    told.push('"')
}

/// Each of some bytes between quotes, with spaces between.
pub fn quoted(alloc: Global, parts: &[&[u8]]) -> Result<String, AllocError> {
    let mut told = String::new(alloc);
    for (number, part) in parts.iter().enumerate() {
        if number > 0 {
            told.push(' ')?;
        }
        put_quoted(&mut told, part)?;
    }
    Ok(told)
}

/// Puts words with spaces between.
pub fn put_words(told: &mut String, words: &[&[u8]]) -> Result<(), AllocError> {
    for (number, word) in words.iter().enumerate() {
        if number > 0 {
            told.push(' ')?;
        }
        put_bytes(told, word)?;
    }
    Ok(())
}

/// A text of each word; between words stand spaces.
pub fn texts_of(alloc: Global, words: &str) -> Result<List<Text>, NoMemory> {
    let mut texts = List::new(alloc);
    for word in words.split(' ') {
        if !word.is_empty() {
            texts.push(Text::copy_of(alloc, word.as_bytes())?)?;
        }
    }
    Ok(texts)
}

/// The numbers that the words of a text are, or None where one isn't a number.
pub fn numbers_of(alloc: Global, words: &[u8]) -> Result<Option<Vec<u64>>, AllocError> {
    let mut numbers = Vec::new(alloc);
    let Ok(words) = str::from_utf8(words) else {
        return Ok(None);
    };
    for word in words.split(' ') {
        if word.is_empty() {
            continue;
        }
        let Ok(number) = word.parse::<u64>() else {
            return Ok(None);
        };
        numbers.push(number)?;
    }
    Ok(Some(numbers))
}
