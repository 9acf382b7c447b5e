//! The arguments and options that stand among the words.
use jm_words::{Row, Verb, arguments, options};
use std::alloc::{AllocError, Global};

/// An argument or an option that stands among the words.
#[derive(Clone, Copy)]
pub struct Item<'a> {
    /// The number of the word that has its text, from 1; of a flag, that of its own word.
    pub at: usize,
    pub row: Row,
    /// The argument, or the option's value. A flag has one only where it is wrong.
    pub text: Option<&'a str>,
}

/// The option of a command that a word names, which may have a value after `=`.
pub fn option_named(verb: Verb, word: &str) -> Option<Row> {
    let name = match word.split_once('=') {
        Some((name, _)) => name,
        None => word,
    };
    for row in options(verb) {
        if row.0 == name.as_bytes() {
            return Some(*row);
        }
    }
    None
}

/// What stands among the words, in their order, up to a word that the command doesn't take.
pub fn items_of<'a>(
    alloc: Global,
    verb: Verb,
    words: &'a [String],
) -> Result<Vec<Item<'a>>, AllocError> {
    let mut items = Vec::new(alloc);
    let mut left = arguments(verb);
    let mut pending = None;
    for i in 1..words.len() {
        let at = i + 1;
        let word = words[i].as_str();
        if let Some(row) = pending {
            pending = None;
            items.push(Item {
                at,
                row,
                text: Some(word),
            })?;
        } else if word.starts_with("--") {
            let Some(row) = option_named(verb, word) else {
                break
            };
            match word.split_once('=') {
                Some((_, value)) => items.push(Item {
                    at,
                    row,
                    text: Some(value),
                })?,
                None if row.1.is_flag() => items.push(Item {
                    at,
                    row,
                    text: None,
                })?,
                None => pending = Some(row),
            }
        } else {
            let Some((row, others)) = left.split_first() else {
                break
            };
            left = others;
            items.push(Item {
                at,
                row: *row,
                text: Some(word),
            })?;
        }
    }
    Ok(items)
}
