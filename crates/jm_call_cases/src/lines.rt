//! What a line comes to.

use crate::closures::told_closure;
use crate::commands::told_words;
use crate::containers::{told_header, told_row, told_spelling};
use crate::generated::told_sum;
use crate::names::{told_check, told_forms, told_hash, told_node, told_package, told_pieces};
use crate::nodes::told_nodes;
use crate::packed::{told_inflated, told_unzipped};
use crate::patterns::{told_fault, told_first, told_match};
use crate::plans::{told_fronts, told_plan};
use crate::plugins::told_applied;
use crate::pools::{crowd, giant, pool_of};
use crate::sessions::{session_of, told_session};
use crate::tables::{told_strings, told_table};
use crate::texts::numbers_of;
use jm_lines::{Known, first_word};
use jm_names::DEFAULT_SEED;
use jm_pool::Pool;
use std::alloc::{AllocError, Global};
use std::thread::Threads;

/// The texts of a line, each between quotes, with spaces between; None where a text is faulty.
fn texts_in(alloc: Global, known: &Known, rest: &str) -> Result<Option<Vec<Vec<u8>>>, AllocError> {
    let mut texts = Vec::new(alloc);
    let inner = match rest.strip_prefix("\"") {
        Some(behind) => behind.strip_suffix("\""),
        None => None,
    };
    let Some(inner) = inner else {
        return Ok(None);
    };
    for spelled in inner.split("\" \"") {
        let Some(text) = known.value(alloc, spelled)? else {
            return Ok(None);
        };
        texts.push(text)?;
    }
    Ok(Some(texts))
}

/// The one number that a text is.
pub fn number_in(alloc: Global, text: &[u8]) -> Result<Option<u64>, AllocError> {
    let numbers = numbers_of(alloc, text)?;
    Ok(numbers.and_then(|numbers| numbers.first().copied()))
}

/// `bytes NAME: "TEXT"` and `times NAME: "COUNT" "TEXT"`: puts a text, or so many times a text, at
/// the end of the bytes of a name. Says whether the line was one of these.
fn name_bytes(
    alloc: Global,
    known: &mut Known,
    head: &str,
    texts: &[&[u8]],
) -> Result<bool, AllocError> {
    let (count, name, text) = match (first_word(head), texts) {
        (("bytes", name), [text]) => (1, name, text),
        (("times", name), [count, text]) => (number_in(alloc, count)?.unwrap_or(0), name, text),
        _ => return Ok(false),
    };
    let mut all = Vec::new(alloc);
    for _ in 0..count {
        all.extend_from_slice(text)?;
    }
    known.add(alloc, name, all.as_slice())?;
    Ok(true)
}

/// A text as words, of which it has none where it isn't UTF-8.
fn words_in(text: &[u8]) -> &str {
    str::from_utf8(text).unwrap_or("")
}

/// What a call on bytes gave; None where there is no such call.
fn told_by_bytes(alloc: Global, verb: &str, texts: &[&[u8]]) -> Result<Option<String>, AllocError> {
    Ok(Some(match (verb, texts) {
        ("match", [pattern, name]) => told_match(alloc, pattern, name)?,
        ("fault", [pattern]) => told_fault(alloc, pattern)?,
        ("first", [list, name]) => told_first(alloc, list, name)?,
        ("hash", [name]) => told_hash(alloc, DEFAULT_SEED, name)?,
        ("hash", [seed, name]) => match words_in(seed).parse::<u32>() {
            Ok(seed) => told_hash(alloc, seed, name)?,
            Err(_) => return Ok(None),
        },
        ("pieces", [name]) => told_pieces(alloc, name)?,
        ("node", [name]) => told_node(alloc, name)?,
        ("check", [name]) => told_check(alloc, name)?,
        ("package", [folder]) => told_package(alloc, folder)?,
        ("forms", [text]) => told_forms(alloc, text)?,
        ("header", [bytes]) => told_header(alloc, bytes)?,
        ("row", [bytes]) => told_row(alloc, bytes)?,
        ("strings", texts) => told_strings(alloc, texts)?,
        _ => return Ok(None),
    }))
}

/// What a call on words gave; None where there is no such call.
fn told_by_words(alloc: Global, verb: &str, texts: &[&[u8]]) -> Result<Option<String>, AllocError> {
    match (verb, texts) {
        ("spell", [numbers]) => told_spelling(alloc, numbers),
        ("table", names) => told_table(alloc, names),
        ("sum", [numbers]) => told_sum(alloc, numbers),
        ("inflate", [limit, bytes]) => told_inflated(alloc, limit, bytes),
        ("zlib", [size, bytes]) => told_unzipped(alloc, size, bytes),
        ("words", [words]) => Ok(Some(told_words(alloc, words_in(words))?)),
        ("close", [roots, modules]) => {
            let told = told_closure(alloc, words_in(roots), words_in(modules))?;
            Ok(Some(told))
        }
        _ => told_by_bytes(alloc, verb, texts),
    }
}

/// The pool that a line names.
fn pool_in(
    alloc: Global,
    known: &Known,
    verb: &str,
    text: &[u8],
) -> Result<Option<Pool>, AllocError> {
    match (verb, number_in(alloc, text)?) {
        ("crowd", Some(count)) => Ok(Some(crowd(alloc, count)?)),
        ("giant", Some(length)) => Ok(Some(giant(alloc, length)?)),
        _ => pool_of(alloc, known, words_in(text)),
    }
}

/// What a call on a pool, an image or a session gave, or on less; None where there is no such call.
fn told_by<T: Threads + Sync>(
    rt: &T,
    alloc: Global,
    known: &Known,
    verb: &str,
    texts: &[&[u8]],
) -> Result<Option<String>, AllocError> {
    match (verb, texts) {
        ("apply", [plugins, pool]) => {
            told_applied(rt, alloc, known, words_in(plugins), words_in(pool))
        }
        ("fronts", [bytes]) => Ok(Some(told_fronts(rt, alloc, bytes)?)),
        ("serve", texts) => match session_of(alloc, texts)? {
            Some(session) => told_session(rt, alloc, known, session),
            None => Ok(None),
        },
        ("nodes", [text]) => match pool_in(alloc, known, verb, text)? {
            Some(pool) => told_nodes(alloc, &pool),
            None => Ok(None),
        },
        ("plan" | "crowd" | "giant", [text]) => match pool_in(alloc, known, verb, text)? {
            Some(pool) => told_plan(alloc, &pool),
            None => Ok(None),
        },
        _ => told_by_words(alloc, verb, texts),
    }
}

/// What a line `VERB NAME: "TEXT" ..` comes to, behind its head; a line that names bytes, a comment
/// and an empty line come to nothing, and any other line is told as it stands.
pub fn told_of<T: Threads + Sync>(
    rt: &T,
    alloc: Global,
    known: &mut Known,
    line: &str,
) -> Result<String, AllocError> {
    if line.is_empty() || line.starts_with("#") {
        return Ok(String::new(alloc));
    }
    let (head, rest) = line.split_once(": ").unwrap_or((line, ""));
    let Some(values) = texts_in(alloc, known, rest)? else {
        return format!(in alloc; "no texts: {line}\n");
    };
    let mut texts = Vec::new(alloc);
    for value in values.as_slice() {
        texts.push(value.as_slice())?;
    }
    if name_bytes(alloc, known, head, texts.as_slice())? {
        return Ok(String::new(alloc));
    }
    let (verb, _) = first_word(head);
    match told_by(rt, alloc, known, verb, texts.as_slice())? {
        Some(told) => format!(in alloc; "{head}: {told}\n"),
        None => format!(in alloc; "no call: {line}\n"),
    }
}
