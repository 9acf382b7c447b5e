//! What plug-ins make of a pool.

use crate::pools::{pool_of, put_pool};
use jm_bytes::{List, NoMemory, Or, Text};
use jm_halves::NoGate;
use jm_lines::{Known, put_bytes};
use jm_pattern::{PatternFault, read_list};
use jm_plugins::{BadClass, apply};
use jm_pool::Pool;
use jm_words::Plugin;
use std::alloc::{AllocError, Global};
use std::thread::Threads;

/// The names of a comma list.
fn names_of(alloc: Global, list: &str) -> Result<List<Text>, NoMemory> {
    let mut names = List::new(alloc);
    for name in list.split(',') {
        names.push(Text::copy_of(alloc, name.as_bytes())?)?;
    }
    Ok(names)
}

/// A plug-in, as its name and, after a `=`, its patterns or names; none for any other word.
fn plug_in(alloc: Global, word: &str) -> Result<Option<Plugin>, Or<PatternFault>> {
    if let Some(patterns) = word.strip_prefix("order=") {
        return Ok(Some(Plugin::Order(read_list(alloc, patterns.as_bytes())?)));
    }
    if let Some(patterns) = word.strip_prefix("exclude=") {
        return Ok(Some(Plugin::Exclude(read_list(alloc, patterns.as_bytes())?)));
    }
    if let Some(names) = word.strip_prefix("keep-order=") {
        return Ok(Some(Plugin::KeepOrder(names_of(alloc, names)?)));
    }
    Ok(match word {
        "strip" => Some(Plugin::Strip),
        "compact" => Some(Plugin::Compact),
        "packages" => Some(Plugin::Packages),
        "drop-system-modules" => Some(Plugin::DropSystemModules),
        _ => None,
    })
}

/// Plug-ins with spaces between, or None where a word is none.
fn plug_ins(alloc: Global, words: &str) -> Result<Option<List<Plugin>>, Or<PatternFault>> {
    let mut list = List::new(alloc);
    for word in words.split(' ') {
        match plug_in(alloc, word)? {
            Some(plugin) => list.push(plugin)?,
            None if word.is_empty() => {}
            None => return Ok(None),
        }
    }
    Ok(Some(list))
}

/// Puts what plug-ins left of a pool, or why they refused it.
fn put_left(
    told: &mut String,
    known: &Known,
    left: &Result<Pool, Or<BadClass>>,
) -> Result<(), AllocError> {
    match left {
        Ok(pool) => put_pool(told, known, pool),
        Err(Or::Fault(BadClass { name, fault })) => {
            told.push_str("BadClass ")?;
            put_bytes(told, name.as_slice())?;
            write!(told, " {fault}")
        }
        Err(Or::Memory) => Err(AllocError),
    }
}

/// What plug-ins make of a pool with 1, 2 and 64 jobs: said once where it is the same.
pub fn told_applied<T: Threads + Sync>(
    rt: &T,
    alloc: Global,
    known: &Known,
    plugins: &str,
    words: &str,
) -> Result<Option<String>, AllocError> {
    let Ok(Some(list)) = plug_ins(alloc, plugins) else {
        return Ok(None);
    };
    let mut all = String::new(alloc);
    for jobs in [1, 2, 64] {
        let Some(pool) = pool_of(alloc, known, words)? else {
            return Ok(None);
        };
        let left = apply(rt, alloc, jobs, pool, list.as_slice(), &NoGate);
        let mut told = String::new(alloc);
        put_left(&mut told, known, &left)?;
        if told.as_str() != all.as_str() {
            let bar = if all.is_empty() { "" } else { " | " };
            write!(all, "{bar}{told}")?;
        }
    }
    Ok(Some(all))
}
