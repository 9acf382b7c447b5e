//! Modules that are closed and bound.

ghost use Rattle.jm_closure.specs.Names.{NamesDiffer};

use crate::candidates::candidates;
use crate::texts::{given, put_words, texts_of};
use jm_bind::bind;
use jm_bytes::{List, NoMemory, Or, Text};
use jm_closure::{Candidate, CloseFault, close, names_differ};
use std::alloc::{AllocError, Global};

/// Puts the names of the modules at some places.
fn put_names(
    told: &mut String,
    alloc: Global,
    found: &[Candidate],
    places: &[usize],
) -> Result<(), AllocError> {
    let mut names = Vec::new(alloc);
    for place in places {
        if let Some(one) = found.get(*place) {
            names.push(one.descriptor.name.as_slice())?;
        }
    }
    put_words(told, names.as_slice())
}

fn put_fault(told: &mut String, fault: &CloseFault) -> Result<(), AllocError> {
    match fault {
        CloseFault::NoRoot(name) => put_words(told, &[b"NoRoot", name.as_slice()]),
        CloseFault::Missing { name, by } => {
            put_words(told, &[b"Missing", name.as_slice(), by.as_slice()])
        }
        CloseFault::Cycle(name) => put_words(told, &[b"Cycle", name.as_slice()]),
        CloseFault::SplitPackage {
            package,
            first,
            second,
        } => put_words(
            told,
            &[
                b"SplitPackage",
                package.as_slice(),
                first.as_slice(),
                second.as_slice(),
            ],
        ),
    }
}

/// Puts the names of an answer, or its refusal.
fn put_answer(
    told: &mut String,
    alloc: Global,
    found: &[Candidate],
    answer: &Result<List<usize>, Or<CloseFault>>,
) -> Result<(), AllocError> {
    match answer {
        Ok(places) => put_names(told, alloc, found, places.as_slice()),
        Err(Or::Fault(fault)) => put_fault(told, fault),
        Err(Or::Memory) => Err(AllocError),
    }
}

/// Puts what `bind` answers, and behind a `|` what `close` does.
fn put_answers(
    told: &mut String,
    alloc: Global,
    found: &[Candidate],
    roots: &[Text],
) -> Result<(), AllocError>
    requires { NamesDiffer found.now }
{
    put_answer(told, alloc, found, &bind(alloc, found, roots))?;
    told.push_str(" | ")?;
    put_answer(told, alloc, found, &close(alloc, found, roots))
}

/// What `bind` and `close` answer for roots among modules, or that two modules have one name.
pub fn told_closure(alloc: Global, roots: &str, lines: &str) -> Result<String, AllocError> {
    let found = given(candidates(alloc, lines))?;
    let roots = given(texts_of(alloc, roots))?;
    let mut told = String::new(alloc);
    let modules = found.as_slice();
    match names_differ(alloc, modules) {
        Ok(true) => put_answers(&mut told, alloc, modules, roots.as_slice())?,
        Ok(false) => told.push_str("one name twice")?,
        Err(NoMemory) => return Err(AllocError),
    }
    Ok(told)
}
