//! The roots of a link.
ghost use Rattle.std.specs.Prelude.{◌≡◌, ◌++◌, IfOk, OnOk, map};
ghost use Rattle.std.specs.List.{list_any};
ghost use Rattle.jm_closure.specs.Modules.{name_of};
ghost use Rattle.jm_modset.specs.Found.{asks_all, is_all, plain_names, roots_among};

use jm_bytes::{List, NoMemory, Text};
use jm_closure::Candidate;
use std::alloc::Global;

/// The word that stands for all modules.
fn is_all(name: &[u8]) -> bool
    ensures { result ≡ is_all name.now }
{
    name == b"ALL-MODULE-PATH".as_slice()
}

/// The word is among the names that are asked for.
fn has_all(asked: &[Text]) -> bool
    ensures { result ≡ list_any is_all asked.now }
{
    asked.iter().any(|name| is_all(name.as_slice()))
}

/// The word is among the names that are asked for, and there is a module.
fn asks_all(named: &[Candidate], asked: &[Text]) -> bool
    ensures { result ≡ asks_all (map name_of named.now) asked.now }
{
    !named.is_empty() && has_all(asked)
}

/// The names that are asked for without the word.
fn plain_names(alloc: Global, asked: &[Text]) -> Result<List<Text>, NoMemory>
    ensures { IfOk result (λ names. names ≡ plain_names asked.now) }
{
    let mut names = List::new(alloc);
    for name in asked {
        if !is_all(name.as_slice()) {
            names.push(Text::copy_of(alloc, name.as_slice())?)?;
        }
    }
    Ok(names)
}

/// Adds the names of modules.
fn push_names(alloc: Global, names: &mut List<Text>, named: &[Candidate]) -> Result<(), NoMemory>
    ensures { OnOk result (names.new ≡ names.old ++ map name_of named.now) }
{
    for module in named {
        names.push(Text::copy_of(alloc, module.descriptor.name.as_slice())?)?;
    }
    Ok(())
}

/// The same names, each a text of its own.
fn copies(alloc: Global, names: &[Text]) -> Result<List<Text>, NoMemory>
    ensures { IfOk result (λ copies. copies ≡ names.now) }
{
    let mut copies = List::new(alloc);
    for name in names {
        copies.push(Text::copy_of(alloc, name.as_slice())?)?;
    }
    Ok(copies)
}

/// The names that are asked for, with the names of these modules for the word `ALL-MODULE-PATH`,
/// where there is a module.
pub fn roots_among(
    alloc: Global,
    named: &[Candidate],
    asked: &[Text],
) -> Result<List<Text>, NoMemory>
    ensures { IfOk result (λ roots. roots ≡ roots_among (map name_of named.now) asked.now) }
{
    if !asks_all(named, asked) {
        return copies(alloc, asked);
    }
    let mut roots = plain_names(alloc, asked)?;
    push_names(alloc, &mut roots, named)?;
    Ok(roots)
}
