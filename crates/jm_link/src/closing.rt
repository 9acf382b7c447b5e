//! The closure of the roots among the modules that are visible.
ghost use Rattle.std.specs.Prelude.{◌≡◌, None, Some};
ghost use Rattle.jm_closure.specs.Names.{NamesDiffer};
ghost use Rattle.jm_modset.specs.Found.{is_called, reserved};
ghost use Rattle.jm_link.specs.Closing.{ClosesAmong, ClosesFrom};
ghost use Rattle.jm_link.specs.Steps.{StepGives};

use crate::linking::LinkStop;
use jm_bind::bind;
use jm_bytes::{List, Text};
use jm_closure::{Candidate, close};
use jm_texts::Refusal;
use std::alloc::Global;

/// One of the modules has this name.
fn is_called(found: &[Candidate], name: &[u8]) -> bool
    ensures { result ≡ is_called found.now name.now }
{
    found
        .iter()
        .any(|module| name == module.descriptor.name.as_slice())
}

/// Refuses a module that is called like one of the two trees, the least name first.
fn refuse_reserved(alloc: Global, found: &[Candidate]) -> Result<(), LinkStop>
    ensures { StepGives (λ done. reserved found.now ≡ None)
        (λ refusal. reserved found.now ≡ Some refusal) ⊥ ⊥ result }
{
    let name: &[u8] = if is_called(found, b"modules") {
        b"modules"
    } else if is_called(found, b"packages") {
        b"packages"
    } else {
        return Ok(());
    };
    let name = Text::copy_of(alloc, name)?;
    Err(LinkStop::Refused(Refusal::ReservedModule(name)))
}

/// The places of the modules that are linked for some roots, rising by name.
fn closed_from(
    alloc: Global,
    found: &[Candidate],
    roots: &[Text],
    binds: bool,
) -> Result<List<usize>, LinkStop>
    requires { NamesDiffer found.now }
    ensures { ClosesFrom found.now roots.now binds result }
{
    if binds {
        Ok(bind(alloc, found, roots)?)
    } else {
        Ok(close(alloc, found, roots)?)
    }
}

/// The places of the modules that are linked for some roots, rising by name.
pub fn closed(
    alloc: Global,
    found: &[Candidate],
    roots: &[Text],
    binds: bool,
) -> Result<List<usize>, LinkStop>
    requires { NamesDiffer found.now }
    ensures { ClosesAmong found.now roots.now binds result }
{
    refuse_reserved(alloc, found)?;
    closed_from(alloc, found, roots, binds)
}
