//! Packages in which two modules have classes.
ghost use Rattle.std.specs.Prelude.{◌≡◌, None, length, option_map, IfOk, IfNone, IfSome};
ghost use Rattle.jm_closure.specs.ComputedLeast.{chosen_of, differs, holds, least_of, names_where};
ghost use Rattle.jm_closure.specs.Graphs.{IsMarked};
ghost use Rattle.jm_closure.specs.Holders.{IsHeldTwice, Notes};
ghost use Rattle.jm_closure.specs.Least.{IsLeastOf};
ghost use Rattle.jm_closure.specs.Modules.{HasPackage};
ghost use Rattle.jm_closure.specs.Names.{NamesDiffer};
ghost use Rattle.jm_closure.specs.Refusals.{IsUnsplit, SplitsAt};

use crate::candidate::Candidate;
use crate::least::lesser;
use crate::places::Places;
use jm_bytes::{NoMemory, Text};
use std::alloc::Global;

/// Notes the packages of one more module: the first module of each, or that it has a second one.
fn note<'a>(
    alloc: Global,
    holders: &mut Places,
    mut least: Option<&'a [u8]>,
    place: usize,
    packages: &'a [Text],
) -> Result<Option<&'a [u8]>, NoMemory>
    ensures { IfOk result
        (λ now. Notes holders.old (option_map (λ x. x.now) least.entry)
        holders.new (option_map (λ x. x.now) now) place packages.now) }
{
    for package in packages {
        let package = package.as_slice();
        match holders.get(package) {
            None => holders.put(alloc, package, place)?,
            Some(holder) => {
                if holder != place {
                    least = lesser(least, Some(package));
                }
            }
        }
    }
    Ok(least)
}

/// The least package in which two chosen modules have classes.
fn least_split<'a>(
    alloc: Global,
    found: &'a [Candidate],
    chosen: &[bool],
) -> Result<Option<&'a [u8]>, NoMemory>
    requires { length chosen.now ≡ length found.now }
    ensures { IfOk result
        (λ least. IsLeastOf
        (IsHeldTwice (λ i text. IsMarked chosen.now i × HasPackage found.now i text))
        (option_map (λ x. x.now) least)) }
{
    let mut holders = Places::new(alloc);
    let mut least = None;
    for (place, candidate) in found.iter().enumerate() {
        if chosen[place] {
            least = note(
                alloc,
                &mut holders,
                least,
                place,
                candidate.packages.as_slice(),
            )?;
        }
    }
    Ok(least)
}

/// A module has a package.
fn holds(package: &[u8], candidate: &Candidate) -> bool
    ensures { result ≡ holds «package».now candidate.now }
{
    candidate
        .packages
        .as_slice()
        .iter()
        .any(|held| held.as_slice() == package)
}

/// A name isn't that one.
fn differs(but: Option<&[u8]>, name: &[u8]) -> bool
    ensures { result ≡ differs (option_map (λ x. x.now) but.entry) name.now }
{
    match but {
        Some(other) => name != other,
        None => true,
    }
}

/// The least chosen module, but for one of a name, that has a package.
fn least_holder<'a>(
    found: &'a [Candidate],
    chosen: &[bool],
    package: &[u8],
    but: Option<&[u8]>,
) -> Option<&'a [u8]>
    requires { length chosen.now ≡ length found.now }
    ensures { option_map (λ x. x.now) result
        ≡ least_of (differs (option_map (λ x. x.now) but.entry)) None
        (names_where (holds «package».now) (chosen_of chosen.now found.now)) }
{
    let mut least = None;
    for (place, candidate) in found.iter().enumerate() {
        let name = candidate.descriptor.name.as_slice();
        if chosen[place] && holds(package, candidate) && differs(but, name) {
            least = lesser(least, Some(name));
        }
    }
    least
}

/// The least package in which two chosen modules have classes, and the two least of its modules.
pub fn split<'a>(
    alloc: Global,
    found: &'a [Candidate],
    chosen: &[bool],
) -> Result<Option<(&'a [u8], &'a [u8], &'a [u8])>, NoMemory>
    requires differ { NamesDiffer found.now }
    requires chosen { length chosen.now ≡ length found.now }
    ensures some { IfOk result (λ split. IfSome split (λ s.
        SplitsAt found.now (IsMarked chosen.now) s.0.now s.1.now s.2.now)) }
    ensures none { IfOk result (λ split. IfNone split
        (IsUnsplit found.now (IsMarked chosen.now))) }
{
    let Some(package) = least_split(alloc, found, chosen)? else {
        return Ok(None);
    };
    let Some(first) = least_holder(found, chosen, package, None) else {
        return Ok(None);
    };
    let Some(second) = least_holder(found, chosen, package, Some(first)) else {
        return Ok(None);
    };
    Ok(Some((package, first, second)))
}
