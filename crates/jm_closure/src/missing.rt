//! What is required and isn't found.
ghost use Rattle.std.specs.Prelude.{◌≡◌, None, true, length, flat_map, option_map, IfNone, IfSome};
ghost use Rattle.jm_closure.specs.ComputedLeast.{chosen_of, is_lost, is_required, least_of};
ghost use Rattle.jm_closure.specs.ComputedLeast.{names_where};
ghost use Rattle.jm_closure.specs.Graphs.{IsMarked};
ghost use Rattle.jm_closure.specs.Modules.{required_by};
ghost use Rattle.jm_closure.specs.Names.{Indexes};
ghost use Rattle.jm_closure.specs.Refusals.{IsLacking, IsLeast, Lacks, NeedsFound};

use crate::candidate::Candidate;
use crate::least::lesser;
use crate::places::Places;
use jm_bytes::Text;

/// The least root that isn't found.
pub fn least_lost_root<'a>(names: &Places, roots: &'a [Text]) -> Option<&'a [u8]>
    ensures { option_map (λ x. x.now) result ≡ least_of (is_lost names.now) None roots.now }
{
    let mut least = None;
    for root in roots {
        if names.get(root.as_slice()).is_none() {
            least = lesser(least, Some(root.as_slice()));
        }
    }
    least
}

/// The lesser of a name and the least that a module requires without `static` and that isn't
/// found.
fn lesser_lack<'a>(
    names: &Places,
    candidate: &'a Candidate,
    mut least: Option<&'a [u8]>,
) -> Option<&'a [u8]>
    ensures { option_map (λ x. x.now) result
        ≡ least_of (is_lost names.now) (option_map (λ x. x.now) least.entry)
        (required_by candidate.now) }
{
    for need in candidate.descriptor.needs.as_slice() {
        if !need.is_static() && names.get(need.name.as_slice()).is_none() {
            least = lesser(least, Some(need.name.as_slice()));
        }
    }
    least
}

/// The least name that a chosen module requires without `static` and that isn't found.
fn least_lacking<'a>(names: &Places, found: &'a [Candidate], chosen: &[bool]) -> Option<&'a [u8]>
    requires { length chosen.now ≡ length found.now }
    ensures { option_map (λ x. x.now) result
        ≡ least_of (is_lost names.now) None
        (flat_map required_by (chosen_of chosen.now found.now)) }
{
    let mut least = None;
    for (place, candidate) in found.iter().enumerate() {
        if chosen[place] {
            least = lesser_lack(names, candidate, least);
        }
    }
    least
}

/// A module requires a name without `static`.
fn is_required(name: &[u8], candidate: &Candidate) -> bool
    ensures { result ≡ is_required name.now candidate.now }
{
    let needs = candidate.descriptor.needs.as_slice();
    needs
        .iter()
        .any(|need| !need.is_static() && need.name.as_slice() == name)
}

/// The least chosen module that requires a name without `static`.
fn least_that_requires<'a>(found: &'a [Candidate], chosen: &[bool], name: &[u8]) -> Option<&'a [u8]>
    requires { length chosen.now ≡ length found.now }
    ensures { option_map (λ x. x.now) result
        ≡ least_of (λ _. true) None
        (names_where (is_required name.now) (chosen_of chosen.now found.now)) }
{
    let mut least = None;
    for (place, candidate) in found.iter().enumerate() {
        if chosen[place] && is_required(name, candidate) {
            least = lesser(least, Some(candidate.descriptor.name.as_slice()));
        }
    }
    least
}

/// The least name that a chosen module requires without `static` and that isn't found, and the
/// least chosen module that requires it.
pub fn lack<'a>(
    names: &Places,
    found: &'a [Candidate],
    chosen: &[bool],
) -> Option<(&'a [u8], &'a [u8])>
    requires names { Indexes found.now names.now }
    requires chosen { length chosen.now ≡ length found.now }
    ensures name { IfSome result (λ lack.
        IsLeast (IsLacking found.now (IsMarked chosen.now)) lack.0.now) }
    ensures by { IfSome result (λ lack.
        IsLeast (Lacks found.now (IsMarked chosen.now) lack.0.now) lack.1.now) }
    ensures none { IfNone result (NeedsFound found.now (IsMarked chosen.now)) }
{
    let Some(name) = least_lacking(names, found, chosen) else {
        return None;
    };
    let Some(by) = least_that_requires(found, chosen, name) else {
        return None;
    };
    Some((name, by))
}
