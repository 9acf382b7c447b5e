//! Packages by the paths of their folders.
ghost use Rattle.std.specs.Prelude.{◌≡◌, if◌then◌else◌};
ghost use Rattle.std.specs.Cmp.Lexicographic.{slice_cmp};
ghost use Rattle.std.specs.Ordering.{nat_cmp};
ghost use Rattle.jm_names.specs.Names.{dotted, is_slash};

use std::cmp::Ordering;

/// The path of a folder, for the package that it makes. It is compared as the package is called,
/// with a dot for each slash, and no text is made for that.
#[derive(Clone, Copy)]
pub struct PackagePath<'a> {
    pub path: &'a [u8],
}

/// A byte of a path as it stands in the package's name.
fn dotted_byte(byte: u8) -> u8
    ensures { result ≡ (if is_slash byte then 46 else byte) }
{
    if byte == b'/' { b'.' } else { byte }
}

/// How the packages of two paths stand to one another in byte order.
fn order(path: &[u8], other: &[u8]) -> Ordering
    ensures { result ≡ slice_cmp nat_cmp (dotted path.now) (dotted other.now) }
{
    for at in 0..path.len().min(other.len()) {
        let found = dotted_byte(path[at]).cmp(&dotted_byte(other[at]));
        if found.is_ne() {
            return found;
        }
    }
    path.len().cmp(&other.len())
}

impl<'a> PartialEq for PackagePath<'a> {
    ghost use Rattle.std.specs.Cmp.{eq_by_cmp_equiv, partial_equiv_from_equiv};
    ghost use Rattle.std.specs.Cmp.Lexicographic.{on_texts};
    ghost use Rattle.std.specs.Ordering.{eq_by_cmp};
    ghost use Rattle.jm_nodes.specs.PackagePaths.{called_of, package_cmp};

    ghost eq = { eq_by_cmp package_cmp };

    ghost laws = { partial_equiv_from_equiv (eq_by_cmp_equiv (on_texts called_of)) };

    fn eq(&self, other: &PackagePath<'a>) -> bool {
        self.cmp(other).is_eq()
    }
}

impl<'a> Eq for PackagePath<'a> {
    ghost use Rattle.std.specs.Cmp.{eq_by_cmp_equiv};
    ghost use Rattle.std.specs.Cmp.Lexicographic.{on_texts};
    ghost use Rattle.jm_nodes.specs.PackagePaths.{called_of};

    ghost laws = { eq_by_cmp_equiv (on_texts called_of) };
}

impl<'a> PartialOrd for PackagePath<'a> {
    ghost use Rattle.std.specs.Cmp.{partial_order_from_total};
    ghost use Rattle.std.specs.Cmp.Lexicographic.{on_texts};
    ghost use Rattle.std.specs.Ordering.{as_partial_cmp};
    ghost use Rattle.jm_nodes.specs.PackagePaths.{called_of, package_cmp};

    ghost partial_cmp = { as_partial_cmp package_cmp };

    ghost laws = { partial_order_from_total (on_texts called_of) };

    fn partial_cmp(&self, other: &PackagePath<'a>) -> Option<Ordering> {
        Some(self.cmp(other))
    }
}

impl<'a> Ord for PackagePath<'a> {
    ghost use Rattle.std.specs.Cmp.Lexicographic.{on_texts};
    ghost use Rattle.std.proofs.Common.{refl};
    ghost use Rattle.jm_nodes.specs.PackagePaths.{called_of, package_cmp};

    ghost cmp = { package_cmp };

    ghost total = { on_texts called_of };

    ghost matches_partial_cmp = { λ a b. refl };

    ghost matches_eq = { λ a b. refl };

    fn cmp(&self, other: &PackagePath<'a>) -> Ordering {
        order(self.path, other.path)
    }
}
