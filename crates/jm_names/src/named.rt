//! Items that have a name, sorted by it.
ghost use Rattle.std.specs.Prelude.{◌≡◌, IsPermutation, map};
ghost use Rattle.std.specs.Cmp.Lexicographic.{slice_cmp};
ghost use Rattle.std.specs.Ordering.{nat_cmp};
ghost use Rattle.jm_names.specs.ByName.{Named, NeverFalls};

use jm_bytes::List;
use std::cmp::Ordering;

/// An item that has a name.
pub trait HasName {
    /// The name and what stands under it.
    ghost pair: { Self → Named };

    /// The name.
    fn name(&self) -> &[u8]
        ensures { result.now ≡ (pair self.now).0 };

    /// How the name stands to another one's in byte order.
    fn order(&self, other: &Self) -> Ordering
        ensures { result ≡ slice_cmp nat_cmp (pair self.now).0 (pair other.now).0 };
}

/// The same items in byte order of their names.
pub fn sorted_by_name<T: HasName>(items: List<T>) -> List<T>
    ensures moved { IsPermutation items result }
    ensures sorted { NeverFalls (map T.pair result) }
{
    let mut sorted = items.into_vec();
    sorted.sort_unstable_by(|one, other| one.order(other));
    List::from_vec(sorted)
}
