//! Names that are fit for an image.

ghost use Rattle.std.specs.Prelude.{◌≡◌, All, IsTrue, false};
ghost use Rattle.jm_names.specs.NameFaults.{IsSound};
ghost use Rattle.jm_names.specs.Names.{is_node};
ghost use Rattle.jm_form.specs.Layout.{names_of};

use jm_names::{check_name, is_node};
use jm_pool::Pool;

/// The name passes the check of names, and is no node's.
fn is_fit(name: &[u8]) -> bool
    ensures sound { IsTrue result → IsSound name.now }
    ensures resource { IsTrue result → is_node name.now ≡ false }
{
    check_name(name).is_ok() && !is_node(name)
}

/// Each name passes the check of names, and none is a node's.
pub fn are_fit(pool: &Pool) -> bool
    ensures sound { IsTrue result → All IsSound (names_of pool.now) }
    ensures resources { IsTrue result → All (λ name. is_node name ≡ false) (names_of pool.now) }
{
    for place in 0..pool.len() {
        if !is_fit(pool.at(place).0) {
            return false;
        }
    }
    true
}
