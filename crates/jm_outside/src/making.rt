ghost use Rattle.std.specs.Prelude.{◌≡◌, ◌∷◌, [], IsUtf8, IsOk, OnOk, OnErr, IsErrOf};
ghost use Rattle.jm_outside.specs.Outcome.{CountsFaults};
ghost use Rattle.jm_outside.specs.Made.{MadeAll, MadePart};

use crate::shelf::{Shelf, ShelfError};
use std::alloc::Global;

/// Makes the file of a path with these bytes, in place of what it had: one `create` and one
/// `append`. Other files stay, and no byte of a file is handed out.
///
/// After a refusal the file is as before, or it holds a front of the bytes.
pub fn make_file<S: Shelf>(
    alloc: Global,
    shelf: &mut S,
    path: &[u8],
    bytes: &[u8],
) -> Result<(), ShelfError>
    requires text { IsUtf8 path.now }
    ensures ok { OnOk result
        (MadeAll ((path.now, bytes.now) ∷ []) (S.files shelf.old) (S.files shelf.new)) }
    ensures err { OnErr result
        (MadePart ((path.now, bytes.now) ∷ []) (S.files shelf.old) (S.files shelf.new)) }
    ensures handed { S.handed shelf.new ≡ S.handed shelf.old }
    ensures faults { CountsFaults (S.faults shelf.old) (S.faults shelf.new) (IsOk result)
        (IsErrOf result ShelfError.Failed) }
{
    shelf.create(alloc, path)?;
    shelf.append(alloc, path, bytes)
}
