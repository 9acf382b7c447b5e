//! Texts that are put together, and cut at their last slash.
ghost use Rattle.std.specs.Prelude.{◌≡◌, ◌++◌, IfOk};
ghost use Rattle.std.specs.List.{before_last};
ghost use Rattle.jm_names.specs.Names.{is_slash};

use jm_bytes::{NoMemory, Text, copy_of, extend};
use jm_names::cut_at_last;
use std::alloc::Global;

/// A text behind a front.
pub fn joined(alloc: Global, front: &[u8], text: &[u8]) -> Result<Text, NoMemory>
    ensures { IfOk result (λ joined. joined ≡ front.now ++ text.now) }
{
    let mut joined = copy_of(alloc, front)?;
    extend(&mut joined, text)?;
    Ok(Text::from_vec(joined))
}

/// What stands before the last slash; nothing where there is none.
pub fn before_last_slash(text: &[u8]) -> &[u8]
    ensures { result.now ≡ before_last is_slash text.now }
{
    match cut_at_last(b'/', text) {
        Some((before, _)) => before,
        None => &[],
    }
}
