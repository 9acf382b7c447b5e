//! The refusals of names that may not stand in an image.
ghost use Rattle.std.specs.Prelude.{◌≡◌, None, Ok, All, IfOk, map};
ghost use Rattle.jm_names.specs.NameFaults.{IsSound};
ghost use Rattle.jm_texts.specs.NameRefusals.{first_bad_name};

use crate::refusal::Refusal;
use jm_bytes::{NoMemory, Text};
use jm_names::{HasName, check_name};
use std::alloc::Global;

/// The refusal of the first name that may not stand in an image.
pub fn first_bad_name<T: HasName>(alloc: Global, items: &[T]) -> Result<Option<Refusal>, NoMemory>
    ensures refusal { IfOk result (λ refusal. refusal ≡ first_bad_name (map T.pair items.now)) }
    ensures sound { result ≡ Ok None → All (λ item. IsSound (T.pair item).0) items.now }
{
    for item in items {
        match check_name(item.name()) {
            Ok(()) => {}
            Err(fault) => {
                let name = Text::copy_of(alloc, item.name())?;
                return Ok(Some(Refusal::BadName { name, fault }));
            }
        }
    }
    Ok(None)
}
