ghost use Rattle.std.specs.Prelude.{◌≡◌, IfOk};

use jm_bytes::{NoMemory, copy_of};
use std::alloc::Global;
use std::marker::Model;
use std::rc::Rc;

/// A text that any number of holders share: its bytes are kept once, and let go with the last of
/// them.
#[derive(Debug, Drop)]
pub struct SharedText {
    bytes: Rc<Vec<u8>>,
}

impl Model for SharedText {
    ghost use Rattle.std.specs.Prelude.{List, ℕ};

    ghost Value = { List ℕ };

    ghost view = { λ a. a.bytes.value.items };
}

impl SharedText {
    /// A text of its own with the same bytes, which has one holder.
    pub fn copy_of(alloc: Global, bytes: &[u8]) -> Result<SharedText, NoMemory>
        ensures { IfOk result (λ text. text ≡ bytes.now) }
    {
        let bytes = copy_of(alloc, bytes)?;
        Ok(SharedText {
            bytes: Rc::new(alloc, bytes)?,
        })
    }

    /// One more holder of the same bytes, which takes no memory. It is refused where the number of
    /// holders would pass 2^64, as want of memory.
    pub fn share(&self) -> Result<SharedText, NoMemory>
        ensures { IfOk result (λ text. text ≡ self.now) }
    {
        Ok(SharedText {
            bytes: self.bytes.clone()?,
        })
    }

    /// The bytes, borrowed.
    pub fn as_slice(&self) -> &[u8]
        ensures { result.now ≡ self.now }
    {
        self.bytes.as_slice()
    }
}
