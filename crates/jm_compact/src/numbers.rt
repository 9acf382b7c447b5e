ghost use Rattle.std.specs.Prelude.{◌≡◌, ◌+◌, ◌<◌, length, if◌then◌else◌, IfOk};
ghost use Rattle.jm_compact.specs.Steps.{AreNumbers, by_numbers};

use jm_bytes::{List, NoMemory};
use std::alloc::Global;

/// A count with one more slot, where it is kept.
fn counted(count: u16, kept: bool) -> u16
    requires { count < 65535 }
    ensures { result ≡ count + (if kept then 1 else 0) }
{
    if kept { count + 1 } else { count }
}

/// The new numbers of constants.
#[derive(Drop)]
pub struct Numbers {
    /// That of each slot of the pool, from 1 on.
    slots: List<u16>,
    /// One more than the last: the count of the new pool.
    count: u16,
}

impl Numbers {
    /// The numbers of the slots, by a flag for each that says whether it is kept.
    pub fn new(alloc: Global, flags: &[bool]) -> Result<Numbers, NoMemory>
        requires { length flags.now < 65535 }
        ensures { IfOk result (λ numbers. AreNumbers flags.now numbers) }
    {
        let mut slots = List::with_capacity(alloc, flags.len())?;
        let mut count = 1;
        for kept in flags {
            slots.push(count)?;
            count = counted(count, *kept);
        }
        Ok(Numbers { slots, count })
    }

    /// The count that stands before the new pool.
    pub fn count(&self) -> u16
        ensures { result ≡ self.now.count }
    {
        self.count
    }

    /// The new number of a constant; 0, which is none, stays.
    pub fn of(&self, index: u16) -> u16
        ensures { result ≡ by_numbers self.now index }
    {
        if index == 0 {
            return 0;
        }
        match self.slots.as_slice().get(usize::from(index) - 1) {
            Some(number) => *number,
            None => self.count,
        }
    }
}
