ghost use Rattle.std.specs.Prelude.{◌≡◌, ◌+◌, OnOk, OnErr};

use jm_bytes::NoMemory;
use std::marker::Model;

/// How many bytes of files a shelf handed out. It is exact: bytes that would pass the last of 64
/// bits aren't counted, and are not to be handed out.
#[derive(Debug, Drop)]
pub struct Handed {
    count: u64,
}

impl Model for Handed {
    ghost use Rattle.std.specs.Prelude.{ℕ};

    ghost Value = { ℕ };

    ghost view = { λ a. a.count };
}

impl Handed {
    /// Nothing was handed out.
    pub fn new() -> Handed
        ensures { result ≡ 0 }
    {
        Handed { count: 0 }
    }

    /// Counts so many bytes more. It answers want of memory where the count has no room for them.
    pub fn add(&mut self, bytes: usize) -> Result<(), NoMemory>
        ensures ok { OnOk result (self.new ≡ self.old + bytes) }
        ensures err { OnErr result (self.new ≡ self.old) }
    {
        match self.count.checked_add(bytes as u64) {
            Some(count) => {
                self.count = count;
                Ok(())
            }
            None => Err(NoMemory),
        }
    }
}
