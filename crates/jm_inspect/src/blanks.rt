ghost use Rattle.std.specs.Prelude.{◌≡◌};

use std::sync::ledger::Blank;

/// Two ledgers in which nothing is counted yet.
#[derive(Drop)]
pub struct Blanks {
    /// Of hashes.
    pub hashes: Blank,
    /// Of bytes read.
    pub reads: Blank,
}

impl Blanks {
    /// Ledgers of one part each.
    pub fn new() -> Blanks
        ensures hashes { result.hashes.parts ≡ 1 }
        ensures reads { result.reads.parts ≡ 1 }
    {
        Blanks {
            hashes: Blank::new(1),
            reads: Blank::new(1),
        }
    }
}
