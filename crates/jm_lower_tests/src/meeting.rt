//! A gate at which two pieces of work meet.

use jm_halves::Gate;
use std::hint::spin_loop;
use std::sync::atomic::{AtomicBool, Ordering};

/// How often a flag is looked for.
const LOOKS: u32 = 200_000_000;

/// Looks for a flag until it is up, and says whether it was ever seen.
pub fn sees(flag: &AtomicBool) -> bool {
    for _ in 0..LOOKS {
        if flag.load(Ordering::SeqCst) {
            return true;
        }
        spin_loop();
    }
    false
}

/// Two flags, each raised by one side, which then looks for the other side's.
#[derive(Drop)]
pub struct Meeting {
    first: AtomicBool,
    second: AtomicBool,
    missed: AtomicBool,
}

impl Meeting {
    /// A meeting to which no side has come.
    pub fn new() -> Meeting {
        Meeting {
            first: AtomicBool::new(false),
            second: AtomicBool::new(false),
            missed: AtomicBool::new(false),
        }
    }

    /// A side comes, and waits for the other one.
    pub fn meet(&self, side: usize) {
        let (mine, other) = if side == 0 {
            (&self.first, &self.second)
        } else {
            (&self.second, &self.first)
        };
        mine.store(true, Ordering::SeqCst);
        if !sees(other) {
            self.missed.store(true, Ordering::SeqCst);
        }
    }

    /// Both sides came, and each saw the other.
    pub fn is_met(&self) -> bool {
        self.first.load(Ordering::SeqCst)
            && self.second.load(Ordering::SeqCst)
            && !self.missed.load(Ordering::SeqCst)
    }
}

impl Gate for Meeting {
    fn enter(&self, piece: usize) {
        self.meet(piece);
    }
}
