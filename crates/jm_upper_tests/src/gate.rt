//! A gate at which two pieces of work meet.

use crate::calls::shelf_of;
use crate::runs::told_by;
use jm_halves::Gate;
use std::hint::spin_loop;
use std::sync::atomic::{AtomicBool, AtomicUsize, Ordering};
use std::test::Fail;

/// How often a count is looked at.
const LOOKS: u32 = 200_000_000;

/// A gate at which each of two pieces counts its entries, and looks for one of the other.
#[derive(Drop)]
struct Meeting {
    first: AtomicUsize,
    second: AtomicUsize,
    missed: AtomicBool,
}

/// Looks at a count until it isn't 0, and says whether it ever was another.
fn rises(count: &AtomicUsize) -> bool {
    for _ in 0..LOOKS {
        if count.load(Ordering::SeqCst) > 0 {
            return true;
        }
        spin_loop();
    }
    false
}

impl Gate for Meeting {
    fn enter(&self, piece: usize) {
        let (own, other) = if piece == 0 {
            (&self.first, &self.second)
        } else {
            (&self.second, &self.first)
        };
        own.fetch_add(1, Ordering::SeqCst);
        if !self.missed.load(Ordering::SeqCst) && !rises(other) {
            self.missed.store(true, Ordering::SeqCst);
        }
    }
}

impl Meeting {
    /// A meeting to which no piece has come.
    fn new() -> Meeting {
        Meeting {
            first: AtomicUsize::new(0),
            second: AtomicUsize::new(0),
            missed: AtomicBool::new(false),
        }
    }

    /// The entries of each piece, and whether one of them missed the other.
    fn told(&self) -> ((usize, usize), bool) {
        let first = self.first.load(Ordering::SeqCst);
        let second = self.second.load(Ordering::SeqCst);
        ((first, second), self.missed.load(Ordering::SeqCst))
    }
}

/// Command lines of two jobs, one behind another on one shelf, the front of what each gives, and
/// how often each piece enters the gate: once for a plug-in. For an image that is opened both enter
/// for its slots, and one for its names, which are a single part.
const LINES: &[(&str, &str, (usize, usize))] = &[
    (
        "gen d --modules 3 --classes 2 --seed 0 --jobs 2",
        "0|modules 3\nresources 9\n",
        (1, 1),
    ),
    (
        "link --module-path d/mods --add-modules m000,m001,m002 --output img \
         --exclude-resources=/c/** --jobs 2",
        "0|modules 3\nresources 9\n",
        (1, 1),
    ),
    ("verify img --jobs 2", "0|valid ", (2, 1)),
    (
        "link --from-image img --add-modules m000,m001,m002 --output two \
         --exclude-resources=/c/** --jobs 2",
        "0|modules 3\nresources 9\n",
        (3, 2),
    ),
];

#[test]
fn both_pieces_of_a_run_meet(rt: HostRuntime) -> Result<(), Fail> {
    let mut shelf = shelf_of(rt.alloc(), &[], &[])?;
    for (line, front, entries) in LINES {
        let gate = Meeting::new();
        let told = told_by(&rt, rt.alloc(), line, &mut shelf, &gate)?;
        assert!(rt; told.starts_with(front), "{line}: {told}");
        assert_eq!(rt;
            gate.told(),
            (*entries, false),
            "how often each piece of {line} entered the gate, and whether one missed the other"
        );
    }
    Ok(())
}
