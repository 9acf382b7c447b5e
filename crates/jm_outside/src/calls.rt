ghost use Rattle.std.specs.Prelude.{◌≡◌, ◌≤◌, ◌↔◌, IsErr, IsOk, IsTrue, false, is_err};

use crate::streams::Failed;
use jm_bytes::List;
use std::alloc::Global;
use std::marker::Model;

/// The numbered calls of an object in memory: which of them fail, which comes next, and how many
/// failed. The numbers stand still at the last of 64 bits.
#[derive(Debug, Drop)]
pub struct Calls {
    failing: List<u64>,
    next: u64,
    faults: u64,
}

impl Model for Calls {
    ghost use Rattle.jm_outside.specs.ComputedCalls.{CallNumbers};

    ghost Value = { CallNumbers };

    ghost view = { λ a. record { failing = a.failing; next = a.next; faults = a.faults } };
}

impl Calls {
    ghost use Rattle.jm_outside.specs.ComputedCalls.{no_calls, IsListed, one_more, after_call};
    ghost use Rattle.jm_outside.specs.Outcome.{CountsFaults, Rose};

    pub fn new(alloc: Global) -> Calls
        ensures { result ≡ no_calls }
    {
        Calls {
            failing: List::new(alloc),
            next: 0,
            faults: 0,
        }
    }

    /// Makes these calls fail, and no others.
    pub fn fail_on(&mut self, calls: List<u64>)
        ensures { self.new ≡ record self.old { failing = calls } }
    {
        self.failing = calls;
    }

    /// Counts one call, and says whether it is to fail.
    pub fn number(&mut self) -> bool
        ensures listed { IsTrue result ↔ IsListed self.old }
        ensures counted { self.new ≡ after_call self.old false }
    {
        let listed = self.failing.as_slice().contains(&self.next);
        self.next = self.next.saturating_add(1);
        listed
    }

    /// Counts one call. Where it is listed, that is a fault.
    pub fn pass(&mut self) -> Result<(), Failed>
        ensures listed { IsErr result ↔ IsListed self.old }
        ensures counted { self.new ≡ after_call self.old (is_err result) }
        ensures faults { CountsFaults self.old.faults self.new.faults (IsOk result) (IsErr result) }
    {
        if self.number() {
            self.fault();
            return Err(Failed);
        }
        Ok(())
    }

    /// Counts one fault.
    pub fn fault(&mut self)
        ensures one { self.new ≡ record self.old { faults = one_more self.old.faults } }
        ensures grows { self.old.faults ≤ self.new.faults }
        ensures rose { Rose self.old.faults self.new.faults }
    {
        self.faults = self.faults.saturating_add(1);
    }
}
