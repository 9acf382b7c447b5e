ghost use Rattle.std.specs.Prelude.{◌≡◌, ◌≤◌, ◌<◌, ◌/◌, ◌↔◌, ◌++◌, [], Some, IfOk, OnOk, OnErr};
ghost use Rattle.std.specs.Prelude.{IsOk, IsErr, IsErrOf, is_err, take, drop, length, min};
ghost use Rattle.jm_outside.specs.ComputedCalls.{no_calls, IsListed, after_call};
ghost use Rattle.jm_outside.specs.ComputedCuts.{given_count, first_half};
ghost use Rattle.jm_outside.specs.Outcome.{CountsFaults};

use crate::calls::Calls;
use crate::streams::{Failed, Sink, SinkError, Source};
use jm_bytes::{List, Text, extend};
use std::alloc::Global;

/// A source of bytes in memory, which tells its rest.
///
/// A call gives at most the bytes of the next cut, where a cut is at least 1, and all that fits
/// once the cuts are used up. Each call that doesn't fail uses up a cut. It numbers its calls from
/// 0 and fails those that `fail_on` lists, with one fault each. The numbers stand still at the last
/// of 64 bits.
#[derive(Debug, Drop)]
pub struct MemSource {
    bytes: Text,
    at: usize,
    cuts: List<usize>,
    cut: usize,
    calls: Calls,
    ghost within: { at ≤ length bytes },
    ghost cut_within: { cut ≤ length cuts },
}

impl MemSource {
    ghost use Rattle.jm_outside.specs.Views.{rest_of, cuts_of, source_calls};

    /// A source of these bytes, none of whose calls fails.
    pub fn new(bytes: Text, cuts: List<usize>) -> MemSource
        ensures rest { rest_of result ≡ bytes }
        ensures cuts { cuts_of result ≡ cuts }
        ensures calls { source_calls result ≡ no_calls }
    {
        let alloc = bytes.allocator();
        MemSource {
            bytes,
            at: 0,
            cuts,
            cut: 0,
            calls: Calls::new(alloc),
        }
    }

    /// Makes the calls with these numbers fail, and no others.
    pub fn fail_on(&mut self, calls: List<u64>)
        ensures rest { rest_of self.new ≡ rest_of self.old }
        ensures cuts { cuts_of self.new ≡ cuts_of self.old }
        ensures calls { source_calls self.new ≡ record (source_calls self.old) { failing = calls } }
    {
        self.calls.fail_on(calls);
    }

    /// How many bytes a call gives, and uses up the cut.
    fn next_count(&mut self, room: usize) -> usize
        ensures count { result ≡ given_count (cuts_of self.old) (length (rest_of self.old)) room }
        ensures rest { rest_of self.new ≡ rest_of self.old }
        ensures cuts { cuts_of self.new ≡ drop 1 (cuts_of self.old) }
        ensures calls { source_calls self.new ≡ source_calls self.old }
    {
        let fits = room.min(self.bytes.len() - self.at);
        if self.cut == self.cuts.len() {
            return fits;
        }
        let cut = self.cuts.as_slice()[self.cut];
        self.cut += 1;
        fits.min(cut.max(1))
    }
}

/// Copies the first bytes to the front of a slice.
fn copy_front(from: &[u8], count: usize, into: &mut [u8])
    requires left { count ≤ length from.now }
    requires room { count ≤ length into.old }
    ensures { into.new ≡ take count from.now ++ drop count into.old }
{
    into[..count].copy_from_slice(&from[..count]);
}

impl Source for MemSource {
    ghost use Rattle.jm_outside.specs.Views.{rest_of, cuts_of, source_calls};

    ghost rest = { λ source. Some (rest_of source) };

    ghost faults = { λ source. (source_calls source).faults };

    /// A listed call answers `Failed`, and uses up no cut.
    fn take(&mut self, into: &mut [u8]) -> Result<usize, Failed>
        ensures number { IfOk result (λ n. n ≡ given_count (cuts_of self.old)
            (length (rest_of self.old)) (length into.old)) }
        ensures moved { IfOk result (λ n. rest_of self.old ≡ take n into.new ++ rest_of self.new) }
        ensures behind { IfOk result (λ n. drop n into.new ≡ drop n into.old) }
        ensures cuts { OnOk result (cuts_of self.new ≡ drop 1 (cuts_of self.old)) }
        ensures err { OnErr result (rest_of self.new ≡ rest_of self.old) }
        ensures err_cuts { OnErr result (cuts_of self.new ≡ cuts_of self.old) }
        ensures listed { IsErr result ↔ IsListed (source_calls self.old) }
        ensures calls { source_calls self.new ≡ after_call (source_calls self.old) (is_err result) }

        // Follow from `number` and `calls`.
        ensures within { IfOk result (λ n. n ≤ length into.old) }
        ensures end { IfOk result (λ n. n ≡ 0 → 0 < length into.old → rest_of self.old ≡ []) }
        ensures faults { CountsFaults (source_calls self.old).faults (source_calls self.new).faults
            (IsOk result) (IsErr result) }
    {
        self.calls.pass()?;
        let count = self.next_count(into.len());
        let (_, rest) = self.bytes.as_slice().split_at(self.at);
        copy_front(rest, count, into);
        self.at += count;
        Ok(count)
    }
}

/// A sink of bytes in memory, which tells what was put into it.
///
/// It numbers its calls from 0 and fails those that `fail_on` lists, with one fault each. The
/// numbers stand still at the last of 64 bits.
#[derive(Debug, Drop)]
pub struct MemSink {
    bytes: Vec<u8>,
    calls: Calls,
}

impl MemSink {
    ghost use Rattle.jm_outside.specs.Views.{bytes_in, sink_calls};

    /// A sink of no byte, none of whose calls fails.
    pub fn new(alloc: Global) -> MemSink
        ensures bytes { bytes_in result ≡ [] }
        ensures calls { sink_calls result ≡ no_calls }
    {
        MemSink {
            bytes: Vec::new(alloc),
            calls: Calls::new(alloc),
        }
    }

    /// Makes the calls with these numbers fail, and no others.
    pub fn fail_on(&mut self, calls: List<u64>)
        ensures bytes { bytes_in self.new ≡ bytes_in self.old }
        ensures calls { sink_calls self.new ≡ record (sink_calls self.old) { failing = calls } }
    {
        self.calls.fail_on(calls);
    }

    /// What was put.
    pub fn bytes(&self) -> &[u8]
        ensures { result.now ≡ bytes_in self.now }
    {
        self.bytes.as_slice()
    }
}

impl Sink for MemSink {
    ghost use Rattle.jm_outside.specs.Views.{bytes_in, sink_calls};
    ghost use Rattle.jm_outside.specs.Answers.{sink_failed};

    ghost content = { λ sink. Some (bytes_in sink) };

    ghost faults = { λ sink. (sink_calls sink).faults };

    /// A listed call adds the first half of the bytes, rounded down, and answers `Failed`. Where no
    /// memory is found for that half it adds nothing, answers `Memory` and counts no fault.
    fn put(&mut self, _alloc: Global, bytes: &[u8]) -> Result<(), SinkError>
        ensures ok { OnOk result (bytes_in self.new ≡ bytes_in self.old ++ bytes.now) }
        ensures failed { IsErrOf result SinkError.Failed →
            bytes_in self.new ≡ bytes_in self.old ++ first_half bytes.now }
        ensures memory { IsErrOf result SinkError.Memory → bytes_in self.new ≡ bytes_in self.old }
        ensures listed { IsErrOf result SinkError.Failed → IsListed (sink_calls self.old) }
        ensures unlisted { OnOk result (¬ IsListed (sink_calls self.old)) }
        ensures calls { sink_calls self.new ≡
            after_call (sink_calls self.old) (sink_failed result) }

        // Follows from `calls`.
        ensures faults { CountsFaults (sink_calls self.old).faults (sink_calls self.new).faults
            (IsOk result) (IsErrOf result SinkError.Failed) }
    {
        if self.calls.number() {
            let (half, _) = bytes.split_at(bytes.len() / 2);
            extend(&mut self.bytes, half)?;
            self.calls.fault();
            return Err(SinkError::Failed);
        }
        extend(&mut self.bytes, bytes)?;
        Ok(())
    }
}
