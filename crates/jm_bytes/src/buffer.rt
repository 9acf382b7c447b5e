ghost use Rattle.std.specs.Prelude.{◌≡◌, ◌<◌, ◌≤◌, ◌+◌, length, slice_index, slice_range};

use crate::counters::Meter;
use crate::words::{Order, word_at};
use std::marker::Model;
use std::sync::ledger::Ledger;

/// A list of bytes that leave it only by the three counted calls `byte`, `word` and `part`, each of
/// which is lent a meter of the same bytes.
#[derive(Drop)]
pub struct Buf<'a> {
    bytes: &'a [u8],
}

impl<'a> Model for Buf<'a> {
    ghost use Rattle.std.specs.Prelude.{List, ℕ};

    ghost Value = { List ℕ };

    ghost view = { λ a. a.bytes.now };
}

impl<'a> Buf<'a> {
    ghost use Rattle.jm_bytes.specs.Metered.{Costs};
    ghost use Rattle.jm_bytes.specs.Word.{word};

    /// The buffer of these bytes.
    pub fn new(bytes: &'a [u8]) -> Buf<'a>
        ensures { result ≡ bytes.now }
    {
        Buf { bytes }
    }

    /// A second value of the same bytes.
    pub fn again(&self) -> Buf<'a>
        ensures { result ≡ self.now }
    {
        Buf { bytes: self.bytes }
    }

    /// How many bytes it has.
    pub fn len(&self) -> usize
        ensures { result ≡ length self.now }
    {
        self.bytes.len()
    }

    /// The byte at the place `at`. It costs 1.
    pub fn byte<L: Ledger>(&self, at: usize, reads: &mut Meter<L>) -> u8
        requires inside { at < length self.now }
        requires same { reads.old.bytes ≡ self.now }
        ensures byte { result ≡ slice_index self.now at }
        ensures cost { Costs reads.old reads.new 1 }
    {
        reads.count(1);
        self.bytes[at]
    }

    /// The word of four bytes at the place `at`. It costs 4.
    pub fn word<L: Ledger>(&self, order: Order, at: usize, reads: &mut Meter<L>) -> u32
        requires inside { at + 4 ≤ length self.now }
        requires same { reads.old.bytes ≡ self.now }
        ensures word { result ≡ word order self.now at }
        ensures cost { Costs reads.old reads.new 4 }
    {
        reads.count(4);
        word_at(order, self.bytes, at)
    }

    /// The `len` bytes from the place `at` on. It costs `len`.
    pub fn part<L: Ledger>(&self, at: usize, len: usize, reads: &mut Meter<L>) -> &'a [u8]
        requires inside { at + len ≤ length self.now }
        requires same { reads.old.bytes ≡ self.now }
        ensures part { result.now ≡ slice_range self.now at (at + len) }
        ensures cost { Costs reads.old reads.new len }
    {
        reads.count(len);
        &self.bytes[at..at + len]
    }
}
