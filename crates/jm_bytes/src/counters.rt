ghost use Rattle.std.specs.Prelude.{◌≡◌, ◌<◌, ◌+◌};

use std::marker::Model;
use std::sync::ledger::{Blank, Book, Ledger, Share};

/// A counter of steps that takes no room when the program runs. `L` names what is counted.
#[derive(Drop)]
pub struct Steps<L: Ledger> {
    book: Book<L>,
    share: Share<L>,
}

impl<L: Ledger> Model for Steps<L> {
    ghost use Rattle.std.specs.Prelude.{ℕ, ◌<◌};

    ghost Value = { ℕ };

    ghost view = { λ s. s.book.total };

    ghost invariant = { λ s. 0 < s.share.parts };
}

impl<L: Ledger> Steps<L> {
    /// A counter that stands at 0. The blank is of the ledger `L`.
    pub fn new(blank: Blank) -> Steps<L>
        requires name { blank.name ≡ L.name }
        requires parts { blank.parts ≡ L.parts }
        requires some { 0 < blank.parts }
        ensures { result ≡ 0 }
    {
        let (book, share) = blank.open::<L>();
        Steps { book, share }
    }

    /// Counts `n` more steps.
    pub fn add(&mut self, n: usize)
        ensures { self.new ≡ self.old + n }
    {
        self.book.add(&mut self.share, n as u64);
    }
}

/// A counter of bytes read that is tied to the bytes it was made of. It hands out none of them.
#[derive(Drop)]
pub struct Meter<'a, L: Ledger> {
    bytes: &'a [u8],
    read: Steps<L>,
}

impl<'a, L: Ledger> Model for Meter<'a, L> {
    ghost use Rattle.jm_bytes.specs.Metered.{Metered};

    ghost Value = { Metered };

    ghost view = { λ a. record { bytes = a.bytes.now; count = a.read } };
}

impl<'a, L: Ledger> Meter<'a, L> {
    ghost use Rattle.jm_bytes.specs.Metered.{Costs};

    /// A meter of these bytes that stands at 0. The blank is of the ledger `L`.
    pub fn new(bytes: &'a [u8], blank: Blank) -> Meter<'a, L>
        requires name { blank.name ≡ L.name }
        requires parts { blank.parts ≡ L.parts }
        requires some { 0 < blank.parts }
        ensures bytes { result.bytes ≡ bytes.now }
        ensures count { result.count ≡ 0 }
    {
        Meter {
            bytes,
            read: Steps::new(blank),
        }
    }

    pub(crate) fn count(&mut self, n: usize)
        ensures { Costs self.old self.new n }
    {
        self.read.add(n);
    }
}
