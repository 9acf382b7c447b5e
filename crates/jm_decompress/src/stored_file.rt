//! An image in a file that was checked as stored.
ghost use Rattle.std.specs.Prelude.{◌≡◌, ℕ, List};
ghost use Rattle.jm_form.specs.Head.{IsFileOf};
ghost use Rattle.jm_form.specs.Places.{strings};
ghost use Rattle.jm_reader.specs.Look.{head};
ghost use Rattle.jm_reader.specs.Walk.{IsLater};

use jm_bytes::Meter;
use jm_valid::StoredIndex;
use std::sync::ledger::Ledger;

/// An image in a file on a shelf that was checked as stored: its index, which is open, and the path
/// of the file, in UTF-8, in which the stored bytes of its entries are.
#[derive(Clone, Copy)]
pub struct StoredFile<'i, 'a> {
    /// The index.
    pub index: &'i StoredIndex<'a>,
    /// The path.
    pub path: &'i [u8],
}

/// The strings of each file of an index.
pub(crate) fn strings_of<'a, R: Ledger>(index: &StoredIndex<'a>, reads: &mut Meter<R>) -> &'a [u8]
    requires { reads.old.bytes ≡ index.now.bytes }
    ensures strings { (b : List ℕ) → IsFileOf index.now.bytes index.now.length b
        → result.now ≡ strings b (head b) }
    ensures reads { IsLater reads.old reads.new }
{
    let header = index.header();
    let buf = index.buf();
    buf.part(header.strings_place(), header.strings as usize, reads)
}
