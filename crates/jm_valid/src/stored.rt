ghost use Rattle.std.specs.Prelude.{◌≡◌, ◌≤◌, ℕ, List, length, Ok};
ghost use Rattle.jm_form.specs.Head.{header_of, IsFileOf};
ghost use Rattle.jm_form.specs.Validity.{StoredAs};
ghost use Rattle.jm_form.specs.declared.rows.Compression.TheVariants.{Allowed};
ghost use Rattle.jm_valid.specs.Opened.{IsIndexOf};

use jm_bytes::Buf;
use jm_form::Header;
use std::marker::Model;

/// The index of an image that is valid as stored, its contents compressed or not: the first bytes
/// of its file, up to its contents at least, its header and the file's length. It says all of the
/// image's names, and where what is stored stands.
#[derive(Drop)]
pub struct StoredIndex<'a> {
    buf: Buf<'a>,
    header: Header,
    length: u64,
}

impl<'a> Model for StoredIndex<'a> {
    ghost use Rattle.jm_form.specs.declared.rows.Compression.TheVariants.{Allowed};
    ghost use Rattle.jm_valid.specs.Opened.{Front, IsIndexOf};

    ghost Value = { Front };

    ghost view = { λ a. record { bytes = a.buf; length = a.length } };

    ghost invariant = { λ a. IsIndexOf Allowed a.buf a.length a.header };
}

impl<'a> StoredIndex<'a> {
    /// The index of files that were found to be valid as stored.
    pub(crate) fn checked(front: &'a [u8], header: Header, length: u64) -> StoredIndex<'a>
        requires { IsIndexOf Allowed front.now length header }
        ensures { result ≡ record { bytes = front.now; length = length } }
    {
        StoredIndex {
            buf: Buf::new(front),
            header,
            length,
        }
    }

    /// The first bytes, in a buffer that counts what leaves it.
    pub fn buf(&self) -> Buf<'a>
        ensures { result ≡ self.now.bytes }
    {
        self.buf.again()
    }

    /// The header, with which each file that has these first bytes and this length is an image
    /// that is valid as stored; it is that of the first bytes alone, too, which are no more than
    /// the file has.
    pub fn header(&self) -> Header
        ensures front { header_of self.now.bytes ≡ Ok result }
        ensures sound { (b : List ℕ) → IsFileOf self.now.bytes self.now.length b
            → StoredAs b result }
        ensures within { length self.now.bytes ≤ self.now.length }
    {
        self.header
    }

    /// How many bytes the file has, of which the first ones are here.
    pub fn length(&self) -> u64
        ensures length { result ≡ self.now.length }
        ensures within { length self.now.bytes ≤ result }
    {
        self.length
    }

    /// A second value of the same index.
    pub fn again(&self) -> StoredIndex<'a>
        ensures { result ≡ self.now }
    {
        StoredIndex {
            buf: self.buf.again(),
            header: self.header,
            length: self.length,
        }
    }
}
