ghost use Rattle.std.specs.Prelude.{◌≡◌, length};
ghost use Rattle.jm_form.specs.Validity.{Valid, ValidAs};

use crate::index::Index;
use jm_bytes::Buf;
use jm_form::{Header, read_header};
use std::marker::Model;

/// A valid image: its bytes, which leave it only by counted calls, and its header. It is its own
/// index.
#[derive(Drop)]
pub struct Image<'a> {
    index: Index<'a>,
}

impl<'a> Model for Image<'a> {
    ghost use Rattle.std.specs.Prelude.{◌≡◌, List, ℕ, length};

    ghost Value = { List ℕ };

    ghost view = { λ a. a.index.bytes };

    ghost invariant = { λ a. a.index.length ≡ length a.index.bytes };
}

impl<'a> Image<'a> {
    /// The image whose index has all of its bytes.
    pub(crate) fn whole(index: Index<'a>) -> Image<'a>
        requires { index.length ≡ length index.bytes }
        ensures { result ≡ index.entry.bytes }
    {
        Image { index }
    }

    /// The image of bytes that were found to be valid before. Nothing is checked again; the header
    /// is read.
    pub fn of_valid(bytes: &'a [u8]) -> Image<'a>
        requires { Valid bytes.now }
        ensures { result ≡ bytes.now }
    {
        match read_header(bytes) {
            Ok(header) => Image::whole(Index::checked(bytes, header, bytes.len() as u64)),
            Err(_) => unreachable!(),
        }
    }

    /// The bytes, in a buffer that counts what leaves it.
    pub fn buf(&self) -> Buf<'a>
        ensures { result ≡ self.now }
    {
        self.index.buf()
    }

    /// The header, with which the bytes are a valid image.
    pub fn header(&self) -> Header
        ensures { ValidAs self.now result }
    {
        self.index.header()
    }

    /// The bytes and their number, as the index of themselves.
    pub fn index(&self) -> Index<'a>
        ensures bytes { result.bytes ≡ self.now }
        ensures length { result.length ≡ length self.now }
    {
        self.index.again()
    }

    /// A second value of the same bytes.
    pub fn again(&self) -> Image<'a>
        ensures { result ≡ self.now }
    {
        Image {
            index: self.index.again(),
        }
    }
}
