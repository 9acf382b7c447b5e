ghost use Rattle.std.specs.Prelude.{◌≡◌, ◌+◌, ◌<◌, ◌^◌, length, IfSome, IfNone};
ghost use Rattle.std.specs.Int.{w8, w16, w32};

use std::marker::Model;

/// Bytes that are read from left to right, with the place of the next one.
#[derive(Drop)]
pub struct Cursor<'a> {
    rest: &'a [u8],
    place: usize,
}

impl<'a> Model for Cursor<'a> {
    ghost use Rattle.std.specs.Prelude.{◌+◌, ◌<◌, ◌^◌, length};
    ghost use Rattle.jm_class.specs.Readings.{Left};

    ghost Value = { Left };

    ghost view = { λ a. record { place = a.place; bytes = a.rest.now } };

    ghost invariant = { λ a. a.place + length a.rest.now < 2 ^ 64 };
}

impl<'a> Cursor<'a> {
    ghost use Rattle.jm_class.specs.Readings.{Takes, TakesNumber};

    /// A cursor at the front of some bytes.
    pub fn new(bytes: &'a [u8]) -> Cursor<'a>
        ensures { result ≡ record { place = 0; bytes = bytes.now } }
    {
        let _len = bytes.len();
        Cursor {
            rest: bytes,
            place: 0,
        }
    }

    /// A cursor at the front of a part of a text, the first byte of which has this place in bytes.
    pub fn at(place: usize, bytes: &'a [u8]) -> Cursor<'a>
        requires { place + length bytes.now < 2 ^ 64 }
        ensures { result ≡ record { place = place; bytes = bytes.now } }
    {
        Cursor { rest: bytes, place }
    }

    /// The place of the next byte.
    pub fn place(&self) -> usize
        ensures { result ≡ self.now.place }
    {
        self.place
    }

    /// How many bytes are left.
    pub fn len(&self) -> usize
        ensures { result ≡ length self.now.bytes }
    {
        self.rest.len()
    }

    /// The bytes that are left.
    pub fn rest(&self) -> &'a [u8]
        ensures { result.now ≡ self.now.bytes }
    {
        self.rest
    }

    /// The next `n` bytes; none, and nothing is taken, where fewer are left.
    pub fn part(&mut self, n: usize) -> Option<&'a [u8]>
        ensures some { IfSome result (λ part. Takes n self.old part.now self.new) }
        ensures none { IfNone result (length self.old.bytes < n) }
        ensures same { IfNone result (self.new ≡ self.old) }
    {
        if self.rest.len() < n {
            return None;
        }
        let (part, rest) = self.rest.split_at(n);
        self.rest = rest;
        self.place += n;
        Some(part)
    }

    /// A cursor of its own over the next `n` bytes, with their places; none, and nothing is taken,
    /// where fewer are left.
    pub fn inner(&mut self, n: usize) -> Option<Cursor<'a>>
        ensures some { IfSome result (λ inner. Takes n self.old inner.bytes self.new) }
        ensures place { IfSome result (λ inner. inner.place ≡ self.old.place) }
        ensures none { IfNone result (length self.old.bytes < n) }
        ensures same { IfNone result (self.new ≡ self.old) }
    {
        let place = self.place;
        let rest = self.part(n)?;
        Some(Cursor { rest, place })
    }

    /// The next byte.
    pub fn u8(&mut self) -> Option<u8>
        ensures some { IfSome result (λ n. TakesNumber w8 self.old n self.new) }
        ensures none { IfNone result (length self.old.bytes < 1) }
        ensures same { IfNone result (self.new ≡ self.old) }
    {
        let (bytes, rest) = self.rest.split_first_chunk::<1>()?;
        self.rest = rest;
        self.place += 1;
        Some(u8::from_be_bytes(*bytes))
    }

    /// The next number of two bytes, the highest first.
    pub fn u16(&mut self) -> Option<u16>
        ensures some { IfSome result (λ n. TakesNumber w16 self.old n self.new) }
        ensures none { IfNone result (length self.old.bytes < 2) }
        ensures same { IfNone result (self.new ≡ self.old) }
    {
        let (bytes, rest) = self.rest.split_first_chunk::<2>()?;
        self.rest = rest;
        self.place += 2;
        Some(u16::from_be_bytes(*bytes))
    }

    /// The next number of four bytes, the highest first.
    pub fn u32(&mut self) -> Option<u32>
        ensures some { IfSome result (λ n. TakesNumber w32 self.old n self.new) }
        ensures none { IfNone result (length self.old.bytes < 4) }
        ensures same { IfNone result (self.new ≡ self.old) }
    {
        let (bytes, rest) = self.rest.split_first_chunk::<4>()?;
        self.rest = rest;
        self.place += 4;
        Some(u32::from_be_bytes(*bytes))
    }
}
