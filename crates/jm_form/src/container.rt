ghost use Rattle.std.specs.Prelude.{◌≡◌, ◌%◌, ◌≤◌, ◌<◌, Some, length};
ghost use Rattle.jm_form.specs.DamageText.{header_fault_text};
ghost use Rattle.jm_form.specs.Head.{fields_in, header_of, header_with, HoldsHead};
ghost use Rattle.jm_form.specs.Head.{index_length, order_of};
ghost use Rattle.jm_form.specs.Places as places;
ghost use Rattle.jm_form.specs.Table.{slot_below};

use jm_bytes::{Order, word_at};
use std::fmt;

/// The first four bytes of an image, as a word in the image's byte order.
const MAGIC: u32 = 0xCAFE_DADA;

/// Version 1.0: the major number in the high half, the minor one in the low half.
const VERSION: u32 = 0x0001_0000;

/// How many bytes the seven words of the header take.
const HEADER_LENGTH: usize = 28;

/// The header of an image of version 1.0.
#[derive(Clone, Copy, Debug, PartialEq, Eq)]
pub struct Header {
    /// The byte order of all words of the image.
    pub order: Order,
    /// Free for the writer; this project writes 0.
    pub flags: u32,
    /// How many entries the image has.
    pub count: u32,
    /// How many redirect words, and how many offset words, the table has.
    pub length: u32,
    /// How many bytes the locations section has.
    pub locations: u32,
    /// How many bytes the strings section has.
    pub strings: u32,
}

/// Why bytes have no header; the first of these that holds.
#[derive(Clone, Copy, Debug, PartialEq, Eq)]
pub enum HeaderFault {
    /// There are fewer than 28 bytes.
    Short,
    /// The first four bytes are the magic in neither byte order.
    Magic,
    /// The version word is another than that of version 1.0.
    Version(u32),
    /// The index ends behind the end of the file.
    Sizes,
}

/// The kind and its number, as `Version 65537`.
impl fmt::Display for HeaderFault {
    ghost output = { λ x. Some (header_fault_text x) };

    fn fmt<W: fmt::Write>(&self, f: &mut fmt::Formatter<W>) -> fmt::Result {
        match *self {
            HeaderFault::Short => write!(f, "Short"),
            HeaderFault::Magic => write!(f, "Magic"),
            HeaderFault::Version(word) => write!(f, "Version {word}"),
            HeaderFault::Sizes => write!(f, "Sizes"),
        }
    }
}

/// Where the parts of an image stand, in bytes from its front: behind the header's seven words the
/// redirect words, the offset words, the locations, the strings and the contents (jimage 1.0).
impl Header {
    /// The place of a bucket's redirect word.
    pub fn redirect_place(&self, bucket: u32) -> usize
        ensures { result ≡ places.redirect_place bucket }
    {
        HEADER_LENGTH + 4 * bucket as usize
    }

    /// The place of a slot's offset word.
    pub fn offset_place(&self, slot: u32) -> usize
        ensures { result ≡ places.offset_place self.now slot }
    {
        HEADER_LENGTH + 4 * self.length as usize + 4 * slot as usize
    }

    /// The place of the locations.
    pub fn locations_place(&self) -> usize
        ensures { result ≡ places.locations_place self.now }
    {
        HEADER_LENGTH + 8 * self.length as usize
    }

    /// The place of the strings.
    pub fn strings_place(&self) -> usize
        ensures { result ≡ places.strings_place self.now }
    {
        self.locations_place() + self.locations as usize
    }

    /// The place of the contents, which is the length of the index.
    pub fn contents_place(&self) -> usize
        ensures { result ≡ index_length self.now }
    {
        self.strings_place() + self.strings as usize
    }

    /// The slot, if the table has it.
    pub fn slot(&self, slot: u32) -> Option<u32>
        ensures { result ≡ slot_below self.now.length slot }
    {
        if slot < self.length { Some(slot) } else { None }
    }

    /// The slot of a hash, if the table has a slot.
    pub fn slot_of(&self, hash: u32) -> Option<u32>
        ensures { result ≡ slot_below self.now.length (hash % self.now.length) }
    {
        if self.length == 0 {
            return None;
        }
        self.slot(hash % self.length)
    }
}

/// The byte order in which the first word is the magic.
fn order_of(bytes: &[u8]) -> Option<Order>
    requires { 4 ≤ length bytes.now }
    ensures { result ≡ order_of bytes.now }
{
    if word_at(Order::Little, bytes, 0) == MAGIC {
        Some(Order::Little)
    } else if word_at(Order::Big, bytes, 0) == MAGIC {
        Some(Order::Big)
    } else {
        None
    }
}

/// The header's fields, whatever they say.
fn fields_in(order: Order, bytes: &[u8]) -> Header
    requires { 28 ≤ length bytes.now }
    ensures { result ≡ fields_in order bytes.now }
{
    Header {
        order,
        flags: word_at(order, bytes, 8),
        count: word_at(order, bytes, 12),
        length: word_at(order, bytes, 16),
        locations: word_at(order, bytes, 20),
        strings: word_at(order, bytes, 24),
    }
}

/// Reads the header, the seven words at the front (jimage 1.0), of a file of this length of which
/// these are the first bytes: 28 of them are enough, and more change nothing.
///
/// The faults are looked for in the order of `HeaderFault`, and the sum of the index's parts is
/// taken in 64 bits. The index has as many bytes as `contents_place` of the header says.
pub fn read_header_of(front: &[u8], length: u64) -> Result<Header, HeaderFault>
    requires { HoldsHead front.now length }
    ensures { result ≡ header_with front.now length }
{
    if length < HEADER_LENGTH as u64 {
        return Err(HeaderFault::Short);
    }
    let Some(order) = order_of(front) else {
        return Err(HeaderFault::Magic);
    };
    let version = word_at(order, front, 4);
    if version != VERSION {
        return Err(HeaderFault::Version(version));
    }
    let header = fields_in(order, front);
    if header.contents_place() as u64 > length {
        return Err(HeaderFault::Sizes);
    }
    Ok(header)
}

/// Reads the header of a file whose bytes are all here.
pub fn read_header(bytes: &[u8]) -> Result<Header, HeaderFault>
    ensures { result ≡ header_of bytes.now }
{
    read_header_of(bytes, bytes.len() as u64)
}
