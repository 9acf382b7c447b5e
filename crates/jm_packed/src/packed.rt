//! The content of an entry whose row has a compressed size.
ghost use Rattle.std.specs.Prelude.{◌≡◌, ◌≤◌, ◌<◌, ◌+◌, ◌^◌, ℕ, Some, length};
ghost use Rattle.jm_bytes.specs.Results.{IfAnswered};
ghost use Rattle.jm_inflate.specs.declared.zlib_streams.ZlibFault.TheVariants.{Stream};
ghost use Rattle.jm_packed.specs.Packed.{header_fault, is_header, is_zip, long, stream_fault};
ghost use Rattle.jm_packed.specs.Packed.{ContentComes, Unpacks};
ghost use Rattle.jm_packed.specs.PackedText.{packed_fault_text};

use byteorder::{BigEndian, ByteOrder, LittleEndian};
use jm_bytes::{Or, Order, Text, word_at};
use jm_form::{Row, front};
use jm_inflate::{ZlibFault, zlib};
use std::alloc::Global;
use std::fmt;

/// The first four bytes of a compressed content, as a word in the image's byte order.
const MAGIC: u32 = 0xCAFE_FAFA;

/// How many bytes its header takes.
const HEADER_LENGTH: usize = 29;

/// Why the stored bytes of a compressed content stand for nothing; the first of these that holds.
#[derive(Clone, Copy, Debug, PartialEq, Eq)]
pub enum PackedFault {
    /// There is no header, or it states another number of bytes after it.
    Header,
    /// The header names another decompressor than `zip`, or none.
    Decompressor,
    /// The header states another size than the row does, or the stream gives more bytes or fewer.
    Size,
    /// What begins in the byte at this place of the stored bytes can't be read as part of a zlib
    /// stream, or bytes follow the stream from this place on. Where bytes lack it is their end.
    Stream(usize),
    /// The Adler-32 of the stream isn't that of the bytes that it gives.
    Check,
}

/// The kind and its number, as `Stream 61`.
impl fmt::Display for PackedFault {
    ghost output = { λ fault. Some (packed_fault_text fault) };

    fn fmt<W: fmt::Write>(&self, f: &mut fmt::Formatter<W>) -> fmt::Result {
        match *self {
            PackedFault::Header => write!(f, "Header"),
            PackedFault::Decompressor => write!(f, "Decompressor"),
            PackedFault::Size => write!(f, "Size"),
            PackedFault::Stream(at) => write!(f, "Stream {at}"),
            PackedFault::Check => write!(f, "Check"),
        }
    }
}

/// The number of the eight bytes at a place.
fn long_at(order: Order, bytes: &[u8], at: usize) -> u64
    requires { at + 8 ≤ length bytes.now }
    ensures { result ≡ long order bytes.now at }
{
    let (_, from_there) = bytes.split_at(at);
    match order {
        Order::Little => LittleEndian::read_u64(from_there),
        Order::Big => BigEndian::read_u64(from_there),
    }
}

/// Whether the bytes begin with the header of a compressed content.
fn is_header(order: Order, stored: &[u8]) -> bool
    ensures { result ≡ is_header order stored.now }
{
    if stored.len() < HEADER_LENGTH || word_at(order, stored, 0) != MAGIC {
        return false;
    }
    long_at(order, stored, 4) == (stored.len() - HEADER_LENGTH) as u64
}

/// Whether the header names the decompressor `zip` in the strings.
fn is_zip(order: Order, strings: &[u8], stored: &[u8]) -> bool
    requires { 29 ≤ length stored.now }
    ensures { result ≡ is_zip order strings.now stored.now }
{
    let place = word_at(order, stored, 20) as usize;
    if place >= strings.len() {
        return false;
    }
    let (_, from_there) = strings.split_at(place);
    front(from_there) == Some(b"zip")
}

/// The fault of the header of a content that is to have so many bytes.
fn header_fault(order: Order, strings: &[u8], size: u64, stored: &[u8]) -> Option<PackedFault>
    ensures { result ≡ header_fault order strings.now size stored.now }
{
    if !is_header(order, stored) {
        return Some(PackedFault::Header);
    }
    if !is_zip(order, strings, stored) {
        return Some(PackedFault::Decompressor);
    }
    if long_at(order, stored, 12) != size {
        return Some(PackedFault::Size);
    }
    None
}

/// A fault of the stream, at its place in the stored bytes.
fn stream_fault(fault: ZlibFault) -> PackedFault
    requires { (at : ℕ) → fault ≡ Stream at → 29 + at < 2 ^ 64 }
    ensures { result ≡ stream_fault fault }
{
    match fault {
        ZlibFault::Stream(at) => PackedFault::Stream(HEADER_LENGTH + at),
        ZlibFault::Size => PackedFault::Size,
        ZlibFault::Check => PackedFault::Check,
    }
}

/// The `size` bytes that the stored bytes of a compressed content stand for, over the strings of
/// the image: a header of 29 bytes (the magic number CAFEFAFA, how many bytes follow it, the size,
/// and the place of the decompressor's name in the strings, in the image's byte order) and a zlib
/// stream (RFC 1950). A fault is the first: of the header, then as `zlib` finds them.
///
/// Time in proportion to the bytes stored and given; no more than `size` bytes are given.
pub fn unpack(
    alloc: Global,
    order: Order,
    strings: &[u8],
    size: u64,
    stored: &[u8],
) -> Result<Text, Or<PackedFault>>
    ensures { IfAnswered (Unpacks order strings.now size stored.now) result }
{
    if let Some(fault) = header_fault(order, strings, size, stored) {
        return Err(Or::Fault(fault));
    }
    let (_, stream) = stored.split_at(HEADER_LENGTH);
    match zlib(alloc, stream, size as usize) {
        Ok(content) => Ok(content),
        Err(Or::Fault(fault)) => Err(Or::Fault(stream_fault(fault))),
        Err(Or::Memory) => Err(Or::Memory),
    }
}

/// The content of an entry with this row, whose stored bytes these are: the bytes, where the row
/// has no compressed size, else what `unpack` gives of them.
pub fn content_of(
    alloc: Global,
    order: Order,
    strings: &[u8],
    row: &Row,
    stored: &[u8],
) -> Result<Text, Or<PackedFault>>
    ensures { IfAnswered (ContentComes order strings.now row.now stored.now) result }
{
    if row.packed == 0 {
        let content = Text::copy_of(alloc, stored)?;
        return Ok(content);
    }
    unpack(alloc, order, strings, row.size, stored)
}
