use jm_bytes::{Or, Order};
use jm_packed::PackedFault::{Check, Decompressor, Header, Size, Stream};
use jm_packed::{PackedFault, unpack};
use std::alloc::Global;
use std::test::Fail;

/// The strings of an image with the names of two decompressors.
const STRINGS: &[u8] = b"\0zip\0compact-cp\0";

/// What is packed.
const CONTENT: &[u8] = b"abcabcabcabcabcabcabc hello";

/// The content as it is stored where the lowest byte stands first.
const LITTLE: [u8; 48] = [
    0xFA, 0xFA, 0xFE, 0xCA, 0x13, 0x00, 0x00, 0x00, 0x00, 0x00, 0x00, 0x00, 0x1B, 0x00, 0x00, 0x00,
    0x00, 0x00, 0x00, 0x00, 0x01, 0x00, 0x00, 0x00, 0xFF, 0xFF, 0xFF, 0xFF, 0x01, 0x78, 0xDA, 0x4B,
    0x4C, 0x4A, 0x4E, 0xC4, 0x40, 0x0A, 0x19, 0xA9, 0x39, 0x39, 0xF9, 0x00, 0x8F, 0x9E, 0x0A, 0x3F,
];

/// The same where the highest byte stands first.
const BIG: [u8; 48] = [
    0xCA, 0xFE, 0xFA, 0xFA, 0x00, 0x00, 0x00, 0x00, 0x00, 0x00, 0x00, 0x13, 0x00, 0x00, 0x00, 0x00,
    0x00, 0x00, 0x00, 0x1B, 0x00, 0x00, 0x00, 0x01, 0xFF, 0xFF, 0xFF, 0xFF, 0x01, 0x78, 0xDA, 0x4B,
    0x4C, 0x4A, 0x4E, 0xC4, 0x40, 0x0A, 0x19, 0xA9, 0x39, 0x39, 0xF9, 0x00, 0x8F, 0x9E, 0x0A, 0x3F,
];

/// What is shown; a place of the little one, the byte that stands there instead, and the fault.
const CHANGED: &[(&str, usize, u8, Option<PackedFault>)] = &[
    ("the magic number", 0, 0xDA, Some(Header)),
    ("fewer bytes after the header", 4, 0x12, Some(Header)),
    ("many more bytes after the header", 11, 0x01, Some(Header)),
    ("another size", 12, 0x1A, Some(Size)),
    ("a size of more than four bytes", 16, 0x01, Some(Size)),
    ("another decompressor", 20, 0x05, Some(Decompressor)),
    ("no name", 20, 0x00, Some(Decompressor)),
    ("a name after the strings", 20, 0x10, Some(Decompressor)),
    ("a place that says nothing", 24, 0x00, None),
    ("the last byte of the header", 28, 0x00, None),
    ("the head of the stream", 29, 0x79, Some(Stream(29))),
    ("the sum", 44, 0x90, Some(Check)),
];

/// The fault of the little one with a byte changed, or that it gives the content.
fn fault_of(alloc: Global, at: usize, byte: u8) -> Result<(), Or<PackedFault>> {
    let mut stored = LITTLE;
    if at < stored.len() {
        stored[at] = byte;
    }
    let content = unpack(alloc, Order::Little, STRINGS, 27, &stored)?;
    if content.as_slice() == CONTENT {
        Ok(())
    } else {
        Err(Or::Memory)
    }
}

#[test]
fn contents_are_unpacked(rt: HostRuntime) -> Result<(), Fail> {
    let alloc = rt.alloc();
    let little = unpack(alloc, Order::Little, STRINGS, 27, &LITTLE)?;
    assert_eq!(rt; little.as_slice(), CONTENT, "the lowest byte first");
    let big = unpack(alloc, Order::Big, STRINGS, 27, &BIG)?;
    assert_eq!(rt; big.as_slice(), CONTENT, "the highest byte first");
    for (shows, at, byte, wanted) in CHANGED {
        let wanted = match wanted {
            Some(fault) => Err(Or::Fault(*fault)),
            None => Ok(()),
        };
        assert_eq!(rt; fault_of(alloc, *at, *byte), wanted, "{shows}");
    }
    Ok(())
}
