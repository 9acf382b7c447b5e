ghost use Rattle.std.specs.Prelude.{◌≡◌, ◌≤◌, ◌+◌, length};
ghost use Rattle.jm_bytes.specs.Word.{word, word_bytes};

use byteorder::{BigEndian, ByteOrder, LittleEndian};

/// The order in which the four bytes of a word stand.
#[derive(Clone, Copy, Debug, PartialEq, Eq)]
pub enum Order {
    /// The lowest byte first.
    Little,
    /// The highest byte first.
    Big,
}

/// The four bytes of the word `v`.
pub fn put_word(order: Order, v: u32) -> [u8; 4]
    ensures bytes { result ≡ word_bytes order v }
    ensures reads_back { word order result 0 ≡ v }
{
    let mut bytes = [0; 4];
    match order {
        Order::Little => LittleEndian::write_u32(&mut bytes, v),
        Order::Big => BigEndian::write_u32(&mut bytes, v),
    }
    bytes
}

/// The word that stands at the place `at`, which counts bytes from the front.
pub fn word_at(order: Order, bytes: &[u8], at: usize) -> u32
    requires { at + 4 ≤ length bytes.now }
    ensures { result ≡ word order bytes.now at }
{
    let (_, from_there) = bytes.split_at(at);
    match order {
        Order::Little => LittleEndian::read_u32(from_there),
        Order::Big => BigEndian::read_u32(from_there),
    }
}
