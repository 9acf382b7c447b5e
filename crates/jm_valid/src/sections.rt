ghost use Rattle.std.specs.Prelude.{◌≡◌, ◌^◌, ◌<◌, Ok};
ghost use Rattle.jm_form.specs.Head.{header_of};
ghost use Rattle.jm_form.specs.Places as places;
ghost use Rattle.jm_form.specs.Texts.{text_ends};
ghost use Rattle.jm_valid.specs.Texts.{ended_texts};

use jm_form::{Compression, Header};
use memchr::memrchr;

/// The first bytes of an image, which hold its index and whose header was read, with what the
/// checks read of its sections.
#[derive(Clone, Copy)]
pub struct Sections<'a> {
    pub bytes: &'a [u8],
    pub header: Header,
    /// Whether the contents may be compressed.
    pub compression: Compression,
    /// The front of the strings up to and with their last zero byte; the texts that end begin in
    /// it.
    pub texts: &'a [u8],
    /// How many bytes the contents have, of which these bytes may hold none.
    pub size: u64,
    pub ghost header_read: { header_of bytes.now ≡ Ok header },
    pub ghost size_fits: { size < 2 ^ 64 },
    pub ghost texts_cut: { texts.now ≡ ended_texts (places.strings bytes.now header) },
}

/// The front up to and with the last zero byte: a text of the strings ends within them exactly
/// where it begins within this front.
pub fn ended_texts(strings: &[u8]) -> &[u8]
    ensures { result.now ≡ ended_texts strings.now }
{
    match memrchr(0, strings) {
        Some(last) => &strings[..last + 1],
        None => &[],
    }
}

impl<'a> Sections<'a> {
    ghost use Rattle.jm_valid.specs.Sections.{strings_in};

    /// A text from this place of the strings on ends within them.
    pub fn ends(&self, place: u64) -> bool
        ensures { result ≡ text_ends (strings_in self.now) place }
    {
        place < self.texts.len() as u64
    }
}
