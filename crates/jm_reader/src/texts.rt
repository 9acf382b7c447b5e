ghost use Rattle.std.specs.Prelude.{◌≡◌, ◌+◌, true, Ok};
ghost use Rattle.jm_form.specs.Head.{header_of};
ghost use Rattle.jm_form.specs.Places.{strings, strings_place};
ghost use Rattle.jm_form.specs.Texts.{text_at, text_ends, EndsWithin};
ghost use Rattle.jm_reader.specs.Look.{head};

use jm_bytes::Buf;
use jm_form::Header;
use jm_valid::Image;

/// The place of the text at a place of the strings, in bytes that hold an image's index.
pub(crate) fn text_place(buf: &Buf, header: &Header, place: u64) -> usize
    requires read { header_of buf.now ≡ Ok header.now }
    requires ends { text_ends (strings buf.now header.now) place ≡ true }
    ensures place { result ≡ strings_place header.now + place }
    ensures ends { EndsWithin buf.now result }
    ensures text { text_at buf.now result ≡ text_at (strings buf.now header.now) place }
{
    let _size = buf.len();
    header.strings_place() + place as usize
}

/// The place in the image of the text at a place of the strings.
pub fn place_of(image: &Image, place: u64) -> usize
    requires { text_ends (strings image.now (head image.now)) place ≡ true }
    ensures place { result ≡ strings_place (head image.now) + place }
    ensures ends { EndsWithin image.now result }
    ensures text { text_at image.now result ≡ text_at (strings image.now (head image.now)) place }
{
    text_place(&image.buf(), &image.header(), place)
}
