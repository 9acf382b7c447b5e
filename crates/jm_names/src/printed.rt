//! Names and paths as they are shown in a line.
ghost use Rattle.std.specs.Prelude.{◌≡◌, ◌<◌, ◌++◌, true, OnOk};
ghost use Rattle.std.specs.Fmt.{digit_glyph};
ghost use Rattle.std.specs.List.{list_any};
ghost use Rattle.jm_names.specs.Shown.{is_control, shown, shown_byte, shown_text};

use crate::forms::to_utf8;
use jm_bytes::{NoMemory, extend};
use memchr::memchr;
use std::alloc::Global;

/// Whether a byte is a control character of its own.
fn is_control(byte: u8) -> bool
    ensures { result ≡ is_control byte }
{
    byte < 0x20 || byte == 0x7F
}

/// Whether one of some bytes is.
fn has_control(bytes: &[u8]) -> bool
    ensures { result ≡ list_any is_control bytes.now }
{
    bytes.iter().any(|byte| is_control(*byte))
}

/// The digit of a number below 16.
fn hex_digit(number: u8) -> u8
    requires { number < 16 }
    ensures { result ≡ digit_glyph true number }
{
    if number < 10 {
        b'0' + number
    } else {
        b'A' - 10 + number
    }
}

/// Puts a byte as it is shown at the end of a text.
fn extend_byte(text: &mut Vec<u8>, byte: u8) -> Result<(), NoMemory>
    ensures { OnOk result (text.new.items ≡ text.old.items ++ shown_byte byte) }
{
    if is_control(byte) {
        extend(
            text,
            &[b'\\', b'x', hex_digit(byte / 16), hex_digit(byte % 16)],
        )
    } else {
        extend(text, &[byte])
    }
}

/// Puts a text of UTF-8, as the path of a file, at the end of another one as it is shown: with each
/// control character of one byte as `\x` and its two digits.
pub fn extend_shown_text(text: &mut Vec<u8>, bytes: &[u8]) -> Result<(), NoMemory>
    ensures { OnOk result (text.new.items ≡ text.old.items ++ shown_text bytes.now) }
{
    if !has_control(bytes) {
        return extend(text, bytes);
    }
    for byte in bytes {
        extend_byte(text, *byte)?;
    }
    Ok(())
}

/// Puts a name of Modified UTF-8 at the end of a text as it is shown: in UTF-8, with each control
/// character of one byte as `\x` and its two digits. One without these and without surrogates takes
/// no memory but that of the text.
pub fn extend_shown(alloc: Global, text: &mut Vec<u8>, name: &[u8]) -> Result<(), NoMemory>
    ensures { OnOk result (text.new.items ≡ text.old.items ++ shown name.now) }
{
    if memchr(0xED, name).is_none() {
        return extend_shown_text(text, name);
    }
    let name = to_utf8(alloc, name)?;
    extend_shown_text(text, name.as_slice())
}
