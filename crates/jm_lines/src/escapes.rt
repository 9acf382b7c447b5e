use std::alloc::{AllocError, Global};

/// How bytes are spelled.
#[derive(Clone, Copy)]
pub enum Spelling {
    /// As printable text, in which `\n`, `\0`, `\\`, and `\x` with two digits, stand for a byte
    /// each.
    Escapes,
    /// As two hexadecimal digits for each byte.
    Digits,
}

/// The number that a hexadecimal digit stands for.
fn digit(letter: u8) -> Option<u8> {
    match letter {
        b'0'..=b'9' => Some(letter - b'0'),
        b'A'..=b'F' => Some(letter - b'A' + 10),
        _ => None,
    }
}

/// The byte that two digits stand for.
fn byte_of(high: u8, low: u8) -> Option<u8> {
    Some(digit(high)? << 4 | digit(low)?)
}

/// The first byte that a text stands for, and the text behind it.
fn first_byte(spelling: Spelling, text: &[u8]) -> Option<(u8, &[u8])> {
    match (spelling, text) {
        (Spelling::Digits, [high, low, rest @ ..]) => Some((byte_of(*high, *low)?, rest)),
        (Spelling::Digits, _) => None,
        (Spelling::Escapes, [b'\\', b'n', rest @ ..]) => Some((b'\n', rest)),
        (Spelling::Escapes, [b'\\', b'0', rest @ ..]) => Some((0, rest)),
        (Spelling::Escapes, [b'\\', b'\\', rest @ ..]) => Some((b'\\', rest)),
        (Spelling::Escapes, [b'\\', b'x', high, low, rest @ ..]) => {
            Some((byte_of(*high, *low)?, rest))
        }
        (Spelling::Escapes, [b'\\', ..]) => None,
        (Spelling::Escapes, [byte, rest @ ..]) => Some((*byte, rest)),
        (Spelling::Escapes, []) => None,
    }
}

/// The bytes that a text stands for, or None where it is faulty.
pub fn bytes_of(
    alloc: Global,
    spelling: Spelling,
    text: &str,
) -> Result<Option<Vec<u8>>, AllocError> {
    let mut bytes = Vec::new(alloc);
    let mut rest = text.as_bytes();
    for _ in 0..text.len() {
        if rest.is_empty() {
            break;
        }
        let Some((byte, behind)) = first_byte(spelling, rest) else {
            return Ok(None);
        };
        bytes.push(byte)?;
        rest = behind;
    }
    Ok(Some(bytes))
}

/// Puts the printable text that stands for some bytes.
pub fn put_bytes(told: &mut String, bytes: &[u8]) -> Result<(), AllocError> {
    for byte in bytes {
        match *byte {
            b'\n' => told.push_str("\\n")?,
            0 => told.push_str("\\0")?,
            b'\\' => told.push_str("\\\\")?,
            b' '..=b'~' => told.push(char::from(*byte))?,
            other => write!(told, "\\x{other:02X}")?,
        }
    }
    Ok(())
}

/// Puts two digits for each byte.
pub fn put_digits(told: &mut String, bytes: &[u8]) -> Result<(), AllocError> {
    for byte in bytes {
        let byte = *byte;
        write!(told, "{byte:02X}")?;
    }
    Ok(())
}
