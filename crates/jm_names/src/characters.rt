ghost use Rattle.std.specs.Prelude.{◌≡◌, ◌<◌, IfSome, IfNone, take, ◌&&◌};
ghost use Rattle.jm_names.specs.Characters.{IsLongestText, begins_three, goes_on};
ghost use Rattle.jm_names.specs.Characters.{is_character, is_surrogate};
ghost use Rattle.jm_names.specs.ComputedText.{character_len, text_len};

/// The length in bytes of the longest front that is a run of characters of Modified UTF-8.
pub(crate) fn text_len(bytes: &[u8]) -> usize
    ensures longest { IsLongestText result bytes.now }
    ensures value { result ≡ text_len bytes.now }
{
    let mut at = 0;
    loop {
        let (_, rest) = bytes.split_at(at);
        match character_len(rest) {
            Some(len) => at += len,
            None => return at,
        }
    }
}

/// The length in bytes of the character in front, if one stands there.
fn character_len(bytes: &[u8]) -> Option<usize>
    ensures some { IfSome result (λ len. len ≡ character_len bytes.now) }
    ensures front { IfSome result (λ len. 0 < len) }
    ensures none { IfNone result (character_len bytes.now ≡ 0) }
{
    if is_character(front(bytes, 1)) {
        Some(1)
    } else if is_character(front(bytes, 2)) {
        Some(2)
    } else if is_character(front(bytes, 3)) {
        Some(3)
    } else if is_character(front(bytes, 6)) {
        Some(6)
    } else {
        None
    }
}

/// The first bytes, or all where fewer stand there.
fn front(bytes: &[u8], len: usize) -> &[u8]
    ensures { result.now ≡ take len bytes.now }
{
    let (front, _) = bytes.split_at(len.min(bytes.len()));
    front
}

/// Whether the bytes are one character.
fn is_character(bytes: &[u8]) -> bool
    ensures { result ≡ is_character bytes.now }
{
    match *bytes {
        [a] => a <= 0x7F,
        [a, x] => matches!(a, 0xC2..=0xDF) && goes_on(x),
        [a, x, y] => begins_three(a, x) && goes_on(y),
        [a, x, y, b, z, w] => {
            is_surrogate(0xA0, 0xAF, a, x, y) && is_surrogate(0xB0, 0xBF, b, z, w)
        }
        _ => false,
    }
}

/// Whether a byte is one that goes on a character.
pub(crate) fn goes_on(byte: u8) -> bool
    ensures { result ≡ goes_on byte }
{
    matches!(byte, 0x80..=0xBF)
}

/// Whether the first two of three bytes are neither an overlong form nor a surrogate.
fn begins_three(a: u8, x: u8) -> bool
    ensures { result ≡ begins_three a x }
{
    match a {
        0xE0 => matches!(x, 0xA0..=0xBF),
        0xE1..=0xEC | 0xEE..=0xEF => goes_on(x),
        0xED => matches!(x, 0x80..=0x9F),
        _ => false,
    }
}

/// Whether the three bytes are a surrogate whose second byte is from `low` to `high`.
pub(crate) fn is_surrogate(low: u8, high: u8, a: u8, x: u8, y: u8) -> bool
    ensures { result ≡ is_surrogate low high a x y }
{
    a == 0xED && low <= x && x <= high && goes_on(y)
}
