//! Names of packages.
ghost use Rattle.std.specs.Prelude.{◌≡◌};
ghost use Rattle.std.specs.List.{list_all, list_any};
ghost use Rattle.std.specs.Str.{bytes_eq};
ghost use Rattle.jm_packages.specs.PackageNames.{begins_with_digit, is_identifier};
ghost use Rattle.jm_packages.specs.PackageNames.{is_identifier_byte, is_package_name, java_words};

use jm_names::cut_at_first;

/// The words that Java keeps, with spaces between.
const JAVA_WORDS: &[u8] = b"\
abstract assert boolean break byte case catch char class const continue default do \
double else enum extends final finally float for goto if implements import \
instanceof int interface long native new package private protected public return \
short static strictfp super switch synchronized this throw throws transient try \
void volatile while true false null _";

/// Whether a text is a word that Java keeps.
fn is_java_word(text: &[u8]) -> bool
    ensures { result ≡ list_any (λ word. bytes_eq text.now word) java_words }
{
    let mut rest = JAVA_WORDS;
    while let Some((word, behind)) = cut_at_first(b' ', rest) {
        if text == word {
            return true;
        }
        rest = behind;
    }
    text == rest
}

/// Whether a byte may stand in an identifier.
fn is_identifier_byte(byte: u8) -> bool
    ensures { result ≡ is_identifier_byte byte }
{
    byte.is_ascii_alphanumeric() || byte == b'_' || byte == b'$' || 0x80 <= byte
}

/// Whether all bytes of a text may stand in an identifier.
fn has_identifier_bytes(text: &[u8]) -> bool
    ensures { result ≡ list_all is_identifier_byte text.now }
{
    text.iter().all(|byte| is_identifier_byte(*byte))
}

/// Whether a text begins with a digit.
fn begins_with_digit(text: &[u8]) -> bool
    ensures { result ≡ begins_with_digit text.now }
{
    match text.split_first() {
        Some((first, _)) => first.is_ascii_digit(),
        None => false,
    }
}

/// Whether a text is an identifier of Java.
fn is_identifier(text: &[u8]) -> bool
    ensures { result ≡ is_identifier text.now }
{
    !text.is_empty()
        && has_identifier_bytes(text)
        && !begins_with_digit(text)
        && !is_java_word(text)
}

/// Whether a text is the name of a package: its parts, with dots between, are identifiers.
pub fn is_package_name(name: &[u8]) -> bool
    ensures { result ≡ is_package_name name.now }
{
    let mut rest = name;
    while let Some((part, behind)) = cut_at_first(b'.', rest) {
        if !is_identifier(part) {
            return false;
        }
        rest = behind;
    }
    is_identifier(rest)
}
