ghost use Rattle.std.specs.Prelude.{◌≡◌, ◌≤◌, ◌<◌, ◌++◌, length, IfOk, IfSome, IfNone};
ghost use Rattle.std.specs.Str.{IsUtf8};
ghost use Rattle.jm_names.specs.Characters.{IsText};
ghost use Rattle.jm_names.specs.UtfForms.{is_four, four_number, four_bytes, pair_number};
ghost use Rattle.jm_names.specs.UtfForms.{pair_bytes, modified, utf, Rewritten, FirstStays};

use crate::characters::{goes_on, is_surrogate};
use jm_bytes::{NoMemory, Text};
use std::alloc::Global;

/// A text of UTF-8 as a name of Modified UTF-8: each character of four bytes becomes its two
/// surrogates of three bytes each, and every other byte stays.
pub fn to_modified(alloc: Global, text: &[u8]) -> Result<Text, NoMemory>
    ensures modified { IfOk result (λ name. name ≡ modified text.now) }
    ensures rule { IfOk result (λ name. Rewritten four_bytes pair_bytes text.now name) }
    ensures read_back { IfOk result (λ name. IsUtf8 text.now → utf name ≡ text.now) }
{
    let mut name = Text::new(alloc);
    let mut rest = text;
    while let Some((first, after)) = rest.split_first() {
        match four_in_front(rest) {
            Some((number, behind)) => {
                name.extend(&pair_bytes(number))?;
                rest = behind;
            }
            None => {
                name.push(*first)?;
                rest = after;
            }
        }
    }
    Ok(name)
}

/// A name of Modified UTF-8 as a text of UTF-8: each pair of surrogates becomes its character of
/// four bytes, and every other byte stays.
pub fn to_utf8(alloc: Global, name: &[u8]) -> Result<Text, NoMemory>
    ensures utf { IfOk result (λ text. text ≡ utf name.now) }
    ensures rule { IfOk result (λ text. Rewritten pair_bytes four_bytes name.now text) }
    ensures read_back { IfOk result (λ text. IsText name.now → modified text ≡ name.now) }
{
    let mut text = Text::new(alloc);
    let mut rest = name;
    while let Some((first, after)) = rest.split_first() {
        match pair_in_front(rest) {
            Some((number, behind)) => {
                text.extend(&four_bytes(number))?;
                rest = behind;
            }
            None => {
                text.push(*first)?;
                rest = after;
            }
        }
    }
    Ok(text)
}

/// The number of the character of four bytes in front, and what follows it.
fn four_in_front(bytes: &[u8]) -> Option<(u32, &[u8])>
    ensures some { IfSome result
        (λ front. modified bytes.now ≡ pair_bytes front.0 ++ modified front.1.now) }
    ensures range { IfSome result (λ front. (0x10000 ≤ front.0) × (front.0 < 0x110000)) }
    ensures shorter { IfSome result (λ front. length front.1.now < length bytes.now) }
    ensures none { IfNone result (FirstStays modified bytes.now) }
{
    match bytes {
        [a, x, y, z, behind @ ..] if is_four(*a, *x, *y, *z) => {
            Some((four_number(*a, *x, *y, *z), behind))
        }
        _ => None,
    }
}

/// The number of the character whose pair of surrogates stands in front, and what follows it.
#[tactic(auto, using(crate::proofs::UtfSteps::utf_short, crate::proofs::UtfSteps::utf_stays))]
fn pair_in_front(bytes: &[u8]) -> Option<(u32, &[u8])>
    ensures some { IfSome result
        (λ front. utf bytes.now ≡ four_bytes front.0 ++ utf front.1.now) }
    ensures range { IfSome result (λ front. front.0 < 0x110000) }
    ensures shorter { IfSome result (λ front. length front.1.now < length bytes.now) }
    ensures none { IfNone result (FirstStays utf bytes.now) }
{
    let [a, x, y, b, z, w, behind @ ..] = bytes else {
        return None;
    };
    if is_surrogate(0xA0, 0xAF, *a, *x, *y) && is_surrogate(0xB0, 0xBF, *b, *z, *w) {
        Some((pair_number(*x, *y, *z, *w), behind))
    } else {
        None
    }
}

/// Whether the four bytes are one character.
fn is_four(a: u8, x: u8, y: u8, z: u8) -> bool
    ensures { result ≡ is_four a x y z }
{
    let begins = match a {
        0xF0 => matches!(x, 0x90..=0xBF),
        0xF1..=0xF3 => goes_on(x),
        0xF4 => matches!(x, 0x80..=0x8F),
        _ => false,
    };
    begins && goes_on(y) && goes_on(z)
}

/// The number of a character of four bytes.
fn four_number(a: u8, x: u8, y: u8, z: u8) -> u32
    ensures { result ≡ four_number a x y z }
{
    u32::from(a % 8) * 0x40000
        + u32::from(x % 64) * 0x1000
        + u32::from(y % 64) * 64
        + u32::from(z % 64)
}

/// The number of the character that a pair of surrogates stands for.
fn pair_number(x: u8, y: u8, z: u8, w: u8) -> u32
    ensures { result ≡ pair_number x y z w }
{
    let above = u32::from(x % 16) * 0x10000
        + u32::from(y % 64) * 0x400
        + u32::from(z % 16) * 64
        + u32::from(w % 64);
    0x10000 + above
}

/// The four bytes of a character.
fn four_bytes(number: u32) -> [u8; 4]
    requires { number < 0x110000 }
    ensures { result ≡ four_bytes number }
{
    [
        (0xF0 + number / 0x40000) as u8,
        (0x80 + number / 0x1000 % 64) as u8,
        (0x80 + number / 64 % 64) as u8,
        (0x80 + number % 64) as u8,
    ]
}

/// The pair of surrogates of a character.
fn pair_bytes(number: u32) -> [u8; 6]
    requires above { 0x10000 ≤ number }
    requires below { number < 0x110000 }
    ensures { result ≡ pair_bytes number }
{
    let above = number - 0x10000;
    [
        0xED,
        (0xA0 + above / 0x10000) as u8,
        (0x80 + above / 0x400 % 64) as u8,
        0xED,
        (0xB0 + above / 64 % 16) as u8,
        (0x80 + above % 64) as u8,
    ]
}
