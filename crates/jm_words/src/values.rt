ghost use Rattle.std.specs.Prelude.{◌≡◌, ◌≤◌, ◌^◌, option_map};
ghost use Rattle.std.specs.Prelude.{All, IfNone, IfOk, IfSome, IsUtf8};
ghost use Rattle.std.specs.List.{before_first, list_all, list_any};
ghost use Rattle.jm_names.specs.Names.{is_empty};
ghost use Rattle.jm_words.specs.Roles.{is_equals, value_behind};
ghost use Rattle.jm_words.specs.Values.{decimal_from, folders_of};
ghost use Rattle.jm_words.specs.Values.{is_digit, is_numeral, names_of, number_of, order_of};
ghost use Rattle.jm_words.specs.Values.{path_of, patterns_of, unless_empty};
ghost use Rattle.jm_words.specs.Values.{without_slashes};

use jm_bytes::{List, NoMemory, Or, Order, Text};
use jm_names::to_modified;
use jm_pattern::{Pattern, read_list};
use std::alloc::Global;

/// A text, if it has a byte.
pub fn path_of(alloc: Global, text: &str) -> Result<Option<Text>, NoMemory>
    ensures path { IfOk result (λ path. path ≡ path_of text.now) }
    ensures text { IfOk result (λ path. IfSome path IsUtf8) }
{
    if text.is_empty() {
        Ok(None)
    } else {
        Ok(Some(Text::copy_of(alloc, text.as_bytes())?))
    }
}

/// A text without the slashes at its end.
pub fn without_slashes(text: &str) -> &str
    ensures { result.now ≡ without_slashes text.now }
{
    text.trim_end_matches('/')
}

/// The patterns of a comma list, if it is one.
pub fn patterns_of(alloc: Global, text: &str) -> Result<Option<List<Pattern>>, NoMemory>
    ensures { IfOk result (λ patterns. patterns ≡ patterns_of text.now) }
{
    let name = to_modified(alloc, text.as_bytes())?;
    match read_list(alloc, name.as_slice()) {
        Ok(patterns) => Ok(Some(patterns)),
        Err(Or::Fault(_)) => Ok(None),
        Err(Or::Memory) => Err(NoMemory),
    }
}

/// The folders between colons, without the slashes at their ends, if something is left of each.
pub fn folders_of(alloc: Global, text: &str) -> Result<Option<List<Text>>, NoMemory>
    ensures folders { IfOk result (λ folders. folders ≡ folders_of text.now) }
    ensures text { IfOk result (λ folders. IfSome folders (All IsUtf8)) }
{
    let mut folders = List::new(alloc);
    let mut rest = text;
    while let Some((part, behind)) = rest.split_once(':') {
        folders.push(Text::copy_of(alloc, without_slashes(part).as_bytes())?)?;
        rest = behind;
    }
    folders.push(Text::copy_of(alloc, without_slashes(rest).as_bytes())?)?;
    Ok(unless_empty(folders))
}

/// The names between commas, in Modified UTF-8, if each has a byte.
pub fn names_of(alloc: Global, text: &str) -> Result<Option<List<Text>>, NoMemory>
    ensures { IfOk result (λ names. names ≡ names_of text.now) }
{
    let mut names = List::new(alloc);
    let mut rest = text;
    while let Some((part, behind)) = rest.split_once(',') {
        names.push(to_modified(alloc, part.as_bytes())?)?;
        rest = behind;
    }
    names.push(to_modified(alloc, rest.as_bytes())?)?;
    Ok(unless_empty(names))
}

/// Some texts, if each of them has a byte.
fn unless_empty(texts: List<Text>) -> Option<List<Text>>
    ensures texts { result ≡ unless_empty texts }
    ensures same { IfSome result (λ some. some ≡ texts) }
{
    if are_some_empty(texts.as_slice()) {
        None
    } else {
        Some(texts)
    }
}

/// Whether one of the texts has no byte.
fn are_some_empty(texts: &[Text]) -> bool
    ensures { result ≡ list_any is_empty texts.now }
{
    texts.iter().any(|text| text.as_slice().is_empty())
}

/// What stands before the first `=` of a word, and what stands behind it, if it has one.
pub fn parted(word: &str) -> (&str, Option<&str>)
    ensures name { result.0.now ≡ before_first is_equals word.now }
    ensures value { option_map (λ value. value.now) result.1 ≡ value_behind word.now }
{
    match word.split_once('=') {
        Some((name, value)) => (name, Some(value)),
        None => (word, None),
    }
}

/// The order that a text names: `little` or `big`.
pub fn order_of(text: &[u8]) -> Option<Order>
    ensures { result ≡ order_of text.now }
{
    if text == b"little".as_slice() {
        Some(Order::Little)
    } else if text == b"big".as_slice() {
        Some(Order::Big)
    } else {
        None
    }
}

/// The number of a text, if it is one within the limits.
pub fn number_of(limits: (u64, u64), text: &[u8]) -> Option<u64>
    ensures number { result ≡ number_of limits text.now }
    ensures within { IfSome result (λ number. (limits.0 ≤ number) × (number ≤ limits.1)) }
{
    if !is_numeral(text) {
        return None;
    }
    let number = decimal(text)?;
    if limits.0 <= number && number <= limits.1 {
        Some(number)
    } else {
        None
    }
}

/// Whether a text is `0` alone, or digits of which the first is another.
fn is_numeral(text: &[u8]) -> bool
    ensures { result ≡ is_numeral text.now }
{
    match text.split_first() {
        Some((first, rest)) => {
            if *first == b'0' {
                rest.is_empty()
            } else {
                are_digits(text)
            }
        }
        None => false,
    }
}

/// Whether each byte is a digit.
fn are_digits(text: &[u8]) -> bool
    ensures { result ≡ list_all is_digit text.now }
{
    text.iter().all(|byte| is_digit(*byte))
}

/// Whether a byte is a digit.
fn is_digit(byte: u8) -> bool
    ensures { result ≡ is_digit byte }
{
    matches!(byte, b'0'..=b'9')
}

/// The number that digits write, if it has 64 bits.
#[tactic(auto, using(crate::proofs::ValueLaws::decimal_grows))]
fn decimal(text: &[u8]) -> Option<u64>
    ensures some { IfSome result (λ number. number ≡ decimal_from 0 text.now) }
    ensures none { IfNone result (2 ^ 64 ≤ decimal_from 0 text.now) }
{
    let mut number = 0u64;
    let mut rest = text;
    while let Some((byte, after)) = rest.split_first() {
        let digit = u64::from(byte.saturating_sub(b'0'));
        number = number.checked_mul(10)?.checked_add(digit)?;
        rest = after;
    }
    Some(number)
}
