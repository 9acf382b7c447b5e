ghost use Rattle.std.specs.Prelude.{◌≡◌, ◌==◌, OnOk, IfErr, drop};
ghost use Rattle.std.specs.Result.{result_err};
ghost use Rattle.std.specs.List.{list_any};
ghost use Rattle.jm_names.specs.Names.{is_empty};
ghost use Rattle.jm_names.specs.NameFaults.{HasFault, IsSound, has_module, is_dots, parts};
ghost use Rattle.jm_names.specs.ComputedFault.{name_fault};

use crate::characters::text_len;
use memchr::memchr;

/// How many bytes a name may have.
const MOST_BYTES: usize = 4096;

/// What is wrong with a name. The order is that of the checks: a name has the first fault of those
/// that hold (this project's rule).
#[derive(Clone, Copy, Debug, PartialEq, Eq)]
pub enum NameFault {
    /// It doesn't begin with a slash, or has no second one.
    Empty,
    /// A part, which is what stands between the slashes after the leading one, is empty.
    EmptyPart,
    /// A part is `.` or `..`.
    Dots,
    /// A byte is 0.
    Zero,
    /// It has more than 4,096 bytes.
    TooLong,
    /// It isn't Modified UTF-8 (JVMS 4). The number is the length in bytes of its longest front
    /// that is.
    NotText(usize),
}

/// Checks that a name may stand in an image. An error is the first fault of the name.
pub fn check_name(name: &[u8]) -> Result<(), NameFault>
    ensures fault { result_err result ≡ name_fault name.now }
    ensures ok { OnOk result (IsSound name.now) }
    ensures err { IfErr result (λ fault. HasFault name.now fault) }
{
    match name_fault(name) {
        Some(fault) => Err(fault),
        None => Ok(()),
    }
}

/// The first fault of a name, or none.
fn name_fault(name: &[u8]) -> Option<NameFault>
    ensures { result ≡ name_fault name.now }
{
    if !has_module(name) {
        return Some(NameFault::Empty);
    }
    if has_empty_part(name) {
        return Some(NameFault::EmptyPart);
    }
    if has_dots(name) {
        return Some(NameFault::Dots);
    }
    if has_byte(0, name) {
        return Some(NameFault::Zero);
    }
    if name.len() > MOST_BYTES {
        return Some(NameFault::TooLong);
    }
    let at = text_len(name);
    if at < name.len() {
        return Some(NameFault::NotText(at));
    }
    None
}

/// Whether the name begins with a slash and has a second one.
fn has_module(name: &[u8]) -> bool
    ensures { result ≡ has_module name.now }
{
    match name.split_first() {
        Some((first, rest)) => *first == b'/' && has_byte(b'/', rest),
        None => false,
    }
}

/// Whether a byte of the text is this one.
fn has_byte(byte: u8, text: &[u8]) -> bool
    ensures { result ≡ list_any (λ x. x == byte) text.now }
{
    memchr(byte, text).is_some()
}

/// Whether a part of the name is empty.
fn has_empty_part(name: &[u8]) -> bool
    ensures { result ≡ list_any is_empty (parts name.now) }
{
    without_first(name)
        .split(|b| *b == b'/')
        .any(|part| part.is_empty())
}

/// Whether a part of the name is `.` or `..`.
fn has_dots(name: &[u8]) -> bool
    ensures { result ≡ list_any is_dots (parts name.now) }
{
    without_first(name)
        .split(|b| *b == b'/')
        .any(|part| is_dots(part))
}

/// Whether the part is `.` or `..`.
fn is_dots(part: &[u8]) -> bool
    ensures { result ≡ is_dots part.now }
{
    part == b".".as_slice() || part == b"..".as_slice()
}

/// The name without its first byte.
fn without_first(name: &[u8]) -> &[u8]
    ensures { result.now ≡ drop 1 name.now }
{
    match name.split_first() {
        Some((_, rest)) => rest,
        None => &[],
    }
}
