//! What the manifest of a JAR says of its releases.
ghost use Rattle.std.specs.Prelude.{◌≡◌, ◌∷◌, [], ◌<◌, false, length, IfSome, IfNone};
ghost use Rattle.std.specs.List.{list_any};
ghost use Rattle.jm_archive.specs.Manifest.{after_end, is_continued, is_end, is_named, is_true};
ghost use Rattle.jm_archive.specs.Manifest.{line_of, lines, main_lines, says_multi_release};

use memchr::memchr2;

/// The first line of a text, and what stands behind its end.
#[derive(Clone, Copy, Debug)]
struct FirstLine<'a> {
    text: &'a [u8],
    /// Whether CR LF, LF or CR stands behind it.
    is_ended: bool,
    rest: &'a [u8],
}

/// Whether a manifest says that its JAR is multi-release (JAR File Specification and JEP 238): in
/// the main section, the last line that begins with `Multi-Release:` is `Multi-Release: true`, both
/// in any case of letters, a line end stands behind it, and no line that continues it holds more
/// than its space.
pub fn says_multi_release(manifest: &[u8]) -> bool
    ensures { result ≡ says_multi_release manifest.now }
{
    let mut says = false;
    let mut rest = manifest;
    while let Some(line) = first_main_line(rest) {
        if is_named(line.text) {
            says = is_true(&line) && !is_continued(line.rest);
        }
        rest = line.rest;
    }
    says
}

/// The first line, if it is one of the main section, as no empty one is.
#[tactic(auto, using(crate::proofs::ManifestLaws::main_on, crate::proofs::ManifestLaws::main_end))]
fn first_main_line(bytes: &[u8]) -> Option<FirstLine<'_>>
    ensures some { IfSome result
        (λ line. main_lines bytes.now ≡ line_of line ∷ main_lines line.rest.now) }
    ensures shorter { IfSome result (λ line. length line.rest.now < length bytes.now) }
    ensures none { IfNone result (main_lines bytes.now ≡ []) }
{
    let line = first_line(bytes)?;
    if line.text.is_empty() {
        None
    } else {
        Some(line)
    }
}

/// The first line, if there is one.
fn first_line(bytes: &[u8]) -> Option<FirstLine<'_>>
    ensures some { IfSome result (λ line. lines bytes.now ≡ line_of line ∷ lines line.rest.now) }
    ensures shorter { IfSome result (λ line. length line.rest.now < length bytes.now) }
    ensures none { IfNone result (lines bytes.now ≡ []) }
{
    match memchr2(b'\n', b'\r', bytes) {
        Some(at) => {
            let (text, from_end) = bytes.split_at(at);
            Some(FirstLine {
                text,
                is_ended: true,
                rest: after_end(from_end),
            })
        }
        None => unended(bytes),
    }
}

/// What stands behind the line end at the front of a text.
fn after_end(bytes: &[u8]) -> &[u8]
    requires { 0 < length bytes.now }
    ensures rest { result.now ≡ after_end bytes.now }
    ensures shorter { length result.now < length bytes.now }
{
    let (_, rest) = bytes.split_at(if bytes.starts_with(b"\r\n") { 2 } else { 1 });
    rest
}

/// A text as a line that nothing ends, if it has a byte.
fn unended(text: &[u8]) -> Option<FirstLine<'_>>
    requires { list_any is_end text.now ≡ false }
    ensures some { IfSome result (λ line. lines text.now ≡ line_of line ∷ lines line.rest.now) }
    ensures shorter { IfSome result (λ line. length line.rest.now < length text.now) }
    ensures none { IfNone result (lines text.now ≡ []) }
{
    if text.is_empty() {
        return None;
    }
    Some(FirstLine {
        text,
        is_ended: false,
        rest: &[],
    })
}

/// Whether a line begins with `Multi-Release:`, in any case of letters.
fn is_named(text: &[u8]) -> bool
    ensures { result ≡ is_named text.now }
{
    if text.len() < 14 {
        return false;
    }
    let (front, _) = text.split_at(14);
    front.eq_ignore_ascii_case(b"multi-release:")
}

/// Whether a line is `Multi-Release: true`, in any case of letters, and ended.
fn is_true(line: &FirstLine<'_>) -> bool
    ensures { result ≡ is_true (line_of line.now) }
{
    line.is_ended && line.text.eq_ignore_ascii_case(b"multi-release: true")
}

/// Whether lines that continue the one before them hold more than their space.
fn is_continued(bytes: &[u8]) -> bool
    ensures { result ≡ is_continued (main_lines bytes.now) }
{
    let mut rest = bytes;
    while let Some(line) = first_main_line(rest) {
        if !line.text.starts_with(b" ") {
            return false;
        }
        if line.text.len() > 1 {
            return true;
        }
        rest = line.rest;
    }
    false
}
