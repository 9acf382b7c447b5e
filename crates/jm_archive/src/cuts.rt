//! The path of a file, and its version, out of the name of an entry.
ghost use Rattle.std.specs.Prelude.{◌≡◌, ◌≢◌, ◌<◌, ◌^◌, ℕ, true, length, option_map};
ghost use Rattle.std.specs.Prelude.{IfSome, IfNone};
ghost use Rattle.std.specs.Fmt.{decimal};
ghost use Rattle.jm_archive.specs.Cuts.{behind, candidate_of, cut_of, leads, plain, version_cut};
ghost use Rattle.jm_archive.specs.Cuts.{version_of};

use crate::kinds::ArchiveKind;
use jm_names::cut_at_first;
use std::str;

/// The path of a file that the entry at a place may be, and the version of it, which is 0 where the
/// path has none.
#[derive(Clone, Copy, Debug)]
pub struct Cut<'a> {
    pub path: &'a [u8],
    pub version: u32,
    pub place: usize,
}

/// The cut of the name of the entry at a place, if it can be a file's.
pub fn cut_of(kind: ArchiveKind, place: usize, name: &[u8]) -> Option<Cut<'_>>
    ensures { option_map candidate_of result ≡ cut_of kind place name.now }
{
    if name.ends_with(b"/") {
        return None;
    }
    match kind {
        ArchiveKind::Jmod => Some(plain(place, behind(b"classes/", name)?)),
        ArchiveKind::Jar => Some(plain(place, name)),
        ArchiveKind::MultiRelease(release) => match behind(b"META-INF/versions/", name) {
            Some(rest) => version_cut(place, release, rest),
            None => Some(plain(place, name)),
        },
    }
}

/// The cut of a path without a version.
fn plain(place: usize, path: &[u8]) -> Cut<'_>
    ensures { candidate_of result ≡ plain place path.now }
{
    Cut {
        path,
        version: 0,
        place,
    }
}

/// What stands behind a front.
fn behind<'a>(front: &[u8], name: &'a [u8]) -> Option<&'a [u8]>
    ensures { option_map (λ rest. rest.now) result ≡ behind front.now name.now }
{
    if !name.starts_with(front) {
        return None;
    }
    let (_, rest) = name.split_at(front.len());
    Some(rest)
}

/// The cut of what stands below `META-INF/versions/`: a version for the release, a slash, and a
/// path that isn't below `META-INF/`.
fn version_cut(place: usize, release: u32, rest: &[u8]) -> Option<Cut<'_>>
    ensures { option_map candidate_of result ≡ version_cut place release rest.now }
{
    let (digits, path) = cut_at_first(b'/', rest)?;
    if path.starts_with(b"META-INF/") {
        return None;
    }
    let version = version_of(release, digits)?;
    Some(Cut {
        path,
        version,
        place,
    })
}

/// The version whose digits these are, of those for a release.
fn version_of(release: u32, digits: &[u8]) -> Option<u32>
    ensures { result ≡ version_of release digits.now }
{
    let version = numeral(digits)?;
    if 9 <= version && version <= release {
        Some(version)
    } else {
        None
    }
}

/// The number above 0 whose digits these are, without a zero in front.
fn numeral(digits: &[u8]) -> Option<u32>
    ensures some { IfSome result (λ n. decimal n ≡ digits.now) }
    ensures fits { IfSome result (λ n. n < 2 ^ 32) }
    ensures none { IfNone result ((n : ℕ) → 0 < n → n < 2 ^ 32 → decimal n ≢ digits.now) }
{
    if !leads(digits) {
        return None;
    }
    match str::from_utf8(digits) {
        Ok(text) => parsed(text),
        Err(_) => None,
    }
}

/// Whether a digit but zero stands first.
fn leads(digits: &[u8]) -> bool
    ensures { result ≡ leads digits.now }
{
    match digits.first() {
        Some(first) => b'1' <= *first && *first <= b'9',
        None => false,
    }
}

/// The number whose digits a text is, with no zero in front.
fn parsed(text: &str) -> Option<u32>
    requires { leads text.now ≡ true }
    ensures some { IfSome result (λ n. decimal n ≡ text.now) }
    ensures fits { IfSome result (λ n. n < 2 ^ 32) }
    ensures none { IfNone result ((n : ℕ) → 0 < n → n < 2 ^ 32 → decimal n ≢ text.now) }
{
    text.parse::<u32>().ok()
}
