//! Where the manifest of a JAR is.
ghost use Rattle.std.specs.Prelude.{◌≡◌, ◌<◌, IfSome, length};
ghost use Rattle.std.specs.List.{list_any};
ghost use Rattle.jm_archive.specs.Places.{is_manifest, is_of_versions, last_place, manifest_place};

use jm_bytes::Text;

/// The place of the entry with the manifest of a JAR, if it is asked for: where the names of the
/// entries, in the directory's order, have one below `META-INF/versions/`, the last that is
/// `META-INF/MANIFEST.MF` in any case of letters.
pub fn manifest_place(names: &[Text]) -> Option<usize>
    ensures place { result ≡ manifest_place names.now }
    ensures within { IfSome result (λ place. place < length names.now) }
{
    if has_versions(names) {
        last_manifest(names)
    } else {
        None
    }
}

/// Whether an entry stands below `META-INF/versions/`.
fn has_versions(names: &[Text]) -> bool
    ensures { result ≡ list_any is_of_versions names.now }
{
    names.iter().any(|name| is_of_versions(name.as_slice()))
}

/// Whether a name stands below `META-INF/versions/`, and isn't that of the folder itself.
fn is_of_versions(name: &[u8]) -> bool
    ensures { result ≡ is_of_versions name.now }
{
    name.starts_with(b"META-INF/versions/") && name.len() > 18
}

/// Whether a name is `META-INF/MANIFEST.MF` in any case of letters.
fn is_manifest(name: &[u8]) -> bool
    ensures { result ≡ is_manifest name.now }
{
    name.eq_ignore_ascii_case(b"meta-inf/manifest.mf")
}

/// The place of the last manifest.
fn last_manifest(names: &[Text]) -> Option<usize>
    ensures last { result ≡ last_place is_manifest 0 names.now }
    ensures within { IfSome result (λ place. place < length names.now) }
{
    let mut last = None;
    for (place, name) in names.iter().enumerate() {
        if is_manifest(name.as_slice()) {
            last = Some(place);
        }
    }
    last
}
