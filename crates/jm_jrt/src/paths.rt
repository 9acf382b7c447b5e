ghost use Rattle.std.specs.Prelude.{◌≡◌, ◌≤◌, IfSome, length, option_map};
ghost use Rattle.jm_jrt.specs.Stat as answers;

use jm_names::cut_at_last;
use memchr::memchr;

/// The path is that of a node, if one is there, whose content tells children: `/modules`,
/// `/packages`, or what begins with `/modules/`.
pub fn has_children(path: &[u8]) -> bool
    ensures { result ≡ answers.has_children path.now }
{
    path == b"/modules".as_slice()
        || path == b"/packages".as_slice()
        || path.starts_with(b"/modules/")
}

/// The path is `/packages/p` with no slash in p.
pub fn is_package(path: &[u8]) -> bool
    ensures { result ≡ answers.is_package path.now }
{
    if !path.starts_with(b"/packages/") {
        return false;
    }
    let (_, name) = path.split_at(10);
    memchr(b'/', name).is_none()
}

/// The path of the node whose content says what stands at a path, if there is one.
pub fn node_path(path: &[u8]) -> Option<&[u8]>
    ensures path { option_map (λ node. node.now) result ≡ answers.node_path path.now }
    ensures within { IfSome result (λ node. length node.now ≤ length path.now) }
{
    if has_children(path) || is_package(path) {
        return Some(path);
    }
    let (package, _) = cut_at_last(b'/', path)?;
    if is_package(package) {
        Some(package)
    } else {
        None
    }
}
