ghost use Rattle.std.specs.Prelude.{◌≡◌};
ghost use Rattle.jm_names.specs.Names.{is_node};

/// Whether a name is one of the two trees' nodes (JEP 220): `/modules`, `/packages`, and what
/// begins with one of these and a slash. It looks at the bytes as an image stores them.
pub fn is_node(name: &[u8]) -> bool
    ensures { result ≡ is_node name.now }
{
    name == b"/modules".as_slice()
        || name == b"/packages".as_slice()
        || name.starts_with(b"/modules/")
        || name.starts_with(b"/packages/")
}
