//! Which classes take a list of packages.
ghost use Rattle.std.specs.Prelude.{◌≡◌, nat_le, length};
ghost use Rattle.std.specs.List.{list_all, list_any};
ghost use Rattle.jm_class.specs.Classes.{IsClass, utf8_at};
ghost use Rattle.jm_class.specs.Views.{plain};
ghost use Rattle.jm_modinfo.specs.Descriptors.{is_named};
ghost use Rattle.jm_packages.specs.Packages.{attribute_name, has_packages, has_room};
ghost use Rattle.jm_packages.specs.Packages.{takes_none, takes_packages};

use jm_bytes::Text;
use jm_class::{Attribute, Class, utf8};

/// Whether an attribute has the name of one that lists packages.
fn lists_packages(class: &Class, attribute: &Attribute) -> bool
    ensures { result
        ≡ is_named attribute_name (utf8_at (plain class.now).pool attribute.now.name) }
{
    match utf8(class, attribute.name) {
        Some(name) => name == b"ModulePackages".as_slice(),
        None => false,
    }
}

/// Whether one of some attributes has that name.
fn one_lists(class: &Class, attributes: &[Attribute]) -> bool
    ensures { result ≡ list_any
        (λ a. is_named attribute_name (utf8_at (plain class.now).pool a.name)) attributes.now }
{
    attributes
        .iter()
        .any(|attribute| lists_packages(class, attribute))
}

/// Whether a class has such an attribute.
fn has_packages(class: &Class) -> bool
    ensures { result ≡ has_packages (plain class.now) }
{
    one_lists(class, class.attributes.as_slice())
}

/// Whether a class takes no list, whatever the packages are.
pub fn takes_none(class: &Class) -> bool
    ensures { result ≡ takes_none (plain class.now) }
{
    class.access & 0x8000 == 0 || class.major < 53 || has_packages(class)
}

/// Whether each text fits in a Utf8.
fn fit_utf8(texts: &[Text]) -> bool
    ensures { result ≡ list_all (λ p. nat_le (length p) 65535) texts.now }
{
    texts.iter().all(|text| text.len() <= 65_535)
}

/// Whether there is room for the constants and for one attribute more.
fn has_room(class: &Class, packages: &[Text]) -> bool
    requires { IsClass (plain class.now) }
    ensures { result ≡ has_room packages.now (plain class.now) }
{
    packages.len() < 32_767
        && class.pool.len() + 1 + 2 * packages.len() <= 65_534
        && class.attributes.len() < 65_535
        && fit_utf8(packages)
}

/// Whether a class takes a list of these packages.
pub fn takes_packages(class: &Class, packages: &[Text]) -> bool
    requires { IsClass (plain class.now) }
    ensures { result ≡ takes_packages packages.now (plain class.now) }
{
    !takes_none(class) && has_room(class, packages)
}
