ghost use Rattle.std.specs.Prelude.{◌≡◌, option_and_then, IfSome};
ghost use Rattle.std.specs.List.{list_all};
ghost use Rattle.jm_class.specs.Classes.{utf8_at};
ghost use Rattle.jm_class.specs.Views.{plain};
ghost use Rattle.jm_modinfo.specs.Descriptors.{IsNumber};
ghost use Rattle.jm_modinfo.specs.Constants.{number_in, tag_of, named_at, is_legal_byte};
ghost use Rattle.jm_modinfo.specs.Constants.{is_legal};

use jm_class::{Class, Slot};

/// A kind of constant that stands for a text.
#[derive(Clone, Copy)]
pub enum Kind {
    /// The name of a class, with slashes between its parts.
    Class,
    /// The name of a module.
    Module,
    /// The name of a package, with slashes between its parts.
    Package,
}

impl Kind {
    /// The tag of the constants of this kind.
    pub fn tag(self) -> u8
        ensures { result ≡ tag_of self }
    {
        match self {
            Kind::Class => 7,
            Kind::Module => 19,
            Kind::Package => 20,
        }
    }
}

/// The number in two bytes, the highest first; none where there are more or fewer.
pub fn number_in(bytes: &[u8]) -> Option<u16>
    ensures number { result ≡ number_in bytes.now }
    ensures bytes { IfSome result (λ n. IsNumber n bytes.now) }
{
    let (number, rest) = bytes.split_first_chunk::<2>()?;
    if rest.is_empty() {
        Some(u16::from_be_bytes(*number))
    } else {
        None
    }
}

/// The number of the Utf8 that the constant of a number holds; none where it isn't of this kind.
pub fn utf8_number(class: &Class, kind: Kind, index: u16) -> Option<u16>
    ensures { option_and_then (utf8_at (plain class.now).pool) result
        ≡ named_at (plain class.now).pool kind index }
{
    let place = usize::from(index).checked_sub(1)?;
    match class.pool.as_slice().get(place)? {
        Slot::Constant { tag, body } => {
            if *tag == kind.tag() {
                number_in(body)
            } else {
                None
            }
        }
        Slot::Hole => None,
    }
}

/// Whether a byte may stand in the name of a module.
fn is_legal_byte(byte: u8) -> bool
    ensures { result ≡ is_legal_byte byte }
{
    0x20 <= byte && !matches!(byte, b'/' | b'\\' | b':' | b'@' | b',')
}

/// Whether each byte may stand in the name of a module.
fn has_legal_bytes(name: &[u8]) -> bool
    ensures { result ≡ list_all is_legal_byte name.now }
{
    name.iter().all(|byte| is_legal_byte(*byte))
}

/// Whether a text is legal as the name of a module. Which names are is this project's rule.
pub fn is_legal(name: &[u8]) -> bool
    ensures { result ≡ is_legal name.now }
{
    !name.is_empty() && has_legal_bytes(name)
}
