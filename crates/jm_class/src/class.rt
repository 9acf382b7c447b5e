ghost use Rattle.std.specs.Prelude.{Some};
ghost use Rattle.jm_class.specs.FaultText.{class_fault_text};

use jm_bytes::{List, Or};
use std::fmt;

/// A class file. Its opaque bytes are slices of the input.
#[derive(Debug, Drop)]
pub struct Class<'a> {
    /// The minor version.
    pub minor: u16,
    /// The major version, 45 to 69.
    pub major: u16,
    /// The constants: the item of place k is constant k + 1.
    pub pool: List<Slot<'a>>,
    /// The access flags.
    pub access: u16,
    /// The constant that names the class.
    pub this_class: u16,
    /// The constant that names the class above, or 0.
    pub super_class: u16,
    /// The constants that name the interfaces.
    pub interfaces: List<u16>,
    /// The fields.
    pub fields: List<Member<'a>>,
    /// The methods.
    pub methods: List<Member<'a>>,
    /// The attributes of the class itself.
    pub attributes: List<Attribute<'a>>,
}

/// A number of the constant pool.
#[derive(Clone, Copy, Debug)]
pub enum Slot<'a> {
    /// A constant: its tag and what stands after it, a Utf8 without its length.
    Constant { tag: u8, body: &'a [u8] },
    /// The second number that a Long or a Double takes.
    Hole,
}

/// A field or a method.
#[derive(Debug, Drop)]
pub struct Member<'a> {
    /// The access flags.
    pub access: u16,
    /// The constant of its name.
    pub name: u16,
    /// The constant of its descriptor.
    pub descriptor: u16,
    /// Its attributes.
    pub attributes: List<Attribute<'a>>,
}

/// An attribute of a class, a field or a method.
#[derive(Debug, Drop)]
pub struct Attribute<'a> {
    /// The constant of its name, a Utf8.
    pub name: u16,
    /// What it holds.
    pub body: Body<'a>,
}

/// What an attribute holds.
#[derive(Debug, Drop)]
pub enum Body<'a> {
    /// Bytes as they are.
    Plain(&'a [u8]),
    /// The code of a method: exactly in its attributes that are named `Code`.
    Code(Code<'a>),
}

/// The code of a method.
#[derive(Debug, Drop)]
pub struct Code<'a> {
    /// The depth of the operand stack.
    pub max_stack: u16,
    /// The number of local variables.
    pub max_locals: u16,
    /// The instructions.
    pub code: &'a [u8],
    /// The handlers of exceptions, 8 bytes each.
    pub handlers: &'a [u8],
    /// Its attributes.
    pub attributes: List<Plain<'a>>,
}

/// An attribute of a Code.
#[derive(Clone, Copy, Debug)]
pub struct Plain<'a> {
    /// The constant of its name, a Utf8.
    pub name: u16,
    /// Its bytes as they are.
    pub bytes: &'a [u8],
}

/// The first thing from left to right that keeps bytes from being a class. Places are in bytes from
/// the front of the file.
#[derive(Clone, Copy, Debug, PartialEq, Eq)]
pub enum ClassFault {
    /// The first four bytes aren't the magic.
    Magic,
    /// The major version is below 45, or above that of the release.
    Version(u16),
    /// The field or body that begins here doesn't fit in the file.
    Short(usize),
    /// The tag here is none of a constant.
    Tag(usize),
    /// The count of constants here is 0, the Long or Double here has no second number, or the name
    /// index of the attribute here isn't a Utf8.
    Index(usize),
    /// A part of the Code whose length field is here doesn't fit in it, or bytes of it are left.
    CodeLength(usize),
    /// Bytes follow the class, from here on.
    Rest(usize),
}

impl From<ClassFault> for Or<ClassFault> {
    ghost use Rattle.jm_bytes.specs.declared.faults.Or.TheVariants.{Fault};
    ghost use Rattle.std.specs.Prelude.{◌≡◌};

    ghost from_gives = { λ fault e. e ≡ Fault fault };

    fn from(fault: ClassFault) -> Or<ClassFault> {
        Or::Fault(fault)
    }
}

/// The fault's name, and its number after a space, as `Short 22`.
impl fmt::Display for ClassFault {
    ghost output = { λ f. Some (class_fault_text f) };

    fn fmt<W: fmt::Write>(&self, f: &mut fmt::Formatter<W>) -> fmt::Result {
        match *self {
            ClassFault::Magic => write!(f, "Magic"),
            ClassFault::Version(major) => write!(f, "Version {major}"),
            ClassFault::Short(at) => write!(f, "Short {at}"),
            ClassFault::Tag(at) => write!(f, "Tag {at}"),
            ClassFault::Index(at) => write!(f, "Index {at}"),
            ClassFault::CodeLength(at) => write!(f, "CodeLength {at}"),
            ClassFault::Rest(at) => write!(f, "Rest {at}"),
        }
    }
}
