use jm_bytes::Or;

/// A part of a class that isn't of a form that is known.
#[derive(Clone, Copy)]
pub struct Unknown;

impl From<Unknown> for Or<Unknown> {
    ghost use Rattle.jm_bytes.specs.declared.faults.Or.TheVariants.{Fault};
    ghost use Rattle.std.specs.Prelude.{◌≡◌};

    ghost from_gives = { λ unknown e. e ≡ Fault unknown };

    fn from(unknown: Unknown) -> Or<Unknown> {
        Or::Fault(unknown)
    }
}

/// Where an attribute stands.
#[derive(Clone, Copy)]
pub enum Place {
    Class,
    Field,
    Method,
    Code,
}

/// A part of which the length is known.
#[derive(Clone, Copy)]
pub enum Item {
    /// That many bytes without a site.
    Bytes(u8),
    /// A site of two bytes.
    Site,
    /// A site of two bytes at which 0 may stand, which means none.
    OptionalSite,
    /// A site of one byte.
    ByteSite,
}

/// What the body of an attribute consists of.
#[derive(Clone, Copy)]
pub enum Content {
    /// Any bytes, without a site.
    Any,
    /// These items.
    Items(&'static [Item]),
    /// A count of one byte, and that many rows of these items.
    ShortRows(&'static [Item]),
    /// A count of two bytes, and that many rows of these items.
    Rows(&'static [Item]),
    /// A count of two bytes, and that many bootstrap methods.
    Methods,
    /// A count of two bytes, and that many frames.
    Frames,
    /// The parts of a Code.
    Code,
}

/// A part of a frame.
#[derive(Clone, Copy)]
pub enum FramePart {
    /// How far it is from the frame before, two bytes.
    Distance,
    /// A type.
    OneType,
    /// A count of two bytes, and that many types.
    Types,
}

/// What follows an opcode.
#[derive(Clone, Copy)]
pub enum Operands {
    /// These items.
    Items(&'static [Item]),
    /// Bytes up to a multiple of four, a default, the lowest and the highest case, and a word for
    /// each of them.
    Table,
    /// Bytes up to a multiple of four, a default, a count, and two words for each case.
    Lookup,
    /// An opcode again, with wide operands.
    Wide,
}
