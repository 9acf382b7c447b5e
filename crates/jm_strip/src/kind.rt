ghost use Rattle.std.specs.Prelude.{◌≡◌};
ghost use Rattle.jm_class.specs.Views.{slot_of};
ghost use Rattle.jm_strip.specs.Kinds.{kind_of, is_text_kind, is_code_kind};
ghost use Rattle.jm_strip.specs.Kinds.{is_debug_kind};

use jm_class::Slot;

const UTF8: u8 = 1;

/// What a constant is, as far as the names of attributes go.
#[derive(Clone, Copy, PartialEq, Eq)]
pub enum AttributeKind {
    /// No Utf8.
    Other,
    /// A Utf8 that is none of the names below.
    Text,
    /// The name `Code`.
    Code,
    /// The name of debug information of a Code.
    OfCode,
    /// The name of debug information of a class.
    OfClass,
}

/// What a number of a pool is.
pub fn kind_of(slot: &Slot) -> AttributeKind
    ensures { result ≡ kind_of (slot_of slot.now) }
{
    let Slot::Constant { tag: UTF8, body } = slot else {
        return AttributeKind::Other;
    };
    let text = *body;
    if text == b"Code".as_slice() {
        AttributeKind::Code
    } else if text == b"LineNumberTable".as_slice()
        || text == b"LocalVariableTable".as_slice()
        || text == b"LocalVariableTypeTable".as_slice()
    {
        AttributeKind::OfCode
    } else if text == b"SourceFile".as_slice() || text == b"SourceDebugExtension".as_slice() {
        AttributeKind::OfClass
    } else {
        AttributeKind::Text
    }
}

impl AttributeKind {
    /// Whether it is a Utf8.
    pub fn is_text(self) -> bool
        ensures { result ≡ is_text_kind self }
    {
        match self {
            AttributeKind::Other => false,
            AttributeKind::Text
            | AttributeKind::Code
            | AttributeKind::OfCode
            | AttributeKind::OfClass => true,
        }
    }

    /// Whether it is the name `Code`.
    pub fn is_code(self) -> bool
        ensures { result ≡ is_code_kind self }
    {
        match self {
            AttributeKind::Code => true,
            AttributeKind::Other
            | AttributeKind::Text
            | AttributeKind::OfCode
            | AttributeKind::OfClass => false,
        }
    }

    /// Whether it is the name of debug information of a Code, or of a class.
    pub fn is_debug(self, in_code: bool) -> bool
        ensures { result ≡ is_debug_kind in_code self }
    {
        match self {
            AttributeKind::OfCode => in_code,
            AttributeKind::OfClass => !in_code,
            AttributeKind::Other | AttributeKind::Text | AttributeKind::Code => false,
        }
    }
}
