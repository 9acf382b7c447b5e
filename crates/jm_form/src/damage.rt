ghost use Rattle.std.specs.Prelude.{Some};
ghost use Rattle.jm_form.specs.DamageText.{damage_text};

use crate::container::HeaderFault;
use std::fmt;

/// What is wrong with the bytes of an image; a slot's damage stands before those of later slots,
/// and `Count` and `Overlap` come last.
#[derive(Clone, Copy, Debug, PartialEq, Eq)]
pub enum Damage {
    /// There is no header.
    Header(HeaderFault),
    /// The offset word of this slot isn't below the length of the locations.
    Offset(u32),
    /// No row is spelled at the offset of this slot.
    Row(u32),
    /// The content of this slot is compressed.
    Compressed(u32),
    /// A text of this slot, the module (1), parent (2), base (3) or extension (4), has no place in
    /// the strings or doesn't end there.
    Text {
        /// The number of the slot, from 0.
        slot: u32,
        /// The kind of the attribute, from 1 to 4.
        kind: u8,
    },
    /// The content of this slot reaches past the end of the file.
    Range(u32),
    /// The header's count is not the number of entries.
    Count {
        /// The header's count.
        stated: u32,
        /// The number of slots that their own name reaches.
        found: u32,
    },
    /// The contents of two entries have a byte in common.
    Overlap {
        /// The least slot whose content overlaps that of another entry.
        first: u32,
        /// The least slot of another entry whose content overlaps that of `first`.
        second: u32,
    },
}

/// The kind and its numbers, as `Text 3 1`.
impl fmt::Display for Damage {
    ghost output = { λ d. Some (damage_text d) };

    fn fmt<W: fmt::Write>(&self, f: &mut fmt::Formatter<W>) -> fmt::Result {
        match *self {
            Damage::Header(fault) => write!(f, "Header {fault}"),
            Damage::Offset(slot) => write!(f, "Offset {slot}"),
            Damage::Row(slot) => write!(f, "Row {slot}"),
            Damage::Compressed(slot) => write!(f, "Compressed {slot}"),
            Damage::Text { slot, kind } => write!(f, "Text {slot} {kind}"),
            Damage::Range(slot) => write!(f, "Range {slot}"),
            Damage::Count { stated, found } => write!(f, "Count {stated} {found}"),
            Damage::Overlap { first, second } => write!(f, "Overlap {first} {second}"),
        }
    }
}
