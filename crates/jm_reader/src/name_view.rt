ghost use Rattle.std.specs.Prelude.{◌≡◌, ◌≢◌, ◌++◌, ◌+◌, ◌<◌, ◌^◌, ℕ, List, length, IfOk, IsTrue};
ghost use Rattle.std.specs.Prelude.{IsFalse, ◌↔◌, nat_eq};
ghost use Rattle.std.specs.Cmp.Lexicographic.{slice_cmp};
ghost use Rattle.std.specs.List.{starts_with};
ghost use Rattle.std.specs.Ordering.{nat_cmp};
ghost use Rattle.jm_bytes.specs.ByteOrder.{is_before};
ghost use Rattle.jm_names.specs.Names.{is_node, join};
ghost use Rattle.jm_names.specs.Pieces.{cut_of};
ghost use Rattle.jm_form.specs.Entries.{ShortPieces};
ghost use Rattle.jm_reader.specs.Views.{marked_length};

use crate::name_bytes::NameBytes;
use crate::order::order;
use jm_bytes::{NoMemory, Text};
use jm_names::Pieces;
use std::alloc::Global;
use std::cmp::Ordering;
use std::marker::Model;

/// The name of an entry, `/module/parent/base.ext` without the marks of the pieces that are empty.
/// It borrows its four pieces from the image.
#[derive(Debug, Drop)]
pub struct NameView<'a> {
    pieces: Pieces<'a>,
}

impl<'a> Model for NameView<'a> {
    ghost use Rattle.std.specs.Prelude.{List, ℕ};
    ghost use Rattle.jm_form.specs.Entries.{ShortPieces};
    ghost use Rattle.jm_names.specs.Names.{join};
    ghost use Rattle.jm_names.specs.Pieces.{cut_of};

    ghost Value = { List ℕ };

    ghost view = { λ a. join (cut_of a.pieces) };

    ghost invariant = { λ a. ShortPieces (cut_of a.pieces) };
}

/// How many bytes a piece takes in a name, with so many marks around it; none where it is empty.
fn marked_length(piece: &[u8], marks: usize) -> usize
    requires { length piece.now + marks < 2 ^ 64 }
    ensures { result ≡ marked_length piece.now marks }
{
    if piece.is_empty() {
        0
    } else {
        piece.len() + marks
    }
}

/// Takes the bytes of `front` from some bytes; false where they don't begin with it, and then some
/// of them are taken.
fn takes_front(bytes: &mut NameBytes, front: &[u8]) -> bool
    ensures yes { IsTrue result → bytes.old ≡ front.now ++ bytes.new }
    ensures no { IsFalse result → (rest : List ℕ) → bytes.old ≢ front.now ++ rest }
{
    for byte in front {
        if bytes.next() != Some(*byte) {
            return false;
        }
    }
    true
}

impl<'a> NameView<'a> {
    /// The name that the pieces make, each of which has fewer than 2^32 bytes.
    pub fn of(pieces: &Pieces<'a>) -> NameView<'a>
        requires { ShortPieces (cut_of pieces.now) }
        ensures { result ≡ join (cut_of pieces.now) }
    {
        NameView { pieces: *pieces }
    }

    /// How many bytes it has.
    pub fn len(&self) -> usize
        ensures { result ≡ length self.now }
    {
        marked_length(self.pieces.module, 2)
            + marked_length(self.pieces.parent, 1)
            + self.pieces.base.len()
            + marked_length(self.pieces.ext, 1)
    }

    /// The name is `name`, byte by byte.
    pub fn equals(&self, name: &[u8]) -> bool
        ensures { IsTrue result ↔ (self.now ≡ name.now) }
    {
        let mut bytes = self.bytes();
        takes_front(&mut bytes, name) && bytes.next().is_none()
    }

    /// How it stands to another name in byte order.
    pub fn order(&self, other: &NameView) -> Ordering
        ensures { result ≡ slice_cmp nat_cmp self.now other.now }
    {
        order(&self.pieces, &other.pieces)
    }

    /// It stands before `name` in byte order.
    pub fn is_before(&self, name: &[u8]) -> bool
        ensures { result ≡ is_before self.now name.now }
    {
        let other = Pieces {
            module: &[],
            parent: &[],
            base: name,
            ext: &[],
        };
        order(&self.pieces, &other) == Ordering::Less
    }

    /// The name begins with `front`.
    pub fn begins_with(&self, front: &[u8]) -> bool
        ensures { result ≡ starts_with nat_eq self.now front.now }
    {
        takes_front(&mut self.bytes(), front)
    }

    /// Whether it is a name of one of the two trees' nodes (JEP 220): `/modules`, `/packages`, and
    /// what begins with one of these and a slash.
    pub fn is_node(&self) -> bool
        ensures { result ≡ is_node self.now }
    {
        self.equals(b"/modules")
            || self.equals(b"/packages")
            || self.begins_with(b"/modules/")
            || self.begins_with(b"/packages/")
    }

    /// Its bytes, one after the other.
    pub fn bytes(&self) -> NameBytes<'a>
        ensures { result ≡ self.now }
    {
        NameBytes::of(&self.pieces)
    }

    /// A text of its own with the same bytes, for which memory is taken once.
    pub fn to_text(&self, alloc: Global) -> Result<Text, NoMemory>
        ensures { IfOk result (λ text. text ≡ self.now) }
    {
        let mut text = Vec::with_capacity(alloc, self.len())?;
        self.bytes().put_all(&mut text)?;
        Ok(Text::from_vec(text))
    }
}
