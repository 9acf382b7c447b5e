ghost use Rattle.std.specs.Prelude.{◌≡◌, ◌++◌, [], option_to_list, IfNone, OnOk};
ghost use Rattle.jm_names.specs.Names.{join};
ghost use Rattle.jm_names.specs.Pieces.{cut_of};
ghost use Rattle.jm_reader.specs.Views.{mark_of};

use jm_bytes::{NoMemory, extend};
use jm_names::Pieces;
use std::marker::Model;
use std::mem::replace;

/// The bytes of a name that are still to come: pieces, and the marks before and behind them.
#[derive(Debug, Drop)]
pub struct NameBytes<'a> {
    module: &'a [u8],
    parent: &'a [u8],
    base: &'a [u8],
    ext: &'a [u8],
    before_module: &'a [u8],
    behind_module: &'a [u8],
    behind_parent: &'a [u8],
    before_ext: &'a [u8],
}

impl<'a> Model for NameBytes<'a> {
    ghost use Rattle.std.specs.Prelude.{List, ℕ, ◌++◌};

    ghost Value = { List ℕ };

    ghost view = { λ a. a.before_module.now ++ (a.module.now ++ (a.behind_module.now
        ++ (a.parent.now ++ (a.behind_parent.now
        ++ (a.base.now ++ (a.before_ext.now ++ a.ext.now)))))) };
}

/// The mark of a piece, or nothing where the piece is empty.
fn mark<'a>(piece: &'a [u8], mark: &'a [u8]) -> &'a [u8]
    ensures { result.now ≡ mark_of piece.now mark.now }
{
    if piece.is_empty() { &[] } else { mark }
}

/// Takes the byte in front.
fn pop(bytes: &mut &[u8]) -> Option<u8>
    ensures first { bytes.old.now ≡ option_to_list result ++ bytes.new.now }
    ensures none { IfNone result (bytes.old.now ≡ []) }
{
    let (first, rest) = bytes.split_first()?;
    *bytes = rest;
    Some(*first)
}

impl<'a> NameBytes<'a> {
    /// The bytes of the name that the pieces make.
    pub(crate) fn of(pieces: &Pieces<'a>) -> NameBytes<'a>
        ensures { result ≡ join (cut_of pieces.now) }
    {
        NameBytes {
            module: pieces.module,
            parent: pieces.parent,
            base: pieces.base,
            ext: pieces.ext,
            before_module: mark(pieces.module, b"/"),
            behind_module: mark(pieces.module, b"/"),
            behind_parent: mark(pieces.parent, b"/"),
            before_ext: mark(pieces.ext, b"."),
        }
    }

    /// Takes the first piece or mark that isn't empty; nothing exactly at the end.
    pub(crate) fn take_part(&mut self) -> &'a [u8]
        ensures part { self.old ≡ result.now ++ self.new }
        ensures end { result.now ≡ [] → self.new ≡ [] }
    {
        if !self.before_module.is_empty() {
            return replace(&mut self.before_module, &[]);
        }
        if !self.module.is_empty() {
            return replace(&mut self.module, &[]);
        }
        if !self.behind_module.is_empty() {
            return replace(&mut self.behind_module, &[]);
        }
        if !self.parent.is_empty() {
            return replace(&mut self.parent, &[]);
        }
        if !self.behind_parent.is_empty() {
            return replace(&mut self.behind_parent, &[]);
        }
        if !self.base.is_empty() {
            return replace(&mut self.base, &[]);
        }
        if !self.before_ext.is_empty() {
            return replace(&mut self.before_ext, &[]);
        }
        replace(&mut self.ext, &[])
    }

    /// Puts all of them at the end of a text.
    pub(crate) fn put_all(&self, text: &mut Vec<u8>) -> Result<(), NoMemory>
        ensures { OnOk result (text.new.items ≡ text.old.items ++ self.now) }
    {
        extend(text, self.before_module)?;
        extend(text, self.module)?;
        extend(text, self.behind_module)?;
        extend(text, self.parent)?;
        extend(text, self.behind_parent)?;
        extend(text, self.base)?;
        extend(text, self.before_ext)?;
        extend(text, self.ext)
    }
}

impl<'a> Iterator for NameBytes<'a> {
    ghost use Rattle.std.specs.Iterator.{YieldsFirst, item_count};

    type Item = u8;

    ghost next_gives = { YieldsFirst (λ s. s) };

    ghost remaining = { item_count (λ s. s) };

    fn next(&mut self) -> Option<u8> {
        if let Some(byte) = pop(&mut self.before_module) {
            return Some(byte);
        }
        if let Some(byte) = pop(&mut self.module) {
            return Some(byte);
        }
        if let Some(byte) = pop(&mut self.behind_module) {
            return Some(byte);
        }
        if let Some(byte) = pop(&mut self.parent) {
            return Some(byte);
        }
        if let Some(byte) = pop(&mut self.behind_parent) {
            return Some(byte);
        }
        if let Some(byte) = pop(&mut self.base) {
            return Some(byte);
        }
        if let Some(byte) = pop(&mut self.before_ext) {
            return Some(byte);
        }
        pop(&mut self.ext)
    }
}
