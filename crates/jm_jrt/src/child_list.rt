ghost use Rattle.std.specs.Prelude.{◌≡◌, IfSome, IfNone};
ghost use Rattle.jm_reader.specs.Walk.{IsLater};
ghost use Rattle.jm_jrt.specs.Listed.{IsRead, rest_of};
ghost use Rattle.jm_jrt.specs.Views.{count_of, IsFirst};

use crate::owners::{Owned, owner_at};
use crate::rows::name_at;
use crate::words::{pair_count, word_count};
use jm_bytes::Meter;
use jm_names::Pieces;
use jm_reader::NameView;
use jm_valid::Index;
use std::marker::Model;
use std::sync::ledger::Ledger;

/// A child of a folder.
#[derive(Debug, Drop)]
pub enum Child<'a> {
    /// An entry, by its name.
    Entry(NameView<'a>),
    /// A module that has the package, and whether the package is empty there.
    Owner { empty: bool, module: &'a [u8] },
}

/// What a list's children are read from.
#[derive(Clone, Copy)]
pub enum ToCome<'a> {
    /// The roots that are there.
    Roots { modules: bool, packages: bool },
    /// The words of a content, from this one on.
    Words { content: &'a [u8], next: usize },
    /// The pairs of words of a content, from this one on.
    Pairs { content: &'a [u8], next: usize },
}

/// The children of a folder that are still to come. Its content was checked when the list was made.
#[derive(Drop)]
pub struct ChildList<'a> {
    index: Index<'a>,
    left: ToCome<'a>,
}

impl<'a> Model for ChildList<'a> {
    ghost use Rattle.jm_jrt.specs.Listed.{IsRead, Listed, rest_of};

    ghost Value = { Listed };

    ghost view = { λ a. record { bytes = a.index.bytes; rest = rest_of a.index.bytes a.left } };

    ghost invariant = { λ a. IsRead a.index.bytes a.left };
}

impl<'a> ChildList<'a> {
    /// The list of the roots that are there, or of what a content without a bad word tells.
    pub(crate) fn of(index: &Index<'a>, left: ToCome<'a>) -> ChildList<'a>
        requires { IsRead index.now.bytes left }
        ensures bytes { result.bytes ≡ index.now.bytes }
        ensures rest { result.rest ≡ rest_of index.now.bytes left.entry }
    {
        ChildList {
            index: index.again(),
            left,
        }
    }

    /// How many children are still to come.
    pub fn len(&self) -> usize
        ensures { result ≡ count_of self.now.rest }
    {
        match self.left {
            ToCome::Roots { modules, packages } => usize::from(modules) + usize::from(packages),
            ToCome::Words { content, next } => word_count(content).saturating_sub(next),
            ToCome::Pairs { content, next } => pair_count(content).saturating_sub(next),
        }
    }

    /// The next child; None exactly at the end, where it stays so.
    pub fn step<R: Ledger>(&mut self, reads: &mut Meter<R>) -> Option<Child<'a>>
        requires { reads.old.bytes ≡ self.old.bytes }
        ensures bytes { self.new.bytes ≡ self.old.bytes }
        ensures child { IfSome result (λ child. IsFirst self.old.rest child self.new.rest) }
        ensures end { IfNone result (count_of self.old.rest ≡ 0) }
        ensures stays { IfNone result (self.new.rest ≡ self.old.rest) }
        ensures reads { IsLater reads.old reads.new }
    {
        match self.left {
            ToCome::Roots { modules, packages } => {
                let (base, packages): (&'a [u8], bool) = match (modules, packages) {
                    (true, packages) => (b"/modules", packages),
                    (false, true) => (b"/packages", false),
                    (false, false) => return None,
                };
                self.left = ToCome::Roots {
                    modules: false,
                    packages,
                };
                Some(Child::Entry(NameView::of(&Pieces {
                    module: &[],
                    parent: &[],
                    base,
                    ext: &[],
                })))
            }
            ToCome::Words { content, next } => {
                let name = name_at(&self.index, content, next, reads)?;
                prove!(next < word_count(content));
                let next = next + 1;
                self.left = ToCome::Words { content, next };
                Some(Child::Entry(name))
            }
            ToCome::Pairs { content, next } => {
                let Owned { empty, module } = owner_at(&self.index, content, next, reads)?;
                prove!(next < pair_count(content));
                let next = next + 1;
                self.left = ToCome::Pairs { content, next };
                Some(Child::Owner { empty, module })
            }
        }
    }
}
