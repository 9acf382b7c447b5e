//! Hashes of the names of an image's rows, in time that the length of a text that many rows share
//! doesn't multiply.
ghost use Rattle.std.specs.Prelude.{◌≡◌, ◌+◌, ◌/◌, true, drop, IfErr, IfOk, IfSome};
ghost use Rattle.jm_form.specs.Entries.{name_of, texts_end};
ghost use Rattle.jm_form.specs.Texts.{text_at, text_ends};
ghost use Rattle.jm_names.specs.Hash.{state_after};
ghost use Rattle.jm_valid.specs.Marks.{with_marks};
ghost use Rattle.jm_valid.specs.Passages.{nth_passage, passage_of, ArePassages, HasLongText};
ghost use Rattle.jm_valid.specs.Sections.{strings_in};

use crate::passages::{STRETCH, passages_if_long, passed};
use crate::sections::Sections;
use jm_bytes::{List, NoMemory};
use jm_form::{HashedName, Row, front};
use jm_names::{hash_of_state, state_after};
use std::alloc::Global;

/// The sections of an image none of whose slots has a fault, with what helps to take the hashes of
/// names.
#[derive(Drop)]
pub struct Names<'a> {
    pub sections: Sections<'a>,
    /// The passages of the texts at places that lie a number of stretches from the front, the last
    /// one first; none where each text is short.
    passages: List<List<u32>>,
    ghost passages_are: { ArePassages sections.texts.now passages },
}

impl<'a> Names<'a> {
    /// Takes memory only where a text is long: twice as much as the strings have.
    pub fn of(alloc: Global, sections: &Sections<'a>) -> Result<Names<'a>, NoMemory>
        ensures names { IfOk result (λ names. names.sections ≡ sections.now) }
        ensures long { IfErr result (λ _. HasLongText sections.now.texts.now) }
    {
        let passages = passages_if_long(alloc, sections.texts)?;
        Ok(Names {
            sections: *sections,
            passages,
        })
    }

    /// The passage of the text at the front of the next stretch, if it is kept.
    fn passage_behind(&self, place: usize) -> Option<&[u32]>
        ensures { IfSome result (λ p. p.now
            ≡ nth_passage self.now.sections.texts.now (place / 512 + 1)) }
    {
        let nth = place / STRETCH + 1;
        let count = self.passages.len();
        if nth >= count {
            return None;
        }
        Some(self.passages.as_slice()[count - 1 - nth].as_slice())
    }

    /// The state after the text at a place of the strings. It looks at no more bytes than two
    /// stretches have.
    fn state_after_text(&self, state: u32, place: u64) -> u32
        requires { text_ends (strings_in self.now.sections) place ≡ true }
        ensures { result ≡ state_after state (text_at (strings_in self.now.sections) place) }
    {
        let place = place as usize;
        let (_, rest) = self.sections.texts.split_at(place);
        match self.passage_behind(place) {
            Some(passage) => state_over_stretch(state, rest, STRETCH - place % STRETCH, passage),
            None => state_after(state, text_in(rest)),
        }
    }

    /// The state after the text at a place of the strings between these two marks, or after
    /// nothing where it is empty.
    fn state_after_marked(&self, state: u32, before: &[u8], place: u64, behind: &[u8]) -> u32
        requires { text_ends (strings_in self.now.sections) place ≡ true }
        ensures { result ≡ state_after state
            (with_marks before.now (text_at (strings_in self.now.sections) place) behind.now) }
    {
        if self.sections.texts[place as usize] == 0 {
            return state;
        }
        let state = self.state_after_text(state_after(state, before), place);
        state_after(state, behind)
    }
}

/// The text at the front of the bytes.
fn text_in(bytes: &[u8]) -> &[u8]
    ensures { result.now ≡ text_at bytes.now 0 }
{
    match front(bytes) {
        Some(text) => text,
        None => bytes,
    }
}

/// The state after the text at the front of the bytes. `passage` is that of the text at the front
/// of what stands behind the first `size` of them.
fn state_over_stretch(state: u32, bytes: &[u8], size: usize, passage: &[u32]) -> u32
    requires { passage.now ≡ passage_of (text_at (drop size bytes.now) 0) }
    ensures { result ≡ state_after state (text_at bytes.now 0) }
{
    let (stretch, _) = bytes.split_at(size.min(bytes.len()));
    match front(stretch) {
        Some(text) => state_after(state, text),
        None => passed(passage, state_after(state, stretch)),
    }
}

/// The name of a row whose four texts end in the strings.
#[derive(Drop)]
pub struct RowName<'a> {
    pub names: &'a Names<'a>,
    pub row: Row,
    pub ghost ends: { texts_end (strings_in names.now.sections) row ≡ true },
}

impl<'a> HashedName for RowName<'a> {
    ghost use Rattle.jm_form.specs.Entries.{name_of};
    ghost use Rattle.jm_valid.specs.Sections.{strings_in};

    ghost name = { λ n. name_of (strings_in n.names.now.sections) n.row };

    fn hash(&self, seed: u32) -> u32 {
        let (names, row) = (self.names, &self.row);
        let state = names.state_after_marked(seed, b"/", row.module, b"/");
        let state = names.state_after_marked(state, b"", row.parent, b"/");
        let state = names.state_after_text(state, row.base);
        hash_of_state(names.state_after_marked(state, b".", row.ext, b""))
    }
}
