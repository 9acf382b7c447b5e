ghost use Rattle.std.specs.Prelude.{◌≡◌, ◌*◌, ℕ, List, true, None, OnOk};
ghost use Rattle.jm_form.specs.Head.{IsFileOf};
ghost use Rattle.jm_form.specs.Places.{strings};
ghost use Rattle.jm_form.specs.Texts.{ended_length, text_ends};
ghost use Rattle.jm_reader.specs.Look.{head};
ghost use Rattle.jm_reader.specs.Walk.{IsLater};
ghost use Rattle.jm_jrt.specs.Nodes.{on_ok};
ghost use Rattle.jm_jrt.specs.Told.{all_told, bad_word, fault_of, is_word_sound, told_in};
ghost use Rattle.jm_jrt.specs.Told.{words_read};
ghost use Rattle.jm_jrt.specs.Told as told;

use crate::jrt_error::JrtError;
use jm_bytes::{Meter, word_at};
use jm_form::row_at_place;
use jm_valid::{Index, ended_texts};
use std::sync::ledger::Ledger;

/// What the content of a node is read as.
#[derive(Clone, Copy)]
pub enum Form {
    /// Words, each of which leads to the row of a child.
    Children,
    /// Pairs of words, a flag and the place of a module's name.
    Owners,
}

/// How many words a content is read as; the last may not fit.
pub fn word_count(content: &[u8]) -> usize
    ensures { result ≡ told.word_count content.now }
{
    (content.len() + 3) / 4
}

/// How many pairs of words a content is read as; the words of the last may not fit.
pub fn pair_count(content: &[u8]) -> usize
    ensures { result ≡ told.pair_count content.now }
{
    (content.len() + 7) / 8
}

/// How many words a content of this form is read as.
fn words_in(content: &[u8], form: Form) -> usize
    ensures { result ≡ words_read content.now form }
{
    match form {
        Form::Children => word_count(content),
        Form::Owners => 2 * pair_count(content),
    }
}

/// Word `k` of a content.
pub fn word(index: &Index, content: &[u8], k: usize) -> u32
    requires { told.fits content.now k ≡ true }
    ensures { result ≡ told.word_of index.now.bytes content.now k }
{
    word_at(index.header().order, content, 4 * k)
}

/// An index, and how far its texts end.
#[derive(Clone, Copy)]
struct Ended<'b, 'a> {
    index: &'b Index<'a>,
    /// A text of the strings ends in them exactly where its place is below this, in bytes from the
    /// front of the strings.
    length: u64,
    ghost cut: { length ≡ ended_length (strings index.now.bytes (head index.now.bytes)) },
}

impl<'b, 'a> Ended<'b, 'a> {
    /// A text from this place of the strings on ends within them.
    fn ends(&self, place: u64) -> bool
        ensures { result ≡ text_ends
            (strings self.now.index.now.bytes (head self.now.index.now.bytes)) place }
    {
        place < self.length
    }

    /// Word `k` of a content is as its form has it.
    fn is_sound<R: Ledger>(
        &self,
        content: &[u8],
        form: Form,
        k: usize,
        reads: &mut Meter<R>,
    ) -> bool
        requires { reads.old.bytes ≡ self.now.index.now.bytes }
        ensures sound { result ≡ is_word_sound self.now.index.now.bytes content.now form k }
        ensures reads { IsLater reads.old reads.new }
    {
        if k >= content.len() / 4 {
            return false;
        }
        let number = word(self.index, content, k);
        match form {
            Form::Children => {
                let (buf, header) = (self.index.buf(), self.index.header());
                match row_at_place(&buf, &header, number, reads).row() {
                    None => false,
                    Some(row) => {
                        self.ends(row.module)
                            && self.ends(row.parent)
                            && self.ends(row.base)
                            && self.ends(row.ext)
                    }
                }
            }
            Form::Owners if k % 2 == 0 => number < 2,
            Form::Owners => self.ends(u64::from(number)),
        }
    }
}

/// The place of the first bad word of a content, if it has one. All strings count as read: the last
/// zero byte in them is looked for.
pub fn first_bad_word<R: Ledger>(
    index: &Index,
    content: &[u8],
    form: Form,
    reads: &mut Meter<R>,
) -> Option<usize>
    requires { reads.old.bytes ≡ index.now.bytes }
    ensures place { result ≡ bad_word index.now.bytes content.now form }
    ensures reads { IsLater reads.old reads.new }
{
    let (buf, header) = (index.buf(), index.header());
    let strings = buf.part(header.strings_place(), header.strings as usize, reads);
    let length = ended_texts(strings).len() as u64;
    let ended = Ended { index, length };
    for k in 0..words_in(content, form) {
        if !ended.is_sound(content, form, k, reads) {
            return Some(4 * k);
        }
    }
    None
}

/// Refuses a content that has a bad word, with the place of the first one.
pub fn check<R: Ledger>(
    index: &Index,
    content: &[u8],
    form: Form,
    reads: &mut Meter<R>,
) -> Result<(), JrtError>
    requires { reads.old.bytes ≡ index.now.bytes }
    ensures sound { OnOk result (fault_of index.now.bytes content.now form ≡ None) }
    ensures told { (b : List ℕ) → IsFileOf index.now.bytes index.now.length b
        → on_ok (λ _. all_told index.now.bytes content.now form) result
        ≡ told_in b content.now form }
    ensures reads { IsLater reads.old reads.new }
{
    let _header = index.header();
    match first_bad_word(index, content, form, reads) {
        Some(at) => Err(JrtError::BadNode(at)),
        None => Ok(()),
    }
}
