ghost use Rattle.std.specs.Prelude.{◌≡◌, ◌<◌, ◌≤◌, ◌+◌, true, IfSome, IfNone, None, is_some};
ghost use Rattle.std.specs.Prelude.{drop, length, option_map, take};
ghost use Rattle.std.specs.List.{list_any};
ghost use Rattle.std.specs.Str.{bytes_eq};
ghost use Rattle.jm_jrt.specs.declared.words.Form.TheVariants as form;
ghost use Rattle.jm_form.specs.Places.{strings};
ghost use Rattle.jm_form.specs.Texts.{text_at, text_ends};
ghost use Rattle.jm_reader.specs.Look.{head};
ghost use Rattle.jm_reader.specs.Walk.{IsLater};
ghost use Rattle.jm_jrt.specs.Stat.{first_full};
ghost use Rattle.jm_jrt.specs.Told.{fault_of};
ghost use Rattle.jm_jrt.specs.Told.{owner_told, owners_left};
ghost use Rattle.jm_jrt.specs.Told as told;
ghost use Rattle.jm_jrt.specs.Views.{owner_as};

use crate::words::{pair_count, word};
use jm_bytes::Meter;
use jm_form::{front, text};
use jm_valid::Index;
use std::sync::ledger::Ledger;

/// A module that has a package, and whether the package is empty there.
#[derive(Clone, Copy)]
pub struct Owned<'a> {
    pub empty: bool,
    pub module: &'a [u8],
}

/// The owner that pair `k` of a content without a bad word tells; None exactly where no pair is
/// left.
pub fn owner_at<'a, R: Ledger>(
    index: &Index<'a>,
    content: &[u8],
    k: usize,
    reads: &mut Meter<R>,
) -> Option<Owned<'a>>
    requires metered { reads.old.bytes ≡ index.now.bytes }
    requires sound { fault_of index.now.bytes content.now form.Owners ≡ None }
    ensures owner { IfSome result (λ owner.
        owner_as owner ≡ owner_told index.now.bytes content.now k) }
    ensures there { IfSome result (λ owner. k < told.pair_count content.now) }
    ensures end { IfNone result (told.pair_count content.now ≤ k) }
    ensures reads { IsLater reads.old reads.new }
{
    if k >= pair_count(content) {
        return None;
    }
    let empty = word(index, content, 2 * k) == 1;
    let place = word(index, content, 2 * k + 1);
    let module = text(&index.buf(), &index.header(), u64::from(place), reads)?;
    Some(Owned { empty, module })
}

/// That many bytes of a text that ends, and one more, if so many stand behind its place.
fn bytes_at<'a, R: Ledger>(
    index: &Index<'a>,
    place: u32,
    len: usize,
    reads: &mut Meter<R>,
) -> Option<&'a [u8]>
    requires metered { reads.old.bytes ≡ index.now.bytes }
    requires ends { text_ends (strings index.now.bytes (head index.now.bytes)) place ≡ true }
    ensures part { IfSome result (λ part. part.now
        ≡ take (len + 1) (drop place (strings index.now.bytes (head index.now.bytes)))) }
    ensures size { IfSome result (λ part. length part.now ≡ len + 1) }
    ensures none { IfNone result
        (length (drop place (strings index.now.bytes (head index.now.bytes))) ≤ len) }
    ensures reads { IsLater reads.old reads.new }
{
    let (buf, header) = (index.buf(), index.header());
    if len >= (header.strings - place) as usize {
        return None;
    }
    let start = header.strings_place() + place as usize;
    Some(buf.part(start, len + 1, reads))
}

/// The text at a place of the strings, if it is this one. The byte at which it would end is looked
/// at first, so that a long text costs little, however many pairs lead to it.
fn text_if<'a, R: Ledger>(
    index: &Index<'a>,
    place: u32,
    asked: &[u8],
    reads: &mut Meter<R>,
) -> Option<&'a [u8]>
    requires metered { reads.old.bytes ≡ index.now.bytes }
    requires ends { text_ends (strings index.now.bytes (head index.now.bytes)) place ≡ true }
    ensures found { is_some result
        ≡ bytes_eq asked.now (text_at (strings index.now.bytes (head index.now.bytes)) place) }
    ensures same { IfSome result (λ text. text.now ≡ asked.now) }
    ensures reads { IsLater reads.old reads.new }
{
    let part = bytes_at(index, place, asked.len(), reads)?;
    let (_, end) = part.split_at(asked.len());
    let ended = end == b"\0".as_slice();
    if !ended {
        return None;
    }
    let text = front(part)?;
    (asked == text).then_some(text)
}

/// The module that is asked for, as the image has it, if it is one of the owners.
pub fn find_owner<'a, R: Ledger>(
    index: &Index<'a>,
    content: &[u8],
    asked: &[u8],
    reads: &mut Meter<R>,
) -> Option<&'a [u8]>
    requires metered { reads.old.bytes ≡ index.now.bytes }
    requires sound { fault_of index.now.bytes content.now form.Owners ≡ None }
    ensures found { is_some result ≡ list_any (λ o. bytes_eq asked.now o.module)
        (owners_left index.now.bytes content.now 0) }
    ensures same { IfSome result (λ name. name.now ≡ asked.now) }
    ensures reads { IsLater reads.old reads.new }
{
    for k in 0..pair_count(content) {
        let place = word(index, content, 2 * k + 1);
        let found = text_if(index, place, asked, reads);
        if found.is_some() {
            return found;
        }
    }
    None
}

/// The module of the first owner that isn't empty.
pub fn first_full<'a, R: Ledger>(
    index: &Index<'a>,
    content: &[u8],
    reads: &mut Meter<R>,
) -> Option<&'a [u8]>
    requires metered { reads.old.bytes ≡ index.now.bytes }
    requires sound { fault_of index.now.bytes content.now form.Owners ≡ None }
    ensures found { option_map (λ m. m.now) result ≡ first_full
        (owners_left index.now.bytes content.now 0) }
    ensures reads { IsLater reads.old reads.new }
{
    for k in 0..pair_count(content) {
        if word(index, content, 2 * k) != 1 {
            return Some(owner_at(index, content, k, reads)?.module);
        }
    }
    None
}
