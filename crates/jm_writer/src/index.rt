//! The bytes of the index.
ghost use Rattle.std.specs.Prelude.{◌≡◌, ◌^◌, ◌<◌, ◌++◌, length, map, IfOk, OnOk};
ghost use Rattle.jm_form.specs.Greedy.{word_of};
ghost use Rattle.jm_form.specs.Nodes.{words_text};
ghost use Rattle.jm_form.specs.Strings.{section_of};
ghost use Rattle.jm_writer.specs.Parts.{index_bytes};

use crate::laying::Laid;
use jm_bytes::{NoMemory, Order, Text, extend, put_word};
use jm_form::Redirect;
use jm_redirect::Table;
use std::alloc::Global;

/// Puts words at the end.
pub fn put_words(text: &mut Vec<u8>, order: Order, words: &[u32]) -> Result<(), NoMemory>
    ensures { OnOk result (text.new.items ≡ text.old.items ++ words_text order words.now) }
{
    for word in words {
        extend(text, &put_word(order, *word))?;
    }
    Ok(())
}

/// A redirect as it stands in the file: 0, a seed, or -1 less a slot.
fn word_of(redirect: Redirect) -> u32
    ensures { result ≡ word_of redirect }
{
    match redirect {
        Redirect::Nowhere => 0,
        Redirect::Slot(slot) => u32::MAX - slot,
        Redirect::Seed(seed) => seed,
    }
}

/// Puts a word for each redirect at the end.
fn put_redirects(text: &mut Vec<u8>, order: Order, redirects: &[Redirect]) -> Result<(), NoMemory>
    ensures { OnOk result
        (text.new.items ≡ text.old.items ++ words_text order (map word_of redirects.now)) }
{
    for redirect in redirects {
        extend(text, &put_word(order, word_of(*redirect)))?;
    }
    Ok(())
}

/// The file up to the contents: header, redirect words, offset words, locations and strings.
pub fn index_bytes(
    alloc: Global,
    order: Order,
    entries: u32,
    table: &Table,
    laid: &Laid,
) -> Result<Text, NoMemory>
    requires slots { length table.now.redirects < 2 ^ 32 }
    requires locations { length laid.now.locations.text.items < 2 ^ 32 }
    ensures { IfOk result (λ text. text ≡ index_bytes order entries
        (map word_of table.now.redirects) laid.now.locations.places.items
        laid.now.locations.text.items (section_of laid.now.strings)) }
{
    let redirects = table.redirects.as_slice();
    let places = laid.locations.places.as_slice();
    let locations = laid.locations.text.as_slice();
    let strings = laid.strings.bytes();
    let header = [
        0xCAFE_DADA,
        0x0001_0000,
        0,
        entries,
        redirects.len() as u32,
        locations.len() as u32,
        strings.len() as u32,
    ];
    let mut text = Vec::new(alloc);
    put_words(&mut text, order, &header)?;
    put_redirects(&mut text, order, redirects)?;
    put_words(&mut text, order, places)?;
    extend(&mut text, locations)?;
    extend(&mut text, strings)?;
    Ok(Text::from_vec(text))
}
