//! The contents of the nodes.
ghost use Rattle.std.specs.Prelude.{◌≡◌, ◌++◌, map, slice_get, unwrap_or, IfOk, OnOk};
ghost use Rattle.std.specs.List.{flat_map};
ghost use Rattle.jm_form.specs.Nodes.{words_text};
ghost use Rattle.jm_writer.specs.Parts.{child_word, owner_pair};
ghost use Rattle.jm_writer.specs.Parts.{slot_or_first, tail_bytes};

use crate::index::put_words;
use crate::laying::Laid;
use jm_bytes::{List, NoMemory, Order, Text};
use jm_form::{Holds, Owner, TreeNode};
use jm_redirect::{Table, default_hashes, redirects_of, slot_of};
use jm_strings::Strings;
use std::alloc::Global;

/// The slots to which the table leads the names, 0 for a name that it leads to none. A name of the
/// table is led to its own; no name is looked at.
fn slots_in(alloc: Global, table: &Table, names: &[Text]) -> Result<List<u32>, NoMemory>
    ensures { IfOk result (λ slots. slots ≡ map (slot_or_first table.now) names.now) }
{
    let hashes = default_hashes(alloc, names)?;
    let found = redirects_of(alloc, hashes.as_slice(), table.redirects.as_slice())?;
    let given = found.as_slice();
    let mut slots = List::with_capacity(alloc, names.len())?;
    for place in 0..names.len() {
        let slot = slot_of(table.length, names[place].as_slice(), given[place]);
        slots.push(slot.unwrap_or(0))?;
    }
    Ok(slots)
}

/// The place of the row at a slot; 0 where there is no such slot.
fn place_at(places: &[u32], slot: u32) -> u32
    ensures { result ≡ unwrap_or (slice_get places.now slot) 0 }
{
    match places.get(slot as usize) {
        Some(place) => *place,
        None => 0,
    }
}

/// A word for each child: the place of the row at the slot to which the table leads its name; of
/// slot 0 where it leads it to none. The places lie far apart, and nothing else is done between two
/// of them here, so that the processor reads many at a time.
fn child_words(
    alloc: Global,
    table: &Table,
    places: &[u32],
    names: &[Text],
) -> Result<List<u32>, NoMemory>
    ensures { IfOk result (λ words. words ≡ map (child_word table.now places.now) names.now) }
{
    let slots = slots_in(alloc, table, names)?;
    let found = slots.as_slice();
    let mut words = List::with_capacity(alloc, found.len())?;
    for slot in found {
        words.push(place_at(places, *slot))?;
    }
    Ok(words)
}

/// Puts two words for each owner at the end: whether the package is empty there, and the place of
/// the module's text.
fn put_owners(
    text: &mut Vec<u8>,
    order: Order,
    strings: &Strings,
    owners: &[Owner],
) -> Result<(), NoMemory>
    ensures { OnOk result (text.new.items ≡ text.old.items
        ++ words_text order (flat_map (owner_pair strings.now) owners.now)) }
{
    for owner in owners {
        let flag = if owner.empty { 1 } else { 0 };
        let module = strings.place(owner.module.as_slice()).unwrap_or(0);
        put_words(text, order, &[flag, module])?;
    }
    Ok(())
}

/// The contents of the nodes, one behind another.
pub fn tail_bytes(
    alloc: Global,
    order: Order,
    table: &Table,
    laid: &Laid,
    nodes: &[TreeNode],
) -> Result<Text, NoMemory>
    ensures { IfOk result (λ text. text ≡ tail_bytes order laid.now.strings table.now
        laid.now.locations.places.items nodes.now) }
{
    let places = laid.locations.places.as_slice();
    let mut text = Vec::new(alloc);
    for node in nodes {
        match &node.holds {
            Holds::Children(names) => {
                let words = child_words(alloc, table, places, names.as_slice())?;
                put_words(&mut text, order, words.as_slice())?;
            }
            Holds::Owners(owners) => {
                put_owners(&mut text, order, &laid.strings, owners.as_slice())?;
            }
        }
    }
    Ok(Text::from_vec(text))
}
