//! Why entries are not extracted.
ghost use Rattle.std.specs.Prelude.{◌≡◌, [], ℕ, List, None, Ok, All, IfOk, map};
ghost use Rattle.jm_names.specs.NameFaults.{IsSound};
ghost use Rattle.jm_names.specs.ByName.{RisesByName};
ghost use Rattle.jm_extract.specs.Extracted.{begins, clash_refusal, refusal_of};
ghost use Rattle.jm_filed.specs.Taken.{name_alone, taken_as};

use jm_bytes::{NoMemory, Text};
use jm_filed::TakenEntry;
use jm_names::check_name;
use jm_texts::Refusal;
use std::alloc::Global;

/// Whether the name of one of the entries begins so. Such names stand side by side, so a binary
/// search finds the first of them.
fn begins(entries: &[TakenEntry], front: &[u8]) -> bool
    requires { RisesByName (map name_alone entries.now) }
    ensures { result ≡ begins (map name_alone entries.now) front.now }
{
    let place = entries.partition_point(|entry| entry.name.view().is_before(front));
    match entries.get(place) {
        Some(entry) => entry.name.view().begins_with(front),
        None => false,
    }
}

/// The refusal of an entry's name that is another one's folder.
fn clash_refusal(entries: &[TakenEntry], name: Text) -> Result<Option<Refusal>, NoMemory>
    requires { RisesByName (map name_alone entries.now) }
    ensures { IfOk result (λ refusal.
        refusal ≡ clash_refusal (map name_alone entries.now) (name, [])) }
{
    let mut folder = name.into_vec();
    folder.push(b'/')?;
    if !begins(entries, folder.as_slice()) {
        return Ok(None);
    }
    folder.pop();
    Ok(Some(Refusal::Clash(Text::from_vec(folder))))
}

/// The refusal of entries that rise by name: of the first name that may not stand in an image, and
/// where there is none, of the first name that is another one's folder. Each name is made a text
/// once; at one time two names at most take memory of their own.
pub fn refusal_of(alloc: Global, entries: &[TakenEntry]) -> Result<Option<Refusal>, NoMemory>
    requires rises { RisesByName (map name_alone entries.now) }
    ensures refusal { (b : List ℕ) → IfOk result (λ refusal.
        refusal ≡ refusal_of (map (taken_as b) entries.now)) }
    ensures sound { result ≡ Ok None → All (λ e. IsSound e.name) entries.now }
{
    let mut clash = None;
    for entry in entries {
        let name = entry.name.view().to_text(alloc)?;
        if let Err(fault) = check_name(name.as_slice()) {
            return Ok(Some(Refusal::BadName { name, fault }));
        }
        if clash.is_none() {
            clash = clash_refusal(entries, name)?;
        }
    }
    Ok(clash)
}
