ghost use Rattle.std.specs.Prelude.{◌≡◌, ◌<◌, ◌≤◌, ◌↔◌, ◌∷◌, ◌++◌, [], Some, Err, None, length};
ghost use Rattle.std.specs.Prelude.{All, Contains, IsSome, IfOk, OnOk, OnErr, codes};
ghost use Rattle.std.specs.Map.{lookup};
ghost use Rattle.std.specs.Str.{bytes_eq};
ghost use Rattle.jm_bytes.specs.declared.faults.Or.TheVariants.{Fault};
ghost use Rattle.jm_form.specs.Strings.{place_of, section_of, with_text, IsZeroFree};
ghost use Rattle.jm_strings.specs.Limit.{limit};

use indexmap::IndexMap;
use jm_bytes::{NoMemory, Or, copy_of, extend};
use std::alloc::Global;
use std::marker::Model;

/// The most bytes that a section has.
const LIMIT: usize = 1_073_741_824;

/// With this text, which is new, the section would pass 1,073,741,824 bytes.
#[derive(Clone, Copy, Debug, PartialEq, Eq)]
pub struct Full;

/// Different texts without a zero byte, seen as their list, and the section that holds them.
#[derive(Drop)]
pub struct Strings {
    section: Vec<u8>,
    places: IndexMap<Vec<u8>, u32>,
}

impl Model for Strings {
    ghost use Rattle.std.specs.Prelude.{List, ℕ};
    ghost use Rattle.jm_strings.specs.Table.{texts_of, Agrees};

    ghost Value = { List (List ℕ) };

    ghost view = { λ a. texts_of a.places.entries };

    ghost invariant = { λ a. Agrees a.section.items a.places.entries };
}

impl Strings {
    /// The texts with which each section begins: the empty one and `class`.
    pub fn new(alloc: Global) -> Result<Strings, NoMemory>
        ensures { IfOk result (λ strings. strings ≡ [] ∷ codes "class" ∷ []) }
    {
        Strings::with_capacity(alloc, 0)
    }

    /// The same, with room to look so many texts up.
    pub fn with_capacity(alloc: Global, count: usize) -> Result<Strings, NoMemory>
        ensures { IfOk result (λ strings. strings ≡ [] ∷ codes "class" ∷ []) }
    {
        let mut strings = Strings {
            section: Vec::new(alloc),
            places: IndexMap::with_capacity(alloc, count)?,
        };
        strings.add(b"")?;
        strings.add(b"class")?;
        Ok(strings)
    }

    /// The place of a text without a zero byte, in bytes from the section's front. A text that
    /// isn't held goes last. A refusal leaves all as it was.
    ///
    /// The text is looked up by its hash, and its bytes are compared.
    pub fn intern(&mut self, text: &[u8]) -> Result<u32, Or<Full>>
        requires { IsZeroFree text.now }
        ensures texts { OnOk result (self.new ≡ with_text text.now self.old) }
        ensures place { IfOk result (λ place. place_of text.now self.new ≡ Some place) }
        ensures full { (result ≡ Err (Fault (record {}))) ↔ (place_of text.now self.old ≡ None)
            × (limit < length (section_of (self.old ++ text.now ∷ []))) }
        ensures err { OnErr result (self.new ≡ self.old) }
    {
        if let Some(place) = self.place(text) {
            return Ok(place);
        }
        if LIMIT - self.bytes().len() <= text.len() {
            return Err(Or::Fault(Full));
        }
        Ok(self.add(text)?)
    }

    /// Puts a new text last.
    fn add(&mut self, text: &[u8]) -> Result<u32, NoMemory>
        requires zero_free { IsZeroFree text.now }
        requires new { place_of text.now self.old ≡ None }
        requires room { length (section_of (self.old ++ text.now ∷ [])) ≤ limit }
        ensures texts { OnOk result (self.new ≡ self.old ++ text.now ∷ []) }
        ensures place { IfOk result (λ place. place ≡ length (section_of self.old)) }
        ensures err { OnErr result (self.new ≡ self.old) }
    {
        let copy = copy_of(*self.places.allocator(), text)?;
        let place = self.section.len() as u32;
        append(&mut self.section, text)?;
        if insert(&mut self.places, copy, place).is_err() {
            self.section.truncate(place as usize);
            return Err(NoMemory);
        }
        Ok(place)
    }

    /// The place of a text that is held, in bytes from the section's front.
    pub fn place(&self, text: &[u8]) -> Option<u32>
        ensures place { result ≡ place_of text.now self.now }
        ensures held { IsSome result ↔ Contains self.now text.now }
    {
        match self.places.get(text) {
            Some(place) => Some(*place),
            None => None,
        }
    }

    /// The section: each text followed by a zero byte, in order.
    pub fn bytes(&self) -> &[u8]
        ensures bytes { result.now ≡ section_of self.now }
        ensures within { length result.now ≤ limit }
        ensures zero_free { All IsZeroFree self.now }
    {
        self.section.as_slice()
    }
}

/// Puts a text and a zero byte at the end.
fn append(section: &mut Vec<u8>, text: &[u8]) -> Result<(), NoMemory>
    ensures ok { OnOk result (section.new.items ≡ section.old.items ++ (text.now ++ 0 ∷ [])) }
    ensures err { OnErr result (section.new.items ≡ section.old.items) }
{
    let len = section.len();
    extend(section, text)?;
    if section.push(0).is_err() {
        section.truncate(len);
        return Err(NoMemory);
    }
    Ok(())
}

/// Gives a new text its place.
fn insert(places: &mut IndexMap<Vec<u8>, u32>, text: Vec<u8>, place: u32) -> Result<(), NoMemory>
    requires { lookup (λ other. bytes_eq text.items other.items) places.old.entries ≡ None }
    ensures ok { OnOk result (places.new.entries ≡ places.old.entries ++ (text, place) ∷ []) }
    ensures err { OnErr result (places.new.entries ≡ places.old.entries) }
{
    places.insert(text, place)?;
    Ok(())
}
