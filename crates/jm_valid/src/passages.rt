//! What a text does to every state of the hash.
//!
//! The part of a state above its low byte passes a text as a factor, whatever the text's bytes
//! are. So the states after a text of the numbers up to 256, its passage, tell that of each state.
ghost use Rattle.std.specs.Prelude.{◌≡◌, ◌⊎◌, ◌∷◌, ◌<◌, ◌≤◌, ◌+◌, ◌/◌, ◌++◌, [], ℕ, List, All};
ghost use Rattle.std.specs.Prelude.{IfOk, Ok, length, map, true};
ghost use Rattle.std.specs.List.{range_with_len};
ghost use Rattle.jm_form.specs.Texts.{text_at};
ghost use Rattle.jm_names.specs.Hash.{state_after};
ghost use Rattle.jm_valid.specs.Passages.{passage_of, ArePassages, HasLongText};

use jm_bytes::{List, NoMemory};
use jm_form::front;
use jm_names::HASH_FACTOR;
use std::alloc::Global;

/// How many bytes of the strings lie between two places whose passages are kept.
pub const STRETCH: usize = 512;

/// The state after a text from a state before it, by the text's passage.
pub fn passed(passage: &[u32], state: u32) -> u32
    requires { length passage.now ≡ 257 }
    ensures { (text : List ℕ) → All (λ b. b < 256) text → passage.now ≡ passage_of text
        → result ≡ state_after state text }
{
    let factor = passage[256].wrapping_sub(passage[0]);
    passage[(state % 256) as usize].wrapping_add((state / 256).wrapping_mul(factor))
}

/// Takes each state through a text, by the text's passage.
fn pass_rest(states: &mut [u32], passage: &[u32])
    requires { length passage.now ≡ 257 }
    ensures { (text : List ℕ) → All (λ b. b < 256) text → passage.now ≡ passage_of text
        → states.new ≡ map (λ s. state_after s text) states.old }
{
    for state in states.iter_mut() {
        *state = passed(passage, *state);
    }
}

/// Takes each state through a byte.
fn pass_byte(states: &mut [u32], byte: u8)
    ensures { states.new ≡ map (λ s. state_after s (byte ∷ [])) states.old }
{
    for state in states.iter_mut() {
        *state = state.wrapping_mul(HASH_FACTOR) ^ u32::from(byte);
    }
}

/// Takes each state through a text, all of them through each byte of it.
fn pass_text(states: &mut [u32], text: &[u8])
    ensures { states.new ≡ map (λ s. state_after s text.now) states.old }
{
    for byte in text {
        pass_byte(states, *byte);
    }
}

/// The numbers up to 256, which is the passage of the empty text.
fn first_states(alloc: Global) -> Result<Vec<u32>, NoMemory>
    ensures { IfOk result (λ states. states.items ≡ range_with_len 0 257) }
{
    let mut states = Vec::with_capacity(alloc, 257)?;
    for state in 0..257 {
        states.push(state)?;
    }
    Ok(states)
}

/// Takes each state through the text at the front of a stretch and of the bytes behind it, by the
/// passage of the text at the front of these.
fn pass_stretch(states: &mut [u32], stretch: &[u8], behind: &[u32])
    requires { length behind.now ≡ 257 }
    ensures { (rest : List ℕ) → All (λ b. b < 256) rest
        → behind.now ≡ passage_of (text_at rest 0)
        → states.new ≡ map (λ s. state_after s (text_at (stretch.now ++ rest) 0)) states.old }
{
    match front(stretch) {
        Some(text) => pass_text(states, text),
        None => {
            pass_text(states, stretch);
            pass_rest(states, behind);
        }
    }
}

/// The passage of the text at a place, by that of the text a stretch further.
fn passage_at(
    alloc: Global,
    texts: &[u8],
    place: usize,
    behind: &[u32],
) -> Result<List<u32>, NoMemory>
    requires within { place ≤ length texts.now }
    requires behind { behind.now ≡ passage_of (text_at texts.now (place + 512)) }
    ensures { IfOk result (λ p. p ≡ passage_of (text_at texts.now place)) }
{
    let (_, rest) = texts.split_at(place);
    let (stretch, _) = rest.split_at(STRETCH.min(rest.len()));
    let mut states = first_states(alloc)?;
    pass_stretch(states.as_mut_slice(), stretch, behind);
    Ok(List::from_vec(states))
}

/// Whether a stretch has no zero byte, so that a text is so long or longer.
fn has_long_text(texts: &[u8]) -> bool
    ensures { result ≡ true → HasLongText texts.now }
{
    let mut rest = texts;
    while rest.len() >= STRETCH {
        let (stretch, behind) = rest.split_at(STRETCH);
        if front(stretch).is_none() {
            return true;
        }
        rest = behind;
    }
    false
}

/// The passages of the texts at the places that lie a number of stretches from the front, the last
/// one first, which stands behind the end; none where each text is short.
pub fn passages_if_long(alloc: Global, texts: &[u8]) -> Result<List<List<u32>>, NoMemory>
    ensures passages { IfOk result (ArePassages texts.now) }
    ensures short { result ≡ Ok [] ⊎ HasLongText texts.now }
{
    let mut passages = List::new(alloc);
    if !has_long_text(texts) {
        return Ok(passages);
    }
    let last = texts.len() / STRETCH;
    passages.push(List::from_vec(first_states(alloc)?))?;
    for nth in 0..last + 1 {
        let place = (last - nth) * STRETCH;
        let behind = passages.as_slice()[nth].as_slice();
        let passage = passage_at(alloc, texts, place, behind)?;
        passages.push(passage)?;
    }
    Ok(passages)
}
