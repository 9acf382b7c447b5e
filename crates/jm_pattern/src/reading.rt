ghost use Rattle.std.specs.Prelude.{◌≡◌, ◌<◌, ◌∷◌, ℕ, length, IfSome, IfNone};
ghost use Rattle.jm_bytes.specs.Results.{IfAnswered};
ghost use Rattle.jm_pattern.specs.ComputedReading.{signs_from};
ghost use Rattle.jm_pattern.specs.Reading.{BeginsWith};
ghost use Rattle.jm_pattern.specs.ReadingSteps.{ReadsFirst};

use crate::signs::{PatternFault, Sign};
use jm_bytes::{List, Or};
use std::alloc::Global;

/// The signs of a text, from left to right.
pub fn signs_of(alloc: Global, text: &[u8]) -> Result<List<Sign>, Or<PatternFault>>
    ensures { IfAnswered (λ r. r ≡ signs_from 0 text.now) result }
{
    let mut signs = List::new(alloc);
    let mut rest = text;
    while !rest.is_empty() {
        match first_sign(rest) {
            Some((sign, after)) => {
                signs.push(sign)?;
                rest = after;
            }
            None => return Err(Or::Fault(PatternFault::BadEscape(text.len() - rest.len()))),
        }
    }
    Ok(signs)
}

/// The first sign of a text and what follows it, or none at a `\` that no byte follows.
fn first_sign(text: &[u8]) -> Option<(Sign, &[u8])>
    requires { 0 < length text.now }
    ensures some { IfSome result (λ first. ReadsFirst text.now first.0 first.1.now) }
    ensures shorter { IfSome result (λ first. length first.1.now < length text.now) }
    ensures none { IfNone result
        ((at : ℕ) → signs_from at text.now ≡ Err (PatternFault.BadEscape at)) }
{
    let (first, after) = text.split_first()?;
    match *first {
        b'\\' => {
            let (byte, behind) = after.split_first()?;
            Some((Sign::Byte(*byte), behind))
        }
        b'*' => match behind_byte(after, b'*') {
            Some(behind) => Some((Sign::AnyRun, behind)),
            None => Some((Sign::Run, after)),
        },
        b'?' => Some((Sign::One, after)),
        byte => Some((Sign::Byte(byte), after)),
    }
}

/// What follows a byte at the front of a text.
fn behind_byte(text: &[u8], byte: u8) -> Option<&[u8]>
    ensures some { IfSome result (λ rest. text.now ≡ byte ∷ rest.now) }
    ensures none { IfNone result (¬ BeginsWith byte text.now) }
{
    let (first, rest) = text.split_first()?;
    if *first == byte { Some(rest) } else { None }
}
