//! Patterns by the names that they match.
ghost use Rattle.std.specs.Prelude.{◌≡◌, IfOk};
ghost use Rattle.std.specs.List.{position_or_len};
ghost use Rattle.jm_pattern.specs.ComputedMatching.{matches};
ghost use Rattle.jm_pattern.specs.Indexing.{is_literal, literal};

use crate::numbers::Numbers;
use crate::signs::{Pattern, Sign};
use jm_bytes::{List, NoMemory, Text};
use std::alloc::Global;
use std::marker::Model;

/// A list of patterns, in which the patterns without a wildcard are looked up by their bytes. It
/// is seen as the list.
#[derive(Drop)]
pub struct PatternIndex<'p> {
    patterns: &'p [Pattern],
    literals: Numbers,
    others: List<usize>,
}

impl<'p> Model for PatternIndex<'p> {
    ghost use Rattle.std.specs.Prelude.{List, length};
    ghost use Rattle.jm_pattern.specs.Indexing.{IsIndexTo};
    ghost use Rattle.jm_pattern.specs.declared.signs.Sign.{Sign};

    ghost Value = { List (List Sign) };

    ghost view = { λ a. a.patterns.now };

    ghost invariant = { λ a. IsIndexTo (length a.patterns.now) a.patterns.now a.literals a.others };
}

impl<'p> PatternIndex<'p> {
    /// The index of a list of patterns.
    pub fn new(alloc: Global, patterns: &'p [Pattern]) -> Result<PatternIndex<'p>, NoMemory>
        ensures { IfOk result (λ index. index ≡ patterns.now) }
    {
        let mut literals = Numbers::new(alloc);
        let mut others = List::new(alloc);
        for number in 0..patterns.len() {
            match literal(alloc, patterns[number].signs())? {
                Some(text) => literals.add(text, number)?,
                None => others.push(number)?,
            }
        }
        Ok(PatternIndex {
            patterns,
            literals,
            others,
        })
    }

    /// The number, from 0, of the first pattern that matches the whole of `name`, or how many
    /// patterns there are. The patterns without a wildcard cost one look-up; one with a wildcard is
    /// tried where its number is less than that of the pattern so found.
    pub fn first_match(&self, name: &[u8]) -> usize
        ensures { result ≡ position_or_len (λ pattern. matches pattern name.now) self.now }
    {
        let found = self.first_literal(name);
        for number in self.others.as_slice() {
            if *number >= found {
                return found;
            }
            if self.patterns[*number].matches(name) {
                return *number;
            }
        }
        found
    }

    /// The number of the first pattern that is the bytes of `name`, or how many patterns there are.
    fn first_literal(&self, name: &[u8]) -> usize
        ensures { result ≡ position_or_len (is_literal name.now) self.now }
    {
        let number = self.literals.get(name);
        number.unwrap_or(self.patterns.len())
    }
}

/// The one text that signs match, where all are bytes.
fn literal(alloc: Global, signs: &[Sign]) -> Result<Option<Text>, NoMemory>
    ensures { IfOk result (λ text. text ≡ literal signs.now) }
{
    let mut text = Text::new(alloc);
    for sign in signs {
        match *sign {
            Sign::Byte(byte) => text.push(byte)?,
            Sign::AnyRun | Sign::Run | Sign::One => return Ok(None),
        }
    }
    Ok(Some(text))
}
