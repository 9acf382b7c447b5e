ghost use Rattle.std.specs.Prelude.{◌≡◌, ◌≤◌, ◌<◌, ◌+◌, ◌*◌, ◌↔◌, length};
ghost use Rattle.std.specs.Prelude.{IsTrue, IfOk, IfErr, All, codes};
ghost use Rattle.jm_pattern.specs.Matching.{Match, MatchesOnly, MatchesAll};
ghost use Rattle.jm_pattern.specs.ComputedMatching.{matches, matches_any};
ghost use Rattle.jm_bytes.specs.Results.{IfAnswered};
ghost use Rattle.jm_pattern.specs.ComputedReading.{pattern_of};
ghost use Rattle.jm_pattern.specs.Reading.{IsFaultOf, IsPlain, Reads};

use crate::matching::is_match;
use crate::reading::signs_of;
use jm_bytes::{List, Or, Steps};
use std::alloc::Global;
use std::marker::{Brand, Model};
use std::sync::ledger::{Blank, Ledger};

/// What stands for a run of bytes in a pattern.
#[derive(Clone, Copy, Debug, PartialEq, Eq)]
pub enum Sign {
    /// `**`: any run of bytes.
    AnyRun,
    /// `*`: any run of bytes other than `/`.
    Run,
    /// `?`: one byte other than `/`.
    One,
    /// The byte itself.
    Byte(u8),
}

/// Why a text is no pattern, or a list of texts no list of patterns.
#[derive(Clone, Copy, Debug, PartialEq, Eq)]
pub enum PatternFault {
    /// The `\` at this place, in bytes from 0, has no byte behind it.
    BadEscape(usize),
    /// There is no byte.
    Empty,
    /// The item of this number, from 0, begins with `regex:` or `@`.
    Prefix(usize),
}

/// A pattern of names, seen as its list of signs.
#[derive(Debug, Drop)]
pub struct Pattern {
    signs: List<Sign>,
}

impl Model for Pattern {
    ghost use Rattle.std.specs.Prelude.{List};
    ghost use Rattle.jm_pattern.specs.declared.signs.Sign.{Sign};

    ghost Value = { List Sign };

    ghost view = { λ a. a.signs };
}

impl Pattern {
    /// Reads a text from left to right: `**`, `*` and `?` are signs, `\x` is the byte x, and any
    /// other byte is itself. A place in `BadEscape` is in bytes from 0.
    pub fn parse(alloc: Global, text: &[u8]) -> Result<Pattern, Or<PatternFault>>
        ensures read { IfAnswered (λ r. r ≡ pattern_of text.now) result }
        ensures reads { IfOk result (Reads text.now) }
        ensures fault { IfAnswered (λ r. IfErr r (IsFaultOf text.now)) result }

        // A text without signs matches itself alone, and `**` matches every name.
        ensures plain { All IsPlain text.now → IfOk result (λ signs. MatchesOnly signs text.now) }
        ensures any { text.now ≡ codes "**" → IfOk result MatchesAll }
    {
        if text.is_empty() {
            return Err(Or::Fault(PatternFault::Empty));
        }
        let signs = signs_of(alloc, text)?;
        Ok(Pattern { signs })
    }

    /// The signs, in their order.
    pub fn signs(&self) -> &[Sign]
        ensures { result.now ≡ self.now }
    {
        self.signs.as_slice()
    }

    /// Whether the whole of `name` is a concatenation of what the signs stand for. It costs no more
    /// than `matches_counted`.
    pub fn matches(&self, name: &[u8]) -> bool
        ensures rule { IsTrue result ↔ Match self.now name.now }
        ensures value { result ≡ matches self.now name.now }
    {
        matches_from::<Brand>(self, name, Blank::new(1))
    }

    /// The same as `matches`, and counts the comparisons of a byte with a sign or with a `/`: at
    /// most two for each sign at each place in the name, of which the end is one.
    pub fn matches_counted<L: Ledger>(&self, name: &[u8], compared: &mut Steps<L>) -> bool
        ensures rule { IsTrue result ↔ Match self.now name.now }
        ensures value { result ≡ matches self.now name.now }
        ensures cost { compared.new ≤ compared.old + 2 * length self.now * (length name.now + 1) }
    {
        is_match(self.signs.as_slice(), name, compared)
    }
}

/// Whether a pattern matches a name, counted from a blank of the ledger.
fn matches_from<L: Ledger>(pattern: &Pattern, name: &[u8], blank: Blank) -> bool
    requires name { blank.name ≡ L.name }
    requires parts { (blank.parts ≡ L.parts) × (0 < blank.parts) }
    ensures rule { IsTrue result ↔ Match pattern.now name.now }
    ensures value { result ≡ matches pattern.now name.now }
{
    let mut compared = Steps::<L>::new(blank);
    pattern.matches_counted(name, &mut compared)
}

/// Whether one of the patterns matches a name.
pub fn matches_any(patterns: &[Pattern], name: &[u8]) -> bool
    ensures { result ≡ matches_any patterns.now name.now }
{
    patterns.iter().any(|pattern| pattern.matches(name))
}
