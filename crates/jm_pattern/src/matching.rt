ghost use Rattle.std.specs.Prelude.{◌≡◌, ◌≢◌, ◌∷◌, ◌+◌, ◌*◌, ◌<◌, ◌≤◌, ◌↔◌, [], ℕ};
ghost use Rattle.std.specs.Prelude.{All, length, IsTrue, IfSome, IfNone};
ghost use Rattle.jm_pattern.specs.Matching.{StandsFor, Match};
ghost use Rattle.jm_pattern.specs.MatchingSteps.{Leads, NoLonger, TakesByte};
ghost use Rattle.jm_pattern.specs.MatchingSteps.{BeginsFixed, AtRun, AtAny, behind_line};
ghost use Rattle.jm_pattern.specs.MatchingCosts.{line_places, block_length};
ghost use Rattle.jm_pattern.specs.MatchingCosts.{behind_segment, segment_cost};

use crate::signs::Sign;
use jm_bytes::Steps;
use std::sync::ledger::Ledger;

// The signs between two `**` are a segment, and those between two runs of either kind a block of
// signs for one byte each. A block behind a `*` is put at its least place, and so is a segment
// behind a `**`: whatever matches later also matches behind the earlier place, since the next run
// may be longer. So no earlier choice is undone.
//
// A line is the bytes of a name as far as a `/` and with it. A segment behind a `**` that couldn't
// stand behind a `*` at a line's begin stands at no place in that line, so it is tried once for
// each line. Within a try only a `/` among the signs leads from one line to the next, so the tries
// put a block into lines that all differ, and compare it at most once at each place of the name.
// That is the bound of `cost`.

/// The signs that are left to match, and the bytes of the name that are left for them.
#[derive(Clone, Copy)]
struct Left<'s, 'n> {
    signs: &'s [Sign],
    name: &'n [u8],
}

/// Whether the whole name is a concatenation of what the signs stand for.
pub fn is_match<L: Ledger>(signs: &[Sign], name: &[u8], compared: &mut Steps<L>) -> bool
    ensures rule { IsTrue result ↔ Match signs.now name.now }
    ensures cost { compared.new ≤ compared.old + 2 * length signs.now * (length name.now + 1) }
{
    let Some(mut left) = segment(signs, name, compared) else {
        return false;
    };
    while let Some((_, behind)) = left.signs.split_first() {
        let Some(next) = after_any(behind, left.name, compared) else {
            return false;
        };
        left = next;
    }
    true
}

/// Puts the segment behind a `**` at its least place, line by line.
fn after_any<'s, 'n, L: Ledger>(
    signs: &'s [Sign],
    name: &'n [u8],
    compared: &mut Steps<L>,
) -> Option<Left<'s, 'n>>
    ensures leads { IfSome result
        (λ left. Leads (Sign.AnyRun ∷ signs.now) name.now left.signs.now left.name.now) }
    ensures rests { IfSome result (λ left. AtAny left.signs.now left.name.now) }
    ensures shorter { IfSome result
        (λ left. NoLonger signs.now name.now left.signs.now left.name.now) }
    ensures none { IfNone result (¬ Match (Sign.AnyRun ∷ signs.now) name.now) }
    ensures cost { IfSome result (λ left. (most : ℕ) → 2 * (length name.now + 1) ≤ most
        → compared.new + length left.signs.now * most
        ≤ compared.old + (length signs.now + 1) * most) }
    ensures cost_none { IfNone result ((most : ℕ) → 2 * (length name.now + 1) ≤ most
        → compared.new ≤ compared.old + (length signs.now + 1) * most) }
{
    let mut rest = name;
    loop {
        if let Some(left) = in_line(signs, rest, compared) {
            return Some(left);
        }
        rest = behind_slash(rest, compared)?;
    }
}

/// What stands behind the first `/`.
fn behind_slash<'n, L: Ledger>(name: &'n [u8], compared: &mut Steps<L>) -> Option<&'n [u8]>
    ensures some { IfSome result (λ rest. rest.now ≡ behind_line name.now) }
    ensures shorter { IfSome result (λ rest. length rest.now < length name.now) }
    ensures none { IfNone result (All (λ b. b ≢ 47) name.now) }
    ensures slash { IfSome result (λ _. ¬ All (λ b. b ≢ 47) name.now) }
    ensures cost { compared.new ≤ compared.old + line_places name.now }
{
    let mut rest = name;
    while let Some((byte, after)) = rest.split_first() {
        compared.add(1);
        if *byte == b'/' {
            return Some(after);
        }
        rest = after;
    }
    None
}

/// Puts a segment at its least place behind a run of bytes other than `/`.
fn in_line<'s, 'n, L: Ledger>(
    signs: &'s [Sign],
    name: &'n [u8],
    compared: &mut Steps<L>,
) -> Option<Left<'s, 'n>>
    ensures leads { IfSome result
        (λ left. Leads (Sign.Run ∷ signs.now) name.now left.signs.now left.name.now) }
    ensures rests { IfSome result (λ left. AtAny left.signs.now left.name.now) }
    ensures shorter { IfSome result
        (λ left. NoLonger signs.now name.now left.signs.now left.name.now) }
    ensures none { IfNone result (¬ Match (Sign.Run ∷ signs.now) name.now) }
    ensures end { IfSome result (λ left. left.signs.now ≡ behind_segment signs.now) }
    ensures cost { compared.new ≤ compared.old + segment_cost 0 (Sign.Run ∷ signs.now) name.now }
{
    let left = after_run(signs, name, compared)?;
    other_blocks(left, compared)
}

/// Matches the signs up to the first `**`, or all where there is none.
fn segment<'s, 'n, L: Ledger>(
    signs: &'s [Sign],
    name: &'n [u8],
    compared: &mut Steps<L>,
) -> Option<Left<'s, 'n>>
    ensures leads { IfSome result (λ left. Leads signs.now name.now left.signs.now left.name.now) }
    ensures rests { IfSome result (λ left. AtAny left.signs.now left.name.now) }
    ensures none { IfNone result (¬ Match signs.now name.now) }
    ensures end { IfSome result (λ left. left.signs.now ≡ behind_segment signs.now) }
    ensures shorter { IfSome result
        (λ left. NoLonger signs.now name.now left.signs.now left.name.now) }
    ensures cost { compared.new
        ≤ compared.old + segment_cost (line_places name.now) signs.now name.now }
{
    let left = block(signs, name, compared)?;
    other_blocks(left, compared)
}

/// Matches the blocks of a segment behind its first.
fn other_blocks<'s, 'n, L: Ledger>(
    first: Left<'s, 'n>,
    compared: &mut Steps<L>,
) -> Option<Left<'s, 'n>>
    requires { AtRun first.signs.now first.name.now }
    ensures leads { IfSome result (λ left.
        Leads first.entry.signs.now first.entry.name.now left.signs.now left.name.now) }
    ensures rests { IfSome result (λ left. AtAny left.signs.now left.name.now) }
    ensures shorter { IfSome result (λ left.
        NoLonger first.entry.signs.now first.entry.name.now left.signs.now left.name.now) }
    ensures none { IfNone result (¬ Match first.entry.signs.now first.entry.name.now) }
    ensures end { IfSome result
        (λ left. left.signs.now ≡ behind_segment first.entry.signs.now) }
    ensures cost { compared.new
        ≤ compared.old + segment_cost 0 first.entry.signs.now first.entry.name.now }
{
    let mut left = first;
    while let Some((Sign::Run, behind)) = left.signs.split_first() {
        left = after_run(behind, left.name, compared)?;
    }
    Some(left)
}

/// Puts the block behind a `*` at its least place.
fn after_run<'s, 'n, L: Ledger>(
    signs: &'s [Sign],
    name: &'n [u8],
    compared: &mut Steps<L>,
) -> Option<Left<'s, 'n>>
    ensures leads { IfSome result
        (λ left. Leads (Sign.Run ∷ signs.now) name.now left.signs.now left.name.now) }
    ensures rests { IfSome result (λ left. AtRun left.signs.now left.name.now) }
    ensures shorter { IfSome result
        (λ left. NoLonger signs.now name.now left.signs.now left.name.now) }
    ensures none { IfNone result (¬ Match (Sign.Run ∷ signs.now) name.now) }
    ensures end { IfSome result
        (λ left. behind_segment left.signs.now ≡ behind_segment signs.now) }
    ensures cost { IfSome result
        (λ left. compared.new + segment_cost 0 left.signs.now left.name.now
        ≤ compared.old + segment_cost 0 (Sign.Run ∷ signs.now) name.now) }
    ensures cost_none { IfNone result
        (compared.new ≤ compared.old + segment_cost 0 (Sign.Run ∷ signs.now) name.now) }
{
    let mut rest = name;
    loop {
        if let Some(left) = block(signs, rest, compared) {
            return Some(left);
        }
        let (byte, after) = rest.split_first()?;
        compared.add(1);
        if !takes(Sign::Run, *byte) {
            return None;
        }
        rest = after;
    }
}

/// Matches the signs up to the first `*` or `**`, or all where there is none.
fn block<'s, 'n, L: Ledger>(
    signs: &'s [Sign],
    name: &'n [u8],
    compared: &mut Steps<L>,
) -> Option<Left<'s, 'n>>
    ensures leads { IfSome result (λ left. Leads signs.now name.now left.signs.now left.name.now) }
    ensures rests { IfSome result (λ left. AtRun left.signs.now left.name.now) }
    ensures shorter { IfSome result
        (λ left. NoLonger signs.now name.now left.signs.now left.name.now) }
    ensures none { IfNone result (¬ Match signs.now name.now) }
    ensures end { IfSome result
        (λ left. behind_segment left.signs.now ≡ behind_segment signs.now) }
    ensures cost { IfSome result
        (λ left. compared.new + segment_cost (line_places name.now) left.signs.now left.name.now
        ≤ compared.old + segment_cost (line_places name.now) signs.now name.now) }
    ensures cost_none { IfNone result (compared.new ≤ compared.old + block_length signs.now) }
{
    let mut left = Left { signs, name };
    while begins_fixed(left.signs) {
        left = one_byte(left, compared)?;
    }
    if left.signs.is_empty() && !left.name.is_empty() {
        return None;
    }
    Some(left)
}

/// Whether a sign for one byte comes first.
fn begins_fixed(signs: &[Sign]) -> bool
    ensures { IsTrue result ↔ BeginsFixed signs.now }
{
    match signs.split_first() {
        Some((Sign::One | Sign::Byte(_), _)) => true,
        _ => false,
    }
}

/// Matches a sign for one byte.
fn one_byte<'s, 'n, L: Ledger>(left: Left<'s, 'n>, compared: &mut Steps<L>) -> Option<Left<'s, 'n>>
    requires { BeginsFixed left.signs.now }
    ensures leads { IfSome result
        (λ next. Leads left.entry.signs.now left.entry.name.now next.signs.now next.name.now) }
    ensures takes { IfSome result (λ next.
        TakesByte left.entry.signs.now left.entry.name.now next.signs.now next.name.now) }
    ensures none { IfNone result (¬ Match left.entry.signs.now left.entry.name.now) }
    ensures cost { compared.new ≤ compared.old + 1 }
{
    let (sign, signs) = left.signs.split_first()?;
    let (byte, name) = left.name.split_first()?;
    compared.add(1);
    if takes(*sign, *byte) {
        Some(Left { signs, name })
    } else {
        None
    }
}

/// Whether a sign stands for one byte by itself.
fn takes(sign: Sign, byte: u8) -> bool
    ensures { IsTrue result ↔ StandsFor sign (byte ∷ []) }
{
    match sign {
        Sign::AnyRun => true,
        Sign::Run | Sign::One => byte != b'/',
        Sign::Byte(own) => byte == own,
    }
}
