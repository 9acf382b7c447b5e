ghost use Rattle.std.specs.Prelude.{◌≡◌, ◌≤◌, ◌<◌, ◌⊎◌, ◌++◌, ◌∷◌, [], List, All, AllPairs};
ghost use Rattle.std.specs.Prelude.{IfSome, option_map};
ghost use Rattle.jm_form.specs.ComputedOverlap.{first_overlap, meets};
ghost use Rattle.jm_form.specs.Overlap.{Meets, MeetsOne};
ghost use Rattle.jm_valid.specs.Ranges.{Follows, IsLeastIfAny};
ghost use Rattle.jm_valid.specs.Sweep.{Swept};

use jm_form::{Damage, Range};

/// What is known of the ranges that a sweep has passed.
#[derive(Clone, Copy)]
struct Sweep {
    /// One that no other reaches behind.
    furthest: Range,
    /// The one of the least slot of those that overlap another.
    least: Option<Range>,
}

/// The ranges are of two slots and have a byte in common.
fn overlaps(a: &Range, b: &Range) -> bool
    ensures { result ≡ meets a.now b.now }
{
    a.slot != b.slot && a.start.max(b.start) < a.end.min(b.end)
}

/// The range of the lesser slot.
fn lesser(a: Range, b: Range) -> Range
    ensures from { (result ≡ a) ⊎ (result ≡ b) }
    ensures first { result.slot ≤ a.slot }
    ensures second { result.slot ≤ b.slot }
{
    if b.slot < a.slot { b } else { a }
}

/// The range of the least slot, with one more to choose from.
fn least_with(least: Option<Range>, range: Range) -> Range
    ensures from { (least ≡ Some result) ⊎ (result ≡ range) }
    ensures below { IfSome least (λ r. result.slot ≤ r.slot) }
    ensures last { result.slot ≤ range.slot }
{
    match least {
        Some(least) => lesser(least, range),
        None => range,
    }
}

/// The range that reaches further.
fn further(a: Range, b: Range) -> Range
    ensures from { (result ≡ a) ⊎ (result ≡ b) }
    ensures first { a.end ≤ result.end }
    ensures second { b.end ≤ result.end }
{
    if a.end < b.end { b } else { a }
}

/// The sweep behind the next range. All that it has passed start at or before the next one, which
/// therefore overlaps those that end behind its start; and if there are any, the furthest is one of
/// them, and the others overlap that one and are known already.
fn sweep_behind(sweep: Sweep, next: Range) -> Sweep
    requires { next.start < next.end }
    ensures { (seen : List Range) → Swept seen sweep → All (λ r. Follows r next) seen
        → Swept (seen ++ next ∷ []) result }
{
    let furthest = sweep.furthest;
    let least = if next.start < furthest.end {
        Some(least_with(sweep.least, lesser(furthest, next)))
    } else {
        sweep.least
    };
    Sweep {
        furthest: further(furthest, next),
        least,
    }
}

/// The range of the least slot of those that overlap another one; the ranges stand by rising start.
fn least_meeting(ranges: &[Range]) -> Option<Range>
    requires order { AllPairs Follows ranges.now }
    requires some { All (λ r. r.start < r.end) ranges.now }
    ensures { IsLeastIfAny (MeetsOne ranges.now) ranges.now result }
{
    let (first, rest) = ranges.split_first()?;
    let mut sweep = Sweep {
        furthest: *first,
        least: None,
    };
    for range in rest {
        sweep = sweep_behind(sweep, *range);
    }
    sweep.least
}

/// The range of the least slot of those that overlap this one.
fn least_partner(ranges: &[Range], range: &Range) -> Option<Range>
    ensures { IsLeastIfAny (Meets range.now) ranges.now result }
{
    let mut least = None;
    for other in ranges {
        if overlaps(range, other) {
            least = Some(least_with(least, *other));
        }
    }
    least
}

/// The least slot whose range has a byte in common with another one, and the least slot of another
/// range that has one in common with it, which no image may have (this project's rule). The ranges
/// are left in another order.
pub fn first_overlap(ranges: &mut [Range]) -> Option<Damage>
    requires rising { AllPairs (λ r s. r.slot < s.slot) ranges.old }
    requires some { All (λ r. r.start < r.end) ranges.old }
    ensures { result ≡ option_map (λ o. Damage.Overlap o.0 o.1) (first_overlap ranges.old) }
{
    ranges.sort_unstable();
    let first = least_meeting(ranges)?;
    let second = least_partner(ranges, &first)?;
    Some(Damage::Overlap {
        first: first.slot,
        second: second.slot,
    })
}
