ghost use Rattle.std.specs.Prelude.{◌≡◌, ◌<◌};
ghost use Rattle.jm_image_c.specs.Told as told;

use crate::numbers::Verdict;
use jm_form::{Damage, HeaderFault};

/// A kind with its numbers.
pub fn verdict(kind: u32, first: u32, second: u32) -> Verdict
    ensures { result ≡ told.verdict_of kind first second }
{
    Verdict {
        kind,
        first,
        second,
    }
}

/// A fault of the header by its kind and its number.
fn header_verdict(fault: HeaderFault) -> Verdict
    ensures told { result ≡ told.header_verdict fault }
    ensures kind { (0 < result.kind) × (result.kind < 12) }
{
    match fault {
        HeaderFault::Short => verdict(1, 0, 0),
        HeaderFault::Magic => verdict(2, 0, 0),
        HeaderFault::Version(word) => verdict(3, word, 0),
        HeaderFault::Sizes => verdict(4, 0, 0),
    }
}

/// A damage by its kind and its numbers.
pub fn damage_verdict(damage: Damage) -> Verdict
    ensures told { result ≡ told.damage_verdict damage }
    ensures kind { (0 < result.kind) × (result.kind < 12) }
{
    match damage {
        Damage::Header(fault) => header_verdict(fault),
        Damage::Offset(slot) => verdict(5, slot, 0),
        Damage::Row(slot) => verdict(6, slot, 0),
        Damage::Compressed(slot) => verdict(7, slot, 0),
        Damage::Text { slot, kind } => verdict(8, slot, u32::from(kind)),
        Damage::Range(slot) => verdict(9, slot, 0),
        Damage::Count { stated, found } => verdict(10, stated, found),
        Damage::Overlap { first, second } => verdict(11, first, second),
    }
}
