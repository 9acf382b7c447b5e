ghost use Rattle.std.specs.Prelude.{◌≡◌, ◌∷◌, ◌<◌, length, option_map};
ghost use Rattle.std.specs.Prelude.{IfSome, IfNone, IfOk, IfErr};
ghost use Rattle.std.specs.List.{AllZip};
ghost use Rattle.jm_bytes.specs.Results.{IfAnswered};
ghost use Rattle.jm_pattern.specs.Items.{items_of, item_pattern, list_of};
ghost use Rattle.jm_pattern.specs.ItemRules.{ItemReads, IsListFault};
ghost use Rattle.jm_pattern.specs.ReadingSteps.{GoesOn, EndsItem, items_behind};

use crate::signs::{Pattern, PatternFault};
use jm_bytes::{List, Or};
use std::alloc::Global;

/// Reads a comma list of patterns from left to right: `\` takes the next byte with it, and each `,`
/// that isn't so taken cuts. An item that begins with `regex:` or `@` is refused as `Prefix`, else
/// it loses a `glob:` at its front once and is read as a pattern. The least item with a fault
/// decides; a place in `BadEscape` counts in the item without its `glob:`.
pub fn read_list(alloc: Global, text: &[u8]) -> Result<List<Pattern>, Or<PatternFault>>
    ensures value { IfAnswered (λ r. r ≡ list_of text.now) result }
    ensures reads { IfOk result (AllZip ItemReads (items_of text.now)) }
    ensures fault { IfAnswered (λ r. IfErr r (IsListFault text.now)) result }
{
    let mut patterns = List::new(alloc);
    let mut left = Some(text);
    while let Some(text) = left {
        let (item, behind) = first_item(text);
        let pattern = read_item(alloc, patterns.len(), item)?;
        patterns.push(pattern)?;
        left = behind;
    }
    Ok(patterns)
}

/// Reads an item of a list as a pattern.
fn read_item(alloc: Global, number: usize, item: &[u8]) -> Result<Pattern, Or<PatternFault>>
    ensures { IfAnswered (λ r. r ≡ item_pattern number item.now) result }
{
    if item.starts_with(b"regex:") || item.starts_with(b"@") {
        return Err(Or::Fault(PatternFault::Prefix(number)));
    }
    if item.starts_with(b"glob:") {
        Pattern::parse(alloc, &item[5..])
    } else {
        Pattern::parse(alloc, item)
    }
}

/// The first item of a list and, where a `,` ends it, what that `,` leaves.
fn first_item(text: &[u8]) -> (&[u8], Option<&[u8]>)
    ensures items { items_of text.now
        ≡ result.0.now ∷ items_behind (option_map (λ rest. rest.now) result.1) }
    ensures shorter { IfSome result.1 (λ rest. length rest.now < length text.now) }
{
    let mut rest = text;
    while let Some(after) = next_in_item(rest) {
        rest = after;
    }
    let (item, rest) = text.split_at(text.len() - rest.len());
    match rest.split_first() {
        Some((_, behind)) => (item, Some(behind)),
        None => (item, None),
    }
}

/// What follows one byte of an item, or a `\` and the byte that it takes with it; none at the `,`
/// that ends the item and at the end of the list.
fn next_in_item(text: &[u8]) -> Option<&[u8]>
    ensures goes_on { IfSome result (λ rest. GoesOn text.now rest.now) }
    ensures shorter { IfSome result (λ rest. length rest.now < length text.now) }
    ensures ends { IfNone result (EndsItem text.now) }
{
    let (first, rest) = text.split_first()?;
    match *first {
        b',' => None,
        b'\\' => match rest.split_first() {
            Some((_, behind)) => Some(behind),
            None => Some(rest),
        },
        _ => Some(rest),
    }
}
