ghost use Rattle.std.specs.Prelude.{◌≡◌, ◌<◌, ◌≤◌, IfSome, IfNone, None};
ghost use Rattle.jm_jrt.specs.declared.words.Form.TheVariants as form;
ghost use Rattle.jm_reader.specs.Walk.{IsLater};
ghost use Rattle.jm_jrt.specs.Told.{fault_of};
ghost use Rattle.jm_jrt.specs.Told.{name_told, word_count, word_of};

use crate::words::{word, word_count};
use jm_bytes::Meter;
use jm_form::{pieces_of, row_at_place};
use jm_reader::NameView;
use jm_valid::Index;
use std::sync::ledger::Ledger;

/// The name that word `k` of a content without a bad word tells; None exactly where no word is
/// left.
pub fn name_at<'a, R: Ledger>(
    index: &Index<'a>,
    content: &[u8],
    k: usize,
    reads: &mut Meter<R>,
) -> Option<NameView<'a>>
    requires metered { reads.old.bytes ≡ index.now.bytes }
    requires sound { fault_of index.now.bytes content.now form.Children ≡ None }
    ensures name { IfSome result (λ name.
        name ≡ name_told index.now.bytes (word_of index.now.bytes content.now k)) }
    ensures there { IfSome result (λ name. k < word_count content.now) }
    ensures end { IfNone result (word_count content.now ≤ k) }
    ensures reads { IsLater reads.old reads.new }
{
    if k >= word_count(content) {
        return None;
    }
    let (buf, header) = (index.buf(), index.header());
    let place = word(index, content, k);
    let row = row_at_place(&buf, &header, place, reads).row()?;
    let pieces = pieces_of(&buf, &header, &row, reads)?;
    Some(NameView::of(&pieces))
}
