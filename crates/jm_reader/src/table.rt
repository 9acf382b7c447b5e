ghost use Rattle.std.specs.Prelude.{◌≡◌, Ok};
ghost use Rattle.jm_bytes.specs.Metered.{CostsAtMost, RisesAtMost};
ghost use Rattle.jm_form.specs.Head.{header_of};
ghost use Rattle.jm_form.specs.Table.{probe};

use jm_bytes::{Buf, Meter, Steps};
use jm_form::{Header, Redirect, redirect_at};
use jm_names::{DEFAULT_SEED, hash};
use std::sync::ledger::Ledger;

/// The slot to which the table leads a name, whatever name the slot has, by bytes that hold an
/// image's index. It costs at most two hashes and the four bytes of one redirect word.
pub fn probe<H: Ledger, R: Ledger>(
    buf: &Buf,
    header: &Header,
    name: &[u8],
    hashes: &mut Steps<H>,
    reads: &mut Meter<R>,
) -> Option<u32>
    requires read { header_of buf.now ≡ Ok header.now }
    requires metered { reads.old.bytes ≡ buf.now }
    ensures slot { result ≡ probe buf.now header.now name.now }
    ensures hashes { RisesAtMost hashes.old hashes.new 2 }
    ensures reads { CostsAtMost reads.old reads.new 4 }
{
    match redirect_at(buf, header, hash(DEFAULT_SEED, name, hashes), reads) {
        Redirect::Nowhere => None,
        Redirect::Slot(slot) => header.slot(slot),
        Redirect::Seed(seed) => header.slot_of(hash(seed, name, hashes)),
    }
}
