ghost use Rattle.std.specs.Prelude.{◌≡◌, ◌<◌, ℕ, List, Ok};
ghost use Rattle.jm_bytes.specs.Metered.{CostsAtMost};
ghost use Rattle.jm_form.specs.Head.{header_of};
ghost use Rattle.jm_form.specs.Table.{is_slot, probe, redirect_at, redirect_of};
ghost use Rattle.jm_names.specs.Hash.{hash};

use crate::container::Header;
use jm_bytes::{Buf, Meter};
use jm_names::{DEFAULT_SEED, Pieces, hash_pieces};
use std::sync::ledger::Ledger;

/// What the table says of the names of one bucket (jimage 1.0).
#[derive(Clone, Copy, Debug, PartialEq, Eq)]
pub enum Redirect {
    /// No entry has such a name.
    Nowhere,
    /// They are led to this slot, which the table may not have.
    Slot(u32),
    /// They are led to the slots that a second hash with this seed gives.
    Seed(u32),
}

/// What a redirect word says, which is read as a signed number.
pub fn redirect_of(word: u32) -> Redirect
    ensures { result ≡ redirect_of word }
{
    if word == 0 {
        Redirect::Nowhere
    } else if word < 1 << 31 {
        Redirect::Seed(word)
    } else {
        Redirect::Slot(u32::MAX - word)
    }
}

/// What the table says of the names that have this hash with the default seed. It costs at most the
/// four bytes of one redirect word.
pub fn redirect_at<R: Ledger>(
    buf: &Buf,
    header: &Header,
    hash: u32,
    reads: &mut Meter<R>,
) -> Redirect
    requires read { header_of buf.now ≡ Ok header.now }
    requires metered { reads.old.bytes ≡ buf.now }
    ensures redirect { result ≡ redirect_at buf.now header.now hash }
    ensures cost { CostsAtMost reads.old reads.new 4 }
{
    if header.length == 0 {
        return Redirect::Nowhere;
    }
    let place = header.redirect_place(hash % header.length);
    redirect_of(buf.word(header.order, place, reads))
}

/// A name, however it is kept, of which a hash can be taken from any seed.
pub trait HashedName {
    /// Its bytes.
    ghost name: { Self → List ℕ };

    /// Its hash from a seed, a number of 31 bits.
    fn hash(&self, seed: u32) -> u32
        ensures { result ≡ hash seed (name self.now) };
}

impl<'a> HashedName for Pieces<'a> {
    ghost use Rattle.jm_names.specs.Names.{join};
    ghost use Rattle.jm_names.specs.Pieces.{cut_of};

    ghost name = { λ pieces. join (cut_of pieces) };

    fn hash(&self, seed: u32) -> u32 {
        hash_pieces(seed, self)
    }
}

/// The table leads this name to this slot. It costs at most the four bytes of one redirect word;
/// the name's hash is taken once, or twice where the word is a seed.
pub fn is_led_to<R: Ledger, N: HashedName>(
    buf: &Buf,
    header: &Header,
    slot: u32,
    name: &N,
    reads: &mut Meter<R>,
) -> bool
    requires read { header_of buf.now ≡ Ok header.now }
    requires below { slot < header.now.length }
    requires metered { reads.old.bytes ≡ buf.now }
    ensures led { result ≡ is_slot slot (probe buf.now header.now (N.name name.now)) }
    ensures cost { CostsAtMost reads.old reads.new 4 }
{
    match redirect_at(buf, header, name.hash(DEFAULT_SEED), reads) {
        Redirect::Nowhere => false,
        Redirect::Slot(led) => led == slot,
        Redirect::Seed(seed) => name.hash(seed) % header.length == slot,
    }
}
