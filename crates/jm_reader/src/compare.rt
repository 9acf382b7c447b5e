ghost use Rattle.std.specs.Prelude.{◌≡◌, ◌≢◌, ℕ, ◌+◌, ◌≤◌, length, take, IfSome, IfNone};
ghost use Rattle.jm_bytes.specs.Metered.{Costs, CostsAtMost};
ghost use Rattle.jm_form.specs.Texts.{text_at, EndsWithin};

use jm_bytes::{Buf, Meter};
use std::sync::ledger::Ledger;

/// How many bytes of the front of `name` are the text at the place `at`, or None where the text is
/// no front of `name`. The text ends at a zero byte.
///
/// It costs the bytes that agree and one more, which ends the text or differs.
pub fn front_of<L: Ledger>(buf: &Buf, at: usize, name: &[u8], reads: &mut Meter<L>) -> Option<usize>
    requires metered { reads.old.bytes ≡ buf.now }
    requires ends { EndsWithin buf.now at }
    ensures front { IfSome result (λ n. (n ≤ length name.now)
        × (text_at buf.now at ≡ take n name.now)) }
    ensures other { IfNone result ((n : ℕ) → text_at buf.now at ≢ take n name.now) }
    ensures cost { IfSome result (λ n. Costs reads.old reads.new (n + 1)) }
    ensures cost_other { IfNone result (CostsAtMost reads.old reads.new (length name.now + 1)) }
{
    let _len = buf.len();
    for n in 0..name.len() {
        let byte = buf.byte(at + n, reads);
        if byte == 0 {
            return Some(n);
        }
        if byte != name[n] {
            return None;
        }
    }
    if buf.byte(at + name.len(), reads) == 0 {
        return Some(name.len());
    }
    None
}
