ghost use Rattle.std.specs.Prelude.{◌≡◌, ◌≢◌, ℕ, ◌+◌, ◌<◌, ◌≤◌, length, take, ◌++◌, option_to_list};
ghost use Rattle.std.specs.Prelude.{IfSome, IfNone, IsTrue, ◌↔◌, All};
ghost use Rattle.jm_bytes.specs.Metered.{CostsAtMost};
ghost use Rattle.jm_form.specs.Texts.{EndsWithin};
ghost use Rattle.jm_reader.specs.Marks.{behind_mark, marked_text, spelling};

use crate::compare::front_of;
use jm_bytes::{Buf, Meter};
use std::sync::ledger::Ledger;

/// A text of an image, and the marks that stand around it in a name where it isn't empty.
#[derive(Clone, Copy)]
pub struct MarkedText {
    /// The place of the text in the image, in bytes.
    pub place: usize,
    /// The byte in front of the text.
    pub before: Option<u8>,
    /// The byte behind the text.
    pub after: Option<u8>,
}

/// How many bytes a name's mark takes, and what stands behind it; nothing where the name doesn't
/// begin with the mark.
fn behind_mark(mark: Option<u8>, name: &[u8]) -> (usize, &[u8])
    ensures taken { result.0 ≡ (behind_mark mark name.now).0 }
    ensures rest { result.1.now ≡ (behind_mark mark name.now).1 }
{
    match (mark, name) {
        (None, _) => (0, name),
        (Some(mark), [first, rest @ ..]) if *first == mark => (1, rest),
        _ => (0, &[]),
    }
}

/// How many bytes a mark takes that stands at the place `at`, or None where it doesn't stand there.
fn mark_length(mark: Option<u8>, name: &[u8], at: usize) -> Option<usize>
    requires { at ≤ length name.now }
    ensures there { IfSome result (λ n. (at + n ≤ length name.now)
        × (take (at + n) name.now ≡ take at name.now ++ option_to_list mark)) }
    ensures none { IfNone result
        ((k : ℕ) → take at name.now ++ option_to_list mark ≢ take k name.now) }
{
    match mark {
        None => Some(0),
        Some(mark) if at < name.len() && name[at] == mark => Some(1),
        Some(_) => None,
    }
}

/// How many bytes of the front of `name` are the text with its marks, or None where they are no
/// front of `name`. It costs the bytes of the text that agree and one more.
fn marked_front<R: Ledger>(
    buf: &Buf,
    text: &MarkedText,
    name: &[u8],
    reads: &mut Meter<R>,
) -> Option<usize>
    requires metered { reads.old.bytes ≡ buf.now }
    requires ends { EndsWithin buf.now text.now.place }
    ensures front { IfSome result (λ n. (n ≤ length name.now)
        × (marked_text buf.now text.now ≡ take n name.now)) }
    ensures other { IfNone result ((n : ℕ) → marked_text buf.now text.now ≢ take n name.now) }
    ensures cost { IfSome result (λ n. CostsAtMost reads.old reads.new (n + 1)) }
    ensures cost_other { IfNone result (CostsAtMost reads.old reads.new (length name.now + 1)) }
{
    let (skipped, rest) = behind_mark(text.before, name);
    let n = front_of(buf, text.place, rest, reads)?;
    if n == 0 {
        return Some(0);
    }
    let last = mark_length(text.after, rest, n)?;
    Some(skipped + n + last)
}

/// Whether the texts with their marks, one behind the other, are the name. It costs at most the
/// name's bytes and one for each text.
pub fn spells<R: Ledger>(buf: &Buf, texts: &[MarkedText], name: &[u8], reads: &mut Meter<R>) -> bool
    requires metered { reads.old.bytes ≡ buf.now }
    requires ends { All (λ text. EndsWithin buf.now text.place) texts.now }
    ensures answer { IsTrue result ↔ (name.now ≡ spelling buf.now texts.now) }
    ensures reads { CostsAtMost reads.old reads.new (length name.now + length texts.now) }
{
    match texts {
        [] => name.is_empty(),
        [text, others @ ..] => match marked_front(buf, text, name, reads) {
            None => false,
            Some(n) => {
                let (_, rest) = name.split_at(n);
                spells(buf, others, rest, reads)
            }
        },
    }
}
