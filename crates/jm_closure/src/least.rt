//! The lesser of two texts.
ghost use Rattle.std.specs.Prelude.{◌≡◌, option_map};
ghost use Rattle.jm_closure.specs.Least.{lesser};

/// The lesser of two texts, in byte order, or the one that there is.
pub fn lesser<'a>(a: Option<&'a [u8]>, b: Option<&'a [u8]>) -> Option<&'a [u8]>
    ensures { option_map (λ x. x.now) result
        ≡ lesser (option_map (λ x. x.now) a.entry) (option_map (λ x. x.now) b.entry) }
{
    match (a, b) {
        (None, b) => b,
        (a, None) => a,
        (Some(a), Some(b)) => { if a.cmp(b).is_le() { Some(a) } else { Some(b) } }
    }
}
