//! The names of a bucket, and the prefix that they share.
ghost use Rattle.std.specs.Prelude.{◌≡◌, ◌≤◌, ◌<◌, ℕ, All, length, map, take, slice_index_or, []};
ghost use Rattle.jm_names.specs.Hash.{hash, state_after};
ghost use Rattle.jm_redirect.specs.Prefixes.{BeginsWith};

use jm_names::{hash_of_state, shared_len, state_after};

/// The names of a bucket. What their hashes have in common, from one seed, is the state after the
/// prefix that they share, so that it is computed once.
#[derive(Clone, Copy)]
pub struct Bucket<'t, 'n> {
    pub names: &'t [&'n [u8]],
    prefix: &'n [u8],
    ghost shared: { All (λ name. BeginsWith prefix.now name.now) names.now },
}

/// The prefix that all of the names share; an empty one where there is no name.
fn shared_prefix<'n>(names: &[&'n [u8]]) -> &'n [u8]
    ensures { All (λ name. BeginsWith result.now name.now) names.now }
{
    let Some(first) = names.first() else {
        return &[];
    };
    let mut prefix: &'n [u8] = first;
    for name in names {
        prefix = &prefix[..shared_len(prefix, name)];
    }
    prefix
}

impl<'t, 'n> Bucket<'t, 'n> {
    /// The bucket of these names. It goes through them once.
    pub fn new(names: &'t [&'n [u8]]) -> Bucket<'t, 'n>
        ensures { result.names.now ≡ names.now }
    {
        Bucket {
            names,
            prefix: shared_prefix(names),
        }
    }

    /// The state after the prefix, from a seed.
    pub fn state_after_prefix(&self, seed: u32) -> u32
        ensures { result ≡ state_after seed self.now.prefix.now }
    {
        state_after(seed, self.prefix)
    }

    /// The hash of the name at a place from a seed, by the state after the prefix.
    pub fn hash_at(&self, at: usize, state: u32) -> u32
        requires { at < length self.now.names.now }
        ensures { (seed : ℕ) → state ≡ state_after seed self.now.prefix.now → result ≡
            hash seed (slice_index_or (map (λ name. name.now) self.now.names.now) at []) }
    {
        let (_, rest) = self.names[at].split_at(self.prefix.len());
        hash_of_state(state_after(state, rest))
    }
}
