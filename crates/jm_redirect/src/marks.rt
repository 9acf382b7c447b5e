//! The flags of the slots that are taken, while seeds are tried.
ghost use Rattle.std.specs.Prelude.{◌≡◌, ◌<◌, ◌≤◌, ◌-◌, ◌++◌, ℕ, List, All, true, false, not};
ghost use Rattle.std.specs.Prelude.{find, length, map, slice_index_or, if◌then◌else◌};
ghost use Rattle.std.specs.List.{range_with_len};
ghost use Rattle.jm_form.specs.Greedy.{are_free};
ghost use Rattle.jm_redirect.specs.Marks.{Marks, Unmarks, slots_sent};

use crate::prefix::Bucket;

/// Takes away the marks at these slots.
fn unmark(slots: &[u32], taken: &mut [bool])
    requires { All (λ slot. slot < length taken.old) slots.now }
    ensures size { length taken.new ≡ length taken.old }
    ensures gone { Unmarks slots.now taken.old taken.new }
{
    for slot in slots {
        taken[*slot as usize] = false;
    }
}

/// Marks the slots to which the seed sends the names, if they differ and none is marked. If not,
/// the marks stay as they were. The slots that it marks are kept in `marked`, so that no name is
/// hashed again to take their marks away.
pub fn mark(bucket: &Bucket, seed: u32, slots: u32, taken: &mut [bool], marked: &mut [u32]) -> bool
    requires some { 0 < slots }
    requires size { length taken.old ≡ slots }
    requires room { length bucket.now.names.now ≤ length marked.old }
    ensures room { length marked.new ≡ length marked.old }
    ensures fits { (before : List ℕ) → Marks taken.old before → result ≡
        are_free before (slots_sent slots seed (map (λ name. name.now) bucket.now.names.now)) }
    ensures marks { (before : List ℕ) → Marks taken.old before → Marks taken.new
        (if result
        then slots_sent slots seed (map (λ name. name.now) bucket.now.names.now) ++ before
        else before) }
{
    let state = bucket.state_after_prefix(seed);
    for at in 0..bucket.names.len() {
        let slot = bucket.hash_at(at, state) % slots;
        if taken[slot as usize] {
            unmark(&marked[..at], taken);
            return false;
        }
        taken[slot as usize] = true;
        marked[at] = slot;
    }
    true
}

/// The least slot from a place on that isn't marked.
pub fn unmarked_from(from: usize, taken: &[bool]) -> Option<usize>
    ensures { result ≡ find (λ slot. not (slice_index_or taken.now slot false))
        (range_with_len from (length taken.now - from)) }
{
    for slot in from..taken.len() {
        if !taken[slot] {
            return Some(slot);
        }
    }
    None
}
